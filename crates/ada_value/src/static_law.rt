//! What is true of the value of a static expression.

ghost use Rattle.ada_value.specs.StaticLaw.{StaticLaw};

/// Does nothing; its clause is the law that a static expression without variables is worth its static value, and raises where that does (4.9). It is said of each table whose bounds and constants are values of their kinds, and of each expression whose integer literals are numbers of INTEGER.
pub fn law_of_static_values()
    ensures { StaticLaw }
{}
