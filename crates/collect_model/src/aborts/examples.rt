//! Small programs with abort statements and their collecting texts, as plain trees. Each text was written from the rules, and a script made the tree of it.

ghost use Rattle.collect_model.specs.aborts.examples.Laws.{AreMet};

/// Carries what is so of the examples (`met`): each text is that of its program, is legal with the numbers of its definition, and runs of three of
/// them come to their end with the lines of the events. The function does nothing.
pub fn laws()
    ensures met { AreMet }
{}
