//! The levels of the grammar of expressions.

/// A level of the grammar of expressions, the loosest first (4.4).
#[derive(Clone, Copy, Debug, PartialEq, Eq)]
pub enum Level {
    /// Relations joined by logical operators or short-circuit forms.
    Logical,
    /// One simple expression, or two that are compared.
    Relation,
    /// Terms that are added and subtracted, with a sign or without.
    Simple,
    /// Factors that are multiplied and divided.
    Term,
    /// A primary, with `abs` or `not` or without.
    Factor,
    /// A literal, a name, a component, an attribute or an expression in parentheses.
    Primary,
}
