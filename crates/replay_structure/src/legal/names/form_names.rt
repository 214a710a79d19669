//! That the names and the declarations of the normal form of a legal program are as its replay text asks.

ghost use Rattle.replay_structure.specs.legal.names.form_names.Laws.{LegalHasFormNames};

/// Carries the law that the names of the normal form of each legal program are as its replay text asks, and so are its declarations, as far
/// as they hang on names (`named`).
pub fn laws()
    ensures named { LegalHasFormNames }
{}
