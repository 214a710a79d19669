//! What legal programs give to the law of collecting. The module has no functions of its own but the one that carries the laws.

ghost use Rattle.collect_runs.specs.starts.Laws.{LegalFormsAreCollected, LegalHasFlags, LegalHasNoAborts, LegalIsRecorder};

/// Carries what is known of the normal form of a legal program without an abort statement, with whatever inputs (`collected`): how it opens, that no
/// free task of it aborts, that each calls an entry of a task, which has the same owner in the collecting text, and raises nothing where it
/// synchronizes. No abort statement stands in it (`no_aborts`). DED_FLAGS is in the collecting text of each legal program an array of BOOLEAN with one
/// component for each task (`flags`), and the recorder of the text is as `IsRecorder` asks (`recorder`).
pub fn laws()
    ensures no_aborts { LegalHasNoAborts }
    ensures flags { LegalHasFlags }
    ensures recorder { LegalIsRecorder }
    ensures collected { LegalFormsAreCollected }
{}
