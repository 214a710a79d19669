//! What a legal program gives to the recorder of its collecting text with abort statements. The module has no functions of its own but the one that carries the laws.

ghost use Rattle.collect_runs.specs.aborts.starts.Laws.{LegalHasNames, LegalIsRecorder};

/// Carries what names mean in the text of each legal program (`named`): the recorder's variables and its loop parameter have names of their own, which are
/// not FALSE and TRUE; INTEGER and BOOLEAN mean the predefined types; INTEGER has the numbers of the tasks; NOTE is the recorder's
/// entry; and each other task beside main is found by its name. So the recorder is as asked (`recorder`): DED_FLAGS is an array of
/// BOOLEAN with one component for each task, since the text declares each name of main once.
pub fn laws()
    ensures named { LegalHasNames }
    ensures recorder { LegalIsRecorder }
{}
