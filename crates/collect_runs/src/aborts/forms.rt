//! What the tasks of a legal program's normal form give to those of its collecting text with abort statements. The module has no functions of its own but the one that carries the laws.

ghost use Rattle.collect_runs.specs.aborts.forms.Laws.{LegalTextsCollect, LegalTextsTell};

/// Carries what the collecting text of each legal program has so that its tasks can tell (`tell`): its names, its table of types, NOTE, and one formal
/// more in each entry. So what the law of collecting asks of the program's normal form is known, and the text collects, with whatever inputs (`collect`).
pub fn laws()
    ensures tell { LegalTextsTell }
    ensures collect { LegalTextsCollect }
{}
