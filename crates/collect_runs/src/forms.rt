//! What the tasks of a legal program's normal form give to those of its collecting text. The module has no functions of its own but the one that carries the laws.

ghost use Rattle.collect_runs.specs.forms.Laws.{LegalTextsTell, LegalTextsCollect};

/// Carries what the collecting text of each legal program has so that its tasks can tell (`tell`): its names, its table of types, NOTE, and one formal
/// more in each entry. And that the text of such a program without an abort statement collects as the law asks, whatever the inputs and the schedule
/// (`collect`).
pub fn laws()
    ensures tell { LegalTextsTell }
    ensures collect { LegalTextsCollect }
{}
