//! That the replay text of each legal program is a translation of its normal form.

ghost use Rattle.replay_runs.specs.controls.translated.Laws.{LegalExitsLeaveAtStart, LegalNamesAreOld, LegalStartsAlike, LegalStartsWithPermit, LegalStepsAlike, LegalTypesAgree, PermitIsAdded};

/// Carries that the replay text of each legal program is a translation of its normal form. The tables of types of the two programs agree
/// (`types`). Only old names stand in what the statements of the normal form evaluate, assign, open or count (`names`). The names of a
/// permit are added ones (`added`). Each task starts in the text with the objects of the normal form, with added variables among them, and
/// the variables of a permit are there (`objects`). So each task of the text comes from its start, by local steps that write nothing, to
/// where it is alike with that of the normal form (`starts`). Each exit of a task of the normal form leaves a loop (`exits`). So between
/// synchronizing statements both take local steps alike (`steps`).
pub fn laws()
    ensures types { LegalTypesAgree }
    ensures names { LegalNamesAreOld }
    ensures added { PermitIsAdded }
    ensures objects { LegalStartsWithPermit }
    ensures starts { LegalStartsAlike }
    ensures exits { LegalExitsLeaveAtStart }
    ensures steps { LegalStepsAlike }
{}
