//! Where a task of a replay text asks, and where it comes with its permit.

ghost use Rattle.replay_runs.specs.controls.images.Laws.{ImagesAsk, ImagesComeToAsk, LegalAskingOffers, LegalPermitsLead};

/// Carries where a task of a replay text asks. Where a task of the normal form stands at a synchronizing statement its image stands before
/// its call of GO (`ask`). Wherever the task has no local step, at the ends of its unit and of accept bodies too, its image comes there, by
/// local steps that write nothing (`come`). In the text of a legal program it offers the call with its number (`offers`). In the place of a
/// statement three numbers of INTEGER come back. Then it comes, by local steps that write nothing, into the branch that is taken with them.
/// Its variables hold the permit there, and the frames around go together with those of the task of the normal form (`lead`).
pub fn laws()
    ensures ask { ImagesAsk }
    ensures come { ImagesComeToAsk }
    ensures offers { LegalAskingOffers }
    ensures lead { LegalPermitsLead }
{}
