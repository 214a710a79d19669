//! That a replay text meets the rules 13 to 23, where its normal form does. The module has no functions of its own but the one that carries
//! the laws.

ghost use Rattle.replay_structure.specs.checked.Laws.{IsMet, ReplayMeetsChecks};

/// Carries the law of the rules 13 to 23: the replay text of a normal form that meets them as a rewritten text, and is as asked, meets
/// them so too (`meets`). A normal form is as asked (`met`).
pub fn laws()
    ensures meets { ReplayMeetsChecks }
    ensures met { IsMet }
{}
