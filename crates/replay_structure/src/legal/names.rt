//! That the replay texts of each legal program are legal. The module has no functions but those that carry the laws.

pub mod form_names;
pub mod kept_names;

ghost use Rattle.replay_structure.specs.legal.names.Laws.{IsMet, KnownReplayIsAsPromised, KnownReplayIsLegal, KnownReplayMeetsAtPlaces, LegalNormalIsForm};

/// Carries the law that the replay text of a legal program, and of events that a file can hold for it, is legal. The normal form is as its
/// replay text asks (`form`), so nothing is refused at the places of the text (`places`), it is legal as a text of any kind (`legal`), and it is
/// all that is promised of replay texts (`promised`); so it is with a program and a whole run of it (`met`).
pub fn laws()
    ensures form { LegalNormalIsForm }
    ensures places { KnownReplayMeetsAtPlaces }
    ensures legal { KnownReplayIsLegal }
    ensures promised { KnownReplayIsAsPromised }
    ensures met { IsMet }
{}
