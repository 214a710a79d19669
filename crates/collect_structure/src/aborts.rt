//! What a collecting text of a program with abort statements has in common with the normal form that it is made from, part by part, and what is so of
//! the text of each legal program.

pub mod asked;
pub mod checked;
pub mod declares_once;
pub mod placed;
pub mod texts;

ghost use Rattle.collect_structure.specs.aborts.Laws.{AbortHasNumbers, AbortIsAsPromised, AbortIsLegal, AbortIsPlaced, AbortMeetsChecks, AbortMeetsTypes, IsMet};

/// Carries the laws of the collecting text of each legal program in which abort statements can stand, whether they do or not. It is well placed
/// (`placed`), so that it can be printed, and has the numbers of the definition (`numbered`). It meets the first twelve rules (`types`), and the
/// rules 13 to 23 as a text of any kind (`checks`). So it is legal (`legal`), and all that is promised of these texts (`promised`). Two programs
/// are legal ones (`met`).
pub fn laws()
    ensures placed { AbortIsPlaced }
    ensures numbered { AbortHasNumbers }
    ensures types { AbortMeetsTypes }
    ensures checks { AbortMeetsChecks }
    ensures legal { AbortIsLegal }
    ensures promised { AbortIsAsPromised }
    ensures met { IsMet }
{}
