//! What a collecting text has in common with the normal form that it is made from, part by part, and what is so of the collecting text of each legal program.
#![tactic(auto)]

pub mod aborts;
pub mod asked;
pub mod checked;
pub mod declares_once;
pub mod placed;
pub mod texts;

ghost use Rattle.collect_structure.specs.Laws.{CollectHasNumbers, CollectIsAsPromised, CollectIsLegal, CollectIsPlaced, CollectMeetsChecks, CollectMeetsTypes, IsMet};

/// Carries the laws of the collecting text of each legal program, whether abort statements stand in the program or not. It is well placed
/// (`placed`), so that it can be printed, and has the numbers of the definition (`numbered`). It meets the first twelve rules (`types`), and the
/// rules 13 to 23 as a text of any kind (`checks`). So it is legal (`legal`), and all that is promised of collecting texts (`promised`). Two programs
/// are legal ones (`met`).
pub fn laws()
    ensures placed { CollectIsPlaced }
    ensures numbered { CollectHasNumbers }
    ensures types { CollectMeetsTypes }
    ensures checks { CollectMeetsChecks }
    ensures legal { CollectIsLegal }
    ensures promised { CollectIsAsPromised }
    ensures met { IsMet }
{}
