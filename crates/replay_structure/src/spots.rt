//! The numbers of the entries of a replay text, as the law of replaying asks for them. The module has no functions of its own but the one
//! that carries the laws.

ghost use Rattle.replay_structure.specs.spots.Laws.{AddedAreFound, DoublesStand, EntriesAreFound, IsMet, NormalIsInOrder, SpotsAreNumbered, SpotsAreThere, SpotsHaveOwners};

/// Carries the laws of the numbers of a replay text's entries. No two have one number (`numbered`), the owner of each is the one
/// that the law of replaying asks for (`owners`), and at its number stands each entry of the definition (`there`), where the
/// entries of the normal form are numbered task by task, as they are (`order`). A look-up by a task and a name finds the entry that it finds in the normal
/// form (`found`), and those of the controller and the idle task (`added`). A double stands for its
/// entry by its number (`doubles`). The normal form of a program with two entries is as these laws ask (`met`).
pub fn laws()
    ensures numbered { SpotsAreNumbered }
    ensures owners { SpotsHaveOwners }
    ensures there { SpotsAreThere }
    ensures order { NormalIsInOrder }
    ensures found { EntriesAreFound }
    ensures added { AddedAreFound }
    ensures doubles { DoublesStand }
    ensures met { IsMet }
{}
