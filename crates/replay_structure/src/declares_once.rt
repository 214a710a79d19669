//! That the replay text of a normal form declares no name twice. The module has no functions of its own but the one that carries the laws.

ghost use Rattle.replay_structure.specs.declares_once.Laws.{IsMet, LegalLeavesNames, LegalReplayDeclaresOnce, ReplayDeclaresOnce, ReplayNamesSame};

/// Carries the laws of what a replay text declares and names. Its statements name what those of the normal form do (`names`), and rule
/// Duplicate refuses nothing in it, where it refuses nothing in the normal form and the names there leave room (`once`). Those of the normal
/// form of a legal program do (`leaves`), so the rule refuses nothing in the replay text of a legal program (`legal`); two programs are such
/// ones (`met`).
pub fn laws()
    ensures names { ReplayNamesSame }
    ensures once { ReplayDeclaresOnce }
    ensures leaves { LegalLeavesNames }
    ensures legal { LegalReplayDeclaresOnce }
    ensures met { IsMet }
{}
