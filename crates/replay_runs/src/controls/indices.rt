//! What the index of an entry's member evaluates to, where it is a variable that the normal form adds.

ghost use Rattle.replay_runs.specs.controls.indices.Laws.{LegalIndicesEvaluate, LegalUnitsStart, LegalVariablesAreAdded, UnitsStay};

/// Carries what the variables of a normal form's tasks hold. Each task of a legal program's normal form starts with the objects of its unit, and its loops and
/// accepts declare plain names alone (`starts`). So it stays, whatever is done to the task (`stays`). The variables that the normal form adds are among these
/// objects, and no loop and no accept declares such a name (`added`). So such a variable evaluates to a value whose position is a number of INTEGER (`indices`).
pub fn laws()
    ensures starts { LegalUnitsStart }
    ensures stays { UnitsStay }
    ensures added { LegalVariablesAreAdded }
    ensures indices { LegalIndicesEvaluate }
{}
