//! With which objects the units of a replay text start, and which formals its entries have. The module has no functions of its own but the
//! one that carries the laws.

ghost use Rattle.replay_runs.specs.starts.Formals.{FormalsStay};
ghost use Rattle.replay_runs.specs.starts.Legal.{LegalFindsPermits, LegalHasBodies, LegalHasFormals, LegalIsAsked, LegalRuns, LegalStarts};
ghost use Rattle.replay_runs.specs.starts.Laws.{IntegerIsThere, LookUpsStay, PermitIsFound, TextsStart, UnitsStart};

/// Carries the laws of the start of a replay text. INTEGER means INTEGER in each program (`integer`). So a unit starts with the objects that
/// it has without a permit and with the permit's variables, which are 0 (`units`). Each other name means what it means without them
/// (`names`), and the names of the permit mean these variables (`permit`). By its own types and numbers each task of a replay text
/// starts so (`texts`), and its entries have the formals of the normal form, those of a permit, or none (`formals`). A legal program has a
/// body for each task (`legal_bodies`), so the tasks of its replay text run the units that they should (`legal_units`) and start so
/// (`legal_texts`); the names of the permit mean its variables then (`legal_permits`), and the entries have those formals (`legal_formals`):
/// it is as the laws of all programs ask (`met`).
pub fn laws()
    ensures integer { IntegerIsThere }
    ensures units { UnitsStart }
    ensures names { LookUpsStay }
    ensures permit { PermitIsFound }
    ensures texts { TextsStart }
    ensures formals { FormalsStay }
    ensures legal_bodies { LegalHasBodies }
    ensures legal_units { LegalRuns }
    ensures legal_texts { LegalStarts }
    ensures legal_permits { LegalFindsPermits }
    ensures legal_formals { LegalHasFormals }
    ensures met { LegalIsAsked }
{}
