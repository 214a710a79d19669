//! That the normal form of each legal program is well placed. The module has no functions of its own but the one that carries the laws.

ghost use Rattle.normal_laws.specs.legality.placed.Laws.{IsMet, LegalHasRoom, NormalIsPlaced};

/// Carries the laws of the places of a legal program's normal form. The program has room for it (`room`), so the normal form is well placed
/// (`placed`); so it is with two programs (`met`).
pub fn laws()
    ensures room { LegalHasRoom }
    ensures placed { NormalIsPlaced }
    ensures met { IsMet }
{}
