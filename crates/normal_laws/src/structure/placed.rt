//! That the normal form of a legal original is well placed. The module has no functions of its own but the one that carries the laws.

ghost use Rattle.normal_laws.specs.structure.placed.Laws.{IsMet, NormalIsPlaced, OriginalIsPlaced};

/// Carries the laws of places: the normal form of a program that is as asked is well placed (`placed`), and so is that of an original
/// with its own types and numbers, where it has room (`originals`). A program is as asked (`met`).
pub fn laws()
    ensures placed { NormalIsPlaced }
    ensures originals { OriginalIsPlaced }
    ensures met { IsMet }
{}
