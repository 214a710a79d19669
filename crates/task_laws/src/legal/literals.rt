//! What the literals of the enumerations of a legal program stand for. The module has no functions of its own but the one that carries the laws.

ghost use Rattle.task_laws.specs.legal.literals.Laws.{IndicesAreLiterals, IsMet, LiteralsHaveValues};

/// Carries the laws of literals: in a program that meets the rules on types, is well placed and has small enumerations, each literal of each
/// enumeration has its own position as its value and is worth itself (`values`), and each index in the range of an array of tasks over an
/// enumeration is the position of a literal (`indices`). A program with such an array is one of these (`met`).
pub fn laws()
    ensures values { LiteralsHaveValues }
    ensures indices { IndicesAreLiterals }
    ensures met { IsMet }
{}
