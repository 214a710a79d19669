//! That the printed collecting text of a program is read as the same program. The crate has no functions of its own but the one that carries the laws.

ghost use Rattle.text_laws.specs.collect_read_back.Laws.{CollectIsPlaced, CollectIsReadBack, IsMet};

/// Carries the laws: the collecting text of a legal program that was read can be printed (`placed`), and as it is printed it is read as a program
/// that is the same (`read_back`). A text is as asked (`met`).
pub fn laws()
    ensures placed { CollectIsPlaced }
    ensures read_back { CollectIsReadBack }
    ensures met { IsMet }
{}
