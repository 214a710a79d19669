//! The theorem on translations of statements: a task of a program and its image in a program that is made from it go on alike.
//! The module has no functions of its own but the one that carries the theorem; its definitions and lemmas are there for each rewriter.

ghost use Rattle.task_laws.specs.translation.Laws.{StepsFollow, StepsFollowInLoops, RaisesFollow, ValuesFollow, MetByItself};

/// Carries the theorem on translations, where the pairs of rows, of floors and of places beyond are named by the types `I`, `F` and `O`. In a program that
/// is made from another, statement by statement, a task of the original and its image are alike: both stand in the same blocks, handlers and loops, down
/// to a floor on which the image may have frames of its own, and both see the same variables by the original's names. Where the task stands at a statement
/// that does not synchronize, or at the end of a loop's statements, its local step is one of its image, and both are alike behind it (`steps`). So it is without
/// anything asked of where exits lead, if each exit leaves a loop (`in_loops`). An exception raised in both leaves them alike (`raises`); an expression is worth the same to both (`values`). The demands are met by each program and itself (`met`).
pub fn laws<I, F, O>()
    ensures steps { StepsFollow I F O }
    ensures in_loops { StepsFollowInLoops I F O }
    ensures raises { RaisesFollow I F O }
    ensures values { ValuesFollow I F O }
    ensures met { MetByItself }
{}
