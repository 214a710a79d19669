//! How large a program that is read may be. The crate has no functions of its own but the one that carries the laws.

ghost use Rattle.text_laws.specs.sizes.Laws.{ReadHasFewNames, ReadHasNames, ReadWeighsLittle, ReadIsLight};

/// Carries the laws of the size of each program that is read: it has at most as many names as the text has bytes, besides the predefined
/// ones (`few`), its names begin with the predefined ones, and no text of a name has two ids (`names`), none of its bodies weighs more
/// than the text has bytes (`weights`), and so its bodies are light (`light`).
pub fn laws()
    ensures few { ReadHasFewNames }
    ensures names { ReadHasNames }
    ensures weights { ReadWeighsLittle }
    ensures light { ReadIsLight }
{}
