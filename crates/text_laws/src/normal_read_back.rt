//! That the printed normal form of each legal program that was read is read back as the same program. The crate has no functions of its own but the one that
//! carries the laws.

ghost use Rattle.text_laws.specs.normal_read_back.Laws.{IsMet, NormalIsReadBack, TextIsReadBack};

/// Carries the laws: the printed normal form of each legal program is read, as a program that is the same (`normal`); so it is where the program was read from
/// a text within the limit and meets the static rules (`text`), as a text with a task and a call is (`met`).
pub fn laws()
    ensures normal { NormalIsReadBack }
    ensures text { TextIsReadBack }
    ensures met { IsMet }
{}
