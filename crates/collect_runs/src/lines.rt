//! What a recorder writes is the text of a sequence file. The module has no functions of its own but the one that carries the laws.

ghost use Rattle.collect_runs.specs.lines.Laws.{RecordsAreFiles, RecordsAreTexts};

/// Carries what the bytes are that a recorder has written, where it has recorded some events of a program: the text of these events (`texts`), and so a
/// file that is read as these, where they may stand in a file (`files`).
pub fn laws()
    ensures texts { RecordsAreTexts }
    ensures files { RecordsAreFiles }
{}
