//! What is true of every text that is read.

ghost use Rattle.ada_parser.specs.Laws.{PlacesWell, HasOneText};
ghost use Rattle.ada_parser.specs.Exactly.{ReadsExactly};

/// Carries three laws of reading. A program that is read is well placed: its printed text has each part where the grammar
/// has it. A text has one list of items and one list of names, so that programs that it is read as share them. And the
/// reading function reads exactly: a text that has tokens is that of the one program which it finds, or it is refused at
/// the one place that it finds, as in no grammar or as too deep, and never two of these.
pub fn reading_laws()
    ensures placed { PlacesWell }
    ensures one_text { HasOneText }
    ensures exactly { ReadsExactly }
{}
