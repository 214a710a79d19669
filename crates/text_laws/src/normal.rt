//! That each text of a legal program has a normal form that shows the same. The crate has no functions of its own but the one that
//! carries the laws.

ghost use Rattle.text_laws.specs.normal.Laws.{IsMet, TextHasFewParts, TextIsCalm, TextIsLegal, TextIsNormal, TextNormalHasNames, TextShowsSame};

/// Carries the laws of each text that is no longer than `print` and `run` read, and that is the text of a legal original: its program is
/// as the law of legal programs asks (`legal`), what is made from it is a normal form of it (`normal`), and the two show the same events
/// and outputs, whatever the inputs and the schedule (`same`). Whatever the normal form does from its start, no free task of it stands where
/// the evaluation of a call, an accept, a wait or an abort raises (`calm`). The program and its normal form have fewer names, tasks, entries and
/// variables than there are numbers of 32 bits (`few`), so the normal form has the names of every program (`names`). A text with a task and a call
/// is such a one (`met`).
pub fn laws()
    ensures legal { TextIsLegal }
    ensures normal { TextIsNormal }
    ensures same { TextShowsSame }
    ensures calm { TextIsCalm }
    ensures few { TextHasFewParts }
    ensures names { TextNormalHasNames }
    ensures met { IsMet }
{}
