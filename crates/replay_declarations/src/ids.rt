//! That the replay text over ids is the replay text. The crate has no functions of its own but the one that carries the laws.

ghost use Rattle.replay_declarations.specs.ids.Laws.{IdsAgree, TablesTell};

/// Carries the laws of the replay text by ids. Tables of a program and its text tell each unit what the definitions tell it (`told`), and the text by ids
/// is that of the definitions (`agree`).
pub fn laws()
    ensures told { TablesTell }
    ensures agree { IdsAgree }
{}
