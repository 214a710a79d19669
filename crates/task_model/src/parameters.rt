// Formal parameters.

use ada_tree::{NameId, ParMode};
use ada_value::Limits;

/// A formal parameter: its name, its mode and its subtype (6.1, 9.5).
#[derive(Clone, Copy)]
pub struct FormalParameter {
    pub name: NameId,
    pub mode: ParMode,
    pub limits: Limits,
}
