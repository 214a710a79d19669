// The names in the body of the controller, as ids.

use ada_tree::NameId;

/// The ids of the names in the body of the controller: of the formals of GO, of the entries, of the five tables, and of the loop parameter.
#[derive(Clone, Copy)]
pub struct ControlNames {
    pub kind: NameId,
    pub argument: NameId,
    pub index: NameId,
    pub go: NameId,
    pub done: NameId,
    pub hold: NameId,
    pub join: NameId,
    pub operations: NameId,
    pub tasks: NameId,
    pub kinds: NameId,
    pub arguments: NameId,
    pub indices: NameId,
    pub counter: NameId,
}
