// The ids of the names that are added.

ghost use Rattle.std.specs.Prelude.{◌≡◌, length, take, IfOk, OnOk};

use crate::names::find;
use ada_tree::{Memory, NameId, Names};

/// The ids of the names that a replay text adds: the variables of a permit; the controller and its entries; the idle task and its entries; and the entries that each task gets beside the doubles.
#[derive(Clone, Copy)]
pub struct AddedNames {
    pub kind: NameId,
    pub argument: NameId,
    pub index: NameId,
    pub control: NameId,
    pub go: NameId,
    pub done: NameId,
    pub hold: NameId,
    pub idle: NameId,
    pub stop: NameId,
    pub rest: NameId,
    pub never: NameId,
    pub join: NameId,
}

ghost use Rattle.replay_asking.specs.names.Added.{added_in};

/// The ids that the added names have among names. `beside` is as for `find`.
pub fn find_added(names: &Names, beside: &mut Names) -> Result<AddedNames, Memory>
    requires { take (length names.now) beside.old ≡ names.now }
    ensures ids { IfOk result (λ ids. ids ≡ added_in names.now) }
    ensures beside { OnOk result (take (length names.now) beside.new ≡ names.now) }
{
    let kind = find(names, beside, "DED_K")?;
    let argument = find(names, beside, "DED_A")?;
    let index = find(names, beside, "DED_I")?;
    let control = find(names, beside, "DED_CONTROL")?;
    let go = find(names, beside, "GO")?;
    let done = find(names, beside, "DONE")?;
    let hold = find(names, beside, "HOLD")?;
    let idle = find(names, beside, "DED_IDLE")?;
    let stop = find(names, beside, "STOP")?;
    let rest = find(names, beside, "NEVER")?;
    let never = find(names, beside, "DED_NEVER")?;
    let join = find(names, beside, "DED_JOIN")?;
    Ok(AddedNames {
        kind,
        argument,
        index,
        control,
        go,
        done,
        hold,
        idle,
        stop,
        rest,
        never,
        join,
    })
}
