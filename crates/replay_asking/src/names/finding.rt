// The id of a text among names, which stay as they are.

ghost use Rattle.std.specs.Prelude.{◌≡◌, length, take, IfOk, OnOk};
ghost use Rattle.normal_model.specs.Names.{id_of};

use ada_tree::{Memory, NameId, Names};

/// The id of a text among names, and 0 where it is not there. `beside` begins with the names; behind them stand texts that were looked for.
pub fn find(names: &Names, beside: &mut Names, text: &str) -> Result<NameId, Memory>
    requires { take (length names.now) beside.old ≡ names.now }
    ensures id { IfOk result (λ id. id ≡ id_of names.now text.now) }
    ensures beside { OnOk result (take (length names.now) beside.new ≡ names.now) }
{
    let id = beside.intern(text)?;
    match names.text(id) {
        Some(_) => Ok(id),
        None => Ok(NameId(0)),
    }
}
