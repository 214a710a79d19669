//! The names of a program.

use ada_tree::{Memory, NameId, Names};

/// The text of a name.
pub fn put_name(names: &Names, name: NameId, out: &mut String) -> Result<(), Memory> {
    out.push_str(names.text(name).unwrap_or("?"))?;
    Ok(())
}
