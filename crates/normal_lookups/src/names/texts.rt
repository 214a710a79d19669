// The texts of the names that are added.

ghost use Rattle.std.specs.Prelude.{◌≡◌, IfOk, string_bytes};
ghost use Rattle.normal_model.specs.Names.{name_of_member, variable_text};

use ada_tree::Memory;
use itoa::Buffer;
use std::alloc::Global;

// The text of the member of an array at an index.
pub(crate) fn member_text(alloc: Global, array: &str, index: i32) -> Result<String, Memory>
    ensures { IfOk result (λ text. string_bytes text ≡ name_of_member array.now index) }
{
    let mut buffer = Buffer::new();
    let mut text = String::from_str(alloc, array)?;
    text.push_str("_DED_")?;
    if index < 0 {
        text.push_str("M")?;
    }
    text.push_str(buffer.format(index.unsigned_abs()))?;
    Ok(text)
}

// The text of the variable of a number from 0.
pub(crate) fn variable_text(alloc: Global, number: u32) -> Result<String, Memory>
    ensures { IfOk result (λ text. string_bytes text ≡ variable_text number) }
{
    let mut buffer = Buffer::new();
    let mut text = String::from_str(alloc, "DED_V")?;
    text.push_str(buffer.format(number as u64 + 1))?;
    Ok(text)
}
