// The text of a value.

ghost use Rattle.std.specs.Prelude.{◌≡◌, ◌++◌, Some, slice_get, OnOk, OnErr};
ghost use Rattle.ada_value.specs.Texts.{image, integer_image, integer_text, literal_text, name_text};

use crate::Value;
use ada_tree::{Kind, Memory, NameId, Names, Types};
use itoa::Buffer;

// Writes bytes behind the others.
pub(crate) fn add(output: &mut Vec<u8>, bytes: &[u8]) -> Result<(), Memory>
    ensures ok { OnOk result (output.new.items ≡ output.old.items ++ bytes.now) }
    ensures err { OnErr result (output.new.items ≡ output.old.items) }
{
    output.extend_from_slice(bytes)?;
    Ok(())
}

// Writes an integer in its shortest text.
#[tactic(auto, using(crate::proofs::put_text::TextLemmas::signed_is_text))]
pub(crate) fn add_integer(output: &mut Vec<u8>, number: i64) -> Result<(), Memory>
    ensures ok { OnOk result (output.new.items ≡ output.old.items ++ integer_text number) }
    ensures err { OnErr result (output.new.items ≡ output.old.items) }
{
    let mut buffer = Buffer::new();
    add(output, buffer.format(number).as_bytes())
}

// Writes 'IMAGE of an integer, which has a blank in front where it is not negative (3.5.5).
fn add_integer_image(output: &mut Vec<u8>, number: i64) -> Result<(), Memory>
    ensures ok { OnOk result (output.new.items ≡ output.old.items ++ integer_image number) }
    ensures err { OnErr result (output.new.items ≡ output.old.items) }
{
    if number < 0 {
        return add_integer(output, number);
    }
    let start = output.len();
    add(output, b" ")?;
    match add_integer(output, number) {
        Ok(()) => Ok(()),
        Err(_) => {
            output.truncate(start);
            Err(Memory)
        }
    }
}

// The text of a name; where there is none it is empty.
fn text_of(names: &Names, id: NameId) -> &[u8]
    ensures { result.now ≡ name_text names.now (Some id) }
{
    match names.text(id) {
        Some(text) => text.as_bytes(),
        None => &[],
    }
}

// The name of the literal of a kind at a position; a kind without literals has none.
fn literal_of<'a>(names: &'a Names, kind: &Kind, place: u32) -> &'a [u8]
    ensures { result.now ≡ literal_text names.now (Some kind.now) place }
{
    match kind {
        Kind::Enumeration { literals } => match literals.as_slice().get(place as usize) {
            Some(id) => text_of(names, *id),
            None => &[],
        },
        Kind::Integer => &[],
        Kind::Truth => &[],
        Kind::Array { .. } => &[],
    }
}

// The name of the literal at a position of the kind at a place.
fn literal_at<'a>(names: &'a Names, types: &Types, kind: u32, place: u32) -> &'a [u8]
    ensures { result.now ≡ literal_text names.now (slice_get types.now.kinds kind) place }
{
    match types.kinds.get(kind as usize) {
        Some(kind) => literal_of(names, kind, place),
        None => &[],
    }
}

// Writes 'IMAGE of a value (3.5.5).
pub(crate) fn add_image(
    names: &Names,
    types: &Types,
    value: Value,
    output: &mut Vec<u8>,
) -> Result<(), Memory>
    ensures ok { OnOk result (output.new.items ≡ output.old.items ++ image names.now types.now value) }
    ensures err { OnErr result (output.new.items ≡ output.old.items) }
{
    match value {
        Value::Number(number) => add_integer_image(output, number as i64),
        Value::Truth(true) => add(output, b"TRUE"),
        Value::Truth(false) => add(output, b"FALSE"),
        Value::Place { kind, pos: place } => add(output, literal_at(names, types, kind, place)),
    }
}
