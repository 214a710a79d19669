//! Whether a normal form is read back, legal and numbered as it has to be.

use ada_check::{CheckError, check};
use ada_parser::ReadError;
use ada_tree::{Memory, Program};
use ada_tree_same::TreeSame;
use case_form::programs::program_of;
use normal_form::normal_numbers;
use std::alloc::Global;
use syn_event::{Mode, Numbers};

/// `kept` of a normal form whose printed text is read as the same program, which meets the rules for any text, and which has there the
/// numbers that those of its program give; else the first of these that fails.
pub(crate) fn kept(
    alloc: Global,
    normal: &Program,
    numbers: &Numbers,
    text: &[u8],
) -> Result<&'static str, Memory> {
    match program_of(alloc, text) {
        Ok(again) => {
            if normal.same(&again) && again.same(normal) {
                checked(alloc, normal, numbers)
            } else {
                Ok("another")
            }
        }
        Err(ReadError::Memory) => Err(Memory),
        Err(_) => Ok("not read"),
    }
}

// What is said of a normal form that is read back.
fn checked(alloc: Global, normal: &Program, numbers: &Numbers) -> Result<&'static str, Memory> {
    match check(alloc, normal, Mode::Any) {
        Ok(found) => numbered(alloc, normal, numbers, &found.numbers),
        Err(CheckError::Memory) => Err(Memory),
        Err(_) => Ok("illegal"),
    }
}

// What is said of a normal form that is legal, with these numbers.
fn numbered(
    alloc: Global,
    normal: &Program,
    numbers: &Numbers,
    found: &Numbers,
) -> Result<&'static str, Memory> {
    let given = normal_numbers(alloc, normal, numbers)?;
    if given.main == found.main && given.tasks == found.tasks && given.entries == found.entries {
        Ok("kept")
    } else {
        Ok("other numbers")
    }
}
