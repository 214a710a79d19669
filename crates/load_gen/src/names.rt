// The names of the program.

ghost use Rattle.std.specs.Prelude.{◌≡◌, ◌≤◌, IfOk, OnOk, string_bytes};
ghost use Rattle.load_gen.specs.LoadTree.{load_names, most_producers, producer_text};

use ada_tree::{Memory, Names};
use itoa::Buffer;
use std::alloc::Global;

// The text of the name of the producer of a number.
fn producer_text(alloc: Global, k: u32) -> Result<String, Memory>
    ensures { IfOk result (λ text. string_bytes text ≡ producer_text k) }
{
    let mut buffer = Buffer::new();
    let mut text = String::from_str(alloc, "P")?;
    text.push_str(buffer.format(k))?;
    Ok(text)
}

// The names that every such program has.
fn names_of_all(alloc: Global) -> Result<Names, Memory>
    ensures { IfOk result (λ names. names ≡ load_names 0) }
{
    let mut names = Names::new(alloc)?;
    names.intern("LOAD")?;
    names.intern("B")?;
    names.intern("X")?;
    names.intern("S")?;
    names.intern("J")?;
    Ok(names)
}

/// The names of the program with n producers.
#[tactic(auto, using(crate::proofs::Texts::next_names))]
pub(crate) fn load_names(alloc: Global, n: u32) -> Result<Names, Memory>
    requires { n ≤ most_producers }
    ensures { IfOk result (λ names. names ≡ load_names n) }
{
    let mut names = names_of_all(alloc)?;
    for k in 0..n {
        let text = producer_text(alloc, k + 1)?;
        names.intern(text.as_str())?;
    }
    Ok(names)
}
