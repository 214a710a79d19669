// The collecting text of any program.

ghost use Rattle.std.specs.Prelude.{◌≡◌, IfOk, length, take};
ghost use Rattle.ada_tree.specs.PlainProgram.{plain_program};
ghost use Rattle.collect_model.specs.aborts.Collecting.{collecting_tree};

use crate::aborts::has_abort;
use crate::program::collect;
use ada_tree::{Memory, Program, Types};
use std::alloc::Global;
use syn_event::Numbers;

/// The collecting text of a program with these types and numbers, whether an abort statement stands in it or not. The only error is want of memory.
pub fn collecting(
    alloc: Global,
    p: &Program,
    types: &Types,
    numbers: &Numbers,
) -> Result<Program, Memory>
    ensures text { IfOk result (λ text. plain_program text ≡ collecting_tree (plain_program p.now) types.now numbers.now) }
    ensures names { IfOk result (λ text. take (length p.now.names) text.names ≡ p.now.names) }
{
    if has_abort(p) {
        return collect(alloc, p, types, numbers);
    }
    match collect_xform::collect(alloc, p, types, numbers) {
        Ok(text) => Ok(text),
        Err(_) => Err(Memory),
    }
}
