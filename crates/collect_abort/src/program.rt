// The collecting text of a program with abort statements.

ghost use Rattle.std.specs.Prelude.{◌≡◌, IfOk, length, take};
ghost use Rattle.ada_tree.specs.PlainProgram.{plain_program};
ghost use Rattle.normal_model.specs.NormalTree.{main_unit};
ghost use Rattle.collect_model.specs.aborts.AbortTeller.{told_in};
ghost use Rattle.collect_model.specs.aborts.AbortTree.{abort_of, abort_tree};

use crate::text::abort_text;
use ada_tree::{Memory, Program, Types};
use normal_form::{normal, normal_numbers};
use normal_lookups::Lookups;
use std::alloc::Global;
use syn_event::Numbers;
use task_links::Links;

// The collecting text of the normal form `q`, whose numbers are `renumbered`.
fn collect_normal(
    alloc: Global,
    q: &Program,
    types: &Types,
    renumbered: &Numbers,
) -> Result<Program, Memory>
    ensures { IfOk result (λ text. plain_program text ≡ abort_of (told_in (main_unit (record { program = plain_program q.now; types = types.now; numbers = renumbered.now }))) (plain_program q.now)) }
{
    let links = Links::new(alloc, q, types, renumbered)?;
    match Lookups::new(alloc, &links) {
        Ok(lookups) => abort_text(alloc, &lookups),
        Err(e) => Err(e),
    }
}

/// The collecting text of a program with these types and numbers, in which tasks tell the recorder of aborts, and it makes them. The only error is want of memory.
pub fn collect(
    alloc: Global,
    p: &Program,
    types: &Types,
    numbers: &Numbers,
) -> Result<Program, Memory>
    ensures text { IfOk result (λ text. plain_program text ≡ abort_tree (plain_program p.now) types.now numbers.now) }
    ensures names { IfOk result (λ text. take (length p.now.names) text.names ≡ p.now.names) }
{
    let q = normal(alloc, p, types, numbers)?;
    let renumbered = normal_numbers(alloc, &q, numbers)?;
    collect_normal(alloc, &q, types, &renumbered)
}
