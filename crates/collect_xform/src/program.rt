// The collecting text of a program.

ghost use Rattle.std.specs.Prelude.{◌≡◌, None, IfOk, IfErr, length, take};
ghost use Rattle.ada_tree.specs.PlainProgram.{plain_program};
ghost use Rattle.normal_form.specs.declared.errors.XformError.TheVariants as errors;
ghost use Rattle.normal_model.specs.NormalTree.{main_unit};
ghost use Rattle.collect_model.specs.Teller.{teller_in};
ghost use Rattle.collect_model.specs.FirstAbort.{first_abort};
ghost use Rattle.collect_model.specs.CollectTree.{collect_of, collect_tree};

use crate::text::collect_text;
use ada_tree::{Memory, Program, Types};
use normal_form::{XformError, normal, normal_numbers};
use normal_lookups::Lookups;
use std::alloc::Global;
use syn_event::Numbers;
use task_links::Links;

// The collecting text of the normal form `q`, whose numbers are `renumbered`.
fn collect_normal(
    alloc: Global,
    q: &Program,
    types: &Types,
    renumbered: &Numbers,
) -> Result<Program, Memory>
    ensures { IfOk result (λ text. plain_program text ≡ collect_of (teller_in (main_unit (record { program = plain_program q.now; types = types.now; numbers = renumbered.now }))) (plain_program q.now)) }
{
    let links = Links::new(alloc, q, types, renumbered)?;
    match Lookups::new(alloc, &links) {
        Ok(lookups) => collect_text(alloc, &lookups),
        Err(e) => Err(e),
    }
}

// The collecting text of a program.
fn collect_all(
    alloc: Global,
    p: &Program,
    types: &Types,
    numbers: &Numbers,
) -> Result<Program, Memory>
    ensures { IfOk result (λ text. plain_program text ≡ collect_tree (plain_program p.now) types.now numbers.now) }
{
    let q = normal(alloc, p, types, numbers)?;
    let renumbered = normal_numbers(alloc, &q, numbers)?;
    collect_normal(alloc, &q, types, &renumbered)
}

/// The collecting text of a program with these types and numbers, in which no abort statement stands. The only error is want of memory.
pub fn collect(
    alloc: Global,
    p: &Program,
    types: &Types,
    numbers: &Numbers,
) -> Result<Program, XformError>
    requires none { first_abort (plain_program p.now) ≡ None }
    ensures text { IfOk result (λ text. plain_program text ≡ collect_tree (plain_program p.now) types.now numbers.now) }
    ensures names { IfOk result (λ text. take (length p.now.names) text.names ≡ p.now.names) }
    ensures cause { IfErr result (λ e. e ≡ errors.Memory) }
{
    match collect_all(alloc, p, types, numbers) {
        Ok(text) => Ok(text),
        Err(_) => Err(XformError::Memory),
    }
}
