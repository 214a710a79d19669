// The bodies of units.
#![tactic(auto, using(ada_tree::proofs::Rows::rows, tree_rewriting::proofs::walking::Rows::walked))]

ghost use Rattle.std.specs.Prelude.{◌≡◌, OnOk};
ghost use Rattle.ada_tree.specs.PlainStmt.{plain_body};
ghost use Rattle.collect_model.specs.aborts.AbortStmts.{main_body, task_body};
ghost use Rattle.collect_abort.specs.Looked.{told_of};

use crate::rewriting::{Aborting, Places};
use crate::teller::AbortReporter;
use ada_tree::{Body, Memory, Span};
use collect_statements::tell_at_end;
use std::alloc::Global;
use tree_rewriting::walking::rewrite_body;

/// The body of main becomes its body in a collecting text. After want of memory nothing is said of it.
pub(crate) fn abort_main(
    alloc: Global,
    reporter: AbortReporter,
    body: &mut Body,
) -> Result<(), Memory>
    ensures { OnOk result (plain_body body.new ≡ main_body (told_of reporter.entry) (plain_body body.old)) }
{
    let aborting = Aborting { alloc, reporter };
    let mut track = Places { count: 0 };
    rewrite_body(alloc, body, &aborting, &mut track)
}

/// The body of a task becomes its body in a collecting text. After want of memory nothing is said of it.
pub(crate) fn abort_task(
    alloc: Global,
    reporter: AbortReporter,
    body: &mut Body,
    s: Span,
) -> Result<(), Memory>
    ensures { OnOk result (plain_body body.new ≡ task_body (told_of reporter.entry) s (plain_body body.old)) }
{
    let aborting = Aborting { alloc, reporter };
    let mut track = Places { count: 0 };
    rewrite_body(alloc, body, &aborting, &mut track)?;
    tell_at_end(alloc, &aborting.reporter.reporter, body, s)
}
