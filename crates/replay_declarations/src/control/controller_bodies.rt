// The bodies of the controller and the idle task.

ghost use Rattle.std.specs.Prelude.{◌≡◌, [], None, IfOk, OnOk, map};
ghost use Rattle.ada_tree.specs.PlainStmt.{plain_alt, alts_of, alt_then, alternative, no_alt, no_stmt, accepting, absent, AAccept, ATerminate};
ghost use Rattle.ada_tree.specs.PlainDecl.{plain_decl};
ghost use Rattle.normal_model.specs.Ranges.{word_at};
ghost use Rattle.replay_model.specs.tables.ControlTexts.{ids_in, with_control_names};
ghost use Rattle.replay_declarations.specs.control.Controlled.{control_body, idle_body};

use crate::control::declarations::word;
use ada_stmt_copy::building::{
    accept_alternative_of, accepting_of, body_of, terminate_alternative_of, wait_of,
};
use ada_tree::{Alt, Decl, Memory, Names, Span};
use ada_tree_copy::building::task_body_of;
use control_script::Op;
use replay_asking::making::alts_before;
use replay_asking::names::AddedNames;
use std::alloc::Global;
use syn_event::Numbers;
use tree_rewriting::making::{one_alt, one_stmt};

/// The body of the controller, from the operations of a script, for a program with these numbers. The names in it are interned, and stand behind those
/// that were there. The only error is want of memory. It takes time linear in the operations and the tasks.
pub fn control_body(
    alloc: Global,
    n: &AddedNames,
    ops: &[Op],
    numbers: &Numbers,
    s: Span,
    names: &mut Names,
) -> Result<Decl, Memory>
    ensures body { IfOk result (λ made. plain_decl made ≡ control_body n.now (ids_in names.new) numbers.now.tasks s ops.now) }
    ensures names { OnOk result (names.new ≡ with_control_names names.old) }
{
    let made = table_control::control_body(alloc, ops, numbers, s, names)?;
    let (objects, body) = made.parts();
    task_body_of(word(n.control, s), Ok(objects), Ok(body), s)
}

// The alternatives of the idle task.
fn idle_alternatives(alloc: Global, n: &AddedNames, s: Span) -> Result<Vec<Alt>, Memory>
    ensures { IfOk result (λ made. alts_of (map plain_alt made.items) ≡ alt_then (alternative None (AAccept (accepting (record { entry = word_at s n.now.rest; index = None; formals = []; span = s }) absent) no_stmt) s) (alt_then (alternative None ATerminate s) no_alt)) }
{
    let accept = accepting_of(word(n.rest, s), Ok(None), Ok(Vec::new(alloc)), Ok(None), s);
    let first = accept_alternative_of(Ok(None), accept, Ok(Vec::new(alloc)), s);
    let last = one_alt(alloc, terminate_alternative_of(Ok(None), s));
    alts_before(alloc, first, last)
}

/// The body of the idle task.
pub fn idle_body(alloc: Global, n: &AddedNames, s: Span) -> Result<Decl, Memory>
    ensures { IfOk result (λ made. plain_decl made ≡ idle_body n.now s) }
{
    let wait = wait_of(idle_alternatives(alloc, n, s), Ok(None), s);
    let its = body_of(one_stmt(alloc, wait), Ok(Vec::new(alloc)));
    task_body_of(word(n.idle, s), Ok(Vec::new(alloc)), its, s)
}
