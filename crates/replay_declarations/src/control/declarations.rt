// The declarations of the controller and the idle task.

ghost use Rattle.std.specs.Prelude.{◌≡◌, ◌∷◌, [], Some, None, IfOk, map};
ghost use Rattle.ada_tree.specs.PlainExpr.{plain_drange};
ghost use Rattle.ada_tree.specs.PlainStmt.{plain_formal};
ghost use Rattle.ada_tree.specs.PlainDecl.{plain_decl, plain_entry};
ghost use Rattle.ada_stmt_copy.specs.expressions.Parts.{OkWith};
ghost use Rattle.normal_model.specs.Ranges.{word_at};
ghost use Rattle.replay_model.specs.Controlling.{all_tasks};
ghost use Rattle.replay_declarations.specs.control.Controlled.{entry_by, permit_formals, task_by, later_entries, control_entries, control_declared, idle_declared};

use ada_tree::{Bounds, Decl, Drange, EntryDecl, Formal, Memory, NameId, ParMode, Span, Word};
use ada_tree_copy::building::{entry_of, task_of, unit_of};
use replay_asking::making::{entries_before, one_entry, there_drange};
use replay_asking::names::AddedNames;
use std::alloc::Global;
use tree_rewriting::making::{integer_expr, one_formal};

// A name at a place.
pub(crate) fn word(name: NameId, span: Span) -> Word
    ensures { result ≡ word_at span name }
{
    Word { name, span }
}

// The range of all tasks up to the last.
fn all_tasks(last: u32, s: Span) -> Result<Drange, Memory>
    ensures { IfOk result (λ made. Some (plain_drange made) ≡ all_tasks s last) }
{
    Ok(Drange::Given(Bounds {
        first: integer_expr(0, s),
        last: integer_expr(last, s),
    }))
}

/// The words of the variables of a permit, or of its formals.
pub fn permit_words(alloc: Global, n: &AddedNames, s: Span) -> Result<Vec<Word>, Memory>
    ensures { IfOk result (λ made. made.items ≡ word_at s n.now.kind ∷ word_at s n.now.argument ∷ word_at s n.now.index ∷ []) }
{
    let mut words = Vec::new(alloc);
    words.push(word(n.kind, s))?;
    words.push(word(n.argument, s))?;
    words.push(word(n.index, s))?;
    Ok(words)
}

/// The formals of an entry that hands out a permit.
pub(crate) fn permit_formals(alloc: Global, n: &AddedNames, s: Span) -> Result<Vec<Formal>, Memory>
    ensures { IfOk result (λ made. map plain_formal made.items ≡ permit_formals n.now s) }
{
    let formal = match permit_words(alloc, n, s) {
        Ok(names) => Ok(Formal {
            names,
            mode: ParMode::Give,
            mark: word(NameId::INTEGER, s),
        }),
        Err(e) => Err(e),
    };
    one_formal(alloc, formal)
}

/// A plain entry without formals.
pub fn plain_entry(alloc: Global, name: NameId, s: Span) -> Result<EntryDecl, Memory>
    ensures { IfOk result (λ made. plain_entry made ≡ entry_by s name None []) }
{
    entry_of(word(name, s), Ok(None), Ok(Vec::new(alloc)), s)
}

// A family for all tasks up to the last, with these formals.
fn family(
    name: NameId,
    last: u32,
    formals: Result<Vec<Formal>, Memory>,
    s: Span,
) -> Result<EntryDecl, Memory>
    ensures { IfOk result (λ made. OkWith formals (λ f. plain_entry made ≡ entry_by s name (all_tasks s last) (map plain_formal f.items))) }
{
    entry_of(word(name, s), there_drange(all_tasks(last, s)), formals, s)
}

// A task with these entries.
fn task_by(
    alloc: Global,
    name: NameId,
    entries: Result<Vec<EntryDecl>, Memory>,
    s: Span,
) -> Result<Decl, Memory>
    ensures { IfOk result (λ made. OkWith entries (λ e. plain_decl made ≡ task_by s name (map plain_entry e.items))) }
{
    task_of(
        unit_of(word(name, s), false, entries, Ok(Vec::new(alloc))),
        s,
    )
}

// The entries of the controller behind its first.
fn later_entries(
    alloc: Global,
    n: &AddedNames,
    last: u32,
    s: Span,
) -> Result<Vec<EntryDecl>, Memory>
    ensures { IfOk result (λ made. map plain_entry made.items ≡ later_entries n.now s last) }
{
    let done = family(n.done, last, Ok(Vec::new(alloc)), s);
    let hold = one_entry(alloc, plain_entry(alloc, n.hold, s));
    entries_before(alloc, done, hold)
}

// The entries of the controller.
fn control_entries(
    alloc: Global,
    n: &AddedNames,
    last: u32,
    s: Span,
) -> Result<Vec<EntryDecl>, Memory>
    ensures { IfOk result (λ made. map plain_entry made.items ≡ control_entries n.now s last) }
{
    let go = family(n.go, last, permit_formals(alloc, n, s), s);
    entries_before(alloc, go, later_entries(alloc, n, last, s))
}

/// The declaration of the controller, where `last` is the number of the last task.
pub fn control_declared(alloc: Global, n: &AddedNames, last: u32, s: Span) -> Result<Decl, Memory>
    ensures { IfOk result (λ made. plain_decl made ≡ control_declared n.now s last) }
{
    task_by(alloc, n.control, control_entries(alloc, n, last, s), s)
}

/// The declaration of the idle task.
pub fn idle_declared(alloc: Global, n: &AddedNames, s: Span) -> Result<Decl, Memory>
    ensures { IfOk result (λ made. plain_decl made ≡ idle_declared n.now s) }
{
    let rest = one_entry(alloc, plain_entry(alloc, n.rest, s));
    let entries = entries_before(alloc, plain_entry(alloc, n.stop, s), rest);
    task_by(alloc, n.idle, entries, s)
}
