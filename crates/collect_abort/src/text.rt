// The collecting text of a normal form.

ghost use Rattle.std.specs.Prelude.{◌≡◌, IfOk, OnOk, map, true};
ghost use Rattle.ada_tree.specs.PlainStmt.{plain_body};
ghost use Rattle.ada_tree.specs.PlainDecl.{plain_decl};
ghost use Rattle.ada_tree.specs.PlainProgram.{plain_program};
ghost use Rattle.normal_model.specs.Names.{id_of};
ghost use Rattle.normal_model.specs.NormalTree.{main_unit};
ghost use Rattle.collect_model.specs.aborts.AbortTeller.{told_in};
ghost use Rattle.collect_model.specs.aborts.AbortStmts.{main_body};
ghost use Rattle.collect_model.specs.aborts.AbortTree.{abort_decls, abort_of};
ghost use Rattle.collect_abort.specs.Looked.{told_of};

use crate::bodies::abort_main;
use crate::counting::most_places;
use crate::finder::Finder;
use crate::names::add_names;
use crate::teller::AbortReporter;
use crate::units::abort_decls;
use ada_tree::{Memory, Program};
use ada_tree_copy::TreeCopy;
use collect_statements::Reporter;
use collect_xform::tables_of;
use normal_lookups::Lookups;
use std::alloc::Global;
use task_links::TaskNames;

// The declarations and the body become those of the collecting text of the normal form `q`, which has the context clauses.
fn rewrite(alloc: Global, x: AbortReporter, q: &Program, text: &mut Program) -> Result<(), Memory>
    ensures names { OnOk result (text.new.names ≡ text.old.names) }
    ensures text_io { OnOk result (text.new.text_io ≡ true) }
    ensures name { OnOk result (text.new.name ≡ text.old.name) }
    ensures decls { OnOk result (map plain_decl text.new.decls.items ≡ abort_decls (told_of x.entry) (plain_program q.now) (map plain_decl text.old.decls.items)) }
    ensures body { OnOk result (plain_body text.new.body ≡ main_body (told_of x.entry) (plain_body text.old.body)) }
{
    text.text_io = true;
    abort_decls(alloc, &x, q, &mut text.decls)?;
    abort_main(alloc, x, &mut text.body)
}

// A copy of the normal form becomes its collecting text.
fn put_text(alloc: Global, lookups: &Lookups, text: &mut Program) -> Result<(), Memory>
    requires { plain_program text.old ≡ lookups.now.program }
    ensures { OnOk result (plain_program text.new ≡ abort_of (told_in (main_unit lookups.now)) lookups.now.program) }
{
    let q = lookups.links().program();
    let most = most_places(alloc, q)?;
    add_names(alloc, &mut text.names, most)?;
    let tables = tables_of(alloc, lookups, &text.names)?;
    let tasks = TaskNames::new(alloc, lookups.links().numbers())?;
    let names = Finder::new(alloc, &text.names)?;
    let reporter = Reporter {
        tables: &tables,
        numbers: &tasks,
        task: 0,
    };
    let told = AbortReporter {
        reporter,
        acceptors: names.find("DED_ACC"),
        each: names.find("DED_U"),
        names: &names,
    };
    rewrite(alloc, told, q, text)
}

/// The collecting text of a normal form, by what is looked up of it. The only error is want of memory. It takes time linear in the normal form.
pub(crate) fn abort_text(alloc: Global, lookups: &Lookups) -> Result<Program, Memory>
    ensures { IfOk result (λ text. plain_program text ≡ abort_of (told_in (main_unit lookups.now)) lookups.now.program) }
{
    let mut text = lookups.links().program().copy(alloc)?;
    put_text(alloc, lookups, &mut text)?;
    Ok(text)
}
