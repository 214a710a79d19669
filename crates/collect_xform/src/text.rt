// The collecting text of a normal form.

ghost use Rattle.std.specs.Prelude.{◌≡◌, IfOk, OnOk, map, true};
ghost use Rattle.ada_tree.specs.PlainStmt.{plain_body};
ghost use Rattle.ada_tree.specs.PlainDecl.{plain_decl};
ghost use Rattle.ada_tree.specs.PlainProgram.{plain_program};
ghost use Rattle.normal_model.specs.NormalTree.{main_unit};
ghost use Rattle.collect_model.specs.Teller.{teller_in};
ghost use Rattle.collect_model.specs.CollectStmts.{main_body};
ghost use Rattle.collect_model.specs.CollectTree.{collect_decls, collect_of};
ghost use Rattle.collect_statements.specs.Looked.{teller_of};

use crate::names::add_names;
use crate::tables::tables_of;
use crate::units::collect_decls;
use ada_tree::{Memory, Program};
use ada_tree_copy::TreeCopy;
use collect_statements::{Reporter, collect_main};
use normal_lookups::Lookups;
use std::alloc::Global;
use task_links::TaskNames;

// The declarations and the body become those of the collecting text of the normal form `q`, which has the context clauses.
fn rewrite(alloc: Global, x: Reporter, q: &Program, text: &mut Program) -> Result<(), Memory>
    ensures names { OnOk result (text.new.names ≡ text.old.names) }
    ensures text_io { OnOk result (text.new.text_io ≡ true) }
    ensures name { OnOk result (text.new.name ≡ text.old.name) }
    ensures decls { OnOk result (map plain_decl text.new.decls.items ≡ collect_decls (teller_of x.entry) (plain_program q.now) (map plain_decl text.old.decls.items)) }
    ensures body { OnOk result (plain_body text.new.body ≡ main_body (teller_of x.entry) (plain_body text.old.body)) }
{
    text.text_io = true;
    collect_decls(alloc, &x, q, &mut text.decls)?;
    collect_main(alloc, x, &mut text.body)
}

// A copy of the normal form becomes its collecting text.
fn put_text(alloc: Global, lookups: &Lookups, text: &mut Program) -> Result<(), Memory>
    requires { plain_program text.old ≡ lookups.now.program }
    ensures { OnOk result (plain_program text.new ≡ collect_of (teller_in (main_unit lookups.now)) lookups.now.program) }
{
    let q = lookups.links().program();
    add_names(&mut text.names)?;
    let tables = tables_of(alloc, lookups, &text.names)?;
    let tasks = TaskNames::new(alloc, lookups.links().numbers())?;
    let reporter = Reporter {
        tables: &tables,
        numbers: &tasks,
        task: 0,
    };
    rewrite(alloc, reporter, q, text)
}

/// The collecting text of a normal form, by what is looked up of it. The only error is want of memory. It takes time linear in the normal form.
pub(crate) fn collect_text(alloc: Global, lookups: &Lookups) -> Result<Program, Memory>
    ensures { IfOk result (λ text. plain_program text ≡ collect_of (teller_in (main_unit lookups.now)) lookups.now.program) }
{
    let mut text = lookups.links().program().copy(alloc)?;
    put_text(alloc, lookups, &mut text)?;
    Ok(text)
}
