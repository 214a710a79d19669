// The whole program.

ghost use Rattle.std.specs.Prelude.{◌≡◌, ◌≤◌, ◌++◌, map, IfOk, OnOk};
ghost use Rattle.ada_tree.specs.PlainStmt.{plain_body};
ghost use Rattle.ada_tree.specs.PlainDecl.{plain_decl};
ghost use Rattle.ada_tree.specs.PlainProgram.{plain_program};
ghost use Rattle.load_gen.specs.LoadTree.{load_body, load_decls, load_tree, most_producers};
ghost use Rattle.load_gen.specs.Promised.{IsLoad};

use crate::buffer::{buffer_body, buffer_task};
use crate::names::load_names;
use crate::producers::{put_bodies, put_tasks};
use crate::words::{LOAD, NOWHERE, word};
use ada_stmt_copy::building::body_of;
use ada_tree::{Body, Decl, Memory, Program};
use ada_tree_copy::building::program_of;
use std::alloc::Global;
use tree_rewriting::making::{keep_decls, null_stmt, one_stmt, push_decl};

// All declarations go behind others.
fn put_decls(alloc: Global, n: u32, out: &mut Vec<Decl>) -> Result<(), Memory>
    requires { n ≤ most_producers }
    ensures { OnOk result (map plain_decl out.new.items ≡ map plain_decl out.old.items ++ load_decls n) }
{
    push_decl(out, buffer_task(alloc))?;
    put_tasks(alloc, n, out)?;
    push_decl(out, buffer_body(alloc))?;
    put_bodies(alloc, n, out)
}

// `begin null; end LOAD;`
fn load_body(alloc: Global) -> Result<Body, Memory>
    ensures { IfOk result (λ made. plain_body made ≡ load_body) }
{
    body_of(one_stmt(alloc, Ok(null_stmt(NOWHERE))), Ok(Vec::new(alloc)))
}

// The tree of the program with n producers.
fn tree(alloc: Global, n: u32) -> Result<Program, Memory>
    requires { n ≤ most_producers }
    ensures { IfOk result (λ made. plain_program made ≡ load_tree n) }
{
    let mut decls = Vec::new(alloc);
    let done = put_decls(alloc, n, &mut decls);
    program_of(
        load_names(alloc, n),
        false,
        word(LOAD),
        keep_decls(decls, done),
        load_body(alloc),
    )
}

/// The program LOAD with n producers, at most 100. It takes time linear in n. The only error is out of memory.
#[tactic(auto, using(crate::proofs::Legal::all_promised))]
pub fn program(alloc: Global, n: u32) -> Result<Program, Memory>
    requires { n ≤ most_producers }
    ensures { IfOk result (λ made. IsLoad n (plain_program made)) }
{
    tree(alloc, n)
}
