// How many places where calls are accepted units have.
#![tactic(auto, using(ada_tree::proofs::Rows::rows, tree_rewriting::proofs::walking::Rows::walked))]

ghost use Rattle.std.specs.Prelude.{◌≡◌, IfOk, OnOk, map, max};
ghost use Rattle.ada_tree.specs.PlainStmt.{plain_body};
ghost use Rattle.ada_tree.specs.PlainDecl.{plain_decl};
ghost use Rattle.ada_tree.specs.PlainProgram.{plain_program};
ghost use Rattle.normal_model.specs.NormalTree.{greatest};
ghost use Rattle.collect_model.specs.aborts.Places.{most_places, places_in, places_of};

use crate::rewriting::{Places, with_place};
use ada_stmt_copy::StmtCopy;
use ada_tree::{Alt, Body, Decl, DeclKind, Memory, Program, Stmt};
use std::alloc::Global;
use tree_rewriting::walking::{Rewriter, push_taken, rewrite_body};

/// The rewriter that counts places, and changes nothing.
#[derive(Drop)]
struct Counting;

impl Rewriter for Counting {
    type Track = Places;

    ghost use Rattle.std.specs.Prelude.{ℕ};
    ghost use Rattle.collect_abort.specs.Rules.{counting_rule};

    ghost State = { ℕ };

    ghost state = { λ t. t.count };

    ghost rule = { λ r. counting_rule };

    ghost fits = { λ r t. Unit {0} };

    fn enter_stmt(&self, track: &mut Places, stmt: &Stmt) -> Result<u32, Memory> {
        let number = track.count;
        track.count = with_place(number, stmt)?;
        Ok(number)
    }

    fn enter_alternative(
        &self,
        track: &mut Places,
        _alt: &Alt,
        _out: &mut Vec<Stmt>,
    ) -> Result<u32, Memory> {
        Ok(track.count)
    }

    fn leave_alternative(
        &self,
        _track: &Places,
        _number: u32,
        _alt: &mut Alt,
    ) -> Result<(), Memory> {
        Ok(())
    }

    fn replace_stmt(
        &self,
        _track: &Places,
        _number: u32,
        stmt: &mut Stmt,
        out: &mut Vec<Stmt>,
    ) -> Result<(), Memory> {
        push_taken(out, stmt)
    }
}

// How many places a body has, of which this is a copy.
fn count_in(alloc: Global, copy: &mut Body) -> Result<u32, Memory>
    ensures { IfOk result (λ count. count ≡ places_in (plain_body copy.old)) }
{
    let mut track = Places { count: 0 };
    rewrite_body(alloc, copy, &Counting, &mut track)?;
    Ok(track.count)
}

/// How many places a body has.
pub(crate) fn places_in(alloc: Global, body: &Body) -> Result<u32, Memory>
    ensures { IfOk result (λ count. count ≡ places_in (plain_body body.now)) }
{
    match body.copy(alloc) {
        Ok(copy) => {
            let mut copy = copy;
            count_in(alloc, &mut copy)
        }
        Err(e) => Err(e),
    }
}

// How many places a declaration has.
fn places_of(alloc: Global, decl: &Decl) -> Result<u32, Memory>
    ensures { IfOk result (λ count. count ≡ places_of (plain_decl decl.now)) }
{
    match &decl.kind {
        DeclKind::TaskBody { body, .. } => places_in(alloc, body),
        _ => Ok(0),
    }
}

// The greater of two numbers.
fn greater(one: u32, other: u32) -> u32
    ensures { result ≡ max one other }
{
    if one < other { other } else { one }
}

// The greatest number of places that one of the declarations has, or that is given.
fn most_among(alloc: Global, decls: &[Decl], most: u32) -> Result<u32, Memory>
    ensures { IfOk result (λ count. count ≡ max most (greatest (map places_of (map plain_decl decls.now)))) }
{
    let mut most = most;
    for decl in decls {
        most = greater(most, places_of(alloc, decl)?);
    }
    Ok(most)
}

/// The greatest number of places that a unit of a program has.
pub(crate) fn most_places(alloc: Global, q: &Program) -> Result<u32, Memory>
    ensures { IfOk result (λ count. count ≡ most_places (plain_program q.now)) }
{
    let own = places_in(alloc, &q.body)?;
    most_among(alloc, &q.decls, own)
}
