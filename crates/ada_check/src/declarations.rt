// What the rules refuse first in the declarations of the main procedure, the bodies of tasks among them.
#![tactic(auto, using(ada_check_rules::proofs::rules::Meeting::meeting))]

ghost use Rattle.std.specs.Prelude.{◌≡◌, None, map, OnOk, IfOk};
ghost use Rattle.ada_tree.specs.PlainDecl.{plain_decl, decls_of};
ghost use Rattle.ada_tree.specs.PlainStmt.{plain_body};
ghost use Rattle.syn_event.specs.CheckSites.{after_decl, after_decls, decl_sites, decls_sites, body_names};
ghost use Rattle.ada_check_rules.specs.rules.RefusedFirst.{refused_first};
ghost use Rattle.scoped_names.specs.name_sets.Numbers.{numbers_in};
ghost use Rattle.ada_check.specs.inner.TaskBodies.{task_body_sites, body_part, with_body};

use crate::declaration_places::{declare, walk_own, walk_places};
use ada_check_places::statements::walk_body;
use ada_check_rules::rules::{Refusal, Standard, first};
use ada_check_rules::scopes::CheckScopes;
use ada_tree::{Body, Decl, DeclKind, Word};
use scoped_names::name_sets::NameSet;
use std::alloc::{AllocError, Global};

// The body of a task or task type.
fn walk_task_body(
    around: &mut CheckScopes,
    by: &Standard,
    name: Word,
    objects: &[Decl],
    body: &Body,
) -> Result<Option<Refusal>, AllocError>
    requires { around.old.own ≡ None }
    ensures kept { OnOk result (around.new ≡ around.old) }
    ensures told { IfOk result (λ r. r ≡ refused_first by.now (task_body_sites around.old name (decls_of (map plain_decl objects.now)) (plain_body body.now))) }
{
    let outer = around.enter_body(name)?;
    let own = walk_own(around, by, objects)?;
    let inner = walk_body(around, by, 1, body)?;
    around.leave_body(outer);
    Ok(first(own, inner))
}

// A declaration, where it is a body.
fn walk_if_body(
    around: &mut CheckScopes,
    by: &Standard,
    decl: &Decl,
) -> Result<Option<Refusal>, AllocError>
    requires { around.old.own ≡ None }
    ensures kept { OnOk result (around.new ≡ around.old) }
    ensures told { IfOk result (λ r. r ≡ refused_first by.now (body_part around.old (plain_decl decl.now))) }
{
    match &decl.kind {
        DeclKind::TaskBody {
            name,
            objects,
            body,
        } => {
            let refusal = walk_task_body(around, by, *name, objects, body)?;
            Ok(refusal)
        }
        DeclKind::Number { .. }
        | DeclKind::Object { .. }
        | DeclKind::Enumeration { .. }
        | DeclKind::Array { .. }
        | DeclKind::Subtype { .. }
        | DeclKind::Exception { .. }
        | DeclKind::IntIo { .. }
        | DeclKind::Pragma { .. }
        | DeclKind::Task(_) => Ok(None),
    }
}

// A declaration of main.
fn walk_decl(
    around: &mut CheckScopes,
    alloc: Global,
    by: &Standard,
    bodies: &NameSet,
    decl: &Decl,
) -> Result<Option<Refusal>, AllocError>
    requires { around.old.own ≡ None }
    ensures told { IfOk result (λ r. r ≡ refused_first by.now (decl_sites around.old (numbers_in bodies.now) (plain_decl decl.now))) }
    ensures after { OnOk result (around.new ≡ after_decl around.old (plain_decl decl.now)) }
{
    let places = walk_places(around, by, bodies, decl)?;
    declare(around, alloc, decl)?;
    let body = walk_if_body(around, by, decl)?;
    Ok(first(places, body))
}

// Puts the name of a declaration among others, where it is a body.
fn add_body(names: &mut NameSet, decl: &Decl) -> Result<(), AllocError>
    ensures { OnOk result (numbers_in names.new ≡ with_body (plain_decl decl.now) (numbers_in names.old)) }
{
    match &decl.kind {
        DeclKind::TaskBody { name, .. } => names.add(name.name),
        _ => Ok(()),
    }
}

// The names of the tasks and task types with a body.
fn body_names(alloc: Global, decls: &[Decl]) -> Result<NameSet, AllocError>
    ensures { IfOk result (λ names. numbers_in names ≡ body_names (decls_of (map plain_decl decls.now))) }
{
    let mut names = NameSet::new(alloc);
    for done in 0..decls.len() {
        let place = decls.len() - 1 - done;
        let decl = &decls[place];
        add_body(&mut names, decl)?;
    }
    Ok(names)
}

// The declarations of main, given the names of the bodies among them.
fn walk_all(
    around: &mut CheckScopes,
    alloc: Global,
    by: &Standard,
    bodies: &NameSet,
    decls: &[Decl],
) -> Result<Option<Refusal>, AllocError>
    requires { around.old.own ≡ None }
    ensures told { IfOk result (λ r. r ≡ refused_first by.now (decls_sites around.old (numbers_in bodies.now) (decls_of (map plain_decl decls.now)))) }
    ensures after { OnOk result (around.new ≡ after_decls around.old (decls_of (map plain_decl decls.now))) }
{
    let mut refusal = None;
    for decl in decls {
        let found = walk_decl(around, alloc, by, bodies, decl)?;
        refusal = first(refusal, found);
    }
    Ok(refusal)
}

/// The declarations of main. Behind them, what they declare stands around.
pub(crate) fn walk_decls(
    around: &mut CheckScopes,
    alloc: Global,
    by: &Standard,
    decls: &[Decl],
) -> Result<Option<Refusal>, AllocError>
    requires { around.old.own ≡ None }
    ensures told { IfOk result (λ r. r ≡ refused_first by.now (decls_sites around.old (body_names (decls_of (map plain_decl decls.now))) (decls_of (map plain_decl decls.now)))) }
    ensures after { OnOk result (around.new ≡ after_decls around.old (decls_of (map plain_decl decls.now))) }
{
    let bodies = body_names(alloc, decls)?;
    walk_all(around, alloc, by, &bodies, decls)
}
