// Task bodies.

ghost use Rattle.std.specs.Prelude.{◌≡◌, ◌∷◌, ◌++◌, [], false, map, OnOk, IfOk};
ghost use Rattle.ada_tree.specs.PlainStmt.{plain_body};
ghost use Rattle.ada_tree.specs.PlainDecl.{plain_decl, decls_of};
ghost use Rattle.ada_static_rules.specs.Scope.{meaning, entries_of};
ghost use Rattle.ada_static_rules.specs.Demand.{gives_body};
ghost use Rattle.ada_static_rules.specs.Declaring.{inner_scope, in_body, own_entries, after_own_object, after_objects};
ghost use Rattle.ada_static_rules.specs.Sites.{site, own_object_sites, own_sites, body_sites};
ghost use Rattle.ada_static_rules.specs.RefusedFirst.{refused_first, refused_first_at};
ghost use Rattle.ada_scopes.specs.Denotations.{plain_thing};
ghost use Rattle.ada_types.specs.inner.Decls.{IsDecl, AreDecls, after_body};

use crate::statements::walk_body;
use crate::walked_decls::{WalkedDecl, WalkedDecls};
use ada_decl_rules::objects::objects::walk_objects;
use ada_scopes::denotations::{Entries, Thing};
use ada_scopes::scope::Scope;
use ada_static_rules::refusals::{Refusal, Rule, first, refuse};
use ada_tree::{Body, Decl, DeclKind, NameId, Word};
use std::alloc::{AllocError, Global};
use std::rc::Rc;

// No entries.
fn no_entries(alloc: Global) -> Result<Rc<Entries>, AllocError>
    ensures { IfOk result (λ entries. entries.value ≡ []) }
{
    match Rc::new(alloc, Entries::new(alloc, Vec::new(alloc))?) {
        Ok(entries) => Ok(entries),
        Err(_) => Err(AllocError),
    }
}

// The entries of what is a task, a task type or an array of tasks.
fn entries_of(alloc: Global, thing: &Thing) -> Result<Rc<Entries>, AllocError>
    ensures { IfOk result (λ entries. entries.value ≡ entries_of (plain_thing thing.now)) }
{
    match thing {
        Thing::TaskType(entries) => entries.clone(),
        Thing::SingleTask(entries) => entries.clone(),
        Thing::TaskObject(entries) => entries.clone(),
        Thing::TaskArray(_, entries) => entries.clone(),
        _ => no_entries(alloc),
    }
}

// The entries of the task whose body it is.
fn own_entries(scope: &Scope, alloc: Global, id: NameId) -> Result<Rc<Entries>, AllocError>
    ensures { IfOk result (λ entries. entries.value ≡ own_entries (meaning scope.now id)) }
{
    match scope.meaning(id) {
        Some(thing) => entries_of(alloc, thing),
        None => no_entries(alloc),
    }
}

// A body of what is no task or task type that is declared before.
fn refuse_no_body(scope: &Scope, name: Word) -> Option<Refusal>
    ensures { result ≡ refused_first_at scope.now (gives_body name) }
{
    match scope.meaning(name.name) {
        Some(thing) => match thing {
            Thing::SingleTask(_) | Thing::TaskType(_) => None,
            _ => refuse(Rule::Unknown, name.span),
        },
        None => refuse(Rule::Unknown, name.span),
    }
}

// Walks one object of a task body.
fn walk_own(scope: Scope, decl: &Decl) -> Result<WalkedDecls, AllocError>
    ensures { IfOk result (AreDecls (own_object_sites scope (plain_decl decl.now)) (after_own_object scope (plain_decl decl.now))) }
{
    match &decl.kind {
        DeclKind::Object {
            names,
            constant,
            shape,
            init,
        } => {
            let walked = walk_objects(scope, names, *constant, shape, init)?;
            Ok(WalkedDecls {
                scope: walked.scope,
                refusal: walked.refusal,
            })
        }
        _ => Ok(WalkedDecls {
            scope,
            refusal: None,
        }),
    }
}

// Walks the objects of a task body.
fn walk_all_own(scope: Scope, objects: &[Decl]) -> Result<WalkedDecls, AllocError>
    ensures { IfOk result (AreDecls (own_sites scope (decls_of (map plain_decl objects.now))) (after_objects scope (decls_of (map plain_decl objects.now)))) }
{
    let mut scope = scope;
    let mut refusal = None;
    for decl in objects {
        let walked = walk_own(scope, decl)?;
        scope = walked.scope;
        refusal = first(refusal, walked.refusal);
    }
    Ok(WalkedDecls { scope, refusal })
}

/// Walks statements in a scope of their own. The scope is left as it was.
pub(crate) fn walk_inside(
    scope: &mut Scope,
    alloc: Global,
    body: &Body,
) -> Result<Option<Refusal>, AllocError>
    ensures kept { OnOk result (scope.new ≡ scope.old) }
    ensures told { IfOk result (λ r. r ≡ refused_first (body_sites (inner_scope scope.old) (plain_body body.now))) }
{
    let outer = scope.enter();
    let refusal = walk_body(scope, alloc, body)?;
    scope.leave(outer);
    Ok(refusal)
}

/// Walks a task body, behind which nothing is left of it but the marks that its objects add.
pub(crate) fn walk_task_body(
    scope: Scope,
    alloc: Global,
    name: Word,
    objects: &[Decl],
    body: &Body,
) -> Result<WalkedDecl, AllocError>
    ensures { IfOk result (IsDecl (site scope (gives_body name) ∷ own_sites (in_body scope name) (decls_of (map plain_decl objects.now)) ++ body_sites (inner_scope (after_objects (in_body scope name) (decls_of (map plain_decl objects.now)))) (plain_body body.now)) (after_body scope name (decls_of (map plain_decl objects.now))) false) }
{
    let no_body = refuse_no_body(&scope, name);
    let own = own_entries(&scope, alloc, name.name)?;
    let mut scope = scope;
    let outside = scope.enter_body(own);
    let walked = walk_all_own(scope, objects)?;
    let mut scope = walked.scope;
    let inner = walk_inside(&mut scope, alloc, body)?;
    scope.leave_body(outside, name)?;
    Ok(WalkedDecl {
        scope,
        refusal: first(first(no_body, walked.refusal), inner),
        of_tasks: false,
    })
}
