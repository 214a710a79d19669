// Declarations of main, one after the other.

ghost use Rattle.std.specs.Prelude.{◌≡◌, ◌++◌, false, map, Some, OnOk, IfOk};
ghost use Rattle.ada_tree.specs.PlainExpr.{plain_expr};
ghost use Rattle.ada_tree.specs.PlainDecl.{plain_decl, decls_of};
ghost use Rattle.ada_static_rules.specs.Scope.{AnException, integer_kind};
ghost use Rattle.ada_static_rules.specs.Declaring.{with_names, after_decl, after_decls};
ghost use Rattle.ada_static_rules.specs.Sites.{static_of, decl_sites, decls_sites};
ghost use Rattle.ada_static_rules.specs.RefusedFirst.{refused_first};
ghost use Rattle.ada_decl_rules.specs.duplicates.NamingsInOrder.{namings_of};
ghost use Rattle.ada_decl_rules.specs.duplicates.NamedSoFar.{AreAt, is_of_tasks};
ghost use Rattle.ada_types.specs.inner.Decls.{IsDecl, AreDecls, instance_made};

use crate::enumerations::declare_enumeration;
use crate::named_types::{walk_array_type, walk_number, walk_subtype};
use crate::task_bodies::walk_task_body;
use crate::tasks::walk_task;
use crate::walked_decls::{WalkedDecl, WalkedDecls};
use ada_decl_rules::duplicates::named_so_far::Notes;
use ada_decl_rules::objects::objects::{declare_all, walk_objects};
use ada_expr_rules::kinds::INTEGER;
use ada_expr_rules::walking::walk_static;
use ada_scopes::denotations::Thing;
use ada_scopes::scope::Scope;
use ada_static_rules::refusals::{Refusal, first};
use ada_tree::{Decl, DeclKind, Expr, Word};
use std::alloc::{AllocError, Global};

// Behind a declaration of main that is not one of objects.
fn behind(scope: Scope, refusal: Option<Refusal>) -> WalkedDecl
    ensures { result ≡ record { scope = scope; refusal = refusal; of_tasks = false } }
{
    WalkedDecl {
        scope,
        refusal,
        of_tasks: false,
    }
}

// Declares exceptions.
fn declare_exceptions(scope: Scope, names: &[Word]) -> Result<Scope, AllocError>
    ensures { IfOk result (λ after. after ≡ with_names AnException scope names.now) }
{
    let mut scope = scope;
    declare_all(&mut scope, names, &Thing::AnException)?;
    Ok(scope)
}

// Declares an instance of INTEGER_IO.
fn declare_instance(scope: Scope, name: Word) -> Result<Scope, AllocError>
    ensures { IfOk result (λ after. after ≡ instance_made scope name) }
{
    let mut scope = scope;
    scope.declare(name, Thing::AnotherUnit)?;
    scope.make_instance();
    Ok(scope)
}

// Walks the value of a pragma PRIORITY.
fn walk_priority(scope: &Scope, value: &Expr) -> Option<Refusal>
    ensures { result ≡ refused_first (static_of scope.now (Some integer_kind) (plain_expr value.now)) }
{
    walk_static(scope, Some(INTEGER), value).refusal
}

/// Walks a declaration of main.
pub(crate) fn walk_decl(scope: Scope, alloc: Global, decl: &Decl) -> Result<WalkedDecl, AllocError>
    ensures { IfOk result (IsDecl (decl_sites scope (plain_decl decl.now)) (after_decl scope (plain_decl decl.now)) (is_of_tasks scope (plain_decl decl.now))) }
{
    match &decl.kind {
        DeclKind::Number { name, value } => walk_number(scope, *name, value),
        DeclKind::Object {
            names,
            constant,
            shape,
            init,
        } => {
            let walked = walk_objects(scope, names, *constant, shape, init)?;
            Ok(WalkedDecl {
                scope: walked.scope,
                refusal: walked.refusal,
                of_tasks: walked.is_task,
            })
        }
        DeclKind::Enumeration { name, literals } => {
            let scope = declare_enumeration(scope, alloc, *name, literals)?;
            Ok(behind(scope, None))
        }
        DeclKind::Array { name, index, part } => walk_array_type(scope, *name, index, part),
        DeclKind::Subtype { name, base } => walk_subtype(scope, *name, base),
        DeclKind::Exception { names } => Ok(behind(declare_exceptions(scope, names)?, None)),
        DeclKind::IntIo { name } => Ok(behind(declare_instance(scope, *name)?, None)),
        DeclKind::Pragma { value } => {
            let refusal = walk_priority(&scope, value);
            Ok(behind(scope, refusal))
        }
        DeclKind::Task(task) => walk_task(scope, alloc, task),
        DeclKind::TaskBody {
            name,
            objects,
            body,
        } => walk_task_body(scope, alloc, *name, objects, body),
    }
}

/// Walks the declarations of main, and notes what is named in them.
pub(crate) fn walk_decls(
    scope: Scope,
    alloc: Global,
    notes: &mut Notes,
    decls: &[Decl],
) -> Result<WalkedDecls, AllocError>
    requires { AreAt scope notes.old }
    ensures walked { IfOk result (AreDecls (decls_sites scope (decls_of (map plain_decl decls.now))) (after_decls scope (decls_of (map plain_decl decls.now)))) }
    ensures noted { OnOk result (notes.new.namings ≡ notes.old.namings ++ namings_of (decls_sites scope (decls_of (map plain_decl decls.now)))) }
{
    let mut scope = scope;
    let mut refusal = None;
    for decl in decls {
        let walked = walk_decl(scope, alloc, decl)?;
        notes.note(alloc, decl, walked.of_tasks)?;
        scope = walked.scope;
        refusal = first(refusal, walked.refusal);
    }
    Ok(WalkedDecls { scope, refusal })
}
