// What the rules refuse first in declarations: in those of the main procedure that are no body, and in the objects of a task body.
#![tactic(auto, using(ada_check_rules::proofs::rules::Meeting::meeting))]

ghost use Rattle.std.specs.Prelude.{◌≡◌, None, map, OnOk, IfOk};
ghost use Rattle.ada_tree.specs.PlainDecl.{plain_decl, decls_of};
ghost use Rattle.syn_event.specs.CheckSites.{own_object_sites, after_own_object, own_sites, after_own};
ghost use Rattle.ada_check_rules.specs.rules.RefusedFirst.{refused_first};
ghost use Rattle.scoped_names.specs.name_sets.Numbers.{numbers_in};
ghost use Rattle.ada_check.specs.declaration_places.Places.{places_of};

use crate::declaration_places::adding::declare_all;
use crate::declaration_places::objects::{walk_index, walk_object};
use crate::declaration_places::tasks::walk_task;
use ada_check_places::parts::{walk_expr, walk_names, walk_subind};
use ada_check_rules::rules::{Refusal, Standard, first};
use ada_check_rules::scopes::CheckScopes;
use ada_tree::{Decl, DeclKind};
use scoped_names::name_sets::NameSet;
use std::alloc::AllocError;
use syn_event::Meant;

// An object of a task body, which is declared behind its own places.
fn walk_own_object(
    around: &mut CheckScopes,
    by: &Standard,
    decl: &Decl,
) -> Result<Option<Refusal>, AllocError>
    ensures told { IfOk result (λ r. r ≡ refused_first by.now (own_object_sites around.old (plain_decl decl.now))) }
    ensures after { OnOk result (around.new ≡ after_own_object around.old (plain_decl decl.now)) }
{
    match &decl.kind {
        DeclKind::Object {
            names,
            shape,
            init,
            ..
        } => {
            let refusal = walk_object(around, by, names, shape, init)?;
            declare_all(around, Meant::Inner, names)?;
            Ok(refusal)
        }
        DeclKind::Number { .. }
        | DeclKind::Enumeration { .. }
        | DeclKind::Array { .. }
        | DeclKind::Subtype { .. }
        | DeclKind::Exception { .. }
        | DeclKind::IntIo { .. }
        | DeclKind::Pragma { .. }
        | DeclKind::Task(_)
        | DeclKind::TaskBody { .. } => Ok(None),
    }
}

/// The objects of a task body, each of which is declared behind its own places.
pub fn walk_own(
    around: &mut CheckScopes,
    by: &Standard,
    objects: &[Decl],
) -> Result<Option<Refusal>, AllocError>
    ensures told { IfOk result (λ r. r ≡ refused_first by.now (own_sites around.old (decls_of (map plain_decl objects.now)))) }
    ensures after { OnOk result (around.new ≡ after_own around.old (decls_of (map plain_decl objects.now))) }
{
    let mut refusal = None;
    for decl in objects {
        let found = walk_own_object(around, by, decl)?;
        refusal = first(refusal, found);
    }
    Ok(refusal)
}

/// The places of a declaration of the main procedure that is no body, given the names of the bodies there.
pub fn walk_places(
    around: &CheckScopes,
    by: &Standard,
    bodies: &NameSet,
    decl: &Decl,
) -> Result<Option<Refusal>, AllocError>
    ensures { IfOk result (λ r. r ≡ refused_first by.now (places_of around.now (numbers_in bodies.now) (plain_decl decl.now))) }
{
    match &decl.kind {
        DeclKind::Number { name, value } => {
            let declared = by.refuse_name(*name);
            Ok(first(declared, walk_expr(around, by, 2, value)?))
        }
        DeclKind::Object {
            names,
            shape,
            init,
            ..
        } => walk_object(around, by, names, shape, init),
        DeclKind::Enumeration { name, literals } => {
            let declared = by.refuse_name(*name);
            Ok(first(declared, walk_names(by, literals)))
        }
        DeclKind::Array { name, index, part } => {
            let declared = by.refuse_name(*name);
            let range = walk_index(around, by, index)?;
            let component = walk_subind(around, by, 2, part)?;
            Ok(first(first(declared, range), component))
        }
        DeclKind::Subtype { name, base } => {
            let declared = by.refuse_name(*name);
            Ok(first(declared, walk_subind(around, by, 2, base)?))
        }
        DeclKind::Exception { names } => Ok(walk_names(by, names)),
        DeclKind::IntIo { name } => Ok(by.refuse_name(*name)),
        DeclKind::Pragma { value } => walk_expr(around, by, 2, value),
        DeclKind::Task(unit) => walk_task(around, by, bodies, unit, decl.span),
        DeclKind::TaskBody { .. } => Ok(None),
    }
}
