// Enumerations.

ghost use Rattle.std.specs.Prelude.{◌≡◌, ◌-ℤ◌, pos, length, map, Some, IfOk, OnOk};
ghost use Rattle.ada_tree.specs.declared.static_types.Kind.TheVariants.{Enumeration};
ghost use Rattle.ada_static_rules.specs.Scope.{Literal, TypeMark};
ghost use Rattle.ada_static_rules.specs.Declaring.{add_kind, add_mark, after_enumeration, with_name, with_names, with_types};

use ada_decl_rules::objects::objects::declare_all;
use ada_scopes::denotations::Thing;
use ada_scopes::scope::Scope;
use ada_tree::{Kind, Literals, Mark, NameId, Word};
use std::alloc::{AllocError, Global};

// The names of literals.
fn ids_of(alloc: Global, literals: &[Word]) -> Result<Vec<NameId>, AllocError>
    ensures { IfOk result (λ ids. ids.items ≡ map (λ w. w.name) literals.now) }
{
    let mut ids = Vec::new(alloc);
    for literal in literals {
        ids.push(literal.name)?;
    }
    Ok(ids)
}

// An enumeration with these literals.
fn enumeration_of(alloc: Global, literals: &[Word]) -> Result<Kind, AllocError>
    ensures { IfOk result (λ kind. kind ≡ Enumeration (map (λ w. w.name) literals.now)) }
{
    let ids = ids_of(alloc, literals)?;
    Ok(Kind::Enumeration {
        literals: Literals::new(ids),
    })
}

// The last position among so many, for which there is no room from 2 ^ 31 on.
fn last_of(count: usize) -> Result<i32, AllocError>
    ensures { IfOk result (λ last. last ≡ pos count -ℤ pos 1) }
{
    match i32::try_from(count) {
        Ok(count) => Ok(count - 1),
        Err(_) => Err(AllocError),
    }
}

// The mark of an enumeration, of which the kind stands at a place.
fn enumeration_mark(name: Word, kind: u32, count: usize) -> Result<Mark, AllocError>
    ensures { IfOk result (λ mark. mark ≡ record { name = Some name.name; kind = kind; first = pos 0; last = pos count -ℤ pos 1 }) }
{
    Ok(Mark {
        name: Some(name.name),
        kind,
        first: 0,
        last: last_of(count)?,
    })
}

// What an enumeration adds to the table, and the places that its kind and its mark get.
#[derive(Drop)]
struct Enumerated {
    kind: u32,
    place: u32,
    enumeration: Kind,
    mark: Mark,
}

// Makes these, where there is room for them.
fn prepare(
    scope: &Scope,
    alloc: Global,
    name: Word,
    literals: &[Word],
) -> Result<Enumerated, AllocError>
    ensures kind { IfOk result (λ e. e.kind ≡ length scope.now.types.kinds) }
    ensures place { IfOk result (λ e. e.place ≡ length scope.now.types.marks) }
    ensures enumeration { IfOk result (λ e. e.enumeration ≡ Enumeration (map (λ w. w.name) literals.now)) }
    ensures mark { IfOk result (λ e. e.mark ≡ record { name = Some name.name; kind = length scope.now.types.kinds; first = pos 0; last = pos (length literals.now) -ℤ pos 1 }) }
{
    let kind = scope.table().next_kind()?;
    let place = scope.table().next_mark()?;
    let mark = enumeration_mark(name, kind, literals.len())?;
    let enumeration = enumeration_of(alloc, literals)?;
    Ok(Enumerated {
        kind,
        place,
        enumeration,
        mark,
    })
}

// The table with a kind and its mark more.
fn with_both(scope: Scope, kind: Kind, mark: Mark) -> Result<Scope, AllocError>
    ensures { IfOk result (λ after. after ≡ with_types (add_mark (add_kind scope.types kind) mark) scope) }
{
    scope.with_kind(kind)?.with_mark(mark)
}

// The names of an enumeration and of its literals.
fn declare_both(
    scope: &mut Scope,
    name: Word,
    place: u32,
    literals: &[Word],
    kind: u32,
) -> Result<(), AllocError>
    ensures { OnOk result (scope.new ≡ with_names (Literal kind) (with_name (TypeMark place) scope.old name) literals.now) }
{
    scope.declare(name, Thing::TypeMark(place))?;
    declare_all(scope, literals, &Thing::Literal(kind))
}

/// Declares an enumeration with its literals.
pub(crate) fn declare_enumeration(
    scope: Scope,
    alloc: Global,
    name: Word,
    literals: &[Word],
) -> Result<Scope, AllocError>
    ensures { IfOk result (λ after. after ≡ after_enumeration scope name literals.now) }
{
    let made = prepare(&scope, alloc, name, literals)?;
    let mut scope = with_both(scope, made.enumeration, made.mark)?;
    declare_both(&mut scope, name, made.place, literals, made.kind)?;
    Ok(scope)
}
