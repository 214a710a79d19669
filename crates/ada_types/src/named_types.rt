// Array types, subtypes and named numbers.

ghost use Rattle.std.specs.Prelude.{◌≡◌, ◌++◌, ◌∷◌, [], true, false, Some, option_map, IfOk};
ghost use Rattle.ada_tree.specs.PlainExpr.{plain_expr, plain_drange, plain_subind};
ghost use Rattle.ada_static_rules.specs.Scope.{integer_kind, and_then, range_of_mark};
ghost use Rattle.ada_static_rules.specs.Demand.{scalar_only};
ghost use Rattle.ada_static_rules.specs.Declaring.{with_types, type_of_mark, add_constants, after_type, made_named_array, made_subtype};
ghost use Rattle.ada_static_rules.specs.Sites.{names_sites, static_of, drange_sites, subind_sites};
ghost use Rattle.ada_scopes.specs.Denotations.{plain_thing};
ghost use Rattle.ada_scopes.specs.Entries.{plain_range};
ghost use Rattle.ada_types.specs.inner.Decls.{IsDecl, after_number};

use crate::walked_decls::WalkedDecl;
use ada_decl_rules::objects::making::{bound, make, make_array, make_subtype};
use ada_expr_rules::kinds::INTEGER;
use ada_expr_rules::marks::MarkUse;
use ada_expr_rules::ranges::{walk_range, walk_subind};
use ada_expr_rules::walking::walk_static;
use ada_scopes::denotations::{Range, Thing};
use ada_scopes::scope::Scope;
use ada_static_rules::refusals::first;
use ada_tree::{Constant, Drange, Expr, Subind, Word};
use std::alloc::AllocError;

// What a type or subtype of a mark is, or of none where its declaration is refused.
fn type_of_mark(mark: Option<u32>) -> Thing
    ensures { plain_thing result ≡ type_of_mark mark }
{
    match mark {
        Some(mark) => Thing::TypeMark(mark),
        None => Thing::Unclear,
    }
}

/// Walks the declaration of an array type.
pub(crate) fn walk_array_type(
    scope: Scope,
    name: Word,
    index: &Drange,
    part: &Subind,
) -> Result<WalkedDecl, AllocError>
    ensures { IfOk result (IsDecl (names_sites true scope (name ∷ []) ++ drange_sites true scope (plain_drange index.now) ++ subind_sites true scalar_only scope (plain_subind part.now)) (after_type scope name (made_named_array scope name (plain_drange index.now) (plain_subind part.now))) false) }
{
    let range = walk_range(&scope, true, index);
    let component = walk_subind(&scope, true, MarkUse::Scalar, part);
    let (scope, part) = make(scope, component.making)?;
    let (scope, mark) = make_array(scope, Some(name.name), range.range, part)?;
    let mut scope = scope;
    scope.declare(name, type_of_mark(mark))?;
    Ok(WalkedDecl {
        scope,
        refusal: first(range.refusal, component.refusal),
        of_tasks: false,
    })
}

// The range of a mark, where there is one.
fn range_at(scope: &Scope, mark: Option<u32>) -> Option<Range>
    ensures { option_map plain_range result ≡ and_then (range_of_mark scope.now.types) mark }
{
    match mark {
        Some(place) => match scope.table().mark(place) {
            Some(mark) => Some(Range {
                kind: mark.kind,
                first: mark.first as i64,
                last: mark.last as i64,
            }),
            None => None,
        },
        None => None,
    }
}

/// Walks the declaration of a subtype, for whose range a mark without a name is made before its own.
pub(crate) fn walk_subtype(
    scope: Scope,
    name: Word,
    base: &Subind,
) -> Result<WalkedDecl, AllocError>
    ensures { IfOk result (IsDecl (names_sites true scope (name ∷ []) ++ subind_sites true scalar_only scope (plain_subind base.now)) (after_type scope name (made_subtype scope name (plain_subind base.now))) false) }
{
    let walked = walk_subind(&scope, true, MarkUse::Scalar, base);
    let (scope, base) = make(scope, walked.making)?;
    let range = range_at(&scope, base);
    let (scope, mark) = make_subtype(scope, name, range)?;
    let mut scope = scope;
    scope.declare(name, type_of_mark(mark))?;
    Ok(WalkedDecl {
        scope,
        refusal: walked.refusal,
        of_tasks: false,
    })
}

// Adds a named number to the constants, where it has a value.
fn add_number(scope: Scope, name: Word, value: Option<i64>) -> Result<Scope, AllocError>
    ensures { IfOk result (λ after. after ≡ with_types (add_constants (name ∷ []) (Some 0) value scope.types) scope) }
{
    match value {
        Some(value) => scope.with_constant(Constant {
            name: name.name,
            mark: INTEGER,
            value: bound(value)?,
        }),
        None => Ok(scope),
    }
}

/// Walks the declaration of a named number.
pub(crate) fn walk_number(scope: Scope, name: Word, value: &Expr) -> Result<WalkedDecl, AllocError>
    ensures { IfOk result (IsDecl (names_sites true scope (name ∷ []) ++ static_of scope (Some integer_kind) (plain_expr value.now)) (after_number scope name (plain_expr value.now)) false) }
{
    let walked = walk_static(&scope, Some(INTEGER), value);
    let mut scope = add_number(scope, name, walked.known().value_in(INTEGER))?;
    scope.declare(name, Thing::ConstantObject(0))?;
    Ok(WalkedDecl {
        scope,
        refusal: walked.refusal,
        of_tasks: false,
    })
}
