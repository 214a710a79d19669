// What objects are declared as.

ghost use Rattle.std.specs.Prelude.{◌≡◌, option_map};
ghost use Rattle.ada_tree.specs.PlainExpr.{plain_bounds, plain_subind, plain_drange};
ghost use Rattle.ada_tree.specs.PlainDecl.{plain_init, OPlain, OArray};
ghost use Rattle.ada_static_rules.specs.Sites.{may_be_task, object_marks, component_marks, shape_sites};
ghost use Rattle.ada_expr_rules.specs.Plain.{plain_use};
ghost use Rattle.ada_expr_rules.specs.Ranges.{IsSubind};
ghost use Rattle.ada_decl_rules.specs.objects.inner.Shapes.{IsArray};

use ada_expr_rules::marks::MarkUse;
use ada_expr_rules::ranges::{Making, WalkedSubind, walk_range, walk_subind};
use ada_scopes::denotations::Range;
use ada_scopes::scope::Scope;
use ada_static_rules::refusals::{Refusal, first};
use ada_tree::{Bounds, Drange, Init, Subind};

/// The index range of an array that is declared with an object, what its components' subtype indication makes, and the first refusal at the places of both.
#[derive(Drop)]
pub(crate) struct WalkedArray {
    pub index: Option<Range>,
    pub part: Making,
    pub refusal: Option<Refusal>,
}

// Whether a task type may be the mark: of a variable of main without a range and an initial value.
fn may_be_task(scope: &Scope, constant: bool, bounds: &Option<Bounds>, init: &Option<Init>) -> bool
    ensures { result ≡ may_be_task scope.now constant (option_map plain_bounds bounds.now) (option_map plain_init init.now) }
{
    scope.is_in_main() && !constant && bounds.is_none() && init.is_none()
}

// The marks that an object may have: an array type where it has no range.
fn object_use(may_be_task: bool, bounds: &Option<Bounds>) -> MarkUse
    ensures { plain_use result ≡ object_marks may_be_task (option_map plain_bounds bounds.now) }
{
    match bounds {
        Some(_) => MarkUse::Scalar,
        None => {
            if may_be_task {
                MarkUse::OrArrayOrTask
            } else {
                MarkUse::OrArray
            }
        }
    }
}

// The marks that the components of an object may have.
fn component_use(may_be_task: bool) -> MarkUse
    ensures { plain_use result ≡ component_marks may_be_task }
{
    if may_be_task {
        MarkUse::OrTask
    } else {
        MarkUse::Scalar
    }
}

/// Walks what an object of a named type is declared as.
pub(crate) fn walk_plain(
    scope: &Scope,
    constant: bool,
    subind: &Subind,
    init: &Option<Init>,
) -> WalkedSubind
    ensures { IsSubind (shape_sites scope.now constant (OPlain (plain_subind subind.now)) (option_map plain_init init.now)) scope.now (plain_subind subind.now) result }
{
    let task = may_be_task(scope, constant, &subind.bounds, init);
    let allowed = object_use(task, &subind.bounds);
    walk_subind(scope, true, allowed, subind)
}

/// Walks what an object of an array type of its own is declared as.
pub(crate) fn walk_array(
    scope: &Scope,
    constant: bool,
    index: &Drange,
    part: &Subind,
    init: &Option<Init>,
) -> WalkedArray
    ensures { IsArray (shape_sites scope.now constant (OArray (plain_drange index.now) (plain_subind part.now)) (option_map plain_init init.now)) scope.now (plain_drange index.now) (plain_subind part.now) result }
{
    let task = may_be_task(scope, constant, &part.bounds, init);
    let range = walk_range(scope, true, index);
    let component = walk_subind(scope, true, component_use(task), part);
    WalkedArray {
        index: range.range,
        part: component.making,
        refusal: first(range.refusal, component.refusal),
    }
}
