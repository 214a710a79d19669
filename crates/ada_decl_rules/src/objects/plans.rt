// What a declaration of objects is to make, before it goes into the table.

ghost use Rattle.std.specs.Prelude.{◌≡◌, Bool, IfOk, option_map};
ghost use Rattle.ada_tree.specs.PlainExpr.{plain_subind, plain_drange};
ghost use Rattle.ada_tree.specs.PlainDecl.{PInit, plain_init, plain_shape, OPlain, OArray};
ghost use Rattle.ada_static_rules.specs.Scope as scope;
ghost use Rattle.ada_static_rules.specs.Scope.{marking};
ghost use Rattle.ada_static_rules.specs.Declaring.{made_subind, marked_range, drange_range};
ghost use Rattle.ada_static_rules.specs.Sites.{shape_sites};
ghost use Rattle.ada_scopes.specs.Entries.{plain_range};
ghost use Rattle.ada_decl_rules.specs.objects.inner.Initials.{holder_sites};
ghost use Rattle.ada_expr_rules.specs.Ranges.{made_as, range_as};
ghost use Rattle.ada_decl_rules.specs.objects.inner.Plans.{scalar_sites, array_sites, IsPlanned, IsShape};

use crate::objects::initials::Holder;
use crate::objects::shapes::{walk_array, walk_plain};
use ada_expr_rules::ranges::{Making, range_made};
use ada_scopes::denotations::{Entries, Range};
use ada_scopes::readings::{Marking, mark_named};
use ada_scopes::scope::Scope;
use ada_static_rules::refusals::Refusal;
use ada_tree::{Drange, Init, Shape, Subind};
use std::alloc::AllocError;
use std::rc::Rc;

/// What a declaration of objects is to make: tasks of a type, arrays of tasks with the range of their index, objects of a mark, or arrays of a type of their own with the mark of their components.
#[derive(Drop)]
pub(crate) enum Plan {
    Task(Rc<Entries>),
    TaskArray(Option<Range>, Rc<Entries>),
    Object(Making),
    ConstrainedArray(Option<Range>, Making),
}

/// What a declaration of objects is to make, and what its initial value is for.
#[derive(Drop)]
pub(crate) struct Planned {
    pub plan: Plan,
    pub holder: Holder,
}

/// What a declaration of objects is to make, and the first refusal at the places of what they are declared as.
#[derive(Drop)]
pub(crate) struct WalkedShape {
    pub planned: Planned,
    pub refusal: Option<Refusal>,
}

// What the initial value of an object of a mark is for, where that is no array's.
fn scalar_holder(range: Option<Range>) -> Holder
    ensures { (scope : scope.Scope) (value : PInit) → holder_sites scope result value ≡ scalar_sites scope (option_map plain_range range) value }
{
    match range {
        Some(range) => Holder::Scalar(Some(range)),
        None => Holder::Unclear,
    }
}

// What the initial value of an array is for.
fn array_holder(index: Option<Range>, part: Option<Range>) -> Holder
    ensures { (scope : scope.Scope) (value : PInit) → holder_sites scope result value ≡ array_sites scope (option_map plain_range index) (option_map plain_range part) value }
{
    match index {
        Some(index) => match part {
            Some(part) => Holder::Array(index, Some(part)),
            None => Holder::Unclear,
        },
        None => Holder::Unclear,
    }
}

// What objects of a named type make, by what its subtype indication makes where it is a scalar one.
fn plan_plain(scope: &Scope, subind: &Subind, making: Making) -> Result<Planned, AllocError>
    requires made { made_as scope.now.types making ≡ made_subind scope.now (plain_subind subind.now) }
    requires range { range_as scope.now.types making ≡ marked_range scope.now (marking scope.now subind.now.mark.name) (plain_subind subind.now).bounds }
    ensures { IfOk result (λ planned. (constant : Bool) → IsPlanned scope.now constant (OPlain (plain_subind subind.now)) planned) }
{
    match mark_named(scope, subind.mark.name) {
        Marking::Task(entries) => Ok(Planned {
            plan: Plan::Task(entries.clone()?),
            holder: Holder::Unclear,
        }),
        Marking::Array { mark, range, part } => Ok(Planned {
            plan: Plan::Object(Making::Named(mark)),
            holder: Holder::Array(range, range_made(scope, Making::Named(part))),
        }),
        Marking::Scalar { .. } | Marking::NoMark | Marking::Unknown | Marking::Unclear => {
            Ok(Planned {
                plan: Plan::Object(making),
                holder: scalar_holder(range_made(scope, making)),
            })
        }
    }
}

// What objects of an array type of their own make, by the range of its index and what the subtype indication of its components makes.
fn plan_array(
    scope: &Scope,
    index: &Drange,
    range: Option<Range>,
    part: &Subind,
    making: Making,
) -> Result<Planned, AllocError>
    requires index { option_map plain_range range ≡ drange_range scope.now (plain_drange index.now) }
    requires made { made_as scope.now.types making ≡ made_subind scope.now (plain_subind part.now) }
    requires range { range_as scope.now.types making ≡ marked_range scope.now (marking scope.now part.now.mark.name) (plain_subind part.now).bounds }
    ensures { IfOk result (λ planned. (constant : Bool) → IsPlanned scope.now constant (OArray (plain_drange index.now) (plain_subind part.now)) planned) }
{
    match mark_named(scope, part.mark.name) {
        Marking::Task(entries) => Ok(Planned {
            plan: Plan::TaskArray(range, entries.clone()?),
            holder: Holder::Unclear,
        }),
        Marking::Array { .. }
        | Marking::Scalar { .. }
        | Marking::NoMark
        | Marking::Unknown
        | Marking::Unclear => Ok(Planned {
            plan: Plan::ConstrainedArray(range, making),
            holder: array_holder(range, range_made(scope, making)),
        }),
    }
}

/// Walks what objects are declared as.
pub(crate) fn walk_shape(
    scope: &Scope,
    constant: bool,
    shape: &Shape,
    init: &Option<Init>,
) -> Result<WalkedShape, AllocError>
    ensures { IfOk result (IsShape (shape_sites scope.now constant (plain_shape shape.now) (option_map plain_init init.now)) scope.now constant (plain_shape shape.now)) }
{
    match shape {
        Shape::Plain(subind) => {
            let walked = walk_plain(scope, constant, subind, init);
            Ok(WalkedShape {
                planned: plan_plain(scope, subind, walked.making)?,
                refusal: walked.refusal,
            })
        }
        Shape::ConstrainedArray { index, part } => {
            let walked = walk_array(scope, constant, index, part, init);
            Ok(WalkedShape {
                planned: plan_array(scope, index, walked.index, part, walked.part)?,
                refusal: walked.refusal,
            })
        }
    }
}
