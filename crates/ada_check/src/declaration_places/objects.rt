// What the rules refuse first in the declarations of objects.
#![tactic(auto, using(ada_check_rules::proofs::rules::Meeting::meeting))]

ghost use Rattle.std.specs.Prelude.{◌≡◌, None, option_map, IfOk};
ghost use Rattle.ada_tree.specs.PlainExpr.{plain_drange};
ghost use Rattle.ada_tree.specs.PlainDecl.{plain_shape, plain_init};
ghost use Rattle.syn_event.specs.Extents.{size, range_start};
ghost use Rattle.syn_event.specs.CheckScope.{counts};
ghost use Rattle.syn_event.specs.CheckSites.{if_there, index_sites, shape_sites, init_sites, object_sites};
ghost use Rattle.ada_check_rules.specs.rules.RefusedFirst.{refused_first_at, refused_first};

use ada_check_places::parts::{walk_drange, walk_expr, walk_exprs, walk_names, walk_subind};
use ada_check_rules::rules::{Refusal, Standard, first};
use ada_check_rules::scopes::CheckScopes;
use ada_task_numbers::task_objects::{range_start, size};
use ada_tree::{Drange, Init, Shape, Word};
use std::alloc::AllocError;
use syn_event::What;

/// So many values as a range has, which are limited.
pub(crate) fn refuse_size(
    around: &CheckScopes,
    by: &Standard,
    what: What,
    range: &Drange,
) -> Option<Refusal>
    ensures { result ≡ refused_first_at by.now around.now (counts what 0 (size around.now.types (plain_drange range.now)) (range_start (plain_drange range.now))) }
{
    by.refuse_count(what, 0, size(around.types(), range), range_start(range))
}

/// The index range of an array.
pub(crate) fn walk_index(
    around: &CheckScopes,
    by: &Standard,
    range: &Drange,
) -> Result<Option<Refusal>, AllocError>
    ensures { IfOk result (λ r. r ≡ refused_first by.now (index_sites around.now (plain_drange range.now))) }
{
    let many = refuse_size(around, by, What::Components, range);
    Ok(first(many, walk_drange(around, by, 2, range)?))
}

// What objects are declared as.
fn walk_shape(
    around: &CheckScopes,
    by: &Standard,
    shape: &Shape,
) -> Result<Option<Refusal>, AllocError>
    ensures { IfOk result (λ r. r ≡ refused_first by.now (shape_sites around.now (plain_shape shape.now))) }
{
    match shape {
        Shape::Plain(subind) => walk_subind(around, by, 2, subind),
        Shape::ConstrainedArray { index, part } => {
            let range = walk_index(around, by, index)?;
            let component = walk_subind(around, by, 2, part)?;
            Ok(first(range, component))
        }
    }
}

// An initial value, which may be left out.
fn walk_init(
    around: &CheckScopes,
    by: &Standard,
    init: &Option<Init>,
) -> Result<Option<Refusal>, AllocError>
    ensures { IfOk result (λ r. r ≡ refused_first by.now (if_there (init_sites around.now) (option_map plain_init init.now))) }
{
    match init {
        Some(init) => match init {
            Init::One(e) => walk_expr(around, by, 2, e),
            Init::List { parts, .. } => walk_exprs(around, by, 2, parts),
            Init::Others { part, .. } => walk_expr(around, by, 2, part),
        },
        None => Ok(None),
    }
}

/// Objects.
pub(crate) fn walk_object(
    around: &CheckScopes,
    by: &Standard,
    names: &[Word],
    shape: &Shape,
    init: &Option<Init>,
) -> Result<Option<Refusal>, AllocError>
    ensures { IfOk result (λ r. r ≡ refused_first by.now (object_sites around.now names.now (plain_shape shape.now) (option_map plain_init init.now))) }
{
    let declared = walk_names(by, names);
    let kind = walk_shape(around, by, shape)?;
    let value = walk_init(around, by, init)?;
    Ok(first(first(declared, kind), value))
}
