// What the objects of a declaration are (3.3, 3.6). Nothing here takes memory.

ghost use Rattle.std.specs.Prelude.{◌≡◌, option_map};
ghost use Rattle.ada_tree.specs.PlainExpr.{plain_bounds, plain_drange, plain_subind};
ghost use Rattle.ada_tree.specs.PlainDecl.{plain_shape};
ghost use Rattle.ada_static_rules.specs.StaticValue.{mark_named};
ghost use Rattle.ada_value.specs.Variables.{form_of_mark};
ghost use Rattle.task_model.specs.Starting.{form_of, indicated, known_range, marked_form, plain_form, array_form};

use ada_tree::{Bounds, Drange, Mark, Shape, Subind};
use ada_value::{Form, Limits, Raised, form_of_mark, integer_limits, limits_of, narrowed, range};
use task_links::{StaticNames, TypeNames};

// A static range; where its bounds raise it is INTEGER.
fn known_range(range: Result<Limits, Raised>) -> Limits
    ensures { result ≡ known_range range }
{
    match range {
        Ok(limits) => limits,
        Err(_) => integer_limits(),
    }
}

// The subtype of a mark with the bounds of a subtype indication, where it has some (3.3.2).
fn indicated(names: &TypeNames, mark: Mark, bounds: &Option<Bounds>) -> Limits
    ensures { result ≡ indicated names.now mark (option_map plain_bounds bounds.now) }
{
    known_range(narrowed(limits_of(mark), bounds, &StaticNames { names }))
}

// What an object of a mark is; that of an array type is not narrowed.
fn marked_form(names: &TypeNames, part: &Subind, mark: Mark) -> Form
    ensures { result ≡ marked_form names.now (plain_subind part.now) mark (form_of_mark names.now mark).index }
{
    let form = form_of_mark(names.types(), mark);
    match form.index {
        Some(_) => form,
        None => Form {
            limits: indicated(names, mark, &part.bounds),
            index: None,
        },
    }
}

// What an object of a subtype indication is; what has no mark is no object.
fn plain_form(names: &TypeNames, part: &Subind) -> Option<Form>
    ensures { result ≡ plain_form names.now (plain_subind part.now) (mark_named names.now part.now.mark.name) }
{
    match names.mark_named(part.mark.name) {
        Some(mark) => Some(marked_form(names, part, mark)),
        None => None,
    }
}

// What an object of a constrained array definition is; where the components have no mark it is no object (3.6).
fn array_form(names: &TypeNames, index: &Drange, part: &Subind) -> Option<Form>
    ensures { result ≡ array_form names.now (plain_drange index.now) (plain_subind part.now) (mark_named names.now part.now.mark.name) }
{
    match names.mark_named(part.mark.name) {
        Some(mark) => Some(Form {
            limits: indicated(names, mark, &part.bounds),
            index: Some(known_range(range(index, &StaticNames { names }))),
        }),
        None => None,
    }
}

/// What the objects of a shape are, where they are objects: those of a task type are none (3.2, 9.1).
pub(crate) fn form_of(names: &TypeNames, shape: &Shape) -> Option<Form>
    ensures { result ≡ form_of names.now (plain_shape shape.now) }
{
    match shape {
        Shape::Plain(part) => plain_form(names, part),
        Shape::ConstrainedArray { index, part } => array_form(names, index, part),
    }
}
