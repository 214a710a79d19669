// Declarations of objects.

ghost use Rattle.std.specs.Prelude.{◌≡◌, ℕ, option_map, IfOk, OnOk, Some};
ghost use Rattle.ada_tree.specs.PlainDecl.{plain_init, plain_shape};
ghost use Rattle.ada_static_rules.specs.Declaring.{declared_object, after_object, object_meaning, task_object, task_array, constant_mark, kind_at_mark, initial_value, add_constants, with_names, with_types};
ghost use Rattle.ada_static_rules.specs.Sites.{if_there, is_task_object, object_sites};
ghost use Rattle.ada_static_rules.specs.RefusedFirst.{refused_first};
ghost use Rattle.ada_scopes.specs.Entries.{plain_range};
ghost use Rattle.ada_scopes.specs.Denotations.{plain_thing};
ghost use Rattle.ada_decl_rules.specs.objects.inner.Initials.{holder_sites};
ghost use Rattle.ada_decl_rules.specs.objects.inner.Plans.{declared_as};
ghost use Rattle.ada_decl_rules.specs.objects.inner.Objects.{behind_plan, known_in, with_values, IsDeclared};

use crate::objects::initials::{Holder, walk_init};
use crate::objects::making::{bound, make, make_array};
use crate::objects::plans::{Plan, walk_shape};
use ada_expr_rules::known::Known;
use ada_expr_rules::walking::walk;
use ada_scopes::denotations::{Entries, Range, Thing};
use ada_scopes::scope::Scope;
use ada_static_rules::refusals::{Refusal, first};
use ada_tree::{Constant, Init, Shape, Word};
use std::alloc::AllocError;
use std::rc::Rc;

/// A declaration of objects: what can be used behind it, the first refusal at its places, and whether it declares tasks.
#[derive(Drop)]
pub struct WalkedObjects {
    pub scope: Scope,
    pub refusal: Option<Refusal>,
    pub is_task: bool,
}

// An object of a mark.
fn object(constant: bool, mark: Option<u32>) -> Thing
    ensures { plain_thing result ≡ object_meaning constant mark }
{
    match mark {
        Some(mark) => {
            if constant {
                Thing::ConstantObject(mark)
            } else {
                Thing::Variable(mark)
            }
        }
        None => Thing::Unclear,
    }
}

// A task of a type, which is declared in main alone.
fn task(in_main: bool, entries: Rc<Entries>) -> Thing
    ensures { plain_thing result ≡ task_object in_main entries.value }
{
    if in_main {
        Thing::TaskObject(entries)
    } else {
        Thing::Unclear
    }
}

// An array of tasks, which is declared in main alone.
fn tasks(in_main: bool, range: Option<Range>, entries: Rc<Entries>) -> Thing
    ensures { plain_thing result ≡ task_array in_main (option_map plain_range range) entries.value }
{
    match range {
        Some(range) => {
            if in_main {
                Thing::TaskArray(range, entries)
            } else {
                Thing::Unclear
            }
        }
        None => Thing::Unclear,
    }
}

// Makes what a declaration of objects is to make.
fn make_objects(scope: Scope, constant: bool, plan: Plan) -> Result<(Scope, Thing), AllocError>
    ensures { IfOk result (λ r. IsDeclared scope (declared_as scope constant plan) r.0 r.1) }
{
    match plan {
        Plan::Task(entries) => {
            let thing = task(scope.is_in_main(), entries);
            Ok((scope, thing))
        }
        Plan::TaskArray(range, entries) => {
            let thing = tasks(scope.is_in_main(), range, entries);
            Ok((scope, thing))
        }
        Plan::Object(making) => {
            let (scope, mark) = make(scope, making)?;
            Ok((scope, object(constant, mark)))
        }
        Plan::ConstrainedArray(index, making) => {
            let (scope, part) = make(scope, making)?;
            let (scope, mark) = make_array(scope, None, index, part)?;
            Ok((scope, object(constant, mark)))
        }
    }
}

// What is known of an initial value that is one expression.
fn known_of(scope: &Scope, init: &Option<Init>) -> Option<Known>
    ensures { (kind : ℕ) → known_in kind result ≡ initial_value scope.now kind (option_map plain_init init.now) }
{
    match init {
        Some(Init::One(e)) => Some(walk(scope, e).known()),
        Some(Init::List { .. }) => None,
        Some(Init::Others { .. }) => None,
        None => None,
    }
}

// The kind of a mark.
fn kind_at(scope: &Scope, mark: u32) -> u32
    ensures { result ≡ kind_at_mark scope.now.types mark }
{
    match scope.table().mark(mark) {
        Some(mark) => mark.kind,
        None => 0,
    }
}

// The value of constants of a mark, where their initial value is static.
fn value_at(scope: &Scope, mark: u32, known: Option<Known>) -> Option<i64>
    ensures { result ≡ known_in (kind_at_mark scope.now.types mark) known }
{
    match known {
        Some(known) => known.value_in(kind_at(scope, mark)),
        None => None,
    }
}

// The scope with constants of these names more in its table.
fn add_all(scope: Scope, names: &[Word], mark: u32, value: i32) -> Result<Scope, AllocError>
    ensures { IfOk result (λ after. after ≡ with_types (add_constants names.now (Some mark) (Some value) scope.types) scope) }
{
    let mut scope = scope;
    for name in names {
        scope = scope.with_constant(Constant {
            name: name.name,
            mark,
            value,
        })?;
    }
    Ok(scope)
}

// The scope with the constants of a declaration of main more in its table, where these have a static value.
fn add_constants(
    scope: Scope,
    names: &[Word],
    thing: &Thing,
    known: Option<Known>,
) -> Result<Scope, AllocError>
    ensures { IfOk result (λ after. after ≡ with_types (with_values scope names.now (constant_mark (plain_thing thing.now)) known) scope) }
{
    if !scope.is_in_main() {
        return Ok(scope);
    }
    match thing.constant_mark() {
        Some(mark) => match value_at(&scope, mark, known) {
            Some(value) => add_all(scope, names, mark, bound(value)?),
            None => Ok(scope),
        },
        None => Ok(scope),
    }
}

/// Declares the names of one declaration.
pub fn declare_all(scope: &mut Scope, names: &[Word], thing: &Thing) -> Result<(), AllocError>
    ensures { OnOk result (scope.new ≡ with_names (plain_thing thing.now) scope.old names.now) }
{
    for name in names {
        scope.declare(*name, thing.shared()?)?;
    }
    Ok(())
}

// Walks an initial value, where there is one.
fn walk_init_if(scope: &Scope, holder: Holder, init: &Option<Init>) -> Option<Refusal>
    ensures { result ≡ refused_first (if_there (holder_sites scope.now holder) (option_map plain_init init.now)) }
{
    match init {
        Some(init) => walk_init(scope, holder, init),
        None => None,
    }
}

// Makes what was planned, and declares its names; and whether they are tasks.
fn declare_planned(
    scope: Scope,
    names: &[Word],
    constant: bool,
    plan: Plan,
    known: Option<Known>,
) -> Result<(Scope, bool), AllocError>
    ensures scope { IfOk result (λ r. r.0 ≡ behind_plan scope names.now (declared_as scope constant plan) known) }
    ensures is_task { IfOk result (λ r. r.1 ≡ is_task_object (declared_as scope constant plan).thing) }
{
    let (scope, thing) = make_objects(scope, constant, plan)?;
    let mut scope = add_constants(scope, names, &thing, known)?;
    declare_all(&mut scope, names, &thing)?;
    Ok((scope, thing.is_task_object()))
}

/// Walks a declaration of objects.
pub fn walk_objects(
    scope: Scope,
    names: &[Word],
    constant: bool,
    shape: &Shape,
    init: &Option<Init>,
) -> Result<WalkedObjects, AllocError>
    ensures scope { IfOk result (λ r. r.scope ≡ after_object scope names.now constant (plain_shape shape.now) (option_map plain_init init.now)) }
    ensures refusal { IfOk result (λ r. r.refusal ≡ refused_first (object_sites scope names.now constant (plain_shape shape.now) (option_map plain_init init.now) (declared_object scope constant (plain_shape shape.now)))) }
    ensures is_task { IfOk result (λ r. r.is_task ≡ is_task_object (declared_object scope constant (plain_shape shape.now)).thing) }
{
    let walked = walk_shape(&scope, constant, shape, init)?;
    let value = walk_init_if(&scope, walked.planned.holder, init);
    let known = known_of(&scope, init);
    let (scope, is_task) = declare_planned(scope, names, constant, walked.planned.plan, known)?;
    Ok(WalkedObjects {
        scope,
        refusal: first(walked.refusal, value),
        is_task,
    })
}
