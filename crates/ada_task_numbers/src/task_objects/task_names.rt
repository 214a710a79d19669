// The tasks of a program in the order of their numbers.

ghost use Rattle.std.specs.Prelude.{◌≡◌, ◌∷◌, ◌++◌, map, option_map, IfOk, OnOk};
ghost use Rattle.ada_tree.specs.PlainExpr.{plain_drange};
ghost use Rattle.ada_tree.specs.PlainDecl.{plain_task, plain_decl};
ghost use Rattle.ada_tree.specs.PlainProgram.{plain_program};
ghost use Rattle.syn_event.specs.NamedTasks.{type_named, task_names_of_type, task_names_of};
ghost use Rattle.ada_task_numbers.specs.task_objects.PlainNames.{plain_named_tasks, plain_types, AreNamed, decl_task_names, decl_types};

use ada_tree::{Decl, DeclKind, Drange, NameId, Program, Shape, Span, TaskUnit, Word};
use scoped_names::ScopedNames;
use std::alloc::{AllocError, Global};

/// A name that stands for tasks: the name, the place of its declaration (of an object the name itself), the task or type whose body they run, and for an array of tasks the range of its index.
#[derive(Clone, Copy)]
pub struct NamedTasks<'a> {
    pub name: Word,
    pub place: Span,
    pub unit: &'a TaskUnit,
    pub index_range: Option<&'a Drange>,
}

// The task type of a name.
fn type_named<'a>(types: &ScopedNames<&'a TaskUnit>, id: NameId) -> Option<&'a TaskUnit>
    requires { AreNamed types.now }
    ensures { option_map (λ t. plain_task t.now) result ≡ type_named (plain_types types.now) id }
{
    match types.meaning(id.0) {
        Some(unit) => Some(*unit),
        None => None,
    }
}

// A task type more.
fn add_type<'a>(types: &mut ScopedNames<&'a TaskUnit>, unit: &'a TaskUnit) -> Result<(), AllocError>
    requires { AreNamed types.old }
    ensures named { OnOk result (AreNamed types.new) }
    ensures types { OnOk result (plain_types types.new ≡ plain_task unit.now ∷ plain_types types.old) }
{
    types.declare(unit.name.name.0, unit)
}

// Appends the objects of a task type.
fn push_objects<'a>(
    parts: &mut Vec<NamedTasks<'a>>,
    unit: &'a TaskUnit,
    names: &[Word],
    index_range: Option<&'a Drange>,
) -> Result<(), AllocError>
    ensures { OnOk result (map plain_named_tasks parts.new.items ≡ map plain_named_tasks parts.old.items ++ task_names_of_type (Some (plain_task unit.now)) names.now (option_map (λ r. plain_drange r.now) index_range.entry)) }
{
    for name in names {
        parts.push(NamedTasks {
            name: *name,
            place: name.span,
            unit,
            index_range,
        })?;
    }
    Ok(())
}

// Appends objects, where they are tasks.
fn push_object<'a>(
    types: &ScopedNames<&'a TaskUnit>,
    parts: &mut Vec<NamedTasks<'a>>,
    names: &[Word],
    mark: NameId,
    index_range: Option<&'a Drange>,
) -> Result<(), AllocError>
    requires { AreNamed types.now }
    ensures { OnOk result (map plain_named_tasks parts.new.items ≡ map plain_named_tasks parts.old.items ++ task_names_of_type (type_named (plain_types types.now) mark) names.now (option_map (λ r. plain_drange r.now) index_range.entry)) }
{
    match type_named(types, mark) {
        Some(unit) => push_objects(parts, unit, names, index_range),
        None => Ok(()),
    }
}

// Appends the names of tasks that a declaration declares.
fn push_declared<'a>(
    types: &mut ScopedNames<&'a TaskUnit>,
    parts: &mut Vec<NamedTasks<'a>>,
    decl: &'a Decl,
) -> Result<(), AllocError>
    requires { AreNamed types.old }
    ensures named { OnOk result (AreNamed types.new) }
    ensures parts { OnOk result (map plain_named_tasks parts.new.items ≡ map plain_named_tasks parts.old.items ++ decl_task_names (plain_types types.old) (plain_decl decl.now)) }
    ensures types { OnOk result (plain_types types.new ≡ decl_types (plain_types types.old) (plain_decl decl.now)) }
{
    match &decl.kind {
        DeclKind::Task(unit) => {
            if unit.of_kind {
                return add_type(types, unit);
            }
            parts.push(NamedTasks {
                name: unit.name,
                place: decl.span,
                unit,
                index_range: None,
            })?;
            Ok(())
        }
        DeclKind::Object { names, shape, .. } => match shape {
            Shape::Plain(subind) => push_object(types, parts, names, subind.mark.name, None),
            Shape::ConstrainedArray { index, part } => {
                push_object(types, parts, names, part.mark.name, Some(index))
            }
        },
        _ => Ok(()),
    }
}

/// The names that stand for the tasks of a program, in declared order.
pub fn task_names_of<'a>(alloc: Global, p: &'a Program) -> Result<Vec<NamedTasks<'a>>, AllocError>
    ensures { IfOk result (λ parts. map plain_named_tasks parts.items ≡ task_names_of (plain_program p.now)) }
{
    let mut types = ScopedNames::new(alloc);
    let mut parts = Vec::new(alloc);
    for decl in &p.decls {
        push_declared(&mut types, &mut parts, decl)?;
    }
    Ok(parts)
}
