// All declarations, in their order.

ghost use Rattle.std.specs.Prelude.{◌≡◌, ◌||◌, ◌++◌, ◌∷◌, [], not, IfOk, OnOk, map};
ghost use Rattle.std.specs.List.{filter};
ghost use Rattle.ada_tree.specs.PlainDecl.{plain_decl};
ghost use Rattle.replay_declarations.specs.control.Controlled.{control_declared, idle_declared, idle_body};
ghost use Rattle.replay_model.specs.ReplayTree.{is_task, is_body};
ghost use Rattle.replay_asking.specs.Looked.{voice_of};
ghost use Rattle.replay_declarations.specs.units.inner.UnderUnits.{by_units};
ghost use Rattle.replay_declarations.specs.ids.Arranged.{control_pair, body_pair, decl_image, units_image, decls_image};

use crate::control::{control_declared, idle_body, idle_declared};
use crate::units::permits::put_permit;
use crate::units::runners::by_units;
use crate::units::units::replay_all;
use ada_tree::{Decl, DeclKind, Memory, Names, Span};
use replay_asking::Speaker;
use replay_asking::making::{move_decls, push_taken_decl};
use std::alloc::Global;
use task_links::TaskNames;
use tree_rewriting::making::push_decl;

// A declaration goes, by what it is, behind other objects, tasks or bodies. It is taken from where it stands.
fn sort_decl(
    decl: &mut Decl,
    objects: &mut Vec<Decl>,
    tasks: &mut Vec<Decl>,
    bodies: &mut Vec<Decl>,
) -> Result<(), Memory>
    ensures objects { OnOk result (map plain_decl objects.new.items ≡ map plain_decl objects.old.items ++ filter (λ d. not (is_task d || is_body d)) (plain_decl decl.old ∷ [])) }
    ensures tasks { OnOk result (map plain_decl tasks.new.items ≡ map plain_decl tasks.old.items ++ filter is_task (plain_decl decl.old ∷ [])) }
    ensures bodies { OnOk result (map plain_decl bodies.new.items ≡ map plain_decl bodies.old.items ++ filter is_body (plain_decl decl.old ∷ [])) }
{
    match &decl.kind {
        DeclKind::Task(_) => push_taken_decl(tasks, decl),
        DeclKind::TaskBody { .. } => push_taken_decl(bodies, decl),
        _ => push_taken_decl(objects, decl),
    }
}

// The declarations go, by what they are, behind other objects, tasks or bodies. They are taken from where they stand.
fn sort_decls(
    decls: &mut Vec<Decl>,
    objects: &mut Vec<Decl>,
    tasks: &mut Vec<Decl>,
    bodies: &mut Vec<Decl>,
) -> Result<(), Memory>
    ensures objects { OnOk result (map plain_decl objects.new.items ≡ map plain_decl objects.old.items ++ filter (λ d. not (is_task d || is_body d)) (map plain_decl decls.old.items)) }
    ensures tasks { OnOk result (map plain_decl tasks.new.items ≡ map plain_decl tasks.old.items ++ filter is_task (map plain_decl decls.old.items)) }
    ensures bodies { OnOk result (map plain_decl bodies.new.items ≡ map plain_decl bodies.old.items ++ filter is_body (map plain_decl decls.old.items)) }
{
    for decl in decls.iter_mut() {
        sort_decl(decl, objects, tasks, bodies)?;
    }
    Ok(())
}

/// What stands at the head of all units: the program's names, the number of its last task, and the place of what is added for it.
#[derive(Clone, Copy)]
pub struct Head<'a> {
    pub names: &'a Names,
    pub last: u32,
    pub place: Span,
}

// The controller is declared behind others.
fn put_controller(
    alloc: Global,
    x: &Speaker,
    head: &Head,
    out: &mut Vec<Decl>,
) -> Result<(), Memory>
    ensures { OnOk result (map plain_decl out.new.items ≡ map plain_decl out.old.items ++ control_declared (voice_of x.now).added head.now.place head.now.last ∷ []) }
{
    push_decl(
        out,
        control_declared(alloc, &x.tables.added, head.last, head.place),
    )
}

// The idle task is declared behind others.
fn put_idle(alloc: Global, x: &Speaker, head: &Head, out: &mut Vec<Decl>) -> Result<(), Memory>
    ensures { OnOk result (map plain_decl out.new.items ≡ map plain_decl out.old.items ++ idle_declared (voice_of x.now).added head.now.place ∷ []) }
{
    push_decl(out, idle_declared(alloc, &x.tables.added, head.place))
}

// The controller and the idle task are declared behind others.
fn put_control(alloc: Global, x: &Speaker, head: &Head, out: &mut Vec<Decl>) -> Result<(), Memory>
    ensures { OnOk result (map plain_decl out.new.items ≡ map plain_decl out.old.items ++ control_pair (voice_of x.now) head.now.last head.now.place) }
{
    put_controller(alloc, x, head, out)?;
    put_idle(alloc, x, head, out)
}

// The controller's body stands behind others. It is taken from where it stands.
fn put_control_body(control: &mut Decl, out: &mut Vec<Decl>) -> Result<(), Memory>
    ensures { OnOk result (map plain_decl out.new.items ≡ map plain_decl out.old.items ++ plain_decl control.old ∷ []) }
{
    push_taken_decl(out, control)
}

// The idle task's body stands behind others.
fn put_idle_body(alloc: Global, x: &Speaker, head: &Head, out: &mut Vec<Decl>) -> Result<(), Memory>
    ensures { OnOk result (map plain_decl out.new.items ≡ map plain_decl out.old.items ++ idle_body (voice_of x.now).added head.now.place ∷ []) }
{
    push_decl(out, idle_body(alloc, &x.tables.added, head.place))
}

// The bodies of the controller and the idle task stand behind others.
fn put_control_bodies(
    alloc: Global,
    x: &Speaker,
    head: &Head,
    control: &mut Decl,
    out: &mut Vec<Decl>,
) -> Result<(), Memory>
    ensures { OnOk result (map plain_decl out.new.items ≡ map plain_decl out.old.items ++ body_pair (voice_of x.now) head.now.place (plain_decl control.old)) }
{
    put_control_body(control, out)?;
    put_idle_body(alloc, x, head, out)
}

// Declarations are rewritten, and go behind others.
fn put_rewritten(
    alloc: Global,
    x: &Speaker,
    head: &Head,
    runners: &TaskNames,
    decls: &mut Vec<Decl>,
    out: &mut Vec<Decl>,
) -> Result<(), Memory>
    requires { runners.now ≡ by_units x.now.numbers.now }
    ensures { OnOk result (map plain_decl out.new.items ≡ map plain_decl out.old.items ++ map (decl_image (voice_of x.now) head.now.names.now) (map plain_decl decls.old.items)) }
{
    replay_all(alloc, x, head.names, runners, decls)?;
    move_decls(out, decls)
}

// The tasks and bodies go behind the objects, with the controller's and the idle task's.
fn put_units(
    alloc: Global,
    x: &Speaker,
    head: &Head,
    runners: &TaskNames,
    control: &mut Decl,
    objects: &mut Vec<Decl>,
    tasks: &mut Vec<Decl>,
    bodies: &mut Vec<Decl>,
) -> Result<(), Memory>
    requires { runners.now ≡ by_units x.now.numbers.now }
    ensures { OnOk result (map plain_decl objects.new.items ≡ units_image (voice_of x.now) head.now.names.now head.now.last head.now.place (plain_decl control.old) (map plain_decl objects.old.items) (map plain_decl tasks.old.items) (map plain_decl bodies.old.items)) }
{
    put_permit(alloc, head.names, &x.tables.added, head.place, objects)?;
    put_rewritten(alloc, x, head, runners, tasks, objects)?;
    put_control(alloc, x, head, objects)?;
    put_rewritten(alloc, x, head, runners, bodies, objects)?;
    put_control_bodies(alloc, x, head, control, objects)
}

// The declarations of the normal form are sorted, and become those of the replay text among the objects.
fn put_decls(
    alloc: Global,
    x: &Speaker,
    head: &Head,
    control: &mut Decl,
    decls: &mut Vec<Decl>,
    objects: &mut Vec<Decl>,
) -> Result<(), Memory>
    requires { objects.old.items ≡ [] }
    ensures { OnOk result (map plain_decl objects.new.items ≡ decls_image (voice_of x.now) head.now.names.now head.now.last head.now.place (plain_decl control.old) (map plain_decl decls.old.items)) }
{
    let mut tasks = Vec::new(alloc);
    let mut bodies = Vec::new(alloc);
    sort_decls(decls, objects, &mut tasks, &mut bodies)?;
    let units = by_units(alloc, x.numbers.numbers())?;
    let runners = TaskNames::new(alloc, &units)?;
    put_units(
        alloc,
        x,
        head,
        &runners,
        control,
        objects,
        &mut tasks,
        &mut bodies,
    )
}

/// The declarations of the normal form become those of the replay text, with this body of the controller, which is taken from where it stands. After want
/// of memory nothing is said of them.
pub fn replay_decls(
    alloc: Global,
    x: &Speaker,
    head: &Head,
    control: &mut Decl,
    decls: &mut Vec<Decl>,
) -> Result<(), Memory>
    ensures { OnOk result (map plain_decl decls.new.items ≡ decls_image (voice_of x.now) head.now.names.now head.now.last head.now.place (plain_decl control.old) (map plain_decl decls.old.items)) }
{
    let mut objects = Vec::new(alloc);
    put_decls(alloc, x, head, control, decls, &mut objects)?;
    *decls = objects;
    Ok(())
}
