// The numbers of a normal form.

ghost use Rattle.std.specs.Prelude.{◌≡◌, ◌∷◌, ◌++◌, [], map, IfOk, OnOk};
ghost use Rattle.ada_tree.specs.PlainDecl.{plain_decl};
ghost use Rattle.ada_tree.specs.PlainProgram.{plain_program};
ghost use Rattle.syn_event.specs.AddedNames.{task_info};
ghost use Rattle.syn_event.specs.DeclaredTasks.{tasks_in};
ghost use Rattle.normal_model.specs.NormalNumbers.{normal_numbers};
ghost use Rattle.normal_form.specs.inner.Infos.{infos_of};

use ada_tree::{Decl, DeclKind, Memory, NameId, Names, Program};
use std::alloc::Global;
use syn_event::{EntryInfo, Numbers, TaskInfo, name_of};

// A task that runs a body of its own; it is added where its name begins with DED_.
fn task_info(names: &Names, name: NameId) -> TaskInfo
    ensures { result ≡ task_info names.now name }
{
    TaskInfo {
        name,
        added: name_of(names, name).starts_with(b"DED_"),
        unit: name,
        member: None,
    }
}

// The task of a declaration goes behind others, where it declares one.
fn push_task(names: &Names, decl: &Decl, tasks: &mut Vec<TaskInfo>) -> Result<(), Memory>
    ensures { OnOk result (tasks.new.items ≡ tasks.old.items ++ infos_of names.now (tasks_in (plain_decl decl.now ∷ []))) }
{
    match &decl.kind {
        DeclKind::Task(unit) => {
            tasks.push(task_info(names, unit.name.name))?;
            Ok(())
        }
        _ => Ok(()),
    }
}

// The main program, and the tasks of declarations behind it.
fn tasks_of(
    alloc: Global,
    names: &Names,
    main: NameId,
    decls: &[Decl],
) -> Result<Vec<TaskInfo>, Memory>
    ensures { IfOk result (λ tasks. tasks.items ≡ task_info names.now main ∷ infos_of names.now (tasks_in (map plain_decl decls.now))) }
{
    let mut tasks = Vec::new(alloc);
    tasks.push(task_info(names, main))?;
    for decl in decls {
        push_task(names, decl, &mut tasks)?;
    }
    Ok(tasks)
}

/// The numbers of a normal form, by those of the program from which it was made: each task has the name that it has there, runs a body of its own, and is the member of no array; entries keep their numbers.
pub fn normal_numbers(alloc: Global, q: &Program, numbers: &Numbers) -> Result<Numbers, Memory>
    ensures { IfOk result (λ made. made ≡ normal_numbers (plain_program q.now) numbers.now) }
{
    let tasks = tasks_of(alloc, &q.names, q.name.name, &q.decls)?;
    if tasks.len() > u32::MAX as usize {
        return Err(Memory);
    }
    let entries: Vec<EntryInfo> = Vec::from_slice(alloc, &numbers.entries)?;
    Ok(Numbers {
        main: numbers.main,
        tasks,
        entries,
    })
}
