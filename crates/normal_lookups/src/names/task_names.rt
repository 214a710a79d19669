// The names of tasks: a member of an array has one of its own.

ghost use Rattle.std.specs.Prelude.{◌≡◌, IfOk, OnOk, fold, map};
ghost use Rattle.ada_tree.specs.NameList.{interned};
ghost use Rattle.syn_event.specs.DeclaredTasks.{text_of};
ghost use Rattle.normal_model.specs.Names.{member_texts, texts_of_member};
ghost use Rattle.normal_lookups.specs.names.inner.MemberNames.{IsNamed, name_behind};

use crate::names::texts::member_text;
use ada_tree::{Memory, NameId, Names};
use std::alloc::Global;
use syn_event::TaskInfo;

// The text of a name; where there is none it is empty.
fn text_of(names: &Names, id: NameId) -> &str
    ensures { result.now ≡ text_of names.now id }
{
    match names.text(id) {
        Some(text) => text,
        None => "",
    }
}

// The name of a member of an array goes behind the others, where it is not among them.
#[tactic(auto, using(crate::proofs::names::Places::place_of))]
fn name_member(
    alloc: Global,
    old: &Names,
    array: NameId,
    index: i32,
    names: &mut Names,
) -> Result<NameId, Memory>
    ensures texts { OnOk result (names.new ≡ fold interned names.old (texts_of_member (text_of old.now array) (Some index))) }
    ensures id { IfOk result (λ id. IsNamed old.now names.new array (Some index) id) }
{
    let text = member_text(alloc, text_of(old, array), index)?;
    let id = names.intern(text.as_str())?;
    Ok(id)
}

// The name of a task goes behind the others, where it is new.
fn name_task(
    alloc: Global,
    old: &Names,
    info: TaskInfo,
    names: &mut Names,
) -> Result<NameId, Memory>
    ensures texts { OnOk result (names.new ≡ fold interned names.old (texts_of_member (text_of old.now info.name) info.member)) }
    ensures id { IfOk result (λ id. IsNamed old.now names.new info.name info.member id) }
{
    match info.member {
        Some(index) => name_member(alloc, old, info.name, index, names),
        None => Ok(info.name),
    }
}

// The names of tasks, in order; those of members go behind the names of the program.
pub(crate) fn name_tasks(
    alloc: Global,
    old: &Names,
    tasks: &[TaskInfo],
    names: &mut Names,
) -> Result<Vec<NameId>, Memory>
    requires { names.old ≡ old.now }
    ensures texts { OnOk result (names.new ≡ fold interned old.now (member_texts old.now tasks.now)) }
    ensures ids { IfOk result (λ ids. ids.items ≡ map (name_behind old.now (fold interned old.now (member_texts old.now tasks.now))) tasks.now) }
{
    let mut ids = Vec::new(alloc);
    for info in tasks {
        let id = name_task(alloc, old, *info, names)?;
        ids.push(id)?;
    }
    Ok(ids)
}
