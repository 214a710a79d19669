// What entries ask of their calls.

ghost use Rattle.std.specs.Prelude.{◌≡◌, ◌++◌, ◌∷◌, [], IfOk, OnOk, map, option_copied, option_map};
ghost use Rattle.ada_tree.specs.PlainStmt.{plain_formal};
ghost use Rattle.ada_tree.specs.PlainDecl.{decls_of, plain_decl, plain_entry};
ghost use Rattle.ada_tree.specs.PlainProgram.{PProgram};
ghost use Rattle.syn_event.specs.DeclaredTasks.{decl_list, tasks_in, tasks_of};
ghost use Rattle.normal_model.specs.Calls.{slots_of};
ghost use Rattle.normal_lookups.specs.inner.EntryForms.{form_at, form_of, form_of_unit};
ghost use Rattle.normal_lookups.specs.inner.Kept.{entry_named, seen_entry, seen_form, seen_unit, units_named};

use ada_tree::{Decl, DeclKind, Drange, EntryDecl, Formal, Memory, NameId, ParMode, Word};
use scoped_names::ScopedNames;
use std::alloc::Global;
use syn_event::{Numbers, TaskInfo};

/// What an entry asks of its calls: its range, where it is a family, and the mode and the mark of each formal, in order.
#[derive(Drop)]
pub(crate) struct EntryForm<'p> {
    pub(crate) family: Option<&'p Drange>,
    pub(crate) modes: Vec<ParMode>,
    pub(crate) marks: Vec<Word>,
}

// Something once for each of these names.
fn add_each<T: Copy + Drop>(list: &mut Vec<T>, names: &[Word], what: T) -> Result<(), Memory>
    ensures { OnOk result (list.new.items ≡ list.old.items ++ map (λ w. what) names.now) }
{
    for _name in names {
        list.push(what)?;
    }
    Ok(())
}

// The modes of formals, one by one and in order.
fn modes_of(alloc: Global, formals: &[Formal]) -> Result<Vec<ParMode>, Memory>
    ensures { IfOk result (λ modes. modes.items ≡ map (λ x. x.mode) (slots_of (map plain_formal formals.now))) }
{
    let mut modes = Vec::new(alloc);
    for formal in formals {
        add_each(&mut modes, &formal.names, formal.mode)?;
    }
    Ok(modes)
}

// The marks of formals, one by one and in order.
fn marks_of(alloc: Global, formals: &[Formal]) -> Result<Vec<Word>, Memory>
    ensures { IfOk result (λ marks. marks.items ≡ map (λ x. x.mark) (slots_of (map plain_formal formals.now))) }
{
    let mut marks = Vec::new(alloc);
    for formal in formals {
        add_each(&mut marks, &formal.names, formal.mark)?;
    }
    Ok(marks)
}

// What an entry asks of its calls.
fn form_of<'p>(alloc: Global, entry: &'p EntryDecl) -> Result<EntryForm<'p>, Memory>
    ensures { IfOk result (λ form. seen_form form ≡ form_of (plain_entry entry.now)) }
{
    let modes = modes_of(alloc, &entry.formals)?;
    let marks = marks_of(alloc, &entry.formals)?;
    let family = entry.family.as_ref();
    Ok(EntryForm {
        family,
        modes,
        marks,
    })
}

// The forms of entries, each by its name; that of the first of a name is found.
fn entries_named<'p>(
    alloc: Global,
    entries: &'p [EntryDecl],
) -> Result<ScopedNames<EntryForm<'p>>, Memory>
    ensures { IfOk result (λ forms. map seen_entry forms ≡ map entry_named (map plain_entry entries.now)) }
{
    let mut forms = ScopedNames::new(alloc);
    for place in (0..entries.len()).rev() {
        let entry = &entries[place];
        forms.declare(entry.name.name.0, form_of(alloc, entry)?)?;
    }
    Ok(forms)
}

// The forms of a declaration's entries stand in front of the others.
fn declare_unit<'p>(
    alloc: Global,
    decl: &'p Decl,
    forms: &mut ScopedNames<ScopedNames<EntryForm<'p>>>,
) -> Result<(), Memory>
    ensures { OnOk result (map seen_unit forms.new ≡ units_named (tasks_in (plain_decl decl.now ∷ [])) ++ map seen_unit forms.old) }
{
    match &decl.kind {
        DeclKind::Task(unit) => {
            let named = entries_named(alloc, &unit.entries)?;
            forms.declare(unit.name.name.0, named)?;
            Ok(())
        }
        _ => Ok(()),
    }
}

/// The forms of all entries, by the names of their tasks or task types and their own.
pub(crate) fn forms_of<'p>(
    alloc: Global,
    decls: &'p [Decl],
) -> Result<ScopedNames<ScopedNames<EntryForm<'p>>>, Memory>
    ensures { IfOk result (λ forms. map seen_unit forms ≡ units_named (tasks_in (decl_list (decls_of (map plain_decl decls.now))))) }
{
    let mut forms = ScopedNames::new(alloc);
    for place in (0..decls.len()).rev() {
        declare_unit(alloc, &decls[place], &mut forms)?;
    }
    Ok(forms)
}

// The form of the entry of a name that the unit of a task declares.
fn form_of_unit<'a, 'p>(
    forms: &'a ScopedNames<ScopedNames<EntryForm<'p>>>,
    task: Option<&TaskInfo>,
    name: NameId,
) -> Option<&'a EntryForm<'p>>
    ensures { (p : PProgram) → map seen_unit forms.now ≡ units_named (tasks_of p) → option_map (λ x. seen_form x.now) result ≡ form_of_unit p (option_copied task.entry) name }
{
    match task {
        Some(info) => match forms.meaning(info.unit.0) {
            Some(unit) => unit.meaning(name.0),
            None => None,
        },
        None => None,
    }
}

/// The form of the entry of a number.
pub(crate) fn form_at<'a, 'p>(
    forms: &'a ScopedNames<ScopedNames<EntryForm<'p>>>,
    numbers: &Numbers,
    entry: u32,
) -> Option<&'a EntryForm<'p>>
    ensures { (p : PProgram) → map seen_unit forms.now ≡ units_named (tasks_of p) → option_map (λ x. seen_form x.now) result ≡ form_at p numbers.now entry }
{
    match numbers.entry(entry) {
        Some(info) => form_of_unit(forms, numbers.tasks.get(info.owner as usize), info.name),
        None => None,
    }
}
