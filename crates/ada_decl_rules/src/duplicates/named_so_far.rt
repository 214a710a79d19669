// What the declarations of a program name, one behind the other: all that rule Duplicate looks at.

ghost use Rattle.std.specs.Prelude.{◌≡◌, ◌++◌, ◌∷◌, ◌||◌, [], Bool, true, false, List, OnOk, IfOk, map};
ghost use Rattle.ada_tree.specs.declared.naming.Span.{Span as PlainSpan};
ghost use Rattle.ada_tree.specs.PlainStmt.{plain_body};
ghost use Rattle.ada_tree.specs.PlainDecl.{DIntIo, DTask, DTaskBody, decls_of, plain_decl, plain_entry, plain_task};
ghost use Rattle.ada_static_rules.specs.Scope.{Scope};
ghost use Rattle.ada_static_rules.specs.Demand.{Site};
ghost use Rattle.ada_static_rules.specs.Declaring.{before_all, first_scope};
ghost use Rattle.ada_static_rules.specs.Sites.{body_sites, entries_sites, entry_sites, names_sites, own_sites, with_words};
ghost use Rattle.ada_static_rules.specs.Repeated.{repeated_from};
ghost use Rattle.scoped_names.specs.name_sets.Numbers.{numbers_in};
ghost use Rattle.ada_decl_rules.specs.duplicates.NamingsInOrder.{Named, declared, namings_of};
ghost use Rattle.ada_decl_rules.specs.duplicates.NamedSoFar.{AreBehind, behind, no_notes, object_words, of_own, with_declared};

use crate::duplicates::namings_in_order::{
    Naming, note_body, note_formals, note_once, note_word, note_words,
};
use crate::duplicates::repeats::refuse_repeats;
use ada_static_rules::refusals::Refusal;
use ada_tree::{Body, Decl, DeclKind, EntryDecl, TaskUnit, Word};
use scoped_names::name_sets::NameSet;
use std::alloc::{AllocError, Global};
use std::marker::Model;

/// What is named before a place of main: the namings in the order of the text, the names of main, the tasks whose bodies stand before, and whether an instance of INTEGER_IO does.
#[derive(Drop)]
pub struct Notes {
    namings: Vec<Naming>,
    here: NameSet,
    bodies: NameSet,
    has_instance: bool,
}

impl Model for Notes {
    ghost use Rattle.scoped_names.specs.name_sets.Numbers.{numbers_in};
    ghost use Rattle.ada_decl_rules.specs.duplicates.NamedSoFar.{PlainNotes};

    ghost Value = { PlainNotes };

    ghost view = { λ a. record { namings = a.namings.items; here = numbers_in a.here; bodies = numbers_in a.bodies; has_instance = a.has_instance } };
}

// An entry, behind those of the same task, with its formals.
fn note_entry(
    alloc: Global,
    namings: &mut Vec<Naming>,
    names: &mut NameSet,
    entry: &EntryDecl,
) -> Result<(), AllocError>
    ensures namings { OnOk result (Named namings.old.items namings.new.items (λ scope. entry_sites scope (numbers_in names.old) (plain_entry entry.now))) }
    ensures names { OnOk result (numbers_in names.new ≡ entry.now.name.name.0 ∷ numbers_in names.old) }
{
    note_once(namings, names, entry.name)?;
    note_formals(alloc, namings, &entry.formals)
}

// The entries of a task.
fn note_entries(
    alloc: Global,
    namings: &mut Vec<Naming>,
    entries: &[EntryDecl],
) -> Result<(), AllocError>
    ensures { OnOk result (Named namings.old.items namings.new.items (λ scope. entries_sites scope [] (map plain_entry entries.now))) }
{
    let mut names = NameSet::new(alloc);
    for entry in entries {
        note_entry(alloc, namings, &mut names, entry)?;
    }
    Ok(())
}

// A declaration of a task body: nothing but objects stands there.
fn note_object(namings: &mut Vec<Naming>, here: &mut NameSet, decl: &Decl) -> Result<(), AllocError>
    ensures namings { OnOk result (namings.new.items ≡ namings.old.items ++ declared false (numbers_in here.old) (object_words (plain_decl decl.now))) }
    ensures here { OnOk result (numbers_in here.new ≡ with_words (numbers_in here.old) (object_words (plain_decl decl.now))) }
{
    match &decl.kind {
        DeclKind::Object { names, .. } => note_words(namings, here, false, names),
        _ => Ok(()),
    }
}

// The own objects of a task body, which are a scope of their own.
fn note_objects(
    alloc: Global,
    namings: &mut Vec<Naming>,
    objects: &[Decl],
) -> Result<(), AllocError>
    ensures { OnOk result (Named namings.old.items namings.new.items (λ scope. own_sites (of_own scope) (decls_of (map plain_decl objects.now)))) }
{
    let mut here = NameSet::new(alloc);
    for decl in objects {
        note_object(namings, &mut here, decl)?;
    }
    Ok(())
}

impl Notes {
    /// What is named before the declarations of a program of that name.
    pub fn new(alloc: Global, name: Word) -> Result<Self, AllocError>
        ensures { IfOk result (λ notes. notes ≡ behind no_notes (names_sites true before_all (name ∷ [])) (first_scope name)) }
    {
        let mut notes = Notes {
            namings: Vec::new(alloc),
            here: NameSet::new(alloc),
            bodies: NameSet::new(alloc),
            has_instance: false,
        };
        notes.note_name(name)?;
        Ok(notes)
    }

    // A name of main that is no variable.
    fn note_name(&mut self, name: Word) -> Result<(), AllocError>
        ensures { OnOk result (self.new ≡ with_declared true self.old (name ∷ [])) }
    {
        note_word(&mut self.namings, &mut self.here, true, name)
    }

    // Names of main, which may be variables.
    fn note_names(&mut self, fixed: bool, names: &[Word]) -> Result<(), AllocError>
        ensures { OnOk result (self.new ≡ with_declared fixed self.old names.now) }
    {
        note_words(&mut self.namings, &mut self.here, fixed, names)
    }

    // Objects of main, of which constants and tasks are no variables.
    fn note_main_objects(
        &mut self,
        constant: bool,
        of_tasks: bool,
        names: &[Word],
    ) -> Result<(), AllocError>
        ensures { OnOk result (self.new ≡ with_declared (constant || of_tasks) self.old names.now) }
    {
        self.note_names(constant || of_tasks, names)
    }

    // An enumeration type with its literals.
    fn note_enumeration(&mut self, name: Word, literals: &[Word]) -> Result<(), AllocError>
        ensures { OnOk result (self.new ≡ with_declared true self.old (name ∷ literals.now)) }
    {
        self.note_name(name)?;
        self.note_names(true, literals)
    }

    // An instance of INTEGER_IO.
    fn note_instance(&mut self, name: Word) -> Result<(), AllocError>
        ensures { OnOk result ((of_tasks : Bool) (span : PlainSpan) → AreBehind self.old self.new of_tasks (DIntIo name span)) }
    {
        let again = self.has_instance;
        self.namings.push(Naming::Once { again, word: name })?;
        self.has_instance = true;
        self.note_name(name)
    }

    // A task or a task type with its entries.
    fn note_task(&mut self, alloc: Global, task: &TaskUnit) -> Result<(), AllocError>
        ensures { OnOk result ((of_tasks : Bool) (span : PlainSpan) → AreBehind self.old self.new of_tasks (DTask (plain_task task.now) span)) }
    {
        self.note_name(task.name)?;
        note_entries(alloc, &mut self.namings, &task.entries)
    }

    // A task body with its own objects and its statements.
    fn note_task_body(
        &mut self,
        alloc: Global,
        name: Word,
        objects: &[Decl],
        body: &Body,
    ) -> Result<(), AllocError>
        ensures { OnOk result ((of_tasks : Bool) (span : PlainSpan) → AreBehind self.old self.new of_tasks (DTaskBody name (decls_of (map plain_decl objects.now)) (plain_body body.now) span)) }
    {
        note_once(&mut self.namings, &mut self.bodies, name)?;
        note_objects(alloc, &mut self.namings, objects)?;
        note_body(alloc, &mut self.namings, body)
    }

    /// A declaration of main; `of_tasks` says whether it is one of objects that are tasks or rows of tasks.
    pub fn note(&mut self, alloc: Global, decl: &Decl, of_tasks: bool) -> Result<(), AllocError>
        ensures { OnOk result (AreBehind self.old self.new of_tasks (plain_decl decl.now)) }
    {
        match &decl.kind {
            DeclKind::Number { name, .. } => self.note_name(*name),
            DeclKind::Object {
                names,
                constant,
                ..
            } => self.note_main_objects(*constant, of_tasks, names),
            DeclKind::Enumeration { name, literals } => self.note_enumeration(*name, literals),
            DeclKind::Array { name, .. } => self.note_name(*name),
            DeclKind::Subtype { name, .. } => self.note_name(*name),
            DeclKind::Exception { names } => self.note_names(true, names),
            DeclKind::IntIo { name } => self.note_instance(*name),
            DeclKind::Pragma { .. } => Ok(()),
            DeclKind::Task(task) => self.note_task(alloc, task),
            DeclKind::TaskBody {
                name,
                objects,
                body,
            } => self.note_task_body(alloc, *name, objects, body),
        }
    }

    /// The first name that is declared or named again, behind the body of main.
    pub fn refuse(self, alloc: Global, body: &Body) -> Result<Option<Refusal>, AllocError>
        ensures { IfOk result (λ r. (before : List Site) (scope : Scope) → self.namings ≡ namings_of before → r ≡ repeated_from [] (before ++ body_sites scope (plain_body body.now))) }
    {
        let Notes { mut namings, .. } = self;
        note_body(alloc, &mut namings, body)?;
        refuse_repeats(alloc, &namings)
    }
}
