// A program with what its names mean, for all its tasks.

ghost use Rattle.std.specs.Prelude.{◌≡◌, IfOk};
ghost use Rattle.ada_tree.specs.PlainProgram.{plain_program};
ghost use Rattle.ada_value.specs.Values.{limits_named, limits_of_kind};
ghost use Rattle.ada_value.specs.Evaluating.{fixed_value};
ghost use Rattle.syn_event.specs.Numbering.{entry_at, task_named};
ghost use Rattle.task_model.specs.Setting.{entry_of, entry_parameters, family_limits, index_in, is_family, member_named};

use crate::entry_formals::{declared_formals, kept_for_entry};
use crate::task_names::TaskNames;
use crate::type_names::TypeNames;
use ada_tree::{Memory, NameId, Program, Types};
use ada_value::{Limits, Raised, Value, integer_limits, lies_in};
use std::alloc::Global;
use std::collections::HashMap;
use std::marker::Model;
use syn_event::Numbers;
use task_model::FormalParameter;

/// A program with its types, its numbers, and what its names mean there. A contract sees the setting of its tasks.
#[derive(Drop)]
pub struct Links<'p> {
    program: &'p Program,
    types: TypeNames<'p>,
    tasks: TaskNames<'p>,
    formals: HashMap<(u32, u32), Vec<FormalParameter>>,
}

impl<'p> Model for Links<'p> {
    ghost use Rattle.std.specs.Coded.{codes};
    ghost use Rattle.ada_tree.proofs.Codes.{tree_codes};
    ghost use Rattle.ada_tree.specs.PlainProgram.{plain_program};
    ghost use Rattle.task_links.specs.inner.SettingCode.{coded_setting};
    ghost use Rattle.task_model.specs.Setting.{Setting};
    ghost use Rattle.task_links.specs.inner.Made.{KeepsEntries};

    ghost Value = { Setting };

    ghost coded = { coded_setting (Prim.hlevel (codes, tree_codes)) (Prim.hlevel (codes, tree_codes)) };

    ghost view = { λ a. record { program = plain_program a.program.now; types = a.types; numbers = a.tasks } };

    ghost invariant = { λ a. KeepsEntries a.types (plain_program a.program.now) a.formals };
}

// Whether the entry of this number is a family.
fn is_family(numbers: &Numbers, entry: u32) -> bool
    ensures { result ≡ is_family numbers.now entry }
{
    match numbers.entry(entry) {
        Some(info) => info.family,
        None => false,
    }
}

// The range of the index of the entry of this number.
fn family_limits(numbers: &Numbers, entry: u32) -> Limits
    ensures { result ≡ family_limits (entry_at numbers.now entry) }
{
    match numbers.entry(entry) {
        Some(info) => Limits {
            kind: 0,
            first: info.first as i64,
            last: info.last as i64,
        },
        None => integer_limits(),
    }
}

/// An index of a family; outside the family's range it raises CONSTRAINT_ERROR (9.5).
pub fn index_in(limits: Limits, index: i64) -> Result<i64, Raised>
    ensures { result ≡ index_in limits index }
{
    if lies_in(limits, index) {
        Ok(index)
    } else {
        Err(Raised::Constraint)
    }
}

impl<'p> Links<'p> {
    /// What the names of a program mean, with its types and numbers.
    pub fn new(
        alloc: Global,
        program: &'p Program,
        types: &'p Types,
        numbers: &'p Numbers,
    ) -> Result<Self, Memory>
        ensures { IfOk result (λ links. links ≡ record { program = plain_program program.now; types = types.now; numbers = numbers.now }) }
    {
        let types = TypeNames::new(alloc, types)?;
        let tasks = TaskNames::new(alloc, numbers)?;
        let formals = declared_formals(alloc, &types, &program.decls)?;
        Ok(Links {
            program,
            types,
            tasks,
            formals,
        })
    }

    /// The program.
    pub fn program(&self) -> &Program
        ensures { plain_program result.now ≡ self.now.program }
    {
        self.program
    }

    /// The names of its types, its constants and literals.
    pub fn types(&self) -> &TypeNames<'p>
        ensures { result.now ≡ self.now.types }
    {
        &self.types
    }

    /// The numbers of its tasks and entries.
    pub fn numbers(&self) -> &Numbers
        ensures { result.now ≡ self.now.numbers }
    {
        self.tasks.numbers()
    }

    /// The value of a name that is no variable; of a name that means no value it is 0.
    pub fn fixed_value(&self, name: NameId) -> Value
        ensures { result ≡ fixed_value self.now.types name }
    {
        self.types.fixed_value(name)
    }

    /// The subtype of a name; of a name that is no mark it is INTEGER.
    pub fn limits_named(&self, name: NameId) -> Limits
        ensures { result ≡ limits_named self.now.types name }
    {
        self.types.limits_named(name)
    }

    /// The subtype of all values of a kind.
    pub fn limits_of_kind(&self, kind: u32) -> Limits
        ensures { result ≡ limits_of_kind self.now.types kind }
    {
        self.types.limits_of_kind(kind)
    }

    /// The number of the first task of a name, the main program among them.
    pub fn task_named(&self, name: NameId) -> Option<u32>
        ensures { result ≡ task_named self.now.numbers name }
    {
        self.tasks.task_named(name)
    }

    /// The number of the member of an array of tasks at an index; an index outside the array's range raises CONSTRAINT_ERROR (4.1.1, 9.1).
    pub fn member_named(&self, name: NameId, index: i64) -> Result<u32, Raised>
        ensures { result ≡ member_named self.now.numbers name index }
    {
        self.tasks.member_named(name, index)
    }

    /// The number of the entry of a name that a task has; where it has none it is 0.
    pub fn entry_of(&self, task: u32, name: NameId) -> u32
        ensures { result ≡ entry_of self.now.numbers task name }
    {
        self.tasks.entry_named(task, name).unwrap_or(0)
    }

    /// Whether the entry of this number is a family.
    pub fn is_family(&self, entry: u32) -> bool
        ensures { result ≡ is_family self.now.numbers entry }
    {
        is_family(self.tasks.numbers(), entry)
    }

    /// The range of the index of the entry of this number; of a number that is no entry's it is INTEGER.
    pub fn family_limits(&self, entry: u32) -> Limits
        ensures { result ≡ family_limits (entry_at self.now.numbers entry) }
    {
        family_limits(self.tasks.numbers(), entry)
    }

    /// The formals of the entry of this number (9.5); a number that is no entry's has none.
    pub fn entry_parameters(&self, entry: u32) -> &[FormalParameter]
        ensures { result.now ≡ entry_parameters self.now entry }
    {
        kept_for_entry(&self.formals, self.tasks.numbers(), entry)
    }
}
