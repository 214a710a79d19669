// The look-ups of a program.

ghost use Rattle.std.specs.Prelude.{◌≡◌, [], Some, IfOk, is_some, map, option_map, unwrap_or};
ghost use Rattle.ada_static_rules.specs.StaticValue.{is_static};
ghost use Rattle.ada_tree.specs.PlainExpr.{RGiven, plain_bounds, plain_drange, plain_expr, plain_subind};
ghost use Rattle.ada_stmt_copy.specs.expressions.Parts.{OkWith};
ghost use Rattle.ada_tree.specs.PlainStmt.{plain_call, plain_callee};
ghost use Rattle.ada_value.specs.Evaluating.{evaluated};
ghost use Rattle.syn_event.specs.Numbering.{entry_at, task_named};
ghost use Rattle.task_model.specs.Setting.{formals_of_info, task_meant, callee_task};
ghost use Rattle.normal_model.specs.Ranges.{array_range, family_range, kind_name, kind_of_range, range_subtype, subtype_of_range};
ghost use Rattle.normal_model.specs.Making.{moving};
ghost use Rattle.normal_model.specs.Members.{kind_of_index, known_task};
ghost use Rattle.normal_model.specs.Calls.{entry_called, slots_of};

use crate::entry_forms::{EntryForm, form_at, forms_of};
use crate::kinds::{kind_name, kind_names};
use crate::ranges::{array_range, ranges_of};
use crate::static_names::{is_static, static_names};
use ada_stmt_copy::expressions::ExprCopy;
use ada_tree::{
    Bounds, Call, Callee, Drange, Expr, Kind, Memory, NameId, ParMode, Span, Subind, Word,
};
use ada_value::{Raised, Value, evaluate, position_of, range};
use scoped_names::ScopedNames;
use std::alloc::Global;
use std::marker::Model;
use task_links::{Links, StaticNames};

/// A program with what its normal form asks of it. A contract sees the setting of its tasks. Each look-up takes one step, and those of expressions one for each part.
#[derive(Drop)]
pub struct Lookups<'p> {
    links: &'p Links<'p>,
    known: ScopedNames<bool>,
    kinds: ScopedNames<Option<NameId>>,
    ranges: ScopedNames<Option<&'p Drange>>,
    forms: ScopedNames<ScopedNames<EntryForm<'p>>>,
}

impl<'p> Model for Lookups<'p> {
    ghost use Rattle.std.specs.Coded.{codes};
    ghost use Rattle.ada_tree.proofs.Codes.{tree_codes};
    ghost use Rattle.task_links.specs.inner.SettingCode.{coded_setting};
    ghost use Rattle.task_model.specs.Setting.{Setting};
    ghost use Rattle.normal_lookups.specs.inner.Kept.{KeepsAll};

    ghost Value = { Setting };

    ghost coded = { coded_setting (Prim.hlevel (codes, tree_codes)) (Prim.hlevel (codes, tree_codes)) };

    ghost view = { λ a. a.links.now };

    ghost invariant = { λ a. KeepsAll a.links.now a.known a.kinds a.ranges a.forms };
}

// The subtype with these bounds.
fn bounded(mark: Word, bounds: Result<Bounds, Memory>) -> Result<Subind, Memory>
    ensures { IfOk result (λ made. OkWith bounds (λ b. plain_subind made ≡ record { mark = mark; bounds = Some (plain_bounds b) })) }
{
    match bounds {
        Ok(bounds) => Ok(Subind {
            mark,
            bounds: Some(bounds),
        }),
        Err(e) => Err(e),
    }
}

// The number of a task that is known; where it is not, as in no legal program, it is 0.
fn known_task(task: Result<u32, Raised>) -> u32
    ensures { result ≡ known_task task }
{
    match task {
        Ok(number) => number,
        Err(_) => 0,
    }
}

// The value of an expression where no variable is seen.
fn value(links: &Links, e: &Expr) -> Result<Value, Raised>
    ensures { result ≡ evaluated links.now.types [] (plain_expr e.now) }
{
    let names = StaticNames {
        names: links.types(),
    };
    evaluate(e, &names)
}

// The member of an array of tasks at an index that is evaluated.
fn member_of(links: &Links, array: NameId, index: &Expr) -> Result<u32, Raised>
    ensures { result ≡ task_meant links.now [] array (Some (plain_expr index.now)) }
{
    match value(links, index) {
        Ok(value) => links.member_named(array, position_of(value)),
        Err(raised) => Err(raised),
    }
}

impl<'p> Lookups<'p> {
    /// The look-ups of a program.
    pub fn new(alloc: Global, links: &'p Links<'p>) -> Result<Self, Memory>
        ensures { IfOk result (λ lookups. lookups ≡ links.now) }
    {
        let known = static_names(alloc, links.types().types())?;
        let kinds = kind_names(alloc, links.types().types())?;
        let ranges = ranges_of(alloc, links.program())?;
        let forms = forms_of(alloc, &links.program().decls)?;
        Ok(Lookups {
            links,
            known,
            kinds,
            ranges,
            forms,
        })
    }

    /// The program with its types, its numbers and what names mean there.
    pub fn links(&self) -> &'p Links<'p>
        ensures { result.now ≡ self.now }
    {
        self.links
    }

    // ---- expressions

    /// Whether an expression is static (4.9).
    pub fn is_static(&self, e: &Expr) -> bool
        ensures { result ≡ is_static self.now.types (plain_expr e.now) }
    {
        is_static(e, self.links.types(), &self.known)
    }

    /// Whether an index moves in front of its statement: one that is not static.
    pub fn moves(&self, index: &Option<Expr>) -> bool
        ensures { result ≡ is_some (moving self.now.types (option_map plain_expr index.now)) }
    {
        match index {
            Some(e) => !self.is_static(e),
            None => false,
        }
    }

    // ---- ranges

    /// The range of an array of tasks, as it is declared (9.1, 3.6).
    pub fn array_range(&self, name: NameId) -> Option<&'p Drange>
        ensures { option_map (λ r. plain_drange r.now) result ≡ array_range self.now.program name }
    {
        array_range(&self.ranges, name)
    }

    /// The range of a family, by the entry's number, as its task or its task's type declares it (9.5).
    pub fn family_range(&self, entry: u32) -> Option<&'p Drange>
        ensures { option_map (λ r. plain_drange r.now) result ≡ family_range self.now entry }
    {
        match form_at(&self.forms, self.links.numbers(), entry) {
            Some(form) => form.family,
            None => None,
        }
    }

    /// The kind of a range's values, by its place in the table.
    pub fn kind_of_range(&self, drange: &Drange) -> u32
        ensures { result ≡ kind_of_range self.now.types (plain_drange drange.now) }
    {
        let names = StaticNames {
            names: self.links.types(),
        };
        match range(drange, &names) {
            Ok(limits) => limits.kind,
            Err(_) => 0,
        }
    }

    /// The declared name of a kind, by its place in the table: that of its first mark.
    pub fn kind_name(&self, kind: u32) -> NameId
        ensures { result ≡ kind_name self.now.types kind }
    {
        kind_name(&self.kinds, kind)
    }

    /// The kind of the index of an array of tasks.
    pub fn kind_of_index(&self, array: NameId) -> Option<&Kind>
        ensures { option_map (λ k. k.now) result ≡ kind_of_index self.now.types (array_range self.now.program array) }
    {
        match self.array_range(array) {
            Some(drange) => {
                let kind = self.kind_of_range(drange);
                self.links.types().types().kinds.get(kind as usize)
            }
            None => None,
        }
    }

    // The subtype of a variable for the values between bounds.
    fn given_subtype(
        &self,
        alloc: Global,
        span: Span,
        drange: &Drange,
        given: &Bounds,
    ) -> Result<Subind, Memory>
        requires { plain_drange drange.now ≡ RGiven (plain_bounds given.now) }
        ensures { IfOk result (λ made. plain_subind made ≡ range_subtype self.now.types span (plain_drange drange.now)) }
    {
        let mark = Word {
            name: self.kind_name(self.kind_of_range(drange)),
            span,
        };
        bounded(mark, given.copy(alloc))
    }

    // The subtype of a variable for the values of a range.
    fn range_subtype(&self, alloc: Global, span: Span, drange: &Drange) -> Result<Subind, Memory>
        ensures { IfOk result (λ made. plain_subind made ≡ range_subtype self.now.types span (plain_drange drange.now)) }
    {
        match drange {
            Drange::Given(given) => self.given_subtype(alloc, span, drange, given),
            Drange::Marked(marked) => marked.copy(alloc),
        }
    }

    /// The subtype of a variable for the values of a range; where there is none it is INTEGER.
    pub fn subtype_of_range(
        &self,
        alloc: Global,
        span: Span,
        drange: Option<&Drange>,
    ) -> Result<Subind, Memory>
        ensures { IfOk result (λ made. plain_subind made ≡ subtype_of_range self.now.types span (option_map (λ r. plain_drange r.now) drange.entry)) }
    {
        match drange {
            Some(drange) => self.range_subtype(alloc, span, drange),
            None => Ok(Subind {
                mark: Word {
                    name: NameId::INTEGER,
                    span,
                },
                bounds: None,
            }),
        }
    }

    // ---- entries and tasks

    // The number of the first task of a name; where there is none it is 0.
    fn first_named(&self, name: NameId) -> u32
        ensures { result ≡ unwrap_or (task_named self.now.numbers name) 0 }
    {
        match self.links.task_named(name) {
            Some(task) => task,
            None => 0,
        }
    }

    /// The entry that is called, of the first task that the callee's name stands for.
    pub fn entry_called(&self, call: &Call) -> u32
        ensures { result ≡ entry_called self.now (plain_call call.now) }
    {
        let task = self.first_named(call.task.name.name);
        self.links.entry_of(task, call.entry.name)
    }

    /// The modes of the formals of an entry, one by one and in order.
    pub fn modes(&self, entry: u32) -> &[ParMode]
        ensures { result.now ≡ map (λ x. x.mode) (slots_of (formals_of_info self.now (entry_at self.now.numbers entry))) }
    {
        match form_at(&self.forms, self.links.numbers(), entry) {
            Some(form) => &form.modes,
            None => &[],
        }
    }

    /// The marks of the formals of an entry, one by one and in order.
    pub fn marks(&self, entry: u32) -> &[Word]
        ensures { result.now ≡ map (λ x. x.mark) (slots_of (formals_of_info self.now (entry_at self.now.numbers entry))) }
    {
        match form_at(&self.forms, self.links.numbers(), entry) {
            Some(form) => &form.marks,
            None => &[],
        }
    }

    // The task that a callee names, where no variable is seen.
    fn task_of(&self, callee: &Callee) -> Result<u32, Raised>
        ensures { result ≡ callee_task self.now [] (plain_callee callee.now) }
    {
        match &callee.index {
            Some(index) => member_of(self.links, callee.name.name, index),
            None => Ok(self.first_named(callee.name.name)),
        }
    }

    /// The number of the task that a callee without index or with a static one names.
    pub fn known_task(&self, callee: &Callee) -> u32
        ensures { result ≡ known_task (callee_task self.now [] (plain_callee callee.now)) }
    {
        known_task(self.task_of(callee))
    }
}
