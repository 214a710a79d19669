// What a task evaluates on where it stands, and the tasks and members that are named there.

ghost use Rattle.std.specs.Prelude.{◌≡◌, Some, option_copied, option_map};
ghost use Rattle.ada_tree.specs.PlainExpr.{plain_expr};
ghost use Rattle.ada_tree.specs.PlainStmt.{plain_callee};
ghost use Rattle.ada_value.specs.Evaluating.{evaluated};
ghost use Rattle.syn_event.specs.Numbering.{entry_at};
ghost use Rattle.task_model.specs.Setting.{task_meant, callee_task, family_limits, index_in, member_index};

use ada_tree::{Callee, Expr, NameId};
use ada_value::{Raised, Value, evaluate, position_of};
use syn_event::Numbers;
use task_links::store::Objects;
use task_links::{Links, TaskScope};

/// What a task evaluates on where it stands: what the names of its program mean, its number, and its variables.
#[derive(Drop)]
pub struct Here<'a> {
    pub links: &'a Links<'a>,
    pub number: u32,
    pub objects: &'a Objects,
}

// An index in the range of a family; outside it CONSTRAINT_ERROR is raised.
fn within(first: i32, last: i32, index: i64) -> Result<i32, Raised>
    ensures { result ≡ index_in record { kind = 0; first = first; last = last } index }
{
    if first as i64 <= index && index <= last as i64 {
        Ok(index as i32)
    } else {
        Err(Raised::Constraint)
    }
}

// An index in the range of the family of this number (9.5).
fn family_index(numbers: &Numbers, entry: u32, index: i64) -> Result<i32, Raised>
    ensures { result ≡ index_in (family_limits (entry_at numbers.now entry)) index }
{
    match numbers.entry(entry) {
        Some(info) => within(info.first, info.last, index),
        None => within(i32::MIN, i32::MAX, index),
    }
}

impl<'a> Here<'a> {
    /// The value of an expression, or the exception that its evaluation raises (4.1 to 4.5).
    pub fn value(&self, e: &Expr) -> Result<Value, Raised>
        ensures { result ≡ evaluated self.now.links.now.types self.now.objects.now (plain_expr e.now) }
    {
        let scope = TaskScope {
            objects: self.objects,
            names: self.links.types(),
        };
        let value = evaluate(e, &scope);
        let TaskScope {
            objects: _,
            names: _,
        } = scope;
        value
    }

    // The member of an array of tasks at an index that is evaluated.
    fn member_of(&self, name: NameId, index: &Expr) -> Result<u32, Raised>
        ensures { result ≡ task_meant self.now.links.now self.now.objects.now name (Some (plain_expr index.now)) }
    {
        match self.value(index) {
            Ok(value) => self.links.member_named(name, position_of(value)),
            Err(raised) => Err(raised),
        }
    }

    // The task that a name and an index, if one stands there, come to.
    fn task_meant(&self, name: NameId, index: &Option<Expr>) -> Result<u32, Raised>
        ensures { result ≡ task_meant self.now.links.now self.now.objects.now name (option_map plain_expr index.now) }
    {
        match index {
            None => Ok(self.links.task_named(name).unwrap_or(0)),
            Some(index) => self.member_of(name, index),
        }
    }

    /// The number of the task that the callee of a call or a name of an abort statement comes to; of a member of an array its index is
    /// evaluated, and one outside the array's range raises CONSTRAINT_ERROR (9.5, 9.10).
    pub fn task_of(&self, callee: &Callee) -> Result<u32, Raised>
        ensures { result ≡ callee_task self.now.links.now self.now.objects.now (plain_callee callee.now) }
    {
        self.task_meant(callee.name.name, &callee.index)
    }

    /// The index of a member of the entry of this number: of a family it is evaluated, and one outside the family's range raises
    /// CONSTRAINT_ERROR; that of a plain entry is 0 (9.5).
    pub fn member_index(&self, entry: u32, index: Option<&Expr>) -> Result<i32, Raised>
        ensures { result ≡ member_index self.now.links.now self.now.objects.now entry (option_map plain_expr (option_copied index.entry)) }
    {
        match index {
            None => Ok(0),
            Some(index) => match self.value(index) {
                Ok(value) => family_index(self.links.numbers(), entry, position_of(value)),
                Err(raised) => Err(raised),
            },
        }
    }
}
