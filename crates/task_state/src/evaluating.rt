// What expressions, conditions, ranges and targets come to where a task stands. Nothing here takes memory.

ghost use Rattle.std.specs.Prelude.{◌≡◌};
ghost use Rattle.ada_tree.specs.PlainExpr.{plain_expr, plain_drange};
ghost use Rattle.ada_tree.specs.PlainStmt.{plain_target};
ghost use Rattle.ada_value.specs.Variables.{checked_for, component_place, object_named};
ghost use Rattle.task_model.specs.Tasks.{value_of, vars_of};
ghost use Rattle.task_model.specs.Steps.{aim_of, condition};
ghost use Rattle.task_state.specs.Plain.{plain_task, range_in};

use crate::TaskState;
use ada_tree::{Drange, Expr, NameId, Target};
use ada_value::{Limits, Raised, Value, condition, evaluate, range};
use task_links::TaskScope;

impl<'p> TaskState<'p> {
    /// The value of an expression, or the exception that its evaluation raises (4.4).
    pub fn value(&self, e: &Expr) -> Result<Value, Raised>
        ensures { result ≡ value_of (plain_task self.now) (plain_expr e.now) }
    {
        let scope = TaskScope {
            objects: &self.objects,
            names: self.links.types(),
        };
        let result = evaluate(e, &scope);
        let TaskScope {
            objects: _objects,
            names: _names,
        } = scope;
        result
    }

    /// Whether a condition holds, or the exception that its evaluation raises (5.3, 5.5, 5.7).
    pub fn condition(&self, e: &Expr) -> Result<bool, Raised>
        ensures { result ≡ condition (plain_task self.now) (plain_expr e.now) }
    {
        let scope = TaskScope {
            objects: &self.objects,
            names: self.links.types(),
        };
        let result = condition(e, &scope);
        let TaskScope {
            objects: _objects,
            names: _names,
        } = scope;
        result
    }

    /// A discrete range, or the exception that its bounds raise (3.6).
    pub fn range(&self, given: &Drange) -> Result<Limits, Raised>
        ensures { result ≡ range_in (plain_task self.now) (plain_drange given.now) }
    {
        let scope = TaskScope {
            objects: &self.objects,
            names: self.links.types(),
        };
        let result = range(given, &scope);
        let TaskScope {
            objects: _objects,
            names: _names,
        } = scope;
        result
    }

    // The place of the component of a variable at an index value.
    fn component_place(&self, name: NameId, index: Value) -> Result<usize, Raised>
        ensures { result ≡ component_place (object_named (vars_of (plain_task self.now)) name) index }
    {
        match self.objects.named(name) {
            Some(variable) => variable.component_place(index),
            None => Err(Raised::Constraint),
        }
    }

    /// The place of a target in its variable, from 0: an index is evaluated and checked (4.1.1, 5.2).
    pub fn aim(&self, target: &Target) -> Result<usize, Raised>
        ensures { result ≡ aim_of (plain_task self.now) (plain_target target.now) }
    {
        match &target.index {
            Some(index) => match self.value(index) {
                Ok(value) => self.component_place(target.name.name, value),
                Err(raised) => Err(raised),
            },
            None => Ok(0),
        }
    }

    /// A value as it is assigned to the latest variable of a name or to its components; outside the subtype CONSTRAINT_ERROR (5.2).
    pub fn checked(&self, name: NameId, value: Value) -> Result<Value, Raised>
        ensures { result ≡ checked_for (object_named (vars_of (plain_task self.now)) name) value }
    {
        match self.objects.named(name) {
            Some(variable) => variable.checked(value),
            None => Ok(value),
        }
    }
}
