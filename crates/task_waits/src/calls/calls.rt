// What a call comes to, and the values with which its formals open.

ghost use Rattle.std.specs.Prelude.{◌≡◌, [], map, option_copied, option_map, Some, OnOk, OnErr};
ghost use Rattle.ada_tree.specs.PlainExpr.{plain_expr};
ghost use Rattle.ada_tree.specs.PlainStmt.{plain_args, plain_call};
ghost use Rattle.ada_value.specs.Values.{and_then, checked};
ghost use Rattle.ada_value.specs.Evaluating.{evaluated};
ghost use Rattle.task_model.specs.Setting.{lists_of};
ghost use Rattle.task_model.specs.Calls.{openings, called_with, called, opening_values};
ghost use Rattle.task_waits.specs.calls.Looks.{raised_by, member_called, values_or_none, opening_or};

use crate::calls::argument_lists::lists_of;
use crate::calls::here::Here;
use ada_tree::{Args, Call, Expr, Memory, ParMode};
use ada_value::{Limits, Raised, Value, checked, lower};
use task_model::FormalParameter;

/// A member of an entry: the number of the entry and the index, which is 0 for a plain entry (9.5).
#[derive(Clone, Copy, Debug, PartialEq, Eq)]
pub struct Member {
    pub entry: u32,
    pub index: i32,
}

impl<'a> Here<'a> {
    // The value of an actual, which is checked against a subtype.
    fn copied_in(&self, limits: Limits, actual: &Expr) -> Result<Value, Raised>
        ensures { result ≡ and_then (evaluated self.now.links.now.types self.now.objects.now (plain_expr actual.now)) (λ v. checked limits v) }
    {
        match self.value(actual) {
            Ok(value) => checked(limits, value),
            Err(raised) => Err(raised),
        }
    }

    // The opening value of a formal with its actual, if there is one; an `out` one opens with the lower bound (6.2).
    fn opening(&self, formal: FormalParameter, actual: Option<&Expr>) -> Result<Value, Raised>
        ensures { result ≡ opening_or self.now.links.now.types self.now.objects.now formal (option_map plain_expr (option_copied actual.entry)) }
    {
        match actual {
            Some(actual) => match formal.mode {
                ParMode::Take => self.copied_in(formal.limits, actual),
                ParMode::Give => Ok(lower(self.links.types().types(), formal.limits)),
                ParMode::Both => self.copied_in(formal.limits, actual),
            },
            None => Ok(lower(self.links.types().types(), formal.limits)),
        }
    }

    // The exception that the actuals raise: each is evaluated and checked before the next.
    fn raised_in_actuals(&self, formals: &[FormalParameter], actuals: &[Expr]) -> Option<Raised>
        ensures { result ≡ raised_by (openings self.now.links.now.types self.now.objects.now formals.now (map plain_expr actuals.now)) }
    {
        for (place, formal) in formals.iter().enumerate() {
            match self.opening(*formal, actuals.get(place)) {
                Ok(_) => {}
                Err(raised) => return Some(raised),
            }
        }
        None
    }

    // The opening values; none where an exception is raised.
    fn put_openings(
        &self,
        formals: &[FormalParameter],
        actuals: &[Expr],
        values: &mut Vec<Value>,
    ) -> Result<(), Memory>
        ensures ok { OnOk result (values.new.items ≡ values_or_none (openings self.now.links.now.types self.now.objects.now formals.now (map plain_expr actuals.now))) }
        ensures err { OnErr result (values.new.items ≡ []) }
    {
        values.clear();
        for (place, formal) in formals.iter().enumerate() {
            match self.opening(*formal, actuals.get(place)) {
                Ok(value) => match values.push(value) {
                    Ok(()) => {}
                    Err(_) => {
                        values.clear();
                        return Err(Memory);
                    }
                },
                Err(_) => {
                    values.clear();
                    return Ok(());
                }
            }
        }
        Ok(())
    }

    // What a call of this entry comes to.
    fn called_with(&self, entry: u32, args: &Option<Args>) -> Result<Member, Raised>
        ensures { result ≡ member_called (called_with self.now.links.now self.now.objects.now entry (lists_of self.now.links.now.numbers entry (option_map plain_args args.now))) }
    {
        let lists = lists_of(self.links, entry, args);
        match self.member_index(entry, lists.index) {
            Ok(index) => {
                let formals = self.links.entry_parameters(entry);
                match self.raised_in_actuals(formals, lists.actuals) {
                    Some(raised) => Err(raised),
                    None => Ok(Member { entry, index }),
                }
            }
            Err(raised) => Err(raised),
        }
    }

    /// The member that a call names, or the exception that the call raises: the callee's index is evaluated first, then that of a family,
    /// then the actuals, each one checked before the next (9.5). The values of the actuals are not kept, and no memory is taken.
    pub fn called(&self, call: &Call) -> Result<Member, Raised>
        ensures { result ≡ member_called (called self.now.links.now self.now.objects.now (plain_call call.now)) }
    {
        match self.task_of(&call.task) {
            Ok(owner) => {
                self.called_with(self.links.entry_of(owner, call.entry.name), &call.args)
            }
            Err(raised) => Err(raised),
        }
    }

    // The opening values of a call of this entry.
    fn put_actuals(
        &self,
        entry: u32,
        args: &Option<Args>,
        values: &mut Vec<Value>,
    ) -> Result<(), Memory>
        ensures ok { OnOk result (values.new.items ≡ opening_values (Some (called_with self.now.links.now self.now.objects.now entry (lists_of self.now.links.now.numbers entry (option_map plain_args args.now))))) }
        ensures err { OnErr result (values.new.items ≡ []) }
    {
        let lists = lists_of(self.links, entry, args);
        match self.member_index(entry, lists.index) {
            Ok(_) => {
                let formals = self.links.entry_parameters(entry);
                self.put_openings(formals, lists.actuals, values)
            }
            Err(_) => {
                values.clear();
                Ok(())
            }
        }
    }

    /// The opening values of a call's formals in order, in place of what is in the list: of an `in` or `in out` one the value of its
    /// actual, of an `out` one the lower bound of its subtype (6.2, 6.4.1). A call that raises an exception has none. After an error, which
    /// comes by want of memory, the list is empty.
    pub fn actuals(&self, call: &Call, values: &mut Vec<Value>) -> Result<(), Memory>
        ensures ok { OnOk result (values.new.items ≡ opening_values (Some (called self.now.links.now self.now.objects.now (plain_call call.now)))) }
        ensures err { OnErr result (values.new.items ≡ []) }
    {
        match self.task_of(&call.task) {
            Ok(owner) => {
                let entry = self.links.entry_of(owner, call.entry.name);
                self.put_actuals(entry, &call.args, values)
            }
            Err(_) => {
                values.clear();
                Ok(())
            }
        }
    }
}
