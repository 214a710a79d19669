// What is asked of names where a statement gets its normal form.

ghost use Rattle.std.specs.Prelude.{◌≡◌, [], IfOk, map};
ghost use Rattle.ada_static_rules.specs.StaticValue.{is_static};
ghost use Rattle.ada_tree.specs.PlainExpr.{plain_expr};
ghost use Rattle.ada_tree.specs.PlainStmt.{plain_call, plain_callee};
ghost use Rattle.ada_tree.specs.declared.naming.Span.{Span};
ghost use Rattle.syn_event.specs.Numbering.{entry_at};
ghost use Rattle.task_model.specs.Setting.{formals_of_info, is_family, callee_task};
ghost use Rattle.normal_model.specs.Calls.{entry_called, slots_of};
ghost use Rattle.normal_model.specs.Members.{known_task, members_of};
ghost use Rattle.normal_model.specs.Names.{task_name_at, variable_name};
ghost use Rattle.normal_lookups.specs.pieces.Seen.{member_meant, member_seen};

use ada_tree::{Call, Callee, Expr, Memory, NameId, ParMode};

/// The literal of an index: a number, or the name of a truth value or of an enumeration's literal.
#[derive(Clone, Copy, Debug, PartialEq, Eq)]
pub enum Literal {
    Number(i32),
    Name(NameId),
}

/// A member of an array of tasks: the literal of its index, and its name in the normal form.
#[derive(Clone, Copy, Debug, PartialEq, Eq)]
pub struct Member {
    pub index: Literal,
    pub name: NameId,
}

/// What the names of a program and of its normal form mean. Contracts see the program with its types and numbers as the `setting`; `fits` is what has to be true of one that is asked. Each call fails by want of memory alone.
pub trait Meanings {
    ghost use Rattle.task_model.specs.Setting.{Setting};

    ghost setting: { Self → Setting };

    ghost fits: { Self → Type 0 };

    /// The name of the variable of a number, from 0.
    fn variable(&self, number: u32) -> Result<NameId, Memory>
        requires { fits self.now }
        ensures { IfOk result (λ id. id ≡ variable_name (setting self.now) number) };

    /// Whether an expression is static.
    fn is_static(&self, expr: &Expr) -> bool
        requires { fits self.now }
        ensures { result ≡ is_static (setting self.now).types (plain_expr expr.now) };

    /// The name of a callee without index or with a static one.
    fn callee_name(&self, callee: &Callee) -> NameId
        requires { fits self.now }
        ensures { result ≡ task_name_at (setting self.now) (known_task (callee_task (setting self.now) [] (plain_callee callee.now))) };

    /// The members of an array of tasks, by ascending index.
    fn members(&self, array: NameId) -> &[Member]
        requires { fits self.now }
        ensures { (s : Span) → map (member_seen s) result.now ≡ map (member_meant (setting self.now) s array) (members_of (setting self.now) array) };

    /// The number of the entry that is called.
    fn entry_called(&self, call: &Call) -> u32
        requires { fits self.now }
        ensures { result ≡ entry_called (setting self.now) (plain_call call.now) };

    /// Whether the entry of a number is a family.
    fn is_family(&self, entry: u32) -> bool
        requires { fits self.now }
        ensures { result ≡ is_family (setting self.now).numbers entry };

    /// The modes of the formals of an entry, one by one and in order.
    fn modes(&self, entry: u32) -> &[ParMode]
        requires { fits self.now }
        ensures { result.now ≡ map (λ x. x.mode) (slots_of (formals_of_info (setting self.now) (entry_at (setting self.now).numbers entry))) };
}
