// The recorder's flags, and its answer.

ghost use Rattle.std.specs.Prelude.{◌≡◌, IfOk};
ghost use Rattle.ada_tree.specs.PlainExpr.{plain_expr};
ghost use Rattle.ada_tree.specs.PlainStmt.{plain_stmt};
ghost use Rattle.ada_tree.specs.PlainDecl.{plain_decl};
ghost use Rattle.collect_model.specs.Recording.{truth, flag_of, flag_set, flags_declared, answered};

use ada_tree::{Decl, Expr, Memory, NameId, Span, Stmt, Subind};
use ada_tree_copy::building::{object_of, others_of, plain_of};
use collect_model::AddedNames;
use collect_statements::one_word;
use replay_asking::making::there_init;
use replay_asking::word;
use std::alloc::Global;
use tree_rewriting::making::{assignment, component_assignment, component_of, name_expr};

/// TRUE or FALSE.
pub fn truth(value: bool, s: Span) -> Expr
    ensures { plain_expr result ≡ truth s value }
{
    let name = if value { NameId::TRUE } else { NameId::FALSE };
    name_expr(name, s)
}

/// The flag of the task whose number is in a variable.
pub fn flag_of(alloc: Global, flags: NameId, task: NameId, s: Span) -> Result<Expr, Memory>
    ensures { IfOk result (λ made. plain_expr made ≡ flag_of s flags task) }
{
    component_of(alloc, word(flags, s), Ok(name_expr(task, s)), s)
}

/// That flag becomes true or false.
pub fn flag_set(flags: NameId, task: NameId, value: bool, s: Span) -> Result<Stmt, Memory>
    ensures { IfOk result (λ made. plain_stmt made ≡ flag_set s flags task value) }
{
    component_assignment(
        word(flags, s),
        Ok(name_expr(task, s)),
        Ok(truth(value, s)),
        s,
    )
}

/// The declaration of flags, all of which are down.
pub fn flags_declared(alloc: Global, n: &AddedNames, flags: NameId, s: Span) -> Result<Decl, Memory>
    ensures { IfOk result (λ made. plain_decl made ≡ flags_declared n.now s flags) }
{
    let mark = Subind {
        mark: word(n.flags, s),
        bounds: None,
    };
    let init = there_init(others_of(Ok(truth(false, s)), s));
    object_of(
        one_word(alloc, word(flags, s)),
        false,
        plain_of(Ok(mark)),
        init,
        s,
    )
}

/// The answer becomes true or false.
pub fn answered(n: &AddedNames, value: bool, s: Span) -> Result<Stmt, Memory>
    ensures { IfOk result (λ made. plain_stmt made ≡ answered n.now s value) }
{
    assignment(word(n.reply, s), Ok(truth(value, s)), s)
}
