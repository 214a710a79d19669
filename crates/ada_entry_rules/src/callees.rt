// Tasks in calls and abort statements.

ghost use Rattle.std.specs.Prelude.{◌≡◌, Some, None, option_map};
ghost use Rattle.ada_tree.specs.PlainExpr.{PExpr, plain_expr};
ghost use Rattle.ada_tree.specs.PlainStmt.{plain_callee};
ghost use Rattle.ada_static_rules.specs.ExprTypes.{kind_of};
ghost use Rattle.ada_static_rules.specs.Demand.{addresses};
ghost use Rattle.ada_static_rules.specs.RuleMismatch.{no_task, misfit_member};
ghost use Rattle.ada_static_rules.specs.RuleRangeBad.{member_range};
ghost use Rattle.ada_static_rules.specs.RuleArgCount.{index_of_callee};
ghost use Rattle.ada_static_rules.specs.Sites.{callee_sites};
ghost use Rattle.ada_static_rules.specs.Sooner.{found};
ghost use Rattle.ada_static_rules.specs.RefusedFirst.{refused_first_at, refused_first};
ghost use Rattle.ada_scopes.specs.Entries.{plain_range};
ghost use Rattle.ada_scopes.specs.Denotations.{plain_thing};
ghost use Rattle.ada_expr_rules.specs.Known.{IsKnown};

use ada_expr_rules::known::Known;
use ada_expr_rules::nodes::{refuse_other, refuse_unseen};
use ada_expr_rules::ranges::refuse_outside;
use ada_expr_rules::walking::walk;
use ada_scopes::denotations::{Range, Thing};
use ada_scopes::scope::Scope;
use ada_static_rules::refusals::{Refusal, Rule, first, refuse};
use ada_tree::{Callee, Expr, Span, Word};

// What is called or aborted and is no task. The main procedure and task types are for another rule.
fn refuse_no_task(thing: Option<&Thing>, name: Word) -> Option<Refusal>
    ensures { result ≡ found 3 (no_task (option_map (λ t. plain_thing t.now) thing.entry) name) }
{
    match thing {
        Some(thing) => match thing {
            Thing::TaskType(_)
            | Thing::SingleTask(_)
            | Thing::TaskObject(_)
            | Thing::TaskArray(..)
            | Thing::MainProcedure
            | Thing::Unclear => None,
            _ => refuse(Rule::Mismatch, name.span),
        },
        None => None,
    }
}

// The index range of an array of tasks.
fn member_range(thing: Option<&Thing>) -> Option<Range>
    ensures { option_map plain_range result ≡ member_range (option_map (λ t. plain_thing t.now) thing.entry) }
{
    match thing {
        Some(thing) => match thing {
            Thing::TaskArray(range, _) => Some(*range),
            _ => None,
        },
        None => None,
    }
}

// The index of an array of tasks.
fn refuse_misfit(
    scope: &Scope,
    thing: Option<&Thing>,
    index: &Expr,
    kind: Option<u32>,
) -> Option<Refusal>
    requires { kind ≡ kind_of scope.now (plain_expr index.now) }
    ensures { result ≡ found 3 (misfit_member scope.now (option_map (λ t. plain_thing t.now) thing.entry) (Some (plain_expr index.now))) }
{
    match thing {
        Some(thing) => match thing {
            Thing::TaskArray(range, _) => refuse_other(Some(range.kind), index, kind),
            _ => None,
        },
        None => None,
    }
}

// A single task behind which an index stands.
fn refuse_index(thing: Option<&Thing>, span: Span) -> Option<Refusal>
    ensures { (e : PExpr) → result ≡ found 8 (index_of_callee (option_map (λ t. plain_thing t.now) thing.entry) (Some e) span) }
{
    match thing {
        Some(thing) => match thing {
            Thing::SingleTask(_) | Thing::TaskObject(_) => refuse(Rule::ArgCount, span),
            _ => None,
        },
        None => None,
    }
}

// An array of tasks behind which no index stands.
fn refuse_array(thing: Option<&Thing>, span: Span) -> Option<Refusal>
    ensures { result ≡ found 8 (index_of_callee (option_map (λ t. plain_thing t.now) thing.entry) None span) }
{
    match thing {
        Some(thing) => match thing {
            Thing::TaskArray(..) => refuse(Rule::ArgCount, span),
            _ => None,
        },
        None => None,
    }
}

// A task with an index.
fn refuse_member(scope: &Scope, name: Word, index: &Expr, known: Known) -> Option<Refusal>
    requires { IsKnown scope.now (plain_expr index.now) known }
    ensures { result ≡ refused_first_at scope.now (addresses record { name = name; index = Some (plain_expr index.now) }) }
{
    let thing = scope.meaning(name.name);
    let unknown = refuse_unseen(scope, name.name, name.span);
    let no_task = refuse_no_task(thing, name);
    let misfit = refuse_misfit(scope, thing, index, known.kind);
    let outside = refuse_outside(scope, index, known, member_range(thing));
    let count = refuse_index(thing, name.span);
    first(
        unknown,
        first(first(no_task, misfit), first(outside, count)),
    )
}

// A task without an index.
fn refuse_task(scope: &Scope, name: Word) -> Option<Refusal>
    ensures { result ≡ refused_first_at scope.now (addresses record { name = name; index = None }) }
{
    let thing = scope.meaning(name.name);
    let unknown = refuse_unseen(scope, name.name, name.span);
    let no_task = refuse_no_task(thing, name);
    let count = refuse_array(thing, name.span);
    first(unknown, first(no_task, count))
}

/// Walks a task in a call or an abort statement.
pub fn walk_callee(scope: &Scope, callee: &Callee) -> Option<Refusal>
    ensures { result ≡ refused_first (callee_sites scope.now (plain_callee callee.now)) }
{
    match &callee.index {
        Some(index) => {
            let walked = walk(scope, index);
            let own = refuse_member(scope, callee.name, index, walked.known());
            first(own, walked.refusal)
        }
        None => refuse_task(scope, callee.name),
    }
}
