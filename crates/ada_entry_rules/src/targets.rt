// What assignments and GET write.

ghost use Rattle.std.specs.Prelude.{◌≡◌, ◌∷◌, ◌++◌, [], Some, None};
ghost use Rattle.ada_tree.specs.PlainExpr.{plain_expr};
ghost use Rattle.ada_tree.specs.PlainStmt.{plain_target};
ghost use Rattle.ada_static_rules.specs.Scope.{meaning};
ghost use Rattle.ada_static_rules.specs.ExprTypes.{kind_of};
ghost use Rattle.ada_static_rules.specs.Demand.{writes, gets};
ghost use Rattle.ada_static_rules.specs.RuleMismatch.{target_kind};
ghost use Rattle.ada_static_rules.specs.RuleNotVariable.{is_variable, is_array, unless, whole_written};
ghost use Rattle.ada_static_rules.specs.Sites.{site, target_sites};
ghost use Rattle.ada_static_rules.specs.Sooner.{found};
ghost use Rattle.ada_static_rules.specs.RefusedFirst.{refused_first_at, refused_first};
ghost use Rattle.ada_scopes.specs.Readings.{plain_reading};
ghost use Rattle.ada_entry_rules.specs.Targets.{IsTarget};

use ada_expr_rules::judging::kind_of_component;
use ada_expr_rules::kinds::{INTEGER, is_other};
use ada_expr_rules::nodes::{refuse_array, refuse_index, refuse_index_on_scalar, refuse_unseen};
use ada_expr_rules::walking::walk;
use ada_scopes::denotations::Thing;
use ada_scopes::readings::{Reading, read};
use ada_scopes::scope::Scope;
use ada_static_rules::refusals::{Refusal, Rule, first, refuse, refuse_if};
use ada_tree::{Expr, NameId, ParMode, Span, Target, Word};

/// The kind of what is written, and the first refusal at the places where it stands.
#[derive(Drop)]
pub struct WalkedTarget {
    pub kind: Option<u32>,
    pub refusal: Option<Refusal>,
}

/// Whether a name is a variable, or a formal that can be written. Nothing is asked of one that is not declared, or whose declaration is refused.
pub(crate) fn is_variable(scope: &Scope, id: NameId) -> bool
    ensures { result ≡ is_variable (meaning scope.now id) }
{
    match scope.meaning(id) {
        Some(thing) => match thing {
            Thing::Variable(_) | Thing::Unclear => true,
            Thing::Parameter(mode, _) => match mode {
                ParMode::Take => false,
                ParMode::Give | ParMode::Both => true,
            },
            _ => false,
        },
        None => true,
    }
}

// A name that is written and is no variable.
fn refuse_constant(scope: &Scope, id: NameId, span: Span) -> Option<Refusal>
    ensures { result ≡ found 6 (unless (is_variable (meaning scope.now id)) span) }
{
    if is_variable(scope, id) {
        None
    } else {
        refuse(Rule::NotVariable, span)
    }
}

/// A name that is written without an index and is no variable. An array is for another rule.
pub(crate) fn refuse_whole_constant(
    scope: &Scope,
    reading: Reading,
    id: NameId,
    span: Span,
) -> Option<Refusal>
    ensures { result ≡ found 6 (whole_written (is_array (plain_reading reading)) (is_variable (meaning scope.now id)) span) }
{
    match reading {
        Reading::Array { .. } => None,
        _ => refuse_constant(scope, id, span),
    }
}

// A name with an index that is written.
#[tactic(auto, using(ada_static_rules::proofs::SoonerLaws::sooner_laws))]
fn refuse_written_part(
    scope: &Scope,
    name: Word,
    index: &Expr,
    kind: Option<u32>,
) -> Option<Refusal>
    requires { kind ≡ kind_of scope.now (plain_expr index.now) }
    ensures { result ≡ refused_first_at scope.now (writes record { name = name; index = Some (plain_expr index.now) }) }
{
    let reading = read(scope, name.name);
    let unknown = refuse_unseen(scope, name.name, name.span);
    let misfit = refuse_index(scope, reading, index, kind);
    let constant = refuse_constant(scope, name.name, name.span);
    let scalar = refuse_index_on_scalar(reading, name.span);
    first(unknown, first(misfit, first(constant, scalar)))
}

// A name without an index that is written.
#[tactic(auto, using(ada_static_rules::proofs::SoonerLaws::sooner_laws))]
fn refuse_written_name(scope: &Scope, name: Word) -> Option<Refusal>
    ensures { result ≡ refused_first_at scope.now (writes record { name = name; index = None }) }
{
    let reading = read(scope, name.name);
    let unknown = refuse_unseen(scope, name.name, name.span);
    let constant = refuse_whole_constant(scope, reading, name.name, name.span);
    let array = refuse_array(reading, name.span);
    first(unknown, first(constant, array))
}

// The kind of a component that is written.
fn kind_of_part(scope: &Scope, name: Word, index: &Expr, kind: Option<u32>) -> Option<u32>
    requires { kind ≡ kind_of scope.now (plain_expr index.now) }
    ensures { result ≡ target_kind scope.now record { name = name; index = Some (plain_expr index.now) } }
{
    kind_of_component(scope, read(scope, name.name), kind)
}

// The kind of a name that is written.
fn kind_of_name(scope: &Scope, name: Word) -> Option<u32>
    ensures { result ≡ target_kind scope.now record { name = name; index = None } }
{
    match read(scope, name.name) {
        Reading::Scalar(kind) => Some(kind),
        _ => None,
    }
}

/// Walks what is written.
pub fn walk_target(scope: &Scope, target: &Target) -> WalkedTarget
    ensures { IsTarget scope.now (plain_target target.now) result }
{
    match &target.index {
        Some(index) => {
            let walked = walk(scope, index);
            let own = refuse_written_part(scope, target.name, index, walked.kind);
            WalkedTarget {
                kind: kind_of_part(scope, target.name, index, walked.kind),
                refusal: first(own, walked.refusal),
            }
        }
        None => WalkedTarget {
            kind: kind_of_name(scope, target.name),
            refusal: refuse_written_name(scope, target.name),
        },
    }
}

// What GET reads that is no INTEGER.
fn refuse_get(scope: &Scope, target: &Target, kind: Option<u32>) -> Option<Refusal>
    requires { kind ≡ target_kind scope.now (plain_target target.now) }
    ensures { result ≡ refused_first_at scope.now (gets (plain_target target.now)) }
{
    refuse_if(
        is_other(Some(INTEGER), kind),
        Rule::Mismatch,
        target.name.span,
    )
}

/// Walks what GET reads.
pub fn walk_get(scope: &Scope, target: &Target) -> Option<Refusal>
    ensures { result ≡ refused_first (target_sites scope.now (plain_target target.now) ++ site scope.now (gets (plain_target target.now)) ∷ []) }
{
    let walked = walk_target(scope, target);
    let other = refuse_get(scope, target, walked.kind);
    first(walked.refusal, other)
}
