// Expressions where they stand alone, must be of a kind, or must be static.

ghost use Rattle.std.specs.Prelude.{◌≡◌, ◌&&◌, not, is_some};
ghost use Rattle.ada_tree.specs.PlainExpr.{plain_expr};
ghost use Rattle.ada_static_rules.specs.ExprTypes.{expr_place, kind_of};
ghost use Rattle.ada_static_rules.specs.Demand.{must_be_of, must_be_static};
ghost use Rattle.ada_static_rules.specs.Sites.{expr_sites, expr_of, static_of};
ghost use Rattle.ada_static_rules.specs.RefusedFirst.{refused_first_at};
ghost use Rattle.ada_expr_rules.specs.Judged.{fixed_value};
ghost use Rattle.ada_expr_rules.specs.Walked.{IsWalked};

use crate::judging::judge;
use crate::known::Known;
use crate::nodes::refuse_other;
use ada_scopes::scope::Scope;
use ada_static_rules::refusals::{Refusal, Rule, first, refuse_if};
use ada_tree::{Expr, Span};

/// The kind of an expression, its value where it is static (or the place of the operation that raises), and the first refusal at the places where it stands.
#[derive(Drop)]
pub struct Walked {
    pub kind: Option<u32>,
    pub value: Option<Result<i64, Span>>,
    pub refusal: Option<Refusal>,
}

impl Walked {
    /// What is known of the expression.
    pub fn known(&self) -> Known
        ensures { result ≡ record { kind = self.now.kind; value = self.now.value } }
    {
        Known {
            kind: self.kind,
            value: self.value,
        }
    }
}

/// Walks an expression.
pub fn walk(scope: &Scope, e: &Expr) -> Walked
    ensures { IsWalked (expr_sites scope.now (plain_expr e.now)) scope.now (plain_expr e.now) result }
{
    let judged = judge(scope, e);
    Walked {
        kind: judged.kind,
        value: judged.value,
        refusal: first(judged.raised, judged.parts),
    }
}

/// An expression of another kind than it must be of.
pub fn refuse_kind(
    scope: &Scope,
    asked: Option<u32>,
    e: &Expr,
    kind: Option<u32>,
) -> Option<Refusal>
    requires { kind ≡ kind_of scope.now (plain_expr e.now) }
    ensures { result ≡ refused_first_at scope.now (must_be_of (plain_expr e.now) asked) }
{
    refuse_other(asked, e, kind)
}

/// Walks an expression that must be of a kind.
pub fn walk_of(scope: &Scope, asked: Option<u32>, e: &Expr) -> Walked
    ensures { IsWalked (expr_of scope.now asked (plain_expr e.now)) scope.now (plain_expr e.now) result }
{
    let walked = walk(scope, e);
    let other = refuse_kind(scope, asked, e, walked.kind);
    Walked {
        kind: walked.kind,
        value: walked.value,
        refusal: first(walked.refusal, other),
    }
}

/// The place of an expression.
pub fn place(e: &Expr) -> Span
    ensures { result ≡ expr_place (plain_expr e.now) }
{
    e.span
}

// Whether an expression is of a kind and not static.
fn is_not_static(kind: Option<u32>, value: Option<Result<i64, Span>>) -> bool
    ensures { result ≡ (is_some kind && not (is_some value)) }
{
    kind.is_some() && !value.is_some()
}

/// An expression that must be static and is not.
pub(crate) fn refuse_not_static(
    scope: &Scope,
    e: &Expr,
    kind: Option<u32>,
    value: Option<Result<i64, Span>>,
) -> Option<Refusal>
    requires kind { kind ≡ kind_of scope.now (plain_expr e.now) }
    requires value { value ≡ fixed_value scope.now.types (plain_expr e.now) }
    ensures { result ≡ refused_first_at scope.now (must_be_static (plain_expr e.now)) }
{
    refuse_if(is_not_static(kind, value), Rule::NotStatic, place(e))
}

/// Walks an expression that must be of a kind and static.
pub fn walk_static(scope: &Scope, asked: Option<u32>, e: &Expr) -> Walked
    ensures { IsWalked (static_of scope.now asked (plain_expr e.now)) scope.now (plain_expr e.now) result }
{
    let walked = walk_of(scope, asked, e);
    let not_static = refuse_not_static(scope, e, walked.kind, walked.value);
    Walked {
        kind: walked.kind,
        value: walked.value,
        refusal: first(walked.refusal, not_static),
    }
}
