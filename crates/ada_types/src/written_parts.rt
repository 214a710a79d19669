// Parts of what PUT and PUT_LINE write.

ghost use Rattle.std.specs.Prelude.{◌≡◌, false, true};
ghost use Rattle.ada_tree.specs.PlainExpr.{plain_expr, EAttribute, EAttributeOf};
ghost use Rattle.ada_tree.specs.PlainStmt.{plain_part};
ghost use Rattle.ada_tree.specs.Attributes.{attribute_of, is_image};
ghost use Rattle.ada_static_rules.specs.ExprTypes.{kind_of};
ghost use Rattle.ada_static_rules.specs.Demand.{is_written};
ghost use Rattle.ada_static_rules.specs.RuleTextUse.{is_image_of, is_closed_image, is_fit_part};
ghost use Rattle.ada_static_rules.specs.Sites.{part_sites, plain_part_sites};
ghost use Rattle.ada_static_rules.specs.RefusedFirst.{refused_first_at, refused_first};
ghost use Rattle.ada_expr_rules.specs.Judged.{IsJudged};
ghost use Rattle.ada_types.specs.inner.Written.{IsWritten};

use ada_expr_rules::judging::{Judged, judge, kind_of_bound};
use ada_expr_rules::kinds::{INTEGER, attribute_named};
use ada_expr_rules::nodes::{refuse_attribute, refuse_bound};
use ada_expr_rules::walking::{place, refuse_kind, walk};
use ada_scopes::scope::Scope;
use ada_static_rules::refusals::{Refusal, Rule, first, refuse};
use ada_tree::{Expr, ExprKind, Part, Span, Word};

/// The kind of an expression that is a part of a text, and the first refusal of the whole and its parts.
#[derive(Drop)]
pub(crate) struct Written {
    pub kind: Option<u32>,
    pub refusal: Option<Refusal>,
}

// Whether an expression is 'IMAGE.
fn is_image(e: &Expr) -> bool
    ensures { result ≡ is_image_of (plain_expr e.now) }
{
    match &e.kind {
        ExprKind::Attribute { word, .. } => attribute_named(word.name).is_image(),
        _ => false,
    }
}

// Whether an expression is 'IMAGE in parentheses.
fn is_closed_image(e: &Expr) -> bool
    ensures { result ≡ is_closed_image (plain_expr e.now) }
{
    match &e.kind {
        ExprKind::Paren(part) => is_image(part) || is_closed_image(part),
        _ => false,
    }
}

// Whether an expression may be a part of a text: 'IMAGE may, and alone in PUT a plain expression without 'IMAGE in parentheses.
fn is_fit(alone: bool, e: &Expr) -> bool
    ensures { result ≡ is_fit_part alone (plain_expr e.now) }
{
    if is_image(e) {
        true
    } else if alone {
        !is_closed_image(e)
    } else {
        false
    }
}

// An expression other than 'IMAGE.
fn walk_plain(scope: &Scope, e: &Expr) -> Written
    requires { is_image_of (plain_expr e.now) ≡ false }
    ensures { IsWritten scope.now (plain_expr e.now) result }
{
    let walked = walk(scope, e);
    Written {
        kind: walked.kind,
        refusal: walked.refusal,
    }
}

// An attribute without an argument.
fn walk_bound(scope: &Scope, mark: Word, word: Word, span: Span) -> Written
    ensures { IsWritten scope.now (EAttribute mark word span) result }
{
    Written {
        kind: kind_of_bound(scope, mark, word),
        refusal: refuse_bound(scope, true, mark, word, span),
    }
}

// 'IMAGE of an argument. It has no kind, and only its argument can raise.
fn walk_image(scope: &Scope, words: (Word, Word), arg: &Expr, inner: Judged, span: Span) -> Written
    requires inner { IsJudged scope.now (plain_expr arg.now) inner }
    requires image { is_image (attribute_of words.1.name) ≡ true }
    ensures { IsWritten scope.now (EAttributeOf words.0 words.1 (plain_expr arg.now) span) result }
{
    let own = refuse_attribute(scope, true, words, arg, inner.kind, span);
    Written {
        kind: None,
        refusal: first(inner.raised, first(own, inner.parts)),
    }
}

// An expression that is a part of a text, without what is asked of such a part.
fn walk_written(scope: &Scope, e: &Expr) -> Written
    ensures { IsWritten scope.now (plain_expr e.now) result }
{
    match &e.kind {
        ExprKind::Attribute { mark, word, arg } => match arg {
            None => walk_bound(scope, *mark, *word, e.span),
            Some(arg) => {
                if attribute_named(word.name).is_image() {
                    let inner = judge(scope, arg);
                    walk_image(scope, (*mark, *word), arg, inner, e.span)
                } else {
                    walk_plain(scope, e)
                }
            }
        },
        _ => walk_plain(scope, e),
    }
}

// An expression that may be no part of a text.
fn refuse_unfit(scope: &Scope, alone: bool, e: &Expr) -> Option<Refusal>
    ensures { result ≡ refused_first_at scope.now (is_written alone (plain_expr e.now)) }
{
    if is_fit(alone, e) {
        None
    } else {
        refuse(Rule::TextUse, place(e))
    }
}

// A plain expression alone in PUT that is no INTEGER.
fn refuse_plain(scope: &Scope, alone: bool, e: &Expr, kind: Option<u32>) -> Option<Refusal>
    requires { kind ≡ kind_of scope.now (plain_expr e.now) }
    ensures { result ≡ refused_first (plain_part_sites scope.now alone (plain_expr e.now)) }
{
    if alone {
        if is_image(e) {
            None
        } else {
            refuse_kind(scope, Some(INTEGER), e, kind)
        }
    } else {
        None
    }
}

/// Walks a part of a text. `alone` says that it is all that PUT writes.
pub(crate) fn walk_part(scope: &Scope, alone: bool, part: &Part) -> Option<Refusal>
    ensures { result ≡ refused_first (part_sites scope.now alone (plain_part part.now)) }
{
    match part {
        Part::Words { .. } => None,
        Part::Value(e) => {
            let written = walk_written(scope, e);
            let unfit = refuse_unfit(scope, alone, e);
            let plain = refuse_plain(scope, alone, e, written.kind);
            first(written.refusal, first(unfit, plain))
        }
    }
}
