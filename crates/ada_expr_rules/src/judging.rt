// One walk of an expression.

ghost use Rattle.std.specs.Prelude.{◌≡◌, ◌&&◌, Some, None, Ok, is_some, option_map, if◌then◌else◌};
ghost use Rattle.ada_tree.specs.PlainExpr.{plain_expr, EName, EIndex, EAttribute, EAttributeOf, EUnary, EBinary};
ghost use Rattle.ada_static_rules.specs.StaticValue.{operated, then_do, signed, mark_named, attribute_at, bound_of, keeps_static};
ghost use Rattle.ada_tree.specs.Attributes.{attribute_of, is_bound};
ghost use Rattle.ada_static_rules.specs.Scope.{and_then, marking, scalar_kind};
ghost use Rattle.ada_static_rules.specs.ExprTypes.{component_kind, bound_kind};
ghost use Rattle.ada_static_rules.specs.RuleRangeBad.{raised};
ghost use Rattle.ada_scopes.specs.Readings.{plain_reading};
ghost use Rattle.ada_expr_rules.specs.Judged.{IsJudged, raised_where, both};

use crate::kinds::{
    INTEGER, attribute_named, kind_of_attribute, kind_of_binary, kind_of_unary, operand_of,
    operand_of_one, where_kind,
};
use crate::nodes::{
    kind_of_mark, refuse_attribute, refuse_bound, refuse_component, refuse_name, refuse_operand,
    refuse_operands,
};
use ada_scopes::readings::{self, Reading, read};
use ada_scopes::scope::Scope;
use ada_scopes::values::operations::{apply, apply_one};
use ada_scopes::values::static_values::{attribute_value, bound_value};
use ada_static_rules::refusals::{Refusal, Rule, first, refuse};
use ada_tree::{BinaryOp, Expr, ExprKind, NameId, Span, UnaryOp, Word};

/// What a walk of an expression tells: its kind, its value where it is static (or the place of the operation that raises), the first operation of its largest static parts that raises, and the first refusal of its parts.
#[derive(Drop)]
pub struct Judged {
    pub kind: Option<u32>,
    pub value: Option<Result<i64, Span>>,
    pub raised: Option<Refusal>,
    pub parts: Option<Refusal>,
}

// The value of an operator's result, by the values of its operands.
fn operate(
    op: BinaryOp,
    span: Span,
    left: Result<i64, Span>,
    right: Result<i64, Span>,
) -> Result<i64, Span>
    ensures { result ≡ operated op span left right }
{
    match left {
        Ok(value) => {
            if op == BinaryOp::AndThen {
                return if value == 0 { Ok(0) } else { right };
            }
            if op == BinaryOp::OrElse {
                return if value == 0 { right } else { Ok(1) };
            }
            match right {
                Ok(other) => apply(op, span, value, other),
                Err(place) => Err(place),
            }
        }
        Err(place) => Err(place),
    }
}

// The values of both operands make one, where both are static.
fn operate_both(
    op: BinaryOp,
    span: Span,
    left: Option<Result<i64, Span>>,
    right: Option<Result<i64, Span>>,
) -> Option<Result<i64, Span>>
    ensures { result ≡ both (operated op span) left right }
{
    match left {
        Some(left) => match right {
            Some(right) => Some(operate(op, span, left, right)),
            None => None,
        },
        None => None,
    }
}

fn operate_one(op: UnaryOp, span: Span, value: Result<i64, Span>) -> Result<i64, Span>
    ensures { result ≡ then_do (signed op span) value }
{
    match value {
        Ok(value) => apply_one(op, span, value),
        Err(place) => Err(place),
    }
}

fn operate_part(
    op: UnaryOp,
    span: Span,
    value: Option<Result<i64, Span>>,
) -> Option<Result<i64, Span>>
    ensures { result ≡ option_map (then_do (signed op span)) value }
{
    match value {
        Some(value) => Some(operate_one(op, span, value)),
        None => None,
    }
}

// The value of an attribute with an argument.
fn attribute_of_value(
    scope: &Scope,
    words: (Word, Word),
    span: Span,
    value: Result<i64, Span>,
) -> Result<i64, Span>
    ensures { result ≡ then_do (attribute_at scope.now.types (mark_named scope.now.types words.0.name) (attribute_of words.1.name) span) value }
{
    let (mark, word) = words;
    match value {
        Ok(value) => {
            let table = scope.table();
            attribute_value(
                table.types(),
                table.mark_of(mark.name),
                word.name,
                span,
                value,
            )
        }
        Err(place) => Err(place),
    }
}

fn attribute_of_part(
    scope: &Scope,
    words: (Word, Word),
    span: Span,
    value: Option<Result<i64, Span>>,
) -> Option<Result<i64, Span>>
    ensures { result ≡ (if keeps_static (attribute_of words.1.name) && is_some (mark_named scope.now.types words.0.name) then option_map (then_do (attribute_at scope.now.types (mark_named scope.now.types words.0.name) (attribute_of words.1.name) span)) value else None) }
{
    let (mark, word) = words;
    if attribute_named(word.name).keeps_static() && scope.table().mark_of(mark.name).is_some() {
        match value {
            Some(value) => Some(attribute_of_value(scope, words, span, value)),
            None => None,
        }
    } else {
        None
    }
}

// The value of an attribute without an argument.
fn bound_of_mark(scope: &Scope, mark: Word, word: Word) -> Option<Result<i64, Span>>
    ensures { result ≡ (if is_bound (attribute_of word.name) && is_some (mark_named scope.now.types mark.name) then Some (Ok (bound_of (attribute_of word.name) (mark_named scope.now.types mark.name))) else None) }
{
    let marked = scope.table().mark_of(mark.name);
    if attribute_named(word.name).is_bound() && marked.is_some() {
        Some(Ok(bound_value(marked, word.name)))
    } else {
        None
    }
}

/// The kind of an attribute without an argument.
pub fn kind_of_bound(scope: &Scope, mark: Word, word: Word) -> Option<u32>
    ensures { result ≡ and_then (bound_kind (attribute_of word.name)) (scalar_kind (marking scope.now mark.name)) }
{
    match kind_of_mark(readings::mark_named(scope, mark.name)) {
        Some(kind) => attribute_named(word.name).bound_kind(kind),
        None => None,
    }
}

// The operation that raises in an expression that is of a kind and static, else what its parts raise.
fn raised_of(
    kind: Option<u32>,
    value: Option<Result<i64, Span>>,
    parts: Option<Refusal>,
) -> Option<Refusal>
    ensures { result ≡ raised_where kind value parts }
{
    match kind {
        Some(_) => match value {
            Some(value) => match value {
                Ok(_) => None,
                Err(place) => refuse(Rule::RangeBad, place),
            },
            None => parts,
        },
        None => parts,
    }
}

/// The kind of a component, by that of its index.
pub fn kind_of_component(scope: &Scope, reading: Reading, index: Option<u32>) -> Option<u32>
    ensures { result ≡ component_kind scope.now.types (plain_reading reading) index }
{
    match reading {
        Reading::Array { index: asked, part } => match scope.table().mark(part) {
            Some(mark) => where_kind(asked, index, Some(mark.kind)),
            None => where_kind(asked, index, None),
        },
        _ => None,
    }
}

fn judge_name(scope: &Scope, id: NameId, span: Span) -> Judged
    ensures { IsJudged scope.now (EName id span) result }
{
    let kind = match read(scope, id) {
        Reading::Scalar(kind) => Some(kind),
        _ => None,
    };
    let value = match scope.table().value_of(id) {
        Some(value) => Some(Ok(value)),
        None => None,
    };
    Judged {
        kind,
        value,
        raised: None,
        parts: refuse_name(scope, id, span),
    }
}

fn judge_component(scope: &Scope, name: Word, arg: &Expr, inner: Judged, span: Span) -> Judged
    requires { IsJudged scope.now (plain_expr arg.now) inner }
    ensures { IsJudged scope.now (EIndex name (plain_expr arg.now) span) result }
{
    let own = refuse_component(scope, name, arg, inner.kind, span);
    Judged {
        kind: kind_of_component(scope, read(scope, name.name), inner.kind),
        value: None,
        raised: inner.raised,
        parts: first(own, inner.parts),
    }
}

fn judge_bound(scope: &Scope, mark: Word, word: Word, span: Span) -> Judged
    ensures { IsJudged scope.now (EAttribute mark word span) result }
{
    Judged {
        kind: kind_of_bound(scope, mark, word),
        value: bound_of_mark(scope, mark, word),
        raised: None,
        parts: refuse_bound(scope, false, mark, word, span),
    }
}

fn judge_attribute(
    scope: &Scope,
    words: (Word, Word),
    arg: &Expr,
    inner: Judged,
    span: Span,
) -> Judged
    requires { IsJudged scope.now (plain_expr arg.now) inner }
    ensures { IsJudged scope.now (EAttributeOf words.0 words.1 (plain_expr arg.now) span) result }
{
    let own = refuse_attribute(scope, false, words, arg, inner.kind, span);
    let mark = kind_of_mark(readings::mark_named(scope, words.0.name));
    let kind = kind_of_attribute(attribute_named(words.1.name), mark, inner.kind);
    let value = attribute_of_part(scope, words, span, inner.value);
    Judged {
        kind,
        value,
        raised: raised_of(kind, value, inner.raised),
        parts: first(own, inner.parts),
    }
}

fn judge_operand(scope: &Scope, op: UnaryOp, part: &Expr, inner: Judged, span: Span) -> Judged
    requires { IsJudged scope.now (plain_expr part.now) inner }
    ensures { IsJudged scope.now (EUnary op (plain_expr part.now) span) result }
{
    let own = refuse_operand(scope, op, part, inner.kind, span);
    let kind = kind_of_unary(operand_of_one(op), inner.kind);
    let value = operate_part(op, span, inner.value);
    Judged {
        kind,
        value,
        raised: raised_of(kind, value, inner.raised),
        parts: first(own, inner.parts),
    }
}

fn judge_operands(
    scope: &Scope,
    op: BinaryOp,
    parts: (&Expr, &Expr),
    left: Judged,
    right: Judged,
    span: Span,
) -> Judged
    requires left { IsJudged scope.now (plain_expr parts.0.now) left }
    requires right { IsJudged scope.now (plain_expr parts.1.now) right }
    ensures { IsJudged scope.now (EBinary op (plain_expr parts.entry.0.now) (plain_expr parts.entry.1.now) span) result }
{
    let own = refuse_operands(scope, op, parts.0, left.kind, parts.1, right.kind, span);
    let kind = kind_of_binary(operand_of(op), left.kind, right.kind);
    let value = operate_both(op, span, left.value, right.value);
    Judged {
        kind,
        value,
        raised: raised_of(kind, value, first(left.raised, right.raised)),
        parts: first(own, first(left.parts, right.parts)),
    }
}

/// Walks an expression.
pub fn judge(scope: &Scope, e: &Expr) -> Judged
    ensures { IsJudged scope.now (plain_expr e.now) result }
{
    match &e.kind {
        ExprKind::Integer(n) => Judged {
            kind: Some(INTEGER),
            value: Some(Ok(*n as i64)),
            raised: None,
            parts: None,
        },
        ExprKind::Name(id) => judge_name(scope, *id, e.span),
        ExprKind::Index { name, arg } => {
            let inner = judge(scope, arg);
            judge_component(scope, *name, arg, inner, e.span)
        }
        ExprKind::Attribute { mark, word, arg } => match arg {
            None => judge_bound(scope, *mark, *word, e.span),
            Some(arg) => {
                let inner = judge(scope, arg);
                judge_attribute(scope, (*mark, *word), arg, inner, e.span)
            }
        },
        ExprKind::Paren(part) => judge(scope, part),
        ExprKind::Unary { op, part } => {
            let inner = judge(scope, part);
            judge_operand(scope, *op, part, inner, e.span)
        }
        ExprKind::Binary { op, left, right } => {
            let first = judge(scope, left);
            let second = judge(scope, right);
            judge_operands(scope, *op, (left, right), first, second, e.span)
        }
    }
}
