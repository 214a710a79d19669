// What the rules refuse at the nodes of an expression.

ghost use Rattle.std.specs.Prelude.{◌≡◌, ◌∷◌, ◌++◌, [], false, if◌then◌else◌};
ghost use Rattle.ada_tree.specs.PlainExpr.{PExpr, plain_expr, EName, EIndex, EAttribute, EAttributeOf, EUnary, EBinary};
ghost use Rattle.ada_tree.specs.Attributes.{attribute_of};
ghost use Rattle.ada_static_rules.specs.Scope.{meaning, scalar_kind};
ghost use Rattle.ada_static_rules.specs.ExprTypes.{expr_place, kind_of, is_other_kind};
ghost use Rattle.ada_static_rules.specs.Demand.{node};
ghost use Rattle.ada_static_rules.specs.RuleUnknown.{unseen, unseen_word, no_attribute};
ghost use Rattle.ada_static_rules.specs.RuleMismatch.{no_value, misfit_index, misfit_argument, is_misfit, misfit_operand};
ghost use Rattle.ada_static_rules.specs.RuleReadOut.{out_formal};
ghost use Rattle.ada_static_rules.specs.RuleArgCount.{index_on_scalar};
ghost use Rattle.ada_static_rules.specs.RuleArrayUse.{whole_array};
ghost use Rattle.ada_static_rules.specs.RuleTextUse.{image_in_node};
ghost use Rattle.ada_static_rules.specs.Sooner.{found};
ghost use Rattle.ada_static_rules.specs.RefusedFirst.{refused_first_at};
ghost use Rattle.ada_scopes.specs.Readings.{plain_reading, plain_marking};
ghost use Rattle.ada_expr_rules.specs.Plain.{plain_attribute, plain_operand};

use crate::kinds::{Attribute, attribute_named, does_take, is_other, operand_of, operand_of_one};
use crate::marks::{MarkUse, refuse_mark};
use ada_scopes::denotations::Thing;
use ada_scopes::readings::{Marking, Reading, mark_named, read};
use ada_scopes::scope::Scope;
use ada_static_rules::refusals::{Refusal, Rule, first, refuse, refuse_if};
use ada_tree::{BinaryOp, Expr, NameId, ParMode, Span, UnaryOp, Word};

/// A name that is not declared before.
pub fn refuse_unseen(scope: &Scope, id: NameId, span: Span) -> Option<Refusal>
    ensures { result ≡ found 1 (unseen scope.now id span) }
{
    match scope.meaning(id) {
        Some(_) => None,
        None => refuse(Rule::Unknown, span),
    }
}

/// A name that stands for a value and is none.
pub(crate) fn refuse_no_value(reading: Reading, span: Span) -> Option<Refusal>
    ensures { result ≡ found 3 (no_value (plain_reading reading) span) }
{
    match reading {
        Reading::NoValue => refuse(Rule::Mismatch, span),
        _ => None,
    }
}

/// A whole array.
pub fn refuse_array(reading: Reading, span: Span) -> Option<Refusal>
    ensures { result ≡ found 10 (whole_array (plain_reading reading) span) }
{
    match reading {
        Reading::Array { .. } => refuse(Rule::ArrayUse, span),
        _ => None,
    }
}

/// A formal of mode out that is read.
pub fn refuse_out(scope: &Scope, id: NameId, span: Span) -> Option<Refusal>
    ensures { result ≡ found 7 (out_formal (meaning scope.now id) span) }
{
    match scope.meaning(id) {
        Some(thing) => match thing {
            Thing::Parameter(ParMode::Give, _) => refuse(Rule::ReadOut, span),
            _ => None,
        },
        None => None,
    }
}

/// An index behind a scalar.
pub fn refuse_index_on_scalar(reading: Reading, span: Span) -> Option<Refusal>
    ensures { result ≡ found 8 (index_on_scalar (plain_reading reading) span) }
{
    match reading {
        Reading::Scalar(_) => refuse(Rule::ArgCount, span),
        _ => None,
    }
}

/// An expression of another kind than asked.
pub fn refuse_other(asked: Option<u32>, e: &Expr, kind: Option<u32>) -> Option<Refusal>
    ensures { result ≡ found 3 (if is_other_kind asked kind then expr_place (plain_expr e.now) ∷ [] else []) }
{
    refuse_if(is_other(asked, kind), Rule::Mismatch, e.span)
}

/// The index of a component.
pub fn refuse_index(
    scope: &Scope,
    reading: Reading,
    arg: &Expr,
    kind: Option<u32>,
) -> Option<Refusal>
    requires { kind ≡ kind_of scope.now (plain_expr arg.now) }
    ensures { result ≡ found 3 (misfit_index scope.now (plain_reading reading) (plain_expr arg.now)) }
{
    match reading {
        Reading::Array { index, .. } => refuse_other(Some(index), arg, kind),
        _ => None,
    }
}

/// A name in an expression.
#[tactic(auto, using(ada_static_rules::proofs::SoonerLaws::sooner_laws))]
pub(crate) fn refuse_name(scope: &Scope, id: NameId, span: Span) -> Option<Refusal>
    ensures { result ≡ refused_first_at scope.now (node false (EName id span)) }
{
    let reading = read(scope, id);
    let unknown = refuse_unseen(scope, id, span);
    let no_value = refuse_no_value(reading, span);
    let out = refuse_out(scope, id, span);
    let array = refuse_array(reading, span);
    first(unknown, first(no_value, first(out, array)))
}

/// A component in an expression.
#[tactic(auto, using(ada_static_rules::proofs::SoonerLaws::sooner_laws))]
pub(crate) fn refuse_component(
    scope: &Scope,
    name: Word,
    arg: &Expr,
    kind: Option<u32>,
    span: Span,
) -> Option<Refusal>
    requires { kind ≡ kind_of scope.now (plain_expr arg.now) }
    ensures { result ≡ refused_first_at scope.now (node false (EIndex name (plain_expr arg.now) span)) }
{
    let reading = read(scope, name.name);
    let unknown = refuse_unseen(scope, name.name, name.span);
    let no_value = refuse_no_value(reading, name.span);
    let index = refuse_index(scope, reading, arg, kind);
    let scalar = refuse_index_on_scalar(reading, name.span);
    first(unknown, first(first(no_value, index), scalar))
}

/// A word behind a tick that is no attribute, and the name before it where that is not declared.
#[tactic(auto, using(ada_static_rules::proofs::SoonerLaws::sooner_laws))]
fn refuse_words(scope: &Scope, mark: Word, word: Word) -> Option<Refusal>
    ensures { result ≡ found 1 (unseen_word scope.now mark ++ no_attribute (attribute_of word.name) word.span) }
{
    let unseen = refuse_unseen(scope, mark.name, mark.span);
    let none = match attribute_named(word.name) {
        Attribute::NoAttribute => refuse(Rule::Unknown, word.span),
        _ => None,
    };
    first(unseen, none)
}

/// The kind of a scalar mark.
pub fn kind_of_mark(marking: Marking) -> Option<u32>
    ensures { result ≡ scalar_kind (plain_marking marking.entry) }
{
    match marking {
        Marking::Scalar { kind, .. } => Some(kind),
        _ => None,
    }
}

/// 'IMAGE that is no part of a text.
fn refuse_image(written: bool, mark: Word, word: Word, span: Span) -> Option<Refusal>
    ensures bound { result ≡ found 11 (image_in_node written (EAttribute mark word span)) }
    ensures function { (e : PExpr) → result ≡ found 11 (image_in_node written (EAttributeOf mark word e span)) }
{
    if written {
        None
    } else {
        refuse_if(attribute_named(word.name).is_image(), Rule::TextUse, span)
    }
}

/// An attribute without an argument.
#[tactic(auto, using(ada_static_rules::proofs::SoonerLaws::sooner_laws))]
pub fn refuse_bound(
    scope: &Scope,
    written: bool,
    mark: Word,
    word: Word,
    span: Span,
) -> Option<Refusal>
    ensures { result ≡ refused_first_at scope.now (node written (EAttribute mark word span)) }
{
    let unknown = refuse_words(scope, mark, word);
    let mismatch = refuse_mark(scope, MarkUse::Scalar, mark);
    let count = refuse_if(
        attribute_named(word.name).is_function(),
        Rule::ArgCount,
        word.span,
    );
    let image = refuse_image(written, mark, word, span);
    first(unknown, first(mismatch, first(count, image)))
}

/// The argument of an attribute.
fn refuse_argument(
    scope: &Scope,
    attribute: Attribute,
    mark: Option<u32>,
    arg: &Expr,
    kind: Option<u32>,
) -> Option<Refusal>
    requires { kind ≡ kind_of scope.now (plain_expr arg.now) }
    ensures { result ≡ found 3 (misfit_argument scope.now (plain_attribute attribute) mark (plain_expr arg.now)) }
{
    match mark {
        Some(mark) => {
            if attribute.is_function() {
                refuse_other(Some(attribute.argument_kind(mark)), arg, kind)
            } else {
                None
            }
        }
        None => None,
    }
}

/// An attribute with an argument.
#[tactic(auto, using(ada_static_rules::proofs::SoonerLaws::sooner_laws))]
pub fn refuse_attribute(
    scope: &Scope,
    written: bool,
    words: (Word, Word),
    arg: &Expr,
    kind: Option<u32>,
    span: Span,
) -> Option<Refusal>
    requires { kind ≡ kind_of scope.now (plain_expr arg.now) }
    ensures { result ≡ refused_first_at scope.now (node written (EAttributeOf words.0 words.1 (plain_expr arg.now) span)) }
{
    let (mark, word) = words;
    let attribute = attribute_named(word.name);
    let unknown = refuse_words(scope, mark, word);
    let mismatch = refuse_mark(scope, MarkUse::Scalar, mark);
    let marked = kind_of_mark(mark_named(scope, mark.name));
    let argument = refuse_argument(scope, attribute, marked, arg, kind);
    let count = refuse_if(attribute.is_bound(), Rule::ArgCount, word.span);
    let image = refuse_image(written, mark, word, span);
    first(
        unknown,
        first(first(mismatch, argument), first(count, image)),
    )
}

// Whether an operand fits no form of its operator.
fn is_unfit(operand: Option<u32>, kind: Option<u32>) -> bool
    ensures { result ≡ is_misfit (plain_operand operand) kind }
{
    match kind {
        Some(kind) => !does_take(operand, kind),
        None => false,
    }
}

/// The operand of a unary operator.
#[tactic(auto, using(ada_static_rules::proofs::SoonerLaws::sooner_laws))]
pub(crate) fn refuse_operand(
    scope: &Scope,
    op: UnaryOp,
    part: &Expr,
    kind: Option<u32>,
    span: Span,
) -> Option<Refusal>
    requires { kind ≡ kind_of scope.now (plain_expr part.now) }
    ensures { result ≡ refused_first_at scope.now (node false (EUnary op (plain_expr part.now) span)) }
{
    refuse_if(
        is_unfit(operand_of_one(op), kind),
        Rule::Mismatch,
        part.span,
    )
}

// The first operand that fits no form of its operator, else the right one where the two do not fit together.
fn refuse_misfit(
    operand: Option<u32>,
    left: &Expr,
    left_kind: Option<u32>,
    right: &Expr,
    right_kind: Option<u32>,
) -> Option<Refusal>
    ensures { result ≡ found 3 (misfit_operand (plain_operand operand) left_kind right_kind (plain_expr left.now) (plain_expr right.now)) }
{
    if is_unfit(operand, left_kind) {
        refuse(Rule::Mismatch, left.span)
    } else {
        let unfit = is_unfit(operand, right_kind) || is_other(left_kind, right_kind);
        refuse_if(unfit, Rule::Mismatch, right.span)
    }
}

/// The operands of an operator.
#[tactic(auto, using(ada_static_rules::proofs::SoonerLaws::sooner_laws))]
pub(crate) fn refuse_operands(
    scope: &Scope,
    op: BinaryOp,
    left: &Expr,
    left_kind: Option<u32>,
    right: &Expr,
    right_kind: Option<u32>,
    span: Span,
) -> Option<Refusal>
    requires left { left_kind ≡ kind_of scope.now (plain_expr left.now) }
    requires right { right_kind ≡ kind_of scope.now (plain_expr right.now) }
    ensures { result ≡ refused_first_at scope.now (node false (EBinary op (plain_expr left.now) (plain_expr right.now) span)) }
{
    refuse_misfit(operand_of(op), left, left_kind, right, right_kind)
}
