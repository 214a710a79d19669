// The kinds that operators and attributes take and give.

ghost use Rattle.std.specs.Prelude.{◌≡◌};
ghost use Rattle.ada_tree.specs.Attributes.{attribute_of, is_bound, is_function, is_image};
ghost use Rattle.ada_static_rules.specs.StaticValue.{keeps_static};
ghost use Rattle.ada_static_rules.specs.ExprTypes.{takes, takes_one, is_taken, given_by, unary_kind, binary_kind, argument_kind, function_kind, bound_kind, if_kind, is_other_kind, attribute_kind};
ghost use Rattle.ada_expr_rules.specs.Plain.{plain_attribute, plain_operand};

use ada_tree::{BinaryOp, NameId, UnaryOp};

/// The place of INTEGER among the kinds.
pub const INTEGER: u32 = 0;

/// The place of BOOLEAN among the kinds.
pub const TRUTH: u32 = 1;

/// An attribute, or none where the word is none.
#[derive(Clone, Copy)]
pub enum Attribute {
    First,
    Last,
    Pos,
    Val,
    Succ,
    Pred,
    Image,
    NoAttribute,
}

pub fn attribute_named(word: NameId) -> Attribute
    ensures { plain_attribute result ≡ attribute_of word }
{
    if word == NameId::FIRST {
        Attribute::First
    } else if word == NameId::LAST {
        Attribute::Last
    } else if word == NameId::POS {
        Attribute::Pos
    } else if word == NameId::VAL {
        Attribute::Val
    } else if word == NameId::SUCC {
        Attribute::Succ
    } else if word == NameId::PRED {
        Attribute::Pred
    } else if word == NameId::IMAGE {
        Attribute::Image
    } else {
        Attribute::NoAttribute
    }
}

impl Attribute {
    /// 'FIRST and 'LAST, which have no argument.
    pub fn is_bound(self) -> bool
        ensures { result ≡ is_bound (plain_attribute self) }
    {
        match self {
            Attribute::First | Attribute::Last => true,
            _ => false,
        }
    }

    /// The attributes with an argument.
    pub fn is_function(self) -> bool
        ensures { result ≡ is_function (plain_attribute self) }
    {
        match self {
            Attribute::First | Attribute::Last | Attribute::NoAttribute => false,
            _ => true,
        }
    }

    pub fn is_image(self) -> bool
        ensures { result ≡ is_image (plain_attribute self) }
    {
        match self {
            Attribute::Image => true,
            _ => false,
        }
    }

    /// The attributes that are static where their argument is.
    pub fn keeps_static(self) -> bool
        ensures { result ≡ keeps_static (plain_attribute self) }
    {
        match self {
            Attribute::Pos | Attribute::Val | Attribute::Succ | Attribute::Pred => true,
            _ => false,
        }
    }

    /// The kind of the argument, for a mark of a kind.
    pub fn argument_kind(self, kind: u32) -> u32
        ensures { result ≡ argument_kind (plain_attribute self) kind }
    {
        match self {
            Attribute::Val => INTEGER,
            _ => kind,
        }
    }

    /// The kind that an attribute with an argument gives.
    pub fn function_kind(self, kind: u32) -> Option<u32>
        ensures { result ≡ function_kind (plain_attribute self) kind }
    {
        match self {
            Attribute::Pos => Some(INTEGER),
            Attribute::Val | Attribute::Succ | Attribute::Pred => Some(kind),
            _ => None,
        }
    }

    /// The kind that an attribute without an argument gives.
    pub fn bound_kind(self, kind: u32) -> Option<u32>
        ensures { result ≡ bound_kind (plain_attribute self) kind }
    {
        match self {
            Attribute::First | Attribute::Last => Some(kind),
            _ => None,
        }
    }
}

/// The second where the first is a kind.
pub(crate) fn where_kind(kind: u32, other: Option<u32>, then: Option<u32>) -> Option<u32>
    ensures { result ≡ if_kind kind other then }
{
    match other {
        Some(other) => { if kind == other { then } else { None } }
        None => None,
    }
}

/// The kind of an attribute with an argument, by the kinds of its mark and of the argument.
pub(crate) fn kind_of_attribute(
    attribute: Attribute,
    mark: Option<u32>,
    argument: Option<u32>,
) -> Option<u32>
    ensures { result ≡ attribute_kind (plain_attribute attribute) mark argument }
{
    match mark {
        Some(kind) => where_kind(
            attribute.argument_kind(kind),
            argument,
            attribute.function_kind(kind),
        ),
        None => None,
    }
}

/// The kind of the operands of an operator, none where it takes any scalar kind.
pub(crate) fn operand_of(op: BinaryOp) -> Option<u32>
    ensures { plain_operand result ≡ takes op }
{
    match op {
        BinaryOp::And | BinaryOp::Or | BinaryOp::Xor | BinaryOp::AndThen | BinaryOp::OrElse => {
            Some(TRUTH)
        }
        BinaryOp::Equal
        | BinaryOp::NotEqual
        | BinaryOp::Less
        | BinaryOp::LessEqual
        | BinaryOp::Greater
        | BinaryOp::GreaterEqual => None,
        _ => Some(INTEGER),
    }
}

/// The kind of the operand of a unary operator.
pub(crate) fn operand_of_one(op: UnaryOp) -> Option<u32>
    ensures { plain_operand result ≡ takes_one op }
{
    match op {
        UnaryOp::Not => Some(TRUTH),
        _ => Some(INTEGER),
    }
}

/// Whether an operand of a kind fits.
pub(crate) fn does_take(operand: Option<u32>, kind: u32) -> bool
    ensures { result ≡ is_taken (plain_operand operand) kind }
{
    match operand {
        Some(taken) => taken == kind,
        None => true,
    }
}

// The kind of an operator's result.
fn given(operand: Option<u32>) -> u32
    ensures { result ≡ given_by (plain_operand operand) }
{
    match operand {
        Some(kind) => kind,
        None => TRUTH,
    }
}

/// The kind of a unary operator's result.
pub(crate) fn kind_of_unary(operand: Option<u32>, kind: Option<u32>) -> Option<u32>
    ensures { result ≡ unary_kind (plain_operand operand) kind }
{
    match kind {
        Some(kind) => {
            if does_take(operand, kind) {
                Some(given(operand))
            } else {
                None
            }
        }
        None => None,
    }
}

/// The kind of an operator's result.
pub(crate) fn kind_of_binary(
    operand: Option<u32>,
    left: Option<u32>,
    right: Option<u32>,
) -> Option<u32>
    ensures { result ≡ binary_kind (plain_operand operand) left right }
{
    match left {
        Some(left) => match right {
            Some(right) => {
                if does_take(operand, left) && does_take(operand, right) && left == right {
                    Some(given(operand))
                } else {
                    None
                }
            }
            None => None,
        },
        None => None,
    }
}

/// Whether a kind is another one than asked, where both are known.
pub fn is_other(asked: Option<u32>, kind: Option<u32>) -> bool
    ensures { result ≡ is_other_kind asked kind }
{
    match asked {
        Some(asked) => match kind {
            Some(kind) => asked != kind,
            None => false,
        },
        None => false,
    }
}
