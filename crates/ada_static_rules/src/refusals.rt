// What the static rules refuse, and which of several refusals comes first.

ghost use Rattle.std.specs.Prelude.{◌≡◌, ◌∷◌, [], Some, if◌then◌else◌};
ghost use Rattle.ada_static_rules.specs.Rules.{number_of};
ghost use Rattle.ada_static_rules.specs.Sooner.{sooner, found};
ghost use Rattle.ada_static_rules.specs.Telling.{refusal_of};

use crate::errors::TypeError;
use crate::ranking::{Ranked, first_in_rank};
use ada_tree::Span;
use std::marker::Model;

/// The first twelve static rules, in the order of their numbers.
#[derive(Clone, Copy)]
pub enum Rule {
    Unknown,
    Duplicate,
    Mismatch,
    NotStatic,
    RangeBad,
    NotVariable,
    ReadOut,
    ArgCount,
    ChoiceBad,
    ArrayUse,
    TextUse,
    NotException,
}

/// The number of a rule.
fn number(rule: Rule) -> u32
    ensures { result ≡ number_of rule }
{
    match rule {
        Rule::Unknown => 1,
        Rule::Duplicate => 2,
        Rule::Mismatch => 3,
        Rule::NotStatic => 4,
        Rule::RangeBad => 5,
        Rule::NotVariable => 6,
        Rule::ReadOut => 7,
        Rule::ArgCount => 8,
        Rule::ChoiceBad => 9,
        Rule::ArrayUse => 10,
        Rule::TextUse => 11,
        Rule::NotException => 12,
    }
}

/// A rule and the place that it refuses. A contract sees the number of the rule and the place.
#[derive(Drop)]
pub struct Refusal {
    rule: Rule,
    span: Span,
}

impl Model for Refusal {
    ghost use Rattle.ada_static_rules.specs.Refusals.{Refusal};
    ghost use Rattle.ada_static_rules.specs.Rules.{number_of};

    ghost Value = { Refusal };

    ghost view = { λ a. record { rule = number_of a.rule; span = a.span } };
}

impl Ranked for Refusal {
    ghost use Rattle.ada_static_rules.specs.Sooner.{rank_of};

    ghost rank = { rank_of };

    fn start(&self) -> u32 {
        self.span.start
    }

    fn rule_number(&self) -> u32 {
        number(self.rule)
    }

    fn last_number(&self) -> u32 {
        self.span.end
    }
}

/// The first of two refusals, where there are some.
pub fn first(one: Option<Refusal>, other: Option<Refusal>) -> Option<Refusal>
    ensures { result ≡ sooner one other }
{
    first_in_rank(one, other)
}

/// A place that a rule refuses.
pub fn refuse(rule: Rule, span: Span) -> Option<Refusal>
    ensures { result ≡ found (number_of rule) (span ∷ []) }
{
    Some(Refusal { rule, span })
}

/// A place that a rule refuses where a test fails.
pub fn refuse_if(test: bool, rule: Rule, span: Span) -> Option<Refusal>
    ensures { result ≡ found (number_of rule) (if test then span ∷ [] else []) }
{
    if test { refuse(rule, span) } else { None }
}

/// The error that tells a refusal.
pub(crate) fn error_of(refusal: Refusal) -> TypeError
    ensures { refusal_of result ≡ Some refusal }
{
    let span = refusal.span;
    match refusal.rule {
        Rule::Unknown => TypeError::Unknown { span },
        Rule::Duplicate => TypeError::Duplicate { span },
        Rule::Mismatch => TypeError::Mismatch { span },
        Rule::NotStatic => TypeError::NotStatic { span },
        Rule::RangeBad => TypeError::RangeBad { span },
        Rule::NotVariable => TypeError::NotVariable { span },
        Rule::ReadOut => TypeError::ReadOut { span },
        Rule::ArgCount => TypeError::ArgCount { span },
        Rule::ChoiceBad => TypeError::ChoiceBad { span },
        Rule::ArrayUse => TypeError::ArrayUse { span },
        Rule::TextUse => TypeError::TextUse { span },
        Rule::NotException => TypeError::NotException { span },
    }
}
