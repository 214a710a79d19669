// What the static rules refuse, and which of several refusals comes first.

ghost use Rattle.std.specs.Prelude.{◌≡◌, ◌∷◌, [], Some, if◌then◌else◌};
ghost use Rattle.syn_event.specs.Limits.{what_order};
ghost use Rattle.syn_event.specs.CheckRefusals.{over_order};
ghost use Rattle.ada_check_rules.specs.rules.Rules.{number_of, over_of, refused, refusal_by};
ghost use Rattle.ada_check_rules.specs.rules.Sooner.{sooner};

use ada_static_rules::ranking::{Ranked, first_in_rank};
use ada_tree::Span;
use std::marker::Model;
use syn_event::What;

/// The static rules behind those on names and types, in the order of their numbers. The last one tells the limit that is passed.
#[derive(Clone, Copy)]
pub enum Rule {
    SharedVariable,
    AcceptPlace,
    SelectForm,
    SameEntryTwice,
    ReservedName,
    MainEntry,
    AbortOrder,
    BodyMissing,
    ExitPlace,
    RaisePlace,
    Limit { what: What, limit: u32 },
}

// The number of a rule.
fn number(rule: Rule) -> u32
    ensures { result ≡ number_of rule }
{
    match rule {
        Rule::SharedVariable => 13,
        Rule::AcceptPlace => 14,
        Rule::SelectForm => 15,
        Rule::SameEntryTwice => 16,
        Rule::ReservedName => 17,
        Rule::MainEntry => 18,
        Rule::AbortOrder => 19,
        Rule::BodyMissing => 20,
        Rule::ExitPlace => 21,
        Rule::RaisePlace => 22,
        Rule::Limit { .. } => 23,
    }
}

// The place of a limit in their order.
fn order_of_limit(what: What) -> u32
    ensures { result ≡ what_order what }
{
    match what {
        What::Name => 0,
        What::Nesting => 1,
        What::Tasks => 2,
        What::Entries => 3,
        What::Members => 4,
        What::Components => 5,
        What::Alternatives => 6,
        What::Formals => 7,
        What::Copies => 8,
    }
}

// The order among refusals of one rule at one place.
fn order(rule: Rule) -> u32
    ensures { result ≡ over_order (over_of rule) }
{
    match rule {
        Rule::Limit { what, .. } => order_of_limit(what),
        _ => 0,
    }
}

/// A rule and the place that it refuses. A contract sees the number of the rule, the limit that is passed, and the place.
#[derive(Drop)]
pub struct Refusal {
    rule: Rule,
    span: Span,
}

impl Model for Refusal {
    ghost use Rattle.syn_event.specs.CheckRefusals.{CheckRefusal};
    ghost use Rattle.ada_check_rules.specs.rules.Rules.{number_of, over_of};

    ghost Value = { CheckRefusal };

    ghost view = { λ a. record { rule = number_of a.rule; over = over_of a.rule; span = a.span } };
}

impl Refusal {
    /// The rule and the place.
    pub fn parts(&self) -> (Rule, Span)
        ensures { refusal_by result.0 result.1 ≡ self.now }
    {
        (self.rule, self.span)
    }
}

impl Ranked for Refusal {
    ghost use Rattle.ada_check_rules.specs.rules.Sooner.{rank_of};

    ghost rank = { rank_of };

    fn start(&self) -> u32 {
        self.span.start
    }

    fn rule_number(&self) -> u32 {
        number(self.rule)
    }

    fn last_number(&self) -> u32 {
        order(self.rule)
    }
}

/// The first of two refusals, where there are some.
pub fn first(one: Option<Refusal>, other: Option<Refusal>) -> Option<Refusal>
    ensures { result ≡ sooner one other }
{
    first_in_rank(one, other)
}

/// A place that a rule refuses.
pub(crate) fn refuse(rule: Rule, span: Span) -> Option<Refusal>
    ensures { result ≡ refused rule (span ∷ []) }
{
    Some(Refusal { rule, span })
}

/// A place that a rule refuses where a test fails.
pub fn refuse_if(test: bool, rule: Rule, span: Span) -> Option<Refusal>
    ensures { result ≡ refused rule (if test then span ∷ [] else []) }
{
    if test { refuse(rule, span) } else { None }
}
