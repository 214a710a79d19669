// Parts that are counted as far as limits go, and the formals of an entry.

ghost use Rattle.std.specs.Prelude.{◌≡◌, ◌+◌, ◌-◌, length, map};
ghost use Rattle.ada_tree.specs.declared.naming.Span.{Span};
ghost use Rattle.ada_tree.specs.PlainStmt.{plain_formal};
ghost use Rattle.syn_event.specs.declared.limits.What.{What};
ghost use Rattle.syn_event.specs.declared.limits.What.TheVariants.{Formals};
ghost use Rattle.syn_event.specs.CheckScope.{CheckScope, counts};
ghost use Rattle.syn_event.specs.CheckSites.{numbered, formal_names};
ghost use Rattle.ada_check_rules.specs.rules.Amounts.{capped};
ghost use Rattle.ada_check_rules.specs.rules.RefusedFirst.{refused_first_at, refused_first};
ghost use Rattle.ada_check_rules.specs.rules.Sooner.{sooner};
ghost use Rattle.ada_check_rules.specs.rules.inner.Counted.{IsCounted};

use crate::rules::amounts::plus;
use crate::rules::asking_by_mode::Standard;
use crate::rules::refusals::{Refusal, first};
use ada_tree::{Formal, Span, Word};
use syn_event::What;

/// How many of what is limited there are so far, counted as far as limits go, and the first refusal among them.
#[derive(Drop)]
pub struct Counted {
    pub count: u64,
    pub refusal: Option<Refusal>,
}

/// So many more of what is limited.
#[tactic(auto, using(crate::proofs::rules::Capping::capping))]
pub fn count_on(by: &Standard, what: What, so_far: Counted, here: u64, span: Span) -> Counted
    ensures count { capped result.count ≡ capped (so_far.count + here) }
    ensures refusal { (around : CheckScope) → result.refusal ≡ sooner so_far.refusal (refused_first_at by.now around (counts what so_far.count here span)) }
{
    let over = by.refuse_count(what, so_far.count, here, span);
    Counted {
        count: plus(so_far.count, here),
        refusal: first(so_far.refusal, over),
    }
}

// The formals of one declaration among those of an entry.
fn count_names(by: &Standard, so_far: Counted, names: &[Word]) -> Counted
    ensures { (around : CheckScope) → IsCounted by.now so_far (numbered around Formals so_far.count (map (λ w. w.span) names.now)) (length names.now) result }
{
    let mut counted = so_far;
    for name in names {
        counted = count_on(by, What::Formals, counted, 1, name.span);
    }
    counted
}

/// The formals of an entry.
pub fn refuse_formals(by: &Standard, formals: &[Formal]) -> Option<Refusal>
    ensures { (around : CheckScope) → result ≡ refused_first by.now (numbered around Formals 0 (map (λ w. w.span) (formal_names (map plain_formal formals.now)))) }
{
    let mut counted = Counted {
        count: 0,
        refusal: None,
    };
    for formal in formals {
        counted = count_names(by, counted, &formal.names);
    }
    counted.refusal
}
