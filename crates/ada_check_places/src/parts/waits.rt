// Selective waits as a whole: which alternatives they have, and what their accepts are for.
#![tactic(auto, using(ada_check_rules::proofs::rules::Meeting::meeting))]

ghost use Rattle.std.specs.Prelude.{◌≡◌, ◌∷◌, [], List, IfOk, map, option_map};
ghost use Rattle.ada_tree.specs.PlainExpr.{plain_expr};
ghost use Rattle.ada_tree.specs.PlainStmt.{PHead, PFormal, plain_alt, plain_alt_kind, alts_of};
ghost use Rattle.syn_event.specs.declared.limits.What.TheVariants.{Alternatives};
ghost use Rattle.syn_event.specs.CheckScope.{CheckScope, waits};
ghost use Rattle.syn_event.specs.RuleSelectForm.{alt_kinds, is_malformed};
ghost use Rattle.syn_event.specs.RuleSameEntryTwice.{accept_heads, clashing};
ghost use Rattle.syn_event.specs.CheckSites.{site, numbered, alt_places};
ghost use Rattle.ada_check_rules.specs.rules.Sooner.{found};
ghost use Rattle.ada_check_rules.specs.rules.RefusedFirst.{Standard as By, refused_first_at, refused_first};
ghost use Rattle.ada_check_places.specs.parts.inner.Claiming.{index_value, claim_of, AreClaims, IsAccepted, IsClaimed};
ghost use Rattle.ada_check_places.specs.parts.inner.Waiting.{with_kind, forms_in, wrong_form};

use crate::parts::claims::{Claim, Claims};
use ada_check_rules::rules::{Refusal, Rule, Standard, first, refuse_if};
use ada_check_rules::scopes::CheckScopes;
use ada_scopes::values::static_values::static_value;
use ada_tree::{Alt, AltKind, Expr, Span, Word};
use std::alloc::AllocError;
use syn_event::What;

/// Which alternatives stand in a wait: accepts, delays, one terminate at least, and two.
#[derive(Clone, Copy)]
struct Forms {
    accepts: bool,
    delays: bool,
    terminates: bool,
    again: bool,
}

// With one alternative more.
fn with_kind(forms: Forms, kind: &AltKind) -> Forms
    ensures { result ≡ with_kind forms (plain_alt_kind kind.now) }
{
    match kind {
        AltKind::Accept { .. } => Forms {
            accepts: true,
            ..forms
        },
        AltKind::Delay { .. } => Forms {
            delays: true,
            ..forms
        },
        AltKind::Terminate => Forms {
            terminates: true,
            again: forms.terminates || forms.again,
            ..forms
        },
    }
}

// Which alternatives stand in a wait.
fn forms_of(alts: &[Alt]) -> Forms
    ensures { result ≡ forms_in (alt_kinds (alts_of (map plain_alt alts.now))) }
{
    let mut forms = Forms {
        accepts: false,
        delays: false,
        terminates: false,
        again: false,
    };
    for alt in alts {
        forms = with_kind(forms, &alt.kind);
    }
    forms
}

// Whether alternatives, with an else part or none, are a wrong form.
fn is_wrong(forms: Forms, has_else: bool) -> bool
    ensures { result ≡ wrong_form forms has_else }
{
    let several = forms.terminates && forms.delays
        || has_else && (forms.terminates || forms.delays);
    !forms.accepts || forms.again || several
}

// Whether a wait has a wrong form.
fn is_malformed(alts: &[Alt], has_else: bool) -> bool
    ensures { result ≡ is_malformed (alt_kinds (alts_of (map plain_alt alts.now))) has_else }
{
    is_wrong(forms_of(alts), has_else)
}

// The value of an index, where it is there and static.
fn index_value(around: &CheckScopes, index: &Option<Expr>) -> Option<i64>
    ensures { result ≡ index_value around.now.types (option_map plain_expr index.now) }
{
    match index {
        Some(index) => static_value(index, around.types()).ok(),
        None => None,
    }
}

// An accept for what one before it is for.
fn claim_accept(
    around: &CheckScopes,
    claims: &mut Claims,
    entry: Word,
    index: &Option<Expr>,
    span: Span,
) -> Result<Option<Refusal>, AllocError>
    ensures { (before : List PHead) (formals : List PFormal) → AreClaims (map (claim_of around.now.types) before) claims.old → IfOk result (IsAccepted around.now.types before record { entry = entry; index = option_map plain_expr index.now; formals = formals; span = span } claims.new) }
{
    let claim = Claim {
        entry: entry.name,
        index: index_value(around, index),
    };
    let is_twice = claims.meets(claim);
    claims.add(claim)?;
    Ok(refuse_if(is_twice, Rule::SameEntryTwice, span))
}

// An alternative, which may be an accept for what one before it is for.
fn claim_kind(
    around: &CheckScopes,
    claims: &mut Claims,
    kind: &AltKind,
) -> Result<Option<Refusal>, AllocError>
    ensures { (before : List PHead) → AreClaims (map (claim_of around.now.types) before) claims.old → IfOk result (IsClaimed around.now.types before (plain_alt_kind kind.now) claims.new) }
{
    match kind {
        AltKind::Accept { accept, .. } => {
            claim_accept(around, claims, accept.entry, &accept.index, accept.span)
        }
        AltKind::Delay { .. } => Ok(None),
        AltKind::Terminate => Ok(None),
    }
}

// The accepts that are for what an earlier one is for.
fn refuse_twice(around: &CheckScopes, alts: &[Alt]) -> Result<Option<Refusal>, AllocError>
    ensures { IfOk result (λ r. r ≡ found 16 (clashing around.now.types [] (accept_heads (alt_kinds (alts_of (map plain_alt alts.now)))))) }
{
    let mut claims = Claims::new(around.alloc());
    let mut refusal = None;
    for alt in alts {
        let found = claim_kind(around, &mut claims, &alt.kind)?;
        refusal = first(refusal, found);
    }
    Ok(refusal)
}

// The alternatives by their number.
fn refuse_many(by: &Standard, alts: &[Alt]) -> Option<Refusal>
    ensures { (around : CheckScope) → result ≡ refused_first by.now (numbered around Alternatives 0 (alt_places (alts_of (map plain_alt alts.now)))) }
{
    let mut refusal = None;
    for (place, alt) in alts.iter().enumerate() {
        let found = by.refuse_count(What::Alternatives, place as u64, 1, alt.span);
        refusal = first(refusal, found);
    }
    refusal
}

// The form of a wait and what its accepts are for.
#[tactic(auto, using(ada_check_rules::proofs::rules::Meeting::asking))]
fn refuse_form(
    around: &CheckScopes,
    alts: &[Alt],
    has_else: bool,
    span: Span,
) -> Result<Option<Refusal>, AllocError>
    ensures { (by : By) → IfOk result (λ r. r ≡ refused_first_at by around.now (waits (alts_of (map plain_alt alts.now)) has_else span)) }
{
    let form = refuse_if(is_malformed(alts, has_else), Rule::SelectForm, span);
    let twice = refuse_twice(around, alts)?;
    Ok(first(form, twice))
}

/// Walks a selective wait without what stands in its alternatives.
pub fn walk_wait(
    around: &CheckScopes,
    by: &Standard,
    alts: &[Alt],
    has_else: bool,
    span: Span,
) -> Result<Option<Refusal>, AllocError>
    ensures { IfOk result (λ r. r ≡ refused_first by.now (site around.now (waits (alts_of (map plain_alt alts.now)) has_else span) ∷ numbered around.now Alternatives 0 (alt_places (alts_of (map plain_alt alts.now))))) }
{
    let form = refuse_form(around, alts, has_else, span)?;
    let many = refuse_many(by, alts);
    Ok(first(form, many))
}
