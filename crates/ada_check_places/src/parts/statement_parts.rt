// Parts of statements that hold no statements.
#![tactic(auto, using(ada_check_rules::proofs::rules::Meeting::meeting))]

ghost use Rattle.std.specs.Prelude.{◌≡◌, ◌∷◌, ◌++◌, [], List, Option, IfOk, map, flat_map, option_map};
ghost use Rattle.std.specs.List.{list_any};
ghost use Rattle.ada_tree.specs.PlainExpr.{PExpr, plain_expr};
ghost use Rattle.ada_tree.specs.PlainStmt.{PFormal, plain_target, plain_callee, plain_args, plain_call, plain_part, plain_choice, plain_scheme, plain_formal};
ghost use Rattle.syn_event.specs.CheckScope.{CheckScope, addresses, aborts_before, accepts, exits, declares};
ghost use Rattle.syn_event.specs.CheckSites.{site, if_there, names_sites, formal_names, expr_sites, target_sites, callee_sites, aborted_sites, args_sites, exprs_sites, call_sites, select_sites, part_sites, choice_sites, scheme_sites, head_sites, raise_sites};
ghost use Rattle.syn_event.specs.RuleExitPlace.{is_left};
ghost use Rattle.ada_check_places.specs.parts.inner.Asking.{is_no_task, is_own_task};
ghost use Rattle.ada_check_rules.specs.rules.RefusedFirst.{Standard as By, refused_first_at, refused_first};
ghost use Rattle.ada_check_places.specs.parts.inner.Aborted.{aborted_one};

use crate::parts::expressions::{
    deeper, refuse_deep, refuse_use, walk_drange, walk_expr, walk_exprs, walk_maybe,
};
use ada_check_rules::rules::{Refusal, Rule, Standard, first, refuse_if};
use ada_check_rules::scopes::CheckScopes;
use ada_tree::{
    Args, Call, Callee, CaseChoice, Expr, Formal, NameId, Part, Scheme, Span, Target, Word,
};
use std::alloc::AllocError;
use syn_event::Meant;

/// Walks names that are declared.
pub fn walk_names(by: &Standard, names: &[Word]) -> Option<Refusal>
    ensures { (around : CheckScope) → result ≡ refused_first by.now (names_sites around names.now) }
{
    let mut refusal = None;
    for name in names {
        refusal = first(refusal, by.refuse_name(*name));
    }
    refusal
}

/// Walks the names of formals.
pub fn walk_formals(by: &Standard, formals: &[Formal]) -> Option<Refusal>
    ensures { (around : CheckScope) → result ≡ refused_first by.now (names_sites around (formal_names (map plain_formal formals.now))) }
{
    let mut refusal = None;
    for formal in formals {
        refusal = first(refusal, walk_names(by, &formal.names));
    }
    refusal
}

/// Walks a name that may be left out.
pub fn walk_label(by: &Standard, name: Option<Word>) -> Option<Refusal>
    ensures { (around : CheckScope) → result ≡ refused_first by.now (if_there (λ x. site around (declares x) ∷ []) name) }
{
    match name {
        Some(name) => by.refuse_name(name),
        None => None,
    }
}

/// Walks a variable or a component.
pub fn walk_target(
    around: &CheckScopes,
    by: &Standard,
    k: u32,
    target: &Target,
) -> Result<Option<Refusal>, AllocError>
    ensures { IfOk result (λ r. r ≡ refused_first by.now (target_sites around.now k (plain_target target.now))) }
{
    let used = refuse_use(around, target.name.name, target.name.span);
    let index = walk_maybe(around, by, k, &target.index)?;
    Ok(first(used, index))
}

/// Walks an assignment.
pub fn walk_assign(
    around: &CheckScopes,
    by: &Standard,
    k: u32,
    target: &Target,
    value: &Expr,
) -> Result<Option<Refusal>, AllocError>
    ensures { IfOk result (λ r. r ≡ refused_first by.now (target_sites around.now k (plain_target target.now) ++ expr_sites around.now k (plain_expr value.now))) }
{
    let target = walk_target(around, by, k, target)?;
    let value = walk_expr(around, by, k, value)?;
    Ok(first(target, value))
}

// Whether a name means the main procedure or a task type.
fn is_no_task(meant: Option<Meant>) -> bool
    ensures { result ≡ is_no_task meant }
{
    match meant {
        Some(Meant::MainProcedure) => true,
        Some(Meant::TaskType) => true,
        _ => false,
    }
}

// A name where that of a task is needed.
#[tactic(auto, using(crate::proofs::parts::Asking::addresses_at))]
fn refuse_address(around: &CheckScopes, word: Word) -> Option<Refusal>
    ensures { (by : By) → result ≡ refused_first_at by around.now (addresses word) }
{
    refuse_if(
        is_no_task(around.meaning(word.name)),
        Rule::MainEntry,
        word.span,
    )
}

// Whether a name means a task that runs the body of that task or task type.
fn is_own_task(own: Option<NameId>, meant: Option<Meant>) -> bool
    ensures { result ≡ is_own_task own meant }
{
    match own {
        Some(own) => match meant {
            Some(Meant::TaskOf { unit }) => own.0 == unit.0,
            _ => false,
        },
        None => false,
    }
}

// A name in an abort statement with a further one behind it, where it is that of a task that runs the body in which the place is.
#[tactic(auto, using(crate::proofs::parts::Asking::aborts_at))]
fn refuse_before(around: &CheckScopes, word: Word) -> Option<Refusal>
    ensures { (by : By) → result ≡ refused_first_at by around.now (aborts_before word) }
{
    let is_own = is_own_task(around.own_name(), around.meaning(word.name));
    refuse_if(is_own, Rule::AbortOrder, word.span)
}

/// Walks a task, or a member of an array of tasks.
pub(crate) fn walk_callee(
    around: &CheckScopes,
    by: &Standard,
    k: u32,
    callee: &Callee,
) -> Result<Option<Refusal>, AllocError>
    ensures { IfOk result (λ r. r ≡ refused_first by.now (callee_sites around.now k (plain_callee callee.now))) }
{
    let address = refuse_address(around, callee.name);
    let index = walk_maybe(around, by, k, &callee.index)?;
    Ok(first(address, index))
}

// Walks a name of an abort statement, which may be the last one.
fn walk_aborted_one(
    around: &CheckScopes,
    by: &Standard,
    k: u32,
    callee: &Callee,
    is_last: bool,
) -> Result<Option<Refusal>, AllocError>
    ensures { IfOk result (λ r. r ≡ refused_first by.now (aborted_one around.now k (plain_callee callee.now) is_last)) }
{
    let walked = walk_callee(around, by, k, callee)?;
    if is_last {
        Ok(walked)
    } else {
        Ok(first(refuse_before(around, callee.name), walked))
    }
}

/// Walks the names of an abort statement.
pub fn walk_aborted(
    around: &CheckScopes,
    by: &Standard,
    k: u32,
    names: &[Callee],
) -> Result<Option<Refusal>, AllocError>
    ensures { IfOk result (λ r. r ≡ refused_first by.now (aborted_sites around.now k (map plain_callee names.now))) }
{
    let mut refusal = None;
    for (place, callee) in names.iter().enumerate() {
        let is_last = place + 1 == names.len();
        let found = walk_aborted_one(around, by, k, callee, is_last)?;
        refusal = first(refusal, found);
    }
    Ok(refusal)
}

// Walks a second list of arguments.
fn walk_second(
    around: &CheckScopes,
    by: &Standard,
    k: u32,
    second: &Option<Vec<Expr>>,
) -> Result<Option<Refusal>, AllocError>
    ensures { IfOk result (λ r. r ≡ refused_first by.now (if_there (exprs_sites around.now k) (option_map (λ v. map plain_expr v.items) second.now))) }
{
    match second {
        Some(list) => walk_exprs(around, by, k, list),
        None => Ok(None),
    }
}

// Walks the lists behind the name of an entry.
fn walk_args(
    around: &CheckScopes,
    by: &Standard,
    k: u32,
    args: &Args,
) -> Result<Option<Refusal>, AllocError>
    ensures { IfOk result (λ r. r ≡ refused_first by.now (args_sites around.now k (plain_args args.now))) }
{
    let one = walk_exprs(around, by, k, &args.first)?;
    let other = walk_second(around, by, k, &args.second)?;
    Ok(first(one, other))
}

// Walks the lists behind the name of an entry, where there are some.
fn walk_args_if(
    around: &CheckScopes,
    by: &Standard,
    k: u32,
    args: &Option<Args>,
) -> Result<Option<Refusal>, AllocError>
    ensures { IfOk result (λ r. r ≡ refused_first by.now (if_there (args_sites around.now k) (option_map plain_args args.now))) }
{
    match args {
        Some(args) => walk_args(around, by, k, args),
        None => Ok(None),
    }
}

/// Walks an entry call.
pub fn walk_call(
    around: &CheckScopes,
    by: &Standard,
    k: u32,
    call: &Call,
) -> Result<Option<Refusal>, AllocError>
    ensures { IfOk result (λ r. r ≡ refused_first by.now (call_sites around.now k (plain_call call.now))) }
{
    let callee = walk_callee(around, by, k, &call.task)?;
    let args = walk_args_if(around, by, k, &call.args)?;
    Ok(first(callee, args))
}

/// Walks the call of a conditional or timed one, which stands in a select of that nesting.
pub fn walk_select(
    around: &CheckScopes,
    by: &Standard,
    k: u32,
    call: &Call,
) -> Result<Option<Refusal>, AllocError>
    ensures { IfOk result (λ r. r ≡ refused_first by.now (select_sites around.now k (plain_call call.now))) }
{
    let inner = deeper(k)?;
    let deep = refuse_deep(by, inner, call.task.name.span);
    let walked = walk_call(around, by, deeper(inner)?, call)?;
    Ok(first(deep, walked))
}

// Walks a part of a text.
fn walk_part(
    around: &CheckScopes,
    by: &Standard,
    k: u32,
    part: &Part,
) -> Result<Option<Refusal>, AllocError>
    ensures { IfOk result (λ r. r ≡ refused_first by.now (part_sites around.now k (plain_part part.now))) }
{
    match part {
        Part::Words { .. } => Ok(None),
        Part::Value(e) => walk_expr(around, by, k, e),
    }
}

/// Walks the parts of a text.
pub fn walk_text(
    around: &CheckScopes,
    by: &Standard,
    k: u32,
    parts: &[Part],
) -> Result<Option<Refusal>, AllocError>
    ensures { IfOk result (λ r. r ≡ refused_first by.now (flat_map (part_sites around.now k) (map plain_part parts.now))) }
{
    let mut refusal = None;
    for part in parts {
        let found = walk_part(around, by, k, part)?;
        refusal = first(refusal, found);
    }
    Ok(refusal)
}

// Walks a choice of a case.
fn walk_choice(
    around: &CheckScopes,
    by: &Standard,
    k: u32,
    choice: &CaseChoice,
) -> Result<Option<Refusal>, AllocError>
    ensures { IfOk result (λ r. r ≡ refused_first by.now (choice_sites around.now k (plain_choice choice.now))) }
{
    let low = walk_expr(around, by, k, &choice.first)?;
    let high = walk_maybe(around, by, k, &choice.last)?;
    Ok(first(low, high))
}

/// Walks the choices of a `when`.
pub fn walk_choices(
    around: &CheckScopes,
    by: &Standard,
    k: u32,
    choices: &[CaseChoice],
) -> Result<Option<Refusal>, AllocError>
    ensures { IfOk result (λ r. r ≡ refused_first by.now (flat_map (choice_sites around.now k) (map plain_choice choices.now))) }
{
    let mut refusal = None;
    for choice in choices {
        let found = walk_choice(around, by, k, choice)?;
        refusal = first(refusal, found);
    }
    Ok(refusal)
}

// Walks how a loop goes on.
fn walk_scheme(
    around: &CheckScopes,
    by: &Standard,
    k: u32,
    scheme: &Scheme,
) -> Result<Option<Refusal>, AllocError>
    ensures { IfOk result (λ r. r ≡ refused_first by.now (scheme_sites around.now k (plain_scheme scheme.now))) }
{
    match scheme {
        Scheme::While(test) => walk_expr(around, by, k, test),
        Scheme::For { name, range, .. } => {
            let named = by.refuse_name(*name);
            let walked = walk_drange(around, by, k, range)?;
            Ok(first(named, walked))
        }
    }
}

/// Walks how a loop goes on, where that is said.
pub fn walk_scheme_if(
    around: &CheckScopes,
    by: &Standard,
    k: u32,
    scheme: &Option<Scheme>,
) -> Result<Option<Refusal>, AllocError>
    ensures { IfOk result (λ r. r ≡ refused_first by.now (if_there (scheme_sites around.now k) (option_map plain_scheme scheme.now))) }
{
    match scheme {
        Some(scheme) => walk_scheme(around, by, k, scheme),
        None => Ok(None),
    }
}

// An accept of an entry where it may not stand.
#[tactic(auto, using(ada_check_rules::proofs::rules::Meeting::at_accepts))]
fn refuse_accept(around: &CheckScopes, entry: Word, span: Span) -> Option<Refusal>
    ensures { (by : By) (index : Option PExpr) (formals : List PFormal) → result ≡ refused_first_at by around.now (accepts record { entry = entry; index = index; formals = formals; span = span }) }
{
    let is_wrong = !around.is_own_entry(entry.name) || around.is_accepting(entry.name);
    refuse_if(is_wrong, Rule::AcceptPlace, span)
}

/// Walks an accept without its statements.
pub fn walk_head(
    around: &CheckScopes,
    by: &Standard,
    k: u32,
    entry: Word,
    index: &Option<Expr>,
    formals: &[Formal],
    span: Span,
) -> Result<Option<Refusal>, AllocError>
    ensures { IfOk result (λ r. r ≡ refused_first by.now (head_sites around.now k record { entry = entry; index = option_map plain_expr index.now; formals = map plain_formal formals.now; span = span })) }
{
    let deep = refuse_deep(by, k, span);
    let place = refuse_accept(around, entry, span);
    let at = walk_maybe(around, by, deeper(k)?, index)?;
    let names = walk_formals(by, formals);
    Ok(first(deep, first(place, first(at, names))))
}

// Whether an exit of that name, or of none, leaves a loop.
fn is_left(name: Option<Word>, loop_name: Option<NameId>) -> bool
    ensures { result ≡ is_left name loop_name }
{
    match name {
        Some(word) => match loop_name {
            Some(id) => id.0 == word.name.0,
            None => false,
        },
        None => true,
    }
}

// Whether an exit of that name, or of none, leaves one of these loops.
fn is_any_left(loops: &[Option<NameId>], name: Option<Word>) -> bool
    ensures { result ≡ list_any (is_left name) loops.now }
{
    for loop_name in loops {
        if is_left(name, *loop_name) {
            return true;
        }
    }
    false
}

/// An exit that leaves no loop.
pub fn refuse_exit(around: &CheckScopes, name: Option<Word>, span: Span) -> Option<Refusal>
    ensures { (by : By) → result ≡ refused_first_at by around.now (exits name span) }
{
    let leaves = is_any_left(around.loops(), name);
    refuse_if(!leaves, Rule::ExitPlace, span)
}

/// A raise, which may have a name.
#[tactic(auto, using(crate::proofs::parts::Asking::raises_met, ada_check_rules::proofs::rules::Meeting::met_none))]
pub fn walk_raise(around: &CheckScopes, name: Option<Word>, span: Span) -> Option<Refusal>
    ensures { (by : By) → result ≡ refused_first by (raise_sites around.now name span) }
{
    match name {
        Some(_) => None,
        None => refuse_if(!around.is_in_handler(), Rule::RaisePlace, span),
    }
}
