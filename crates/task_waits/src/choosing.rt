// Which alternatives of a wait are open, and which choices they give (9.5, 9.7.1). No call takes memory.

ghost use Rattle.std.specs.Prelude.{◌≡◌, ◌<◌, ◌≤◌, ◌+◌, ◌++◌, ◌^◌, ℕ, Option, Ok, map, option_map, length, IsOk};
ghost use Rattle.std.specs.List.{filter_map};
ghost use Rattle.std.specs.Vec.{vec_len, vec_capacity};
ghost use Rattle.ada_tree.specs.PlainExpr.{plain_expr};
ghost use Rattle.ada_tree.specs.PlainStmt.{plain_accept, plain_alt, plain_alt_kind, alts_of};
ghost use Rattle.ada_value.specs.Values.{and_then};
ghost use Rattle.task_model.specs.Waits.{Open, guard_holds, kind_opened, delays_with, alternatives_open};
ghost use Rattle.task_waits.specs.Standing.{task_here};
ghost use Rattle.task_waits.specs.inner.Choosing.{member_accepted, alternative_open, duration_of, duration_if, lesser, least_among, is_longer, is_of, chosen, chosen_if, with_choice, opens_or_none};

use crate::calls::{Here, Member};
use ada_tree::{Accept, Alt, AltKind, Expr};
use ada_value::{Raised, checked, is_true, truth_limits};
use event_machine::Choice;

/// A sort of choices: the open accepts, the open delays that are not longer than the least duration, or an open terminate.
#[derive(Clone, Copy)]
pub(crate) enum Sort {
    Accepts,
    Delays { least: Option<u32> },
    Terminates,
}

/// Whether a guard holds; none is one that holds.
pub(crate) fn guard_holds(here: &Here, guard: &Option<Expr>) -> Result<bool, Raised>
    ensures { result ≡ guard_holds (task_here here.now) (option_map plain_expr guard.now) }
{
    match guard {
        None => Ok(true),
        Some(test) => match here.value(test) {
            Ok(value) => match checked(truth_limits(), value) {
                Ok(value) => Ok(is_true(value)),
                Err(raised) => Err(raised),
            },
            Err(raised) => Err(raised),
        },
    }
}

/// The member that an accept is for.
pub(crate) fn member_accepted(here: &Here, accept: &Accept) -> Result<Member, Raised>
    ensures { result ≡ member_accepted (task_here here.now) (plain_accept accept.now) }
{
    let entry = here.links.entry_of(here.number, accept.entry.name);
    match here.member_index(entry, accept.index.as_ref()) {
        Ok(index) => Ok(Member { entry, index }),
        Err(raised) => Err(raised),
    }
}

// The duration of an alternative that is a delay; an accept's index is evaluated.
fn duration_of(here: &Here, kind: &AltKind) -> Result<Option<u32>, Raised>
    ensures { (k : ℕ) → result ≡ and_then (kind_opened (task_here here.now) (plain_alt_kind kind.now) k) (λ o. Ok (duration_of o)) }
{
    match kind {
        AltKind::Accept { accept, .. } => match member_accepted(here, accept) {
            Ok(_) => Ok(None),
            Err(raised) => Err(raised),
        },
        AltKind::Delay { thousandths, .. } => Ok(Some(*thousandths)),
        AltKind::Terminate => Ok(None),
    }
}

// The duration of an alternative that is an open delay: its guard is evaluated first, and where it does not hold nothing else.
fn duration_at(here: &Here, alt: &Alt) -> Result<Option<u32>, Raised>
    ensures { (k : ℕ) → result ≡ and_then (alternative_open (task_here here.now) (plain_alt alt.now) k) (λ o. Ok (duration_if o)) }
{
    match guard_holds(here, &alt.guard) {
        Ok(is_open) => {
            if is_open {
                duration_of(here, &alt.kind)
            } else {
                Ok(None)
            }
        }
        Err(raised) => Err(raised),
    }
}

// The lesser of two durations that may be none.
fn lesser(least: Option<u32>, duration: Option<u32>) -> Option<u32>
    ensures { result ≡ lesser least duration }
{
    match duration {
        Some(duration) => match least {
            Some(known) => {
                if duration < known {
                    Some(duration)
                } else {
                    Some(known)
                }
            }
            None => Some(duration),
        },
        None => least,
    }
}

/// The least duration of the open delays of a wait, or the exception that its guards and indexes raise, which are evaluated in written order.
pub(crate) fn least_duration(here: &Here, alts: &[Alt]) -> Result<Option<u32>, Raised>
    ensures { result ≡ and_then (alternatives_open (task_here here.now) (alts_of (map plain_alt alts.now)) 0) (λ all. Ok (least_among None all)) }
{
    let mut least = None;
    for alt in alts {
        match duration_at(here, alt) {
            Ok(duration) => least = lesser(least, duration),
            Err(raised) => return Err(raised),
        }
    }
    Ok(least)
}

// Whether a duration is above the least one.
fn is_longer(least: Option<u32>, duration: u32) -> bool
    ensures { result ≡ is_longer least duration }
{
    match least {
        Some(least) => least < duration,
        None => false,
    }
}

// Whether an alternative is of a sort.
fn is_of(sort: Sort, kind: &AltKind) -> bool
    ensures { result ≡ is_of sort (plain_alt_kind kind.now) }
{
    match kind {
        AltKind::Accept { .. } => match sort {
            Sort::Accepts => true,
            Sort::Delays { .. } => false,
            Sort::Terminates => false,
        },
        AltKind::Delay { .. } => match sort {
            Sort::Accepts => false,
            Sort::Delays { .. } => true,
            Sort::Terminates => false,
        },
        AltKind::Terminate => match sort {
            Sort::Accepts => false,
            Sort::Delays { .. } => false,
            Sort::Terminates => true,
        },
    }
}

// The choice of an alternative whose guard holds, with so many delay alternatives before it.
fn choice_of(here: &Here, sort: Sort, kind: &AltKind, delays: usize) -> Option<Choice>
    requires { delays + 1 < 2 ^ 32 }
    ensures { (o : Open) → kind_opened (task_here here.now) (plain_alt_kind kind.now) delays ≡ Ok o → result ≡ chosen sort o }
{
    match kind {
        AltKind::Accept { accept, .. } => match sort {
            Sort::Accepts => match member_accepted(here, accept) {
                Ok(member) => Some(Choice::Accept {
                    e: member.entry,
                    i: member.index,
                }),
                Err(_) => None,
            },
            Sort::Delays { .. } => None,
            Sort::Terminates => None,
        },
        AltKind::Delay { thousandths, .. } => match sort {
            Sort::Accepts => None,
            Sort::Delays { least } => {
                if is_longer(least, *thousandths) {
                    None
                } else {
                    let number = delays + 1;
                    Some(Choice::Delay { k: number as u32 })
                }
            }
            Sort::Terminates => None,
        },
        AltKind::Terminate => match sort {
            Sort::Accepts => None,
            Sort::Delays { .. } => None,
            Sort::Terminates => Some(Choice::Terminate),
        },
    }
}

// The choice of an alternative, where it is open and of the sort.
fn choice_at(here: &Here, sort: Sort, alt: &Alt, delays: usize) -> Option<Choice>
    requires { delays + 1 < 2 ^ 32 }
    ensures { (o : Option Open) → alternative_open (task_here here.now) (plain_alt alt.now) delays ≡ Ok o → result ≡ chosen_if sort o }
{
    if !is_of(sort, &alt.kind) {
        return None;
    }
    match guard_holds(here, &alt.guard) {
        Ok(holds) => {
            if holds {
                choice_of(here, sort, &alt.kind, delays)
            } else {
                None
            }
        }
        Err(_) => None,
    }
}

/// The number of delay alternatives up to and with this one: closed ones count too.
pub(crate) fn delays_with(kind: &AltKind, delays: usize) -> usize
    requires { delays + 1 < 2 ^ 64 }
    ensures count { result ≡ delays_with (plain_alt_kind kind.now) delays }
    ensures few { result ≤ delays + 1 }
{
    match kind {
        AltKind::Accept { .. } => delays,
        AltKind::Delay { .. } => delays + 1,
        AltKind::Terminate => delays,
    }
}

/// Adds a choice that may be none, for which there is room.
pub(crate) fn put_choice(choices: &mut Vec<Choice>, choice: Option<Choice>)
    requires { length (with_choice choices.old.items choice) ≤ vec_capacity choices.old }
    ensures choices { choices.new.items ≡ with_choice choices.old.items choice }
    ensures same_room { vec_capacity choices.new ≡ vec_capacity choices.old }
{
    if let Some(choice) = choice {
        choices.push_reserved(choice);
    }
}

/// Adds the choices of a sort, for which there is room, in written order.
pub(crate) fn put_choices(here: &Here, sort: Sort, alts: &[Alt], choices: &mut Vec<Choice>)
    requires open { IsOk (alternatives_open (task_here here.now) (alts_of (map plain_alt alts.now)) 0) }
    requires few { length alts.now + 1 < 2 ^ 32 }
    requires room { vec_len choices.old + length (filter_map (chosen sort) (opens_or_none (alternatives_open (task_here here.now) (alts_of (map plain_alt alts.now)) 0))) ≤ vec_capacity choices.old }
    ensures choices { choices.new.items ≡ choices.old.items ++ filter_map (chosen sort) (opens_or_none (alternatives_open (task_here here.now) (alts_of (map plain_alt alts.now)) 0)) }
    ensures same_room { vec_capacity choices.new ≡ vec_capacity choices.old }
{
    let mut delays: usize = 0;
    for alt in alts {
        let choice = choice_at(here, sort, alt, delays);
        put_choice(choices, choice);
        delays = delays_with(&alt.kind, delays);
    }
}
