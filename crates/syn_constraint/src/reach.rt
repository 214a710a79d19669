// Where a pattern matches an event: at which values of `?`.

ghost use Rattle.std.specs.Prelude.{◌≡◌, ◌&&◌, ℤ, pos, [], ◌∷◌, Option};
ghost use Rattle.syn_constraint.specs.Matching.{matches, is_whole, has_letter, fits, fit_all, asked_of, numbers_of};
ghost use Rattle.syn_constraint.specs.Lines.{number_count};
ghost use Rattle.syn_constraint.specs.inner.Reaching.{reaches, asks_same, is_same};

use super::constraints::{Letter, Num, Pattern};
use syn_event::Event;

/// The values of `?` at which something holds; no value at all is one of them.
#[derive(Clone, Copy)]
pub(crate) enum Reach {
    Nowhere,
    Everywhere,
    At(i64),
}

/// The values at which the pattern matches the event.
pub(crate) fn reach_of(pattern: &Pattern, event: &Event) -> Reach
    ensures { (value : Option ℤ) → reaches result value ≡ matches pattern.now value event.now }
{
    if is_whole(pattern.letter) {
        Reach::Everywhere
    } else if has_letter(pattern.letter, event) {
        reach_of_numbers(pattern, event)
    } else {
        Reach::Nowhere
    }
}

fn is_whole(letter: Letter) -> bool
    ensures { result ≡ is_whole letter }
{
    matches!(letter, Letter::Whole)
}

fn has_letter(letter: Letter, event: &Event) -> bool
    ensures { result ≡ has_letter letter event.now }
{
    match *event {
        Event::R { .. } => matches!(letter, Letter::R),
        Event::E { .. } => matches!(letter, Letter::E),
        Event::S { .. } => matches!(letter, Letter::S),
        Event::D { .. } => matches!(letter, Letter::D),
        Event::C { .. } => matches!(letter, Letter::C),
        Event::T { .. } => matches!(letter, Letter::T),
        Event::F { .. } => matches!(letter, Letter::F),
        Event::X { .. } => matches!(letter, Letter::X),
        Event::B { .. } => matches!(letter, Letter::B),
        Event::Z => matches!(letter, Letter::Z),
    }
}

// The values at which the numbers of the event are as the pattern asks.
fn reach_of_numbers(pattern: &Pattern, event: &Event) -> Reach
    ensures { (value : Option ℤ) → reaches result value ≡ fit_all value (asked_of pattern.now) (numbers_of event.now) }
{
    match *event {
        Event::R { c, e, i } => reach_of_call(pattern, c, e, i),
        Event::C { c, e, i } => reach_of_call(pattern, c, e, i),
        Event::T { c, e, i } => reach_of_call(pattern, c, e, i),
        Event::F { c, e, i } => reach_of_call(pattern, c, e, i),
        Event::E { a } => reach_of_one(pattern, a),
        Event::S { a } => reach_of_one(pattern, a),
        Event::X { a } => reach_of_one(pattern, a),
        Event::D { a, k } => reach_of_two(pattern, a, k),
        Event::B { t, x } => reach_of_two(pattern, t, x),
        Event::Z => Reach::Everywhere,
    }
}

fn reach_of_one(pattern: &Pattern, a: u32) -> Reach
    ensures { (value : Option ℤ) → reaches result value ≡ fit_all value (asked_of pattern.now) (pos a ∷ []) }
{
    narrowed(pattern.one, i64::from(a), Reach::Everywhere)
}

fn reach_of_two(pattern: &Pattern, a: u32, b: u32) -> Reach
    ensures { (value : Option ℤ) → reaches result value ≡ fit_all value (asked_of pattern.now) (pos a ∷ pos b ∷ []) }
{
    let behind = narrowed(pattern.two, i64::from(b), Reach::Everywhere);
    narrowed(pattern.one, i64::from(a), behind)
}

fn reach_of_call(pattern: &Pattern, c: u32, e: u32, i: i32) -> Reach
    ensures { (value : Option ℤ) → reaches result value ≡ fit_all value (asked_of pattern.now) (pos c ∷ pos e ∷ i ∷ []) }
{
    let last = narrowed(pattern.three, i64::from(i), Reach::Everywhere);
    let behind = narrowed(pattern.two, i64::from(e), last);
    narrowed(pattern.one, i64::from(c), behind)
}

// Those of the values at which the number is as it is asked.
fn narrowed(asked: Num, number: i64, reach: Reach) -> Reach
    ensures { (value : Option ℤ) → reaches result value ≡ (fits value asked number && reaches reach value) }
{
    match asked {
        Num::Every => reach,
        Num::Exact(n) => if n == number { reach } else { Reach::Nowhere },
        Num::Same => match reach {
            Reach::Nowhere => Reach::Nowhere,
            Reach::Everywhere => Reach::At(number),
            Reach::At(n) => if n == number { reach } else { Reach::Nowhere },
        },
    }
}

/// Whether the pattern has a `?`.
pub(crate) fn asks_same(pattern: &Pattern) -> bool
    ensures { result ≡ asks_same pattern.now }
{
    match number_count(pattern.letter) {
        0 => false,
        1 => is_same(pattern.one),
        2 => is_same(pattern.one) || is_same(pattern.two),
        _ => is_same(pattern.one) || is_same(pattern.two) || is_same(pattern.three),
    }
}

fn is_same(asked: Num) -> bool
    ensures { result ≡ is_same asked }
{
    matches!(asked, Num::Same)
}

/// How many numbers an event of the letter has.
pub(crate) fn number_count(letter: Letter) -> u8
    ensures { result ≡ number_count letter }
{
    match letter {
        Letter::R | Letter::C | Letter::T | Letter::F => 3,
        Letter::D | Letter::B => 2,
        Letter::E | Letter::S | Letter::X => 1,
        Letter::Z | Letter::Whole => 0,
    }
}
