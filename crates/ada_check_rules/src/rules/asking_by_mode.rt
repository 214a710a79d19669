// By what a program is checked, and what is asked of names and numbers alone.
#![tactic(auto, using(crate::proofs::rules::Meeting::asking))]

ghost use Rattle.std.specs.Prelude.{◌≡◌};
ghost use Rattle.syn_event.specs.CheckScope.{CheckScope, declares, counts};
ghost use Rattle.syn_event.specs.Limits.{original_limit, any_limit, limit_of};
ghost use Rattle.syn_event.specs.DeclaredTasks.{text_of};
ghost use Rattle.syn_event.specs.RuleReservedName.{has_mark, is_reserved, reserved_in};
ghost use Rattle.syn_event.specs.RuleLimit.{limit_passed};
ghost use Rattle.ada_check_rules.specs.rules.RefusedFirst.{Standard as By, refused_first_at};
ghost use Rattle.ada_check_rules.specs.rules.Sooner.{found, found_over};

use crate::rules::refusals::{Refusal, Rule, first, refuse, refuse_if};
use ada_tree::{NameId, Names, Span, Word};
use std::marker::Model;
use syn_event::{Mode, What};

/// By what a program is checked: its mode, and its names.
#[derive(Drop)]
pub struct Standard<'n> {
    mode: Mode,
    names: &'n Names,
}

impl<'n> Model for Standard<'n> {
    ghost use Rattle.ada_check_rules.specs.rules.RefusedFirst.{Standard as By};

    ghost Value = { By };

    ghost view = { λ a. record { mode = a.mode; names = a.names.now } };
}

// A limit in an original.
fn original_limit(what: What) -> Option<u32>
    ensures { result ≡ original_limit what }
{
    match what {
        What::Name => Some(120),
        What::Nesting => Some(40),
        What::Tasks => Some(200),
        What::Entries | What::Members => Some(1000),
        What::Components => Some(10000),
        What::Alternatives => Some(32),
        What::Formals => Some(16),
        What::Copies => Some(4194304),
    }
}

// A limit in any text.
fn any_limit(what: What) -> Option<u32>
    ensures { result ≡ any_limit what }
{
    match what {
        What::Name => Some(150),
        What::Nesting => Some(300),
        What::Tasks => Some(202),
        What::Entries => Some(2600),
        What::Members => Some(1000),
        What::Components => Some(1000000),
        What::Alternatives => Some(33),
        What::Formals => Some(17),
        What::Copies => None,
    }
}

// With so many behind those before, a limit is passed that those before keep to.
fn refuse_passed(
    what: What,
    limit: Option<u32>,
    before: u64,
    here: u64,
    span: Span,
) -> Option<Refusal>
    ensures { result ≡ found_over (limit_passed what limit before here span) }
{
    match limit {
        Some(limit) => {
            let most = limit as u64;
            if before <= most && here > most - before {
                refuse(Rule::Limit { what, limit }, span)
            } else {
                None
            }
        }
        None => None,
    }
}

const MARK: &[u8] = b"DED_";

const INNER_MARK: &[u8] = b"_DED_";

const MARK_ALONE: &[u8] = b"DED";

// Whether _DED_ stands somewhere in the text.
#[tactic(auto, using(crate::proofs::rules::Marking::mark_at))]
fn has_mark(text: &[u8]) -> bool
    ensures { result ≡ has_mark text.now }
{
    for place in 0..text.len() {
        if text[place..].starts_with(INNER_MARK) {
            return true;
        }
    }
    false
}

// Whether a name is left to the rewriters.
fn is_reserved(text: &[u8]) -> bool
    ensures { result ≡ is_reserved text.now }
{
    text.starts_with(MARK) || has_mark(text) || text == MARK_ALONE
}

impl<'n> Standard<'n> {
    /// The standard of a mode for a program of these names.
    pub fn new(mode: Mode, names: &'n Names) -> Self
        ensures { result ≡ record { mode = mode; names = names.now } }
    {
        Standard { mode, names }
    }

    // The limit of what is counted.
    fn limit(&self, what: What) -> Option<u32>
        ensures { result ≡ limit_of self.now.mode what }
    {
        match self.mode {
            Mode::Original => original_limit(what),
            Mode::Any => any_limit(what),
        }
    }

    // The text of a name.
    fn text(&self, name: NameId) -> &[u8]
        ensures { result.now ≡ text_of self.now.names name }
    {
        match self.names.text(name) {
            Some(text) => text.as_bytes(),
            None => b"",
        }
    }

    /// So many of what is limited, behind so many.
    pub fn refuse_count(&self, what: What, before: u64, here: u64, span: Span) -> Option<Refusal>
        ensures { (around : CheckScope) → result ≡ refused_first_at self.now around (counts what before here span) }
    {
        refuse_passed(what, self.limit(what), before, here, span)
    }

    // A name that is left to the rewriters, in an original.
    fn refuse_reserved(&self, word: Word) -> Option<Refusal>
        ensures { result ≡ found 17 (reserved_in self.now.mode self.now.names word) }
    {
        match self.mode {
            Mode::Original => refuse_if(
                is_reserved(self.text(word.name)),
                Rule::ReservedName,
                word.span,
            ),
            Mode::Any => None,
        }
    }

    /// A name that is declared.
    pub fn refuse_name(&self, word: Word) -> Option<Refusal>
        ensures { (around : CheckScope) → result ≡ refused_first_at self.now around (declares word) }
    {
        let reserved = self.refuse_reserved(word);
        let length = self.text(word.name).len() as u64;
        first(
            reserved,
            refuse_passed(What::Name, self.limit(What::Name), 0, length, word.span),
        )
    }
}
