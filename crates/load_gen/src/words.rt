// The ids of the program's own names, words of names, and formals.

ghost use Rattle.std.specs.Prelude.{◌≡◌, ◌≤◌, ◌∷◌, [], map, IfOk};
ghost use Rattle.ada_tree.specs.PlainStmt.{plain_formal};
ghost use Rattle.load_gen.specs.LoadTree.{formal, most_producers, producer_id, word};

use ada_tree::{Formal, Memory, NameId, ParMode, Span, Word};
use std::alloc::Global;
use tree_rewriting::making::one_formal;

/// The ids of the names behind the predefined ones, in the order in which they are interned.
pub(crate) const LOAD: NameId = NameId(25);

pub(crate) const BUFFER: NameId = NameId(26);

pub(crate) const GIVEN: NameId = NameId(27);

pub(crate) const SUM: NameId = NameId(28);

pub(crate) const TURN: NameId = NameId(29);

/// No part has a place, since no text was read.
pub(crate) const NOWHERE: Span = Span { start: 0, end: 0 };

/// The id of the name of the producer of a number, from 1.
pub(crate) fn producer(k: u32) -> NameId
    requires { k ≤ most_producers }
    ensures { result ≡ record { 0 = producer_id k } }
{
    NameId(TURN.0 + k)
}

/// A name as a word.
pub(crate) fn word(name: NameId) -> Word
    ensures { result ≡ word name.0 }
{
    Word {
        name,
        span: NOWHERE,
    }
}

/// A list of one word.
pub(crate) fn one_word(alloc: Global, name: NameId) -> Result<Vec<Word>, Memory>
    ensures { IfOk result (λ made. made.items ≡ word name.0 ∷ []) }
{
    let mut words = Vec::new(alloc);
    words.push(word(name))?;
    Ok(words)
}

/// The formal of the entry and of its accept.
pub(crate) fn formals(alloc: Global) -> Result<Vec<Formal>, Memory>
    ensures { IfOk result (λ made. map plain_formal made.items ≡ formal ∷ []) }
{
    let formal = match one_word(alloc, GIVEN) {
        Ok(names) => Ok(Formal {
            names,
            mode: ParMode::Take,
            mark: word(NameId::INTEGER),
        }),
        Err(e) => Err(e),
    };
    one_formal(alloc, formal)
}
