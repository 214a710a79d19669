//! Tests of the next item, and lists that grow.

ghost use Rattle.std.specs.Prelude.{◌≡◌, [], ◌∷◌, ◌++◌, cond, Some, None, is_some, IfErr, OnOk};
ghost use Rattle.ada_expr_parser.specs.Tests as tests;
ghost use Rattle.ada_expr_parser.specs.Trees as trees;
ghost use Rattle.ada_expr_parser.specs.declared.errors.ParseError.TheVariants.{Memory};
ghost use Rattle.ada_phrase_parser.specs.Reading as reading;

use ada_expr_parser::{Item, ItemKind, ParseError, Symbol, symbol_in};
use ada_tree::{Span, Word};

/// Whether an item is this symbol.
pub fn is_symbol(wanted: Symbol, item: Item) -> bool
    ensures { result ≡ reading.is_symbol wanted item }
{
    symbol_in(wanted, item).is_some()
}

/// Whether an item is this symbol; the symbol's place is then that of the item.
#[tactic(auto, using(crate::proofs::Marks::placed))]
pub fn stands(wanted: Symbol, item: Item) -> bool
    ensures test { result ≡ reading.is_symbol wanted item }
    ensures place { tests.symbol wanted item ≡ cond result (Some item.span) None }
{
    symbol_in(wanted, item).is_some()
}

/// The identifier that an item is.
pub fn word_in(item: Item) -> Option<Word>
    ensures { result ≡ tests.word item }
{
    match item.kind {
        ItemKind::Name(name) => Some(Word {
            name,
            span: item.span,
        }),
        _ => None,
    }
}

/// From the start of one piece to the end of another.
pub fn from_to(first: Span, last: Span) -> Span
    ensures { result ≡ trees.from_to first last }
{
    Span {
        start: first.start,
        end: last.end,
    }
}

/// One more at the end of a list.
pub fn add<T: Drop>(list: &mut Vec<T>, item: T) -> Result<(), ParseError>
    ensures added { OnOk result (list.new.items ≡ list.old.items ++ item ∷ []) }
    ensures cause { IfErr result (λ e. e ≡ Memory) }
{
    match list.push(item) {
        Ok(()) => Ok(()),
        Err(_) => Err(ParseError::Memory),
    }
}
