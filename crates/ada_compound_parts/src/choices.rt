//! The choices of a case statement (5.4).

ghost use Rattle.std.specs.Prelude.{◌<◌, ◌≤◌, ◌-◌, IfOk, map, length};
ghost use Rattle.ada_expr_parser.specs.readers.Readers.{fronted};
ghost use Rattle.ada_tree.specs.PlainStmt.{plain_choice};
ghost use Rattle.ada_lexer.specs.declared.symbols.Symbol.TheVariants as key;
ghost use Rattle.ada_expr_parser.specs.Parts as parts;
ghost use Rattle.ada_expr_parser.specs.Gives.{Gives};
ghost use Rattle.ada_phrase_parser.specs.Reading as reading;

use ada_expr_parser::{Item, ParseError, Symbol, expect, read_choice};
use ada_phrase_parser::{add, stands};
use ada_tree::CaseChoice;
use std::alloc::Global;

// A choice behind `|`.
#[tactic(auto, using(crate::proofs::Steps::steps))]
fn next_choice<'a>(
    alloc: Global,
    depth: u32,
    items: &'a [Item],
) -> Result<(CaseChoice, &'a [Item]), ParseError>
    ensures tree { Gives (λ x. plain_choice x.0) (λ x. x.1.now) result (reading.key_then key.Bar (parts.choice depth) items.now) }
    ensures shorter { IfOk result (λ x. length x.1.now < length items.now) }
{
    let (_, rest) = expect(Symbol::Bar, items)?;
    read_choice(alloc, depth, rest)
}

// Further choices, each behind `|`, at the end of the list.
#[tactic(auto, using(crate::proofs::Steps::steps))]
fn choices_onto<'a>(
    alloc: Global,
    depth: u32,
    list: &mut Vec<CaseChoice>,
    items: &'a [Item],
) -> Result<&'a [Item], ParseError>
    ensures tree { Gives (λ x. map plain_choice list.new.items) (λ x. x.now) result (fronted (map plain_choice list.old.items) (reading.more_behind key.Bar (parts.choice depth) items.now)) }
    ensures shorter { IfOk result (λ x. length x.now ≤ length items.now) }
{
    let mut rest = items;
    'choices: loop {
        let [next, ..] = rest else {
            return Err(ParseError::Syntax { at: 0 });
        };
        if !stands(Symbol::Bar, *next) {
            return Ok(rest);
        }
        let (choice, behind) = next_choice(alloc, depth, rest)?;
        add(list, choice)?;
        rest = behind;
    }
}

/// Choices with `|` between them, one at least.
#[tactic(auto, using(crate::proofs::Steps::steps))]
pub fn read_choices<'a>(
    alloc: Global,
    depth: u32,
    items: &'a [Item],
) -> Result<(Vec<CaseChoice>, &'a [Item]), ParseError>
    ensures tree { Gives (λ x. map plain_choice x.0.items) (λ x. x.1.now) result (reading.separated key.Bar (parts.choice depth) items.now) }
    ensures shorter { IfOk result (λ x. length x.1.now < length items.now) }
{
    let (first, rest) = read_choice(alloc, depth, items)?;
    let mut list = Vec::new(alloc);
    add(&mut list, first)?;
    let rest = choices_onto(alloc, depth, &mut list, rest)?;
    Ok((list, rest))
}
