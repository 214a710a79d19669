//! The reader of whole texts.

ghost use Rattle.std.specs.Prelude.{◌≡◌, ◌≢◌, ◌<◌, ◌-◌, ◌+◌, ◌^◌, ℕ, true, false, codes, drop, length, All, IfOk, IfErr, MatchResult};
ghost use Rattle.ada_lexer.specs.declared.errors.LexError.{LexError};
ghost use Rattle.ada_lexer.specs.Split.{Splits, HasFirstFault, IsTokenOf};
ghost use Rattle.ada_tree.specs.PlainProgram.{PProgram, plain_program};
ghost use Rattle.ada_tree.specs.WellPlaced.{IsWellPlaced};
ghost use Rattle.ada_expr_parser.specs.declared.errors.ParseError.TheVariants as parts;
ghost use Rattle.ada_expr_parser.specs.Gives.{Gives};
ghost use Rattle.ada_parser.specs.declared.errors.ReadError.TheVariants as errors;
ghost use Rattle.ada_phrase_parser.specs.Spelling.{id_of};
ghost use Rattle.ada_parser.specs.Reads as reads;
ghost use Rattle.ada_parser.specs.Reads.{Reads, SyntaxAt, TooDeepAt};
ghost use Rattle.ada_parser.specs.inner.ReadingUnits as units;
ghost use Rattle.ada_parser.specs.Exactly.{IsRead, program_of};
ghost use Rattle.ada_parser.specs.Refusals.{IsRefusedFor, whole_error, tokens_error};
ghost use Rattle.ada_parser.specs.inner.UnitViews.{plain_unit};
ghost use Rattle.ada_phrase_parser.specs.Views.{told};

use crate::errors::ReadError;
use crate::units::{Unit, read_unit};
use ada_expr_parser::{Item, ItemKind, Items, ParseError, read_items};
use ada_lexer::{LexError, Token, tokens};
use ada_phrase_parser::Source;
use ada_tree::{NameId, Names, Program};
use std::alloc::Global;

// How many levels may stand below the root of each expression in a unit's own declarations. These have the nesting 1 and
// such a root 2, and a text is nested at most 300 deep.
const DEEPEST: u32 = 298;

/// The program of a text.
///
/// `Ok` comes exactly where the bytes are in the grammar and nested at most 300 deep. Otherwise the error is the first
/// fault of the tokens in the whole text, or else the place where no text goes on, or none but deeper ones. `Memory` alone
/// may stand for every answer. Each program that is read is well placed. Time goes by the length of the text.
pub fn read(alloc: Global, bytes: &[u8]) -> Result<Program, ReadError>
    requires { length bytes.now < 2 ^ 32 - 1 }
    ensures read { IfOk result (λ p. IsRead bytes.now (plain_program p)) }
    ensures placed { IfOk result (λ p. IsWellPlaced (plain_program p)) }
    ensures refused { IfErr result (λ e. IsRefusedFor bytes.now e) }
    ensures only_read { (p : PProgram) → Reads bytes.now p → MatchResult result (λ q. plain_program q ≡ p) (λ e. e ≡ errors.Memory) }
    ensures only_syntax { (at : ℕ) → SyntaxAt bytes.now at → MatchResult result (λ q. ⊥) (λ e. e ≢ errors.Memory → e ≡ errors.Syntax at) }
    ensures only_deep { (at : ℕ) → TooDeepAt bytes.now at → MatchResult result (λ q. ⊥) (λ e. e ≢ errors.Memory → e ≡ errors.TooDeep at) }
    ensures only_fault { (fault : LexError) → HasFirstFault bytes.now fault → MatchResult result (λ q. ⊥) (λ e. e ≢ errors.Memory → e ≡ errors.Lex fault) }
{
    read_bytes(alloc, bytes)
}

// The same, by what an answer says of the bytes.
fn read_bytes(alloc: Global, bytes: &[u8]) -> Result<Program, ReadError>
    requires { length bytes.now < 2 ^ 32 - 1 }
    ensures read { IfOk result (λ p. IsRead bytes.now (plain_program p)) }
    ensures refused { IfErr result (λ e. IsRefusedFor bytes.now e) }
{
    match tokens(alloc, bytes) {
        Ok(found) => read_tokens(alloc, bytes, found.as_slice()),
        Err(fault) => Err(of_tokens(fault)),
    }
}

// The program of a text that has these tokens.
fn read_tokens(alloc: Global, bytes: &[u8], tokens: &[Token]) -> Result<Program, ReadError>
    requires short { length bytes.now < 2 ^ 32 }
    requires splits { Splits bytes.now tokens.now }
    requires slices { All (IsTokenOf bytes.now) tokens.now }
    ensures read { IfOk result (λ p. IsRead bytes.now (plain_program p)) }
    ensures refused { IfErr result (λ e. IsRefusedFor bytes.now e) }
{
    let found = match read_items(alloc, bytes, tokens) {
        Ok(found) => found,
        Err(_) => return Err(ReadError::Memory),
    };
    let Items { names, list } = found;
    let source = Source {
        bytes,
        names: &names,
    };
    match read_whole(alloc, &source, list.as_slice()) {
        Ok((unit, _)) => Ok(program(names, unit)),
        Err(error) => Err(of_part(error)),
    }
}

// The program of a unit.
fn program(names: Names, unit: Unit) -> Program
    ensures { plain_program result ≡ program_of names (plain_unit unit) }
{
    Program {
        names,
        text_io: unit.text_io,
        name: unit.name,
        decls: unit.decls,
        body: unit.body,
    }
}

// The fault of the tokens, as an error of whole texts.
fn of_tokens(fault: LexError) -> ReadError
    ensures { result ≡ tokens_error fault }
{
    match fault {
        LexError::BadByte { .. }
        | LexError::OpenString { .. }
        | LexError::BadNumber { .. }
        | LexError::TooLong { .. } => ReadError::Lex(fault),
        LexError::Memory => ReadError::Memory,
    }
}

// The error of a reader of parts, as one of whole texts.
fn of_part(error: ParseError) -> ReadError
    ensures { result ≡ whole_error error }
{
    match error {
        ParseError::Syntax { at } => ReadError::Syntax { at },
        ParseError::TooDeep { at } => ReadError::TooDeep { at },
        ParseError::Memory => ReadError::Memory,
    }
}

// A unit, and then the end.
#[tactic(auto, using(crate::proofs::Steps::steps))]
fn read_whole<'a>(
    alloc: Global,
    source: &Source<'_>,
    items: &'a [Item],
) -> Result<(Unit, &'a [Item]), ParseError>
    ensures { Gives (λ x. plain_unit x.0) (λ x. x.1.now) result (units.text (told source.now) items.now) }
{
    let priority = priority_id(source.names)?;
    let (unit, rest) = read_unit(alloc, source, DEEPEST, priority, items)?;
    let [next, ..] = rest else {
        return Err(ParseError::Syntax { at: 0 });
    };
    if !is_end(*next) {
        return Err(ParseError::Syntax {
            at: next.span.start,
        });
    }
    Ok((unit, rest))
}

// Whether an item is the end of the text.
fn is_end(item: Item) -> bool
    ensures { result ≡ reads.is_end item }
{
    match item.kind {
        ItemKind::End => true,
        _ => false,
    }
}

// The id of PRIORITY among the names, or the next one where it is not there. The names are gone through once for a text.
fn priority_id(names: &Names) -> Result<NameId, ParseError>
    ensures id { IfOk result (λ id. id.0 ≡ id_of names.now (codes "PRIORITY")) }
    ensures cause { IfErr result (λ e. e ≡ parts.Memory) }
{
    for id in 0..u32::MAX {
        if is_priority(names, id) {
            return Ok(NameId(id));
        }
    }
    Err(ParseError::Memory)
}

// Whether PRIORITY has this id, or no name has it.
#[tactic(auto, using(crate::proofs::Identifying::nowhere))]
fn is_priority(names: &Names, id: u32) -> bool
    ensures here { result ≡ true → id_of (drop id names.now) (codes "PRIORITY") ≡ 0 }
    ensures later { result ≡ false → id_of (drop id names.now) (codes "PRIORITY") ≡ id_of (drop (id + 1) names.now) (codes "PRIORITY") + 1 }
{
    match names.text(NameId(id)) {
        Some(text) => text == "PRIORITY",
        None => true,
    }
}
