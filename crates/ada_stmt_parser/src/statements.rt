//! Statements, by the grammar of ANSI/MIL-STD-1815A chapters 5, 9 and 11. Each reader takes how many levels may stand
//! below the statement, and gives the tree and what stands behind it.

ghost use Rattle.std.specs.Prelude.{◌≡◌, ◌<◌, IfOk, length};
ghost use Rattle.ada_tree.specs.PlainStmt.{plain_stmt};
ghost use Rattle.ada_expr_parser.specs.readers.Readers.{Found, token};
ghost use Rattle.ada_expr_parser.specs.Tests as tests;
ghost use Rattle.ada_expr_parser.specs.Gives.{Gives};
ghost use Rattle.ada_stmt_parser.specs.inner.ReadingStatements as statements;
ghost use Rattle.ada_phrase_parser.specs.Views.{told};
ghost use Rattle.ada_stmt_parser.specs.inner.Turns as turns;

use crate::compound::{read_case, read_if};
use crate::handled_statements::read_block;
use crate::looping::loop_from;
use crate::selecting::{read_accept, read_select};
use ada_compound_parts::begins_loop;
use ada_expr_parser::{Item, ParseError, Symbol};
use ada_phrase_parser::{Source, stands, word_in};
use ada_simple_stmt_parser::{
    read_abort, read_delay, read_exit, read_null, read_raise, read_word_stmt,
};
use ada_tree::{Stmt, StmtKind, Word};
use std::alloc::Global;

/// A statement.
#[tactic(auto, using(crate::proofs::Inner::inward))]
#[cycle(stmt)]
pub(crate) fn read_stmt<'a>(
    alloc: Global,
    source: &Source<'_>,
    depth: u32,
    items: &'a [Item],
) -> Result<(Stmt, &'a [Item]), ParseError>
    ensures tree { Gives (λ x. plain_stmt x.0) (λ x. x.1.now) result ((statements.readers (told source.now) depth).stmt items.now) }
    ensures shorter { IfOk result (λ x. length x.1.now < length items.now) }
{
    let [next, rest @ ..] = items else {
        return Err(ParseError::Syntax { at: 0 });
    };
    if stands(Symbol::Select, *next) {
        if depth == 0 {
            return Err(ParseError::TooDeep {
                at: next.span.start,
            });
        }
        return read_select(alloc, source, depth, next.span, rest);
    }
    if stands(Symbol::If, *next) {
        if depth == 0 {
            return Err(ParseError::TooDeep {
                at: next.span.start,
            });
        }
        return read_if(alloc, source, depth, next.span, rest);
    }
    case_or_block(alloc, source, depth, items)
}

// A case statement, a block, or one that begins otherwise.
#[tactic(auto, using(crate::proofs::Inner::inward))]
#[cycle(stmt)]
fn case_or_block<'a>(
    alloc: Global,
    source: &Source<'_>,
    depth: u32,
    items: &'a [Item],
) -> Result<(Stmt, &'a [Item]), ParseError>
    ensures tree { Gives (λ x. plain_stmt x.0) (λ x. x.1.now) result (turns.case_or_block (told source.now) depth (statements.inner_at (told source.now) depth) items.now) }
    ensures shorter { IfOk result (λ x. length x.1.now < length items.now) }
{
    let [next, rest @ ..] = items else {
        return Err(ParseError::Syntax { at: 0 });
    };
    if stands(Symbol::Case, *next) {
        if depth == 0 {
            return Err(ParseError::TooDeep {
                at: next.span.start,
            });
        }
        return read_case(alloc, source, depth, next.span, rest);
    }
    if stands(Symbol::Begin, *next) {
        if depth == 0 {
            return Err(ParseError::TooDeep {
                at: next.span.start,
            });
        }
        return read_block(alloc, source, depth, next.span, rest);
    }
    any_loop(alloc, source, depth, items)
}

// A loop without a name, or a statement that begins otherwise.
#[tactic(auto, using(crate::proofs::Inner::inward, crate::proofs::Loops::loops))]
#[cycle(stmt)]
fn any_loop<'a>(
    alloc: Global,
    source: &Source<'_>,
    depth: u32,
    items: &'a [Item],
) -> Result<(Stmt, &'a [Item]), ParseError>
    ensures tree { Gives (λ x. plain_stmt x.0) (λ x. x.1.now) result (turns.any_loop (told source.now) depth (statements.inner_at (told source.now) depth) items.now) }
    ensures shorter { IfOk result (λ x. length x.1.now < length items.now) }
{
    let [next, rest @ ..] = items else {
        return Err(ParseError::Syntax { at: 0 });
    };
    if begins_loop(*next) {
        if depth == 0 {
            return Err(ParseError::TooDeep {
                at: next.span.start,
            });
        }
        return loop_from(alloc, source, depth, None, next.span, items);
    }
    worded(alloc, source, depth, items)
}

// A simple statement that begins with a reserved word, or one that begins otherwise.
#[tactic(auto, using(crate::proofs::Inner::inward))]
#[cycle(stmt)]
fn worded<'a>(
    alloc: Global,
    source: &Source<'_>,
    depth: u32,
    items: &'a [Item],
) -> Result<(Stmt, &'a [Item]), ParseError>
    ensures tree { Gives (λ x. plain_stmt x.0) (λ x. x.1.now) result (turns.worded (told source.now) depth (statements.inner_at (told source.now) depth) items.now) }
    ensures shorter { IfOk result (λ x. length x.1.now < length items.now) }
{
    let [next, rest @ ..] = items else {
        return Err(ParseError::Syntax { at: 0 });
    };
    let lead = next.span;
    if stands(Symbol::Null, *next) {
        return read_null(lead, rest);
    }
    if stands(Symbol::Delay, *next) {
        return read_delay(lead, rest);
    }
    if stands(Symbol::Exit, *next) {
        return read_exit(alloc, depth, lead, rest);
    }
    if stands(Symbol::Raise, *next) {
        return read_raise(lead, rest);
    }
    if stands(Symbol::Abort, *next) {
        return read_abort(alloc, depth, lead, rest);
    }
    accept_or_name(alloc, source, depth, items)
}

// An accept statement, or what begins with a name.
#[tactic(auto, using(crate::proofs::Inner::inward, ada_tree::proofs::Rows::rows))]
#[cycle(stmt)]
fn accept_or_name<'a>(
    alloc: Global,
    source: &Source<'_>,
    depth: u32,
    items: &'a [Item],
) -> Result<(Stmt, &'a [Item]), ParseError>
    ensures tree { Gives (λ x. plain_stmt x.0) (λ x. x.1.now) result (turns.accept_or_name (told source.now) depth (statements.inner_at (told source.now) depth) items.now) }
    ensures shorter { IfOk result (λ x. length x.1.now < length items.now) }
{
    let [next, rest @ ..] = items else {
        return Err(ParseError::Syntax { at: 0 });
    };
    if stands(Symbol::Accept, *next) {
        let (accept, rest) = read_accept(alloc, source, depth, next.span, rest)?;
        let span = accept.span;
        return Ok((
            Stmt {
                kind: StmtKind::Accept(accept),
                span,
            },
            rest,
        ));
    }
    match word_in(*next) {
        Some(name) => named(alloc, source, depth, name, rest, items),
        None => Err(ParseError::Syntax {
            at: next.span.start,
        }),
    }
}

// Behind a name: `:` and a loop, or a statement that begins with the name; `items` are those from the name on.
#[tactic(auto, using(crate::proofs::Inner::inward, crate::proofs::Loops::loops))]
#[cycle(stmt)]
fn named<'a>(
    alloc: Global,
    source: &Source<'_>,
    depth: u32,
    name: Word,
    behind: &'a [Item],
    items: &'a [Item],
) -> Result<(Stmt, &'a [Item]), ParseError>
    requires { token tests.word items.now ≡ Found name behind.now }
    ensures tree { Gives (λ x. plain_stmt x.0) (λ x. x.1.now) result (statements.named_rest (told source.now) depth (statements.inner_at (told source.now) depth) name behind.now) }
    ensures shorter { IfOk result (λ x. length x.1.now < length items.now) }
{
    let [next, rest @ ..] = behind else {
        return Err(ParseError::Syntax { at: 0 });
    };
    if !stands(Symbol::Colon, *next) {
        return read_word_stmt(alloc, source, depth, items);
    }
    if depth == 0 {
        return Err(ParseError::TooDeep {
            at: next.span.start,
        });
    }
    loop_from(alloc, source, depth, Some(name), name.span, rest)
}
