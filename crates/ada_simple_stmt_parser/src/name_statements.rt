//! Simple statements that begin with a name: assignments, entry calls, PUT, PUT_LINE, NEW_LINE and GET.

ghost use Rattle.std.specs.Prelude.{◌≡◌, ◌<◌, ◌≤◌, ◌-◌, ◌+◌, ◌∷◌, [], Some, None, IfOk, IfErr, map, option_map, length};
ghost use Rattle.ada_expr_parser.specs.readers.Readers.{on, bind, pure, token, fronted};
ghost use Rattle.ada_tree.specs.PlainExpr.{plain_expr};
ghost use Rattle.ada_tree.specs.PlainStmt.{plain_stmt, plain_part, plain_target, PValue, SAssign, SCall, SNewLine};
ghost use Rattle.ada_lexer.specs.declared.symbols.Symbol.TheVariants as key;
ghost use Rattle.ada_expr_parser.specs.Tests as tests;
ghost use Rattle.ada_expr_parser.specs.Trees.{from_to, levels, indexed};
ghost use Rattle.ada_expr_parser.specs.Parts as parts;
ghost use Rattle.ada_expr_parser.specs.declared.errors.ParseError.TheVariants.{Memory};
ghost use Rattle.ada_expr_parser.specs.Gives.{Gives};
ghost use Rattle.ada_phrase_parser.specs.Reading as reading;
ghost use Rattle.ada_simple_stmt_parser.specs.inner.ReadingSimple as simple;
ghost use Rattle.ada_phrase_parser.specs.Views.{told};
ghost use Rattle.ada_simple_stmt_parser.specs.inner.SimpleViews.{put_of, expr_of};

use ada_expr_parser::{
    Item, ItemKind, ParseError, Symbol, expect, expect_word, read_behind, read_call_behind,
    read_expr, read_target,
};
use ada_phrase_parser::{
    Source, add, from_to, goes_on_name, is_operator, is_symbol, read_operand, said, word_in,
};
use ada_tree::{Callee, Expr, ExprKind, Part, Span, Stmt, StmtKind, Target, Word};
use std::alloc::Global;

// The ids of the predefined names that begin a statement of their own.
const PUT: u32 = 14;

const PUT_LINE: u32 = 15;

const NEW_LINE: u32 = 16;

const GET: u32 = 17;

// Behind a variable and `:=`.
#[tactic(auto, using(crate::proofs::Steps::steps))]
fn assignment<'a>(
    alloc: Global,
    depth: u32,
    target: Target,
    items: &'a [Item],
) -> Result<(Stmt, &'a [Item]), ParseError>
    requires { 0 < depth }
    ensures tree { Gives (λ x. plain_stmt x.0) (λ x. x.1.now) result (bind (parts.expression (depth - 1)) (λ v. reading.closed (λ close. SAssign (plain_target target) v (from_to target.name.span close))) items.now) }
    ensures shorter { IfOk result (λ x. length x.1.now < length items.now) }
{
    let lead = target.name.span;
    let (value, _, rest) = read_expr(alloc, depth - 1, items)?;
    let (close, rest) = expect(Symbol::Semicolon, rest)?;
    let span = from_to(lead, close);
    Ok((
        Stmt {
            kind: StmtKind::Assign { target, value },
            span,
        },
        rest,
    ))
}

// Behind the task of an entry call.
#[tactic(auto, using(crate::proofs::Steps::steps))]
fn entry_call<'a>(
    alloc: Global,
    depth: u32,
    target: Target,
    items: &'a [Item],
) -> Result<(Stmt, &'a [Item]), ParseError>
    ensures tree { Gives (λ x. plain_stmt x.0) (λ x. x.1.now) result (bind (parts.call_rest depth (parts.callee_of (plain_target target))) (λ c. reading.closed (λ close. SCall c (from_to target.name.span close))) items.now) }
    ensures shorter { IfOk result (λ x. length x.1.now < length items.now) }
{
    let lead = target.name.span;
    let task = Callee {
        name: target.name,
        index: target.index,
    };
    let (call, rest) = read_call_behind(alloc, depth, task, items)?;
    let (close, rest) = expect(Symbol::Semicolon, rest)?;
    let span = from_to(lead, close);
    Ok((
        Stmt {
            kind: StmtKind::Call(call),
            span,
        },
        rest,
    ))
}

// Behind a variable or a task: an assignment or an entry call.
#[tactic(auto, using(crate::proofs::Steps::steps))]
fn assign_or_call<'a>(
    alloc: Global,
    depth: u32,
    target: Target,
    items: &'a [Item],
) -> Result<(Stmt, &'a [Item]), ParseError>
    ensures tree { Gives (λ x. plain_stmt x.0) (λ x. x.1.now) result (simple.assign_or_call depth (plain_target target) items.now) }
    ensures shorter { IfOk result (λ x. length x.1.now < length items.now) }
{
    let [next, rest @ ..] = items else {
        return Err(ParseError::Syntax { at: 0 });
    };

    if !is_symbol(Symbol::Becomes, *next) {
        return entry_call(alloc, depth, target, items);
    }
    if depth == 0 {
        return Err(ParseError::TooDeep {
            at: next.span.start,
        });
    }
    assignment(alloc, depth, target, rest)
}

// A name that is no predefined one of these, and what follows: an assignment or an entry call.
#[tactic(auto, using(crate::proofs::Steps::steps))]
fn plain_rest<'a>(
    alloc: Global,
    depth: u32,
    items: &'a [Item],
) -> Result<(Stmt, &'a [Item]), ParseError>
    ensures tree { Gives (λ x. plain_stmt x.0) (λ x. x.1.now) result (bind (token tests.word) (simple.plain_rest depth) items.now) }
    ensures shorter { IfOk result (λ x. length x.1.now < length items.now) }
{
    let (target, _, rest) = read_target(alloc, depth, items)?;
    assign_or_call(alloc, depth, target, rest)
}

// A string literal as a part of what is written.
fn string_part(alloc: Global, source: &Source<'_>, item: Item) -> Result<Option<Part>, ParseError>
    ensures part { IfOk result (λ found. option_map plain_part found ≡ reading.string (told source.now) item) }
    ensures cause { IfErr result (λ e. e ≡ Memory) }
{
    let ItemKind::Text = item.kind else {
        return Ok(None);
    };
    match said(alloc, source, item.span) {
        Ok(Some(text)) => Ok(Some(Part::Words {
            text,
            span: item.span,
        })),
        Ok(None) => Ok(None),
        Err(_) => Err(ParseError::Memory),
    }
}

// A part of what is written: a string literal or an expression.
#[tactic(auto, using(crate::proofs::Steps::steps))]
fn read_part<'a>(
    alloc: Global,
    source: &Source<'_>,
    depth: u32,
    items: &'a [Item],
) -> Result<(Part, &'a [Item]), ParseError>
    ensures tree { Gives (λ x. plain_part x.0) (λ x. x.1.now) result (reading.part (told source.now) depth items.now) }
    ensures shorter { IfOk result (λ x. length x.1.now < length items.now) }
{
    let [next, rest @ ..] = items else {
        return Err(ParseError::Syntax { at: 0 });
    };

    match string_part(alloc, source, *next)? {
        Some(part) => Ok((part, rest)),
        None => {
            let (value, rest) = read_operand(alloc, depth, items)?;
            Ok((Part::Value(value), rest))
        }
    }
}

// A part behind `&`.
#[tactic(auto, using(crate::proofs::Steps::steps))]
fn next_part<'a>(
    alloc: Global,
    source: &Source<'_>,
    depth: u32,
    items: &'a [Item],
) -> Result<(Part, &'a [Item]), ParseError>
    ensures tree { Gives (λ x. plain_part x.0) (λ x. x.1.now) result (reading.key_then key.Ampersand (reading.part (told source.now) depth) items.now) }
    ensures shorter { IfOk result (λ x. length x.1.now < length items.now) }
{
    let (_, rest) = expect(Symbol::Ampersand, items)?;
    read_part(alloc, source, depth, rest)
}

// Further parts, each behind `&`, at the end of the list.
#[tactic(auto, using(crate::proofs::Steps::steps))]
fn parts_onto<'a>(
    alloc: Global,
    source: &Source<'_>,
    depth: u32,
    list: &mut Vec<Part>,
    items: &'a [Item],
) -> Result<&'a [Item], ParseError>
    ensures tree { Gives (λ x. map plain_part list.new.items) (λ x. x.now) result (fronted (map plain_part list.old.items) (reading.more_behind key.Ampersand (reading.part (told source.now) depth) items.now)) }
    ensures shorter { IfOk result (λ x. length x.now ≤ length items.now) }
{
    let mut rest = items;
    'parts: loop {
        let [next, ..] = rest else {
            return Err(ParseError::Syntax { at: 0 });
        };
        if !is_symbol(Symbol::Ampersand, *next) {
            return Ok(rest);
        }
        let (part, behind) = next_part(alloc, source, depth, rest)?;
        add(list, part)?;
        rest = behind;
    }
}

// What writes these parts, with a new line behind them or without.
fn put_stmt(line: bool, parts: Vec<Part>, span: Span) -> Stmt
    ensures { plain_stmt result ≡ put_of line (map plain_part parts.items) span }
{
    if line {
        Stmt {
            kind: StmtKind::PutLine { parts },
            span,
        }
    } else {
        Stmt {
            kind: StmtKind::Put { parts },
            span,
        }
    }
}

// Behind `PUT (` and a first part that was no last one.
#[tactic(auto, using(crate::proofs::Steps::steps))]
fn put_more<'a>(
    alloc: Global,
    source: &Source<'_>,
    depth: u32,
    line: bool,
    word: Word,
    first: Part,
    items: &'a [Item],
) -> Result<(Stmt, &'a [Item]), ParseError>
    ensures tree { Gives (λ x. plain_stmt x.0) (λ x. x.1.now) result (simple.put_more (told source.now) depth (put_of line) word (plain_part first) items.now) }
    ensures shorter { IfOk result (λ x. length x.1.now < length items.now) }
{
    let mut parts = Vec::new(alloc);
    add(&mut parts, first)?;
    let rest = parts_onto(alloc, source, depth, &mut parts, items)?;
    let (_, rest) = expect(Symbol::RightParen, rest)?;
    let (close, rest) = expect(Symbol::Semicolon, rest)?;
    let span = from_to(word.span, close);
    Ok((put_stmt(line, parts, span), rest))
}

// Behind `PUT ( expression )`: the end of the statement, or the index was that of a variable or a task.
#[tactic(auto, using(crate::proofs::Steps::steps))]
fn put_end<'a>(
    alloc: Global,
    depth: u32,
    line: bool,
    word: Word,
    value: Expr,
    items: &'a [Item],
) -> Result<(Stmt, &'a [Item]), ParseError>
    ensures tree { Gives (λ x. plain_stmt x.0) (λ x. x.1.now) result (on (tests.symbol key.Semicolon) (λ close. pure (put_of line (PValue (plain_expr value) ∷ []) (from_to word.span close))) (simple.assign_or_call depth record { name = word; index = Some (plain_expr value) }) items.now) }
    ensures shorter { IfOk result (λ x. length x.1.now < length items.now) }
{
    let [next, rest @ ..] = items else {
        return Err(ParseError::Syntax { at: 0 });
    };

    if !is_symbol(Symbol::Semicolon, *next) {
        let target = Target {
            name: word,
            index: Some(value),
        };
        return assign_or_call(alloc, depth, target, items);
    }
    let mut parts = Vec::new(alloc);
    add(&mut parts, Part::Value(value))?;
    let span = from_to(word.span, next.span);
    Ok((put_stmt(line, parts, span), rest))
}

// Behind `PUT (` and an expression.
#[tactic(auto, using(crate::proofs::Steps::steps))]
fn put_behind<'a>(
    alloc: Global,
    source: &Source<'_>,
    depth: u32,
    line: bool,
    word: Word,
    value: Expr,
    items: &'a [Item],
) -> Result<(Stmt, &'a [Item]), ParseError>
    ensures tree { Gives (λ x. plain_stmt x.0) (λ x. x.1.now) result (simple.put_behind (told source.now) depth (put_of line) word (plain_expr value) items.now) }
    ensures shorter { IfOk result (λ x. length x.1.now < length items.now) }
{
    let [next, ..] = items else {
        return Err(ParseError::Syntax { at: 0 });
    };
    if is_symbol(Symbol::Ampersand, *next) {
        return put_more(alloc, source, depth, line, word, Part::Value(value), items);
    }
    let (_, rest) = expect(Symbol::RightParen, items)?;
    put_end(alloc, depth, line, word, value, rest)
}

// Behind `PUT (`.
#[tactic(auto, using(crate::proofs::Steps::steps))]
fn put_rest<'a>(
    alloc: Global,
    source: &Source<'_>,
    depth: u32,
    line: bool,
    word: Word,
    items: &'a [Item],
) -> Result<(Stmt, &'a [Item]), ParseError>
    ensures tree { Gives (λ x. plain_stmt x.0) (λ x. x.1.now) result (simple.put_rest (told source.now) depth (put_of line) word items.now) }
    ensures shorter { IfOk result (λ x. length x.1.now < length items.now) }
{
    let [next, rest @ ..] = items else {
        return Err(ParseError::Syntax { at: 0 });
    };

    match string_part(alloc, source, *next)? {
        Some(part) => put_more(alloc, source, depth, line, word, part, rest),
        None => {
            let (value, rest) = read_operand(alloc, depth, items)?;
            put_behind(alloc, source, depth, line, word, value, rest)
        }
    }
}

// The expression that a variable or a component is, which ends at this place.
fn expr_of(alloc: Global, target: Target, close: Span) -> Result<Expr, ParseError>
    ensures tree { IfOk result (λ e. plain_expr e ≡ expr_of target.name (option_map plain_expr target.index) close) }
    ensures cause { IfErr result (λ e. e ≡ Memory) }
{
    let Target { name, index } = target;
    match index {
        None => Ok(Expr {
            kind: ExprKind::Name(name.name),
            span: name.span,
        }),
        Some(arg) => indexed(alloc, name, arg, close),
    }
}

fn indexed(alloc: Global, name: Word, arg: Expr, close: Span) -> Result<Expr, ParseError>
    ensures tree { IfOk result (λ e. plain_expr e ≡ indexed name (plain_expr arg) close) }
    ensures cause { IfErr result (λ e. e ≡ Memory) }
{
    let span = from_to(name.span, close);
    match Box::new(alloc, arg) {
        Ok(arg) => Ok(Expr {
            kind: ExprKind::Index { name, arg },
            span,
        }),
        Err(_) => Err(ParseError::Memory),
    }
}

// Whether an item goes on behind a variable or a task.
fn goes_on_target(item: Item) -> bool
    ensures { result ≡ simple.goes_on_target item }
{
    is_symbol(Symbol::Dot, item) || is_symbol(Symbol::Becomes, item)
}

// Behind `GET (`, a variable that ends at this place with `height` levels below its name, and `)`: the end of the
// statement, or the variable was an index, if that is not too deep.
#[tactic(auto, using(crate::proofs::Steps::steps))]
fn get_or_index<'a>(
    alloc: Global,
    depth: u32,
    word: Word,
    target: Target,
    close: Span,
    height: u32,
    items: &'a [Item],
) -> Result<(Stmt, &'a [Item]), ParseError>
    requires height { height ≡ levels (expr_of target.name (option_map plain_expr target.index) close) }
    ensures tree { Gives (λ x. plain_stmt x.0) (λ x. x.1.now) result (simple.get_or_index depth word (plain_target target) (expr_of target.name (option_map plain_expr target.index) close) items.now) }
    ensures shorter { IfOk result (λ x. length x.1.now < length items.now) }
{
    let [next, rest @ ..] = items else {
        return Err(ParseError::Syntax { at: 0 });
    };

    if is_symbol(Symbol::Semicolon, *next) {
        let span = from_to(word.span, next.span);
        return Ok((
            Stmt {
                kind: StmtKind::Get { target },
                span,
            },
            rest,
        ));
    }
    if height < depth {
        let index = expr_of(alloc, target, close)?;
        let target = Target {
            name: word,
            index: Some(index),
        };
        return assign_or_call(alloc, depth, target, items);
    }
    if goes_on_target(*next) {
        return Err(ParseError::TooDeep {
            at: next.span.start,
        });
    }
    Err(ParseError::Syntax {
        at: next.span.start,
    })
}

// Behind `GET ( expression`, where the expression is no variable: it is an index.
#[tactic(auto, using(crate::proofs::Steps::steps))]
fn get_index<'a>(
    alloc: Global,
    depth: u32,
    word: Word,
    index: Expr,
    items: &'a [Item],
) -> Result<(Stmt, &'a [Item]), ParseError>
    ensures tree { Gives (λ x. plain_stmt x.0) (λ x. x.1.now) result (simple.get_index depth word (plain_expr index) items.now) }
    ensures shorter { IfOk result (λ x. length x.1.now < length items.now) }
{
    let (_, rest) = expect(Symbol::RightParen, items)?;
    let target = Target {
        name: word,
        index: Some(index),
    };
    assign_or_call(alloc, depth, target, rest)
}

// Behind `GET ( NAME ( expression )`.
#[tactic(auto, using(crate::proofs::Steps::steps))]
fn get_indexed<'a>(
    alloc: Global,
    depth: u32,
    word: Word,
    name: Word,
    arg: Expr,
    height: u32,
    close: Span,
    items: &'a [Item],
) -> Result<(Stmt, &'a [Item]), ParseError>
    requires depth { 0 < depth }
    requires height { height ≡ levels (plain_expr arg) }
    requires within { height < depth }
    ensures tree { Gives (λ x. plain_stmt x.0) (λ x. x.1.now) result (simple.get_indexed depth word name (plain_expr arg) close items.now) }
    ensures shorter { IfOk result (λ x. length x.1.now < length items.now) }
{
    let [next, rest @ ..] = items else {
        return Err(ParseError::Syntax { at: 0 });
    };
    if is_symbol(Symbol::RightParen, *next) {
        let target = Target {
            name,
            index: Some(arg),
        };
        return get_or_index(alloc, depth, word, target, close, height + 1, rest);
    }
    if height + 1 == depth {
        if is_operator(next.kind) {
            return Err(ParseError::TooDeep {
                at: next.span.start,
            });
        }
        return Err(ParseError::Syntax {
            at: next.span.start,
        });
    }
    let first = indexed(alloc, name, arg, close)?;
    let (index, _, rest) = read_behind(alloc, depth - 1, first, height + 1, items)?;
    get_index(alloc, depth, word, index, rest)
}

// Behind `GET (` where a name stands.
#[tactic(auto, using(crate::proofs::Steps::steps))]
fn get_name<'a>(
    alloc: Global,
    depth: u32,
    word: Word,
    items: &'a [Item],
) -> Result<(Stmt, &'a [Item]), ParseError>
    ensures tree { Gives (λ x. plain_stmt x.0) (λ x. x.1.now) result (bind (token tests.word) (simple.get_name depth word) items.now) }
    ensures shorter { IfOk result (λ x. length x.1.now < length items.now) }
{
    let (name, behind) = expect_word(items)?;
    let [next, rest @ ..] = behind else {
        return Err(ParseError::Syntax { at: 0 });
    };
    if is_symbol(Symbol::RightParen, *next) {
        let target = Target { name, index: None };
        return get_or_index(alloc, depth, word, target, name.span, 0, rest);
    }
    let opens = is_symbol(Symbol::LeftParen, *next);
    if depth == 0 {
        if opens || goes_on_name(*next) {
            return Err(ParseError::TooDeep {
                at: next.span.start,
            });
        }
        return Err(ParseError::Syntax {
            at: next.span.start,
        });
    }
    if !opens {
        let (index, _, rest) = read_expr(alloc, depth - 1, items)?;
        return get_index(alloc, depth, word, index, rest);
    }
    let (arg, height, rest) = read_expr(alloc, depth - 1, rest)?;
    let (close, rest) = expect(Symbol::RightParen, rest)?;
    get_indexed(alloc, depth, word, name, arg, height, close, rest)
}

// Behind `GET (`.
#[tactic(auto, using(crate::proofs::Steps::steps))]
fn get_rest<'a>(
    alloc: Global,
    depth: u32,
    word: Word,
    items: &'a [Item],
) -> Result<(Stmt, &'a [Item]), ParseError>
    ensures tree { Gives (λ x. plain_stmt x.0) (λ x. x.1.now) result (simple.get_rest depth word items.now) }
    ensures shorter { IfOk result (λ x. length x.1.now < length items.now) }
{
    let [next, ..] = items else {
        return Err(ParseError::Syntax { at: 0 });
    };
    if word_in(*next).is_some() {
        return get_name(alloc, depth, word, items);
    }
    let (index, rest) = read_operand(alloc, depth, items)?;
    get_index(alloc, depth, word, index, rest)
}

// Behind `NEW_LINE` and what stands next.
#[tactic(auto, using(crate::proofs::Steps::steps))]
fn new_line<'a>(
    alloc: Global,
    depth: u32,
    items: &'a [Item],
) -> Result<(Stmt, &'a [Item]), ParseError>
    ensures tree { Gives (λ x. plain_stmt x.0) (λ x. x.1.now) result (bind (token tests.word) (λ w. on (tests.symbol key.Semicolon) (λ close. pure (SNewLine (from_to w.span close))) (simple.plain_rest depth w)) items.now) }
    ensures shorter { IfOk result (λ x. length x.1.now < length items.now) }
{
    let (word, behind) = expect_word(items)?;
    let [next, rest @ ..] = behind else {
        return Err(ParseError::Syntax { at: 0 });
    };
    if !is_symbol(Symbol::Semicolon, *next) {
        return plain_rest(alloc, depth, items);
    }
    let span = from_to(word.span, next.span);
    Ok((
        Stmt {
            kind: StmtKind::NewLine,
            span,
        },
        rest,
    ))
}

// `PUT` or `PUT_LINE` and what follows: what writes, or a name like any other.
#[tactic(auto, using(crate::proofs::Steps::steps))]
fn put_or_plain<'a>(
    alloc: Global,
    source: &Source<'_>,
    depth: u32,
    line: bool,
    items: &'a [Item],
) -> Result<(Stmt, &'a [Item]), ParseError>
    ensures tree { Gives (λ x. plain_stmt x.0) (λ x. x.1.now) result (bind (token tests.word) (λ w. on (tests.symbol key.LeftParen) (λ lead. simple.put_rest (told source.now) depth (put_of line) w) (simple.plain_rest depth w)) items.now) }
    ensures shorter { IfOk result (λ x. length x.1.now < length items.now) }
{
    let (word, behind) = expect_word(items)?;
    let [next, rest @ ..] = behind else {
        return Err(ParseError::Syntax { at: 0 });
    };
    if !is_symbol(Symbol::LeftParen, *next) {
        return plain_rest(alloc, depth, items);
    }
    put_rest(alloc, source, depth, line, word, rest)
}

// `GET` and what follows: what reads, or a name like any other.
#[tactic(auto, using(crate::proofs::Steps::steps))]
fn get_or_plain<'a>(
    alloc: Global,
    depth: u32,
    items: &'a [Item],
) -> Result<(Stmt, &'a [Item]), ParseError>
    ensures tree { Gives (λ x. plain_stmt x.0) (λ x. x.1.now) result (bind (token tests.word) (λ w. on (tests.symbol key.LeftParen) (λ lead. simple.get_rest depth w) (simple.plain_rest depth w)) items.now) }
    ensures shorter { IfOk result (λ x. length x.1.now < length items.now) }
{
    let (word, behind) = expect_word(items)?;
    let [next, rest @ ..] = behind else {
        return Err(ParseError::Syntax { at: 0 });
    };
    if !is_symbol(Symbol::LeftParen, *next) {
        return plain_rest(alloc, depth, items);
    }
    get_rest(alloc, depth, word, rest)
}

/// A simple statement that begins with a name.
#[tactic(auto, using(crate::proofs::Steps::steps))]
pub fn read_word_stmt<'a>(
    alloc: Global,
    source: &Source<'_>,
    depth: u32,
    items: &'a [Item],
) -> Result<(Stmt, &'a [Item]), ParseError>
    ensures tree { Gives (λ x. plain_stmt x.0) (λ x. x.1.now) result (bind (token tests.word) (simple.word_rest (told source.now) depth) items.now) }
    ensures shorter { IfOk result (λ x. length x.1.now < length items.now) }
{
    let (word, _) = expect_word(items)?;
    let id = word.name.0;
    if id == PUT {
        return put_or_plain(alloc, source, depth, false, items);
    }
    if id == PUT_LINE {
        return put_or_plain(alloc, source, depth, true, items);
    }
    if id == NEW_LINE {
        return new_line(alloc, depth, items);
    }
    if id == GET {
        return get_or_plain(alloc, depth, items);
    }
    plain_rest(alloc, depth, items)
}
