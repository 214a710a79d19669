//! What is built of expressions: ranges, variables and components, entry calls and choices. Each reader takes how many
//! levels may stand below the statement or the range that it reads, and gives the tree and what stands behind it.

ghost use Rattle.std.specs.Prelude.{◌≡◌, ◌<◌, ◌≤◌, [], ◌∷◌, ◌++◌, nat_le, IfOk, IfErr, OnOk, map, length, option_map};
ghost use Rattle.ada_expr_parser.specs.readers.Readers.{fronted};
ghost use Rattle.ada_tree.specs.PlainExpr.{plain_expr, plain_bounds, plain_subind, plain_drange};
ghost use Rattle.ada_tree.specs.PlainStmt.{plain_target, plain_callee, plain_args, plain_call, plain_choice};
ghost use Rattle.ada_expr_parser.specs.Trees.{levels};
ghost use Rattle.ada_tree.specs.WellPlaced as well_placed;
ghost use Rattle.ada_expr_parser.specs.declared.errors.ParseError.TheVariants.{Memory};
ghost use Rattle.ada_expr_parser.specs.Parts as parts;
ghost use Rattle.ada_expr_parser.specs.Gives.{Gives};

use crate::errors::ParseError;
use crate::items::Item;
use crate::levels::Level;
use crate::operators::{expect, expect_word, symbol_in};
use crate::reading::{below, logical, more, simple};
use ada_lexer::Symbol;
use ada_tree::{
    Args, BinaryOp, Bounds, Call, Callee, CaseChoice, Drange, Expr, ExprKind, Subind, Target, Word,
};
use std::alloc::Global;

/// An expression, with how many levels stand below its root.
pub fn read_expr<'a>(
    alloc: Global,
    depth: u32,
    items: &'a [Item],
) -> Result<(Expr, u32, &'a [Item]), ParseError>
    ensures tree { Gives (λ x. plain_expr x.0) (λ x. x.2.now) result (parts.expression depth items.now) }
    ensures height { IfOk result (λ x. (x.1 ≡ levels (plain_expr x.0)) × (x.1 ≤ depth)) }
    ensures shorter { IfOk result (λ x. length x.2.now < length items.now) }
{
    logical(alloc, depth, items)
}

/// What follows an expression whose first primary was read, with `height` levels below it.
#[tactic(auto, using(crate::proofs::Steps::steps))]
pub fn read_behind<'a>(
    alloc: Global,
    depth: u32,
    first: Expr,
    height: u32,
    items: &'a [Item],
) -> Result<(Expr, u32, &'a [Item]), ParseError>
    requires height { height ≡ levels (plain_expr first) }
    requires within { height ≤ depth }
    ensures tree { Gives (λ x. plain_expr x.0) (λ x. x.2.now) result (parts.expr_behind depth (plain_expr first) items.now) }
    ensures height { IfOk result (λ x. (x.1 ≡ levels (plain_expr x.0)) × (x.1 ≤ depth)) }
    ensures shorter { IfOk result (λ x. length x.2.now ≤ length items.now) }
{
    let (term, height, rest) = more(alloc, Level::Term, depth, first, height, items)?;
    let (simple, height, rest) = more(alloc, Level::Simple, depth, term, height, rest)?;
    let (relation, height, rest) = more(alloc, Level::Relation, depth, simple, height, rest)?;
    more(alloc, Level::Logical, depth, relation, height, rest)
}

/// `expr .. expr`, both simple expressions.
#[tactic(auto, using(crate::proofs::Steps::steps))]
pub fn read_bounds<'a>(
    alloc: Global,
    depth: u32,
    items: &'a [Item],
) -> Result<(Bounds, &'a [Item]), ParseError>
    ensures tree { Gives (λ x. plain_bounds x.0) (λ x. x.1.now) result (parts.bounds depth items.now) }
    ensures shorter { IfOk result (λ x. length x.1.now < length items.now) }
{
    let (first, _, rest) = simple(alloc, depth, items)?;
    let (_, rest) = expect(Symbol::DotDot, rest)?;
    let (last, _, rest) = simple(alloc, depth, rest)?;
    Ok((Bounds { first, last }, rest))
}

// Behind a mark: `range` and bounds, or nothing.
#[tactic(auto, using(crate::proofs::Steps::steps))]
fn mark_rest<'a>(
    alloc: Global,
    depth: u32,
    mark: Word,
    items: &'a [Item],
) -> Result<(Subind, &'a [Item]), ParseError>
    ensures tree { Gives (λ x. plain_subind x.0) (λ x. x.1.now) result (parts.mark_rest depth mark items.now) }
    ensures shorter { IfOk result (λ x. length x.1.now ≤ length items.now) }
{
    let [next, rest @ ..] = items else {
        return Err(ParseError::Syntax { at: 0 });
    };
    if symbol_in(Symbol::Range, *next).is_none() {
        return Ok((Subind { mark, bounds: None }, items));
    }
    let (bounds, rest) = read_bounds(alloc, depth, rest)?;
    Ok((
        Subind {
            mark,
            bounds: Some(bounds),
        },
        rest,
    ))
}

/// A subtype indication, `NAME [range expr .. expr]`.
#[tactic(auto, using(crate::proofs::Steps::steps))]
pub fn read_subind<'a>(
    alloc: Global,
    depth: u32,
    items: &'a [Item],
) -> Result<(Subind, &'a [Item]), ParseError>
    ensures tree { Gives (λ x. plain_subind x.0) (λ x. x.1.now) result (parts.subind depth items.now) }
    ensures shorter { IfOk result (λ x. length x.1.now < length items.now) }
{
    let (mark, rest) = expect_word(items)?;
    mark_rest(alloc, depth, mark, rest)
}

// Behind a first expression that no `..` follows: it must be a mark.
#[tactic(auto, using(crate::proofs::Steps::steps))]
fn marked_rest<'a>(
    alloc: Global,
    depth: u32,
    first: Expr,
    items: &'a [Item],
) -> Result<(Drange, &'a [Item]), ParseError>
    requires { 0 < length items.now }
    ensures tree { Gives (λ x. plain_drange x.0) (λ x. x.1.now) result (parts.marked_rest depth (plain_expr first) items.now) }
    ensures shorter { IfOk result (λ x. length x.1.now ≤ length items.now) }
{
    let span = first.span;
    match first.kind {
        ExprKind::Name(name) => {
            let (mark, rest) = mark_rest(alloc, depth, Word { name, span }, items)?;
            Ok((Drange::Marked(mark), rest))
        }
        _ => Err(ParseError::Syntax {
            at: items[0].span.start,
        }),
    }
}

/// A discrete range, `expr .. expr` or `NAME [range expr .. expr]`.
#[tactic(auto, using(crate::proofs::Steps::steps))]
pub fn read_drange<'a>(
    alloc: Global,
    depth: u32,
    items: &'a [Item],
) -> Result<(Drange, &'a [Item]), ParseError>
    ensures tree { Gives (λ x. plain_drange x.0) (λ x. x.1.now) result (parts.drange depth items.now) }
    ensures shorter { IfOk result (λ x. length x.1.now < length items.now) }
{
    let (first, _, items) = simple(alloc, depth, items)?;
    let [next, rest @ ..] = items else {
        return Err(ParseError::Syntax { at: 0 });
    };
    if symbol_in(Symbol::DotDot, *next).is_none() {
        return marked_rest(alloc, depth, first, items);
    }
    let (last, _, rest) = simple(alloc, depth, rest)?;
    Ok((Drange::Given(Bounds { first, last }), rest))
}

/// A variable, a component or a callee, `NAME [( expr )]`; and how many levels stand below its name, as if it were an expression.
#[tactic(auto, using(crate::proofs::Steps::steps))]
pub fn read_target<'a>(
    alloc: Global,
    depth: u32,
    items: &'a [Item],
) -> Result<(Target, u32, &'a [Item]), ParseError>
    ensures tree { Gives (λ x. plain_target x.0) (λ x. x.2.now) result (parts.target depth items.now) }
    ensures height { IfOk result (λ x. (x.1 ≡ parts.index_levels (plain_target x.0)) × (x.1 ≤ depth)) }
    ensures shorter { IfOk result (λ x. length x.2.now < length items.now) }
{
    let (name, items) = expect_word(items)?;
    let [next, rest @ ..] = items else {
        return Err(ParseError::Syntax { at: 0 });
    };
    if symbol_in(Symbol::LeftParen, *next).is_none() {
        return Ok((Target { name, index: None }, 0, items));
    }
    if depth == 0 {
        return Err(ParseError::TooDeep {
            at: next.span.start,
        });
    }
    let (index, height, rest) = below(alloc, Level::Logical, depth, rest)?;
    let (_, rest) = expect(Symbol::RightParen, rest)?;
    Ok((
        Target {
            name,
            index: Some(index),
        },
        height + 1,
        rest,
    ))
}

// Whether the next item is a comma.
fn is_comma(item: Item) -> bool
    ensures { result ≡ parts.is_comma item }
{
    symbol_in(Symbol::Comma, item).is_some()
}

// An expression behind a comma.
#[tactic(auto, using(crate::proofs::Steps::steps))]
fn next_expr<'a>(
    alloc: Global,
    depth: u32,
    items: &'a [Item],
) -> Result<(Expr, &'a [Item]), ParseError>
    requires { 0 < depth }
    ensures tree { Gives (λ x. plain_expr x.0) (λ x. x.1.now) result (parts.next_expr depth items.now) }
    ensures shorter { IfOk result (λ x. length x.1.now < length items.now) }
{
    let (_, rest) = expect(Symbol::Comma, items)?;
    let (expr, _, rest) = below(alloc, Level::Logical, depth, rest)?;
    Ok((expr, rest))
}

// One more expression at the end of a list.
fn add(list: &mut Vec<Expr>, expr: Expr) -> Result<(), ParseError>
    ensures added { OnOk result (list.new.items ≡ list.old.items ++ expr ∷ []) }
    ensures cause { IfErr result (λ e. e ≡ Memory) }
{
    match list.push(expr) {
        Ok(()) => Ok(()),
        Err(_) => Err(ParseError::Memory),
    }
}

// Further expressions, each behind a comma, at the end of the list.
#[tactic(auto, using(crate::proofs::Steps::steps))]
fn more_exprs<'a>(
    alloc: Global,
    depth: u32,
    list: &mut Vec<Expr>,
    items: &'a [Item],
) -> Result<&'a [Item], ParseError>
    requires { 0 < depth }
    ensures tree { Gives (λ x. map plain_expr list.new.items) (λ x. x.now) result (fronted (map plain_expr list.old.items) (parts.more_exprs depth items.now)) }
    ensures shorter { IfOk result (λ x. length x.now ≤ length items.now) }
{
    let mut rest = items;
    'commas: loop {
        let [next, ..] = rest else {
            return Err(ParseError::Syntax { at: 0 });
        };
        if !is_comma(*next) {
            return Ok(rest);
        }
        let (expr, behind) = next_expr(alloc, depth, rest)?;
        add(list, expr)?;
        rest = behind;
    }
}

// Expressions with commas between, each one level deeper.
#[tactic(auto, using(crate::proofs::Steps::steps))]
fn exprs<'a>(
    alloc: Global,
    depth: u32,
    items: &'a [Item],
) -> Result<(Vec<Expr>, &'a [Item]), ParseError>
    requires { 0 < depth }
    ensures tree { Gives (λ x. map plain_expr x.0.items) (λ x. x.1.now) result (parts.exprs depth items.now) }
    ensures shorter { IfOk result (λ x. length x.1.now < length items.now) }
{
    let (first, _, rest) = below(alloc, Level::Logical, depth, items)?;
    let mut list = Vec::new(alloc);
    add(&mut list, first)?;
    let rest = more_exprs(alloc, depth, &mut list, rest)?;
    Ok((list, rest))
}

// A list in parentheses, or nothing.
#[tactic(auto, using(crate::proofs::Steps::steps))]
fn enclosed<'a>(
    alloc: Global,
    depth: u32,
    items: &'a [Item],
) -> Result<(Option<Vec<Expr>>, &'a [Item]), ParseError>
    ensures tree { Gives (λ x. option_map (λ v. map plain_expr v.items) x.0) (λ x. x.1.now) result (parts.enclosed depth items.now) }
    ensures shorter { IfOk result (λ x. length x.1.now ≤ length items.now) }
{
    let [next, rest @ ..] = items else {
        return Err(ParseError::Syntax { at: 0 });
    };
    if symbol_in(Symbol::LeftParen, *next).is_none() {
        return Ok((None, items));
    }
    if depth == 0 {
        return Err(ParseError::TooDeep {
            at: next.span.start,
        });
    }
    let (list, rest) = exprs(alloc, depth, rest)?;
    let (_, rest) = expect(Symbol::RightParen, rest)?;
    Ok((Some(list), rest))
}

// The lists behind an entry's name.
#[tactic(auto, using(crate::proofs::Steps::steps))]
fn args<'a>(
    alloc: Global,
    depth: u32,
    items: &'a [Item],
) -> Result<(Option<Args>, &'a [Item]), ParseError>
    ensures tree { Gives (λ x. option_map plain_args x.0) (λ x. x.1.now) result (parts.args depth items.now) }
    ensures shorter { IfOk result (λ x. length x.1.now ≤ length items.now) }
{
    let (first, rest) = enclosed(alloc, depth, items)?;
    match first {
        None => Ok((None, rest)),
        Some(first) => {
            let (second, rest) = enclosed(alloc, depth, rest)?;
            Ok((Some(Args { first, second }), rest))
        }
    }
}

/// What stands behind the callee of an entry call, `. NAME [( exprs ) [( exprs )]]`.
#[tactic(auto, using(crate::proofs::Steps::steps))]
pub fn read_call_behind<'a>(
    alloc: Global,
    depth: u32,
    task: Callee,
    items: &'a [Item],
) -> Result<(Call, &'a [Item]), ParseError>
    ensures tree { Gives (λ x. plain_call x.0) (λ x. x.1.now) result (parts.call_rest depth (plain_callee task) items.now) }
    ensures shorter { IfOk result (λ x. length x.1.now < length items.now) }
{
    let (_, rest) = expect(Symbol::Dot, items)?;
    let (entry, rest) = expect_word(rest)?;
    let (args, rest) = args(alloc, depth, rest)?;
    Ok((Call { task, entry, args }, rest))
}

/// An entry call, `NAME [( expr )] . NAME [( exprs ) [( exprs )]]`.
#[tactic(auto, using(crate::proofs::Steps::steps))]
pub fn read_call<'a>(
    alloc: Global,
    depth: u32,
    items: &'a [Item],
) -> Result<(Call, &'a [Item]), ParseError>
    ensures tree { Gives (λ x. plain_call x.0) (λ x. x.1.now) result (parts.call depth items.now) }
    ensures shorter { IfOk result (λ x. length x.1.now < length items.now) }
{
    let (target, _, rest) = read_target(alloc, depth, items)?;
    let task = Callee {
        name: target.name,
        index: target.index,
    };
    read_call_behind(alloc, depth, task, rest)
}

// Whether an expression is a simple one.
fn is_simple(expr: &Expr) -> bool
    ensures { result ≡ parts.is_simple (plain_expr expr.now) }
{
    match &expr.kind {
        ExprKind::Binary { op, .. } => is_arithmetic(*op),
        _ => true,
    }
}

fn is_arithmetic(op: BinaryOp) -> bool
    ensures { result ≡ nat_le well_placed.simple (well_placed.binary_level op) }
{
    match op {
        BinaryOp::Plus
        | BinaryOp::Minus
        | BinaryOp::Times
        | BinaryOp::Divide
        | BinaryOp::Mod
        | BinaryOp::Rem => true,
        _ => false,
    }
}

/// A choice of a case statement, `expr` or `expr .. expr`; the bounds are simple expressions.
#[tactic(auto, using(crate::proofs::Steps::steps))]
pub fn read_choice<'a>(
    alloc: Global,
    depth: u32,
    items: &'a [Item],
) -> Result<(CaseChoice, &'a [Item]), ParseError>
    ensures tree { Gives (λ x. plain_choice x.0) (λ x. x.1.now) result (parts.choice depth items.now) }
    ensures shorter { IfOk result (λ x. length x.1.now < length items.now) }
{
    let (first, _, items) = logical(alloc, depth, items)?;
    if !is_simple(&first) {
        return Ok((CaseChoice { first, last: None }, items));
    }
    let [next, rest @ ..] = items else {
        return Err(ParseError::Syntax { at: 0 });
    };
    if symbol_in(Symbol::DotDot, *next).is_none() {
        return Ok((CaseChoice { first, last: None }, items));
    }
    let (last, _, rest) = simple(alloc, depth, rest)?;
    Ok((
        CaseChoice {
            first,
            last: Some(last),
        },
        rest,
    ))
}
