// Expressions, ranges and subtype indications.
#![tactic(auto, using(crate::proofs::Listed::listed))]

ghost use Rattle.std.specs.Prelude.{◌≡◌, codes, map, option_map};
ghost use Rattle.ada_tree.specs.PlainExpr.{plain_expr, plain_bounds, plain_subind, plain_drange};
ghost use Rattle.ded_io.specs.Written.{◌⧺◌, each_text};
ghost use Rattle.ada_printer.specs.ExprText.{unary_text, binary_text, expr_text, exprs_text, index_text, bounds_text, range_text, subind_text, drange_text, array_text};
ghost use Rattle.ada_printer.specs.Layout.{separated};
ghost use Rattle.ded_io.specs.pages.Pages.{Drew, over};

use crate::names_and_literals::{put_name, put_number, put_word};
use ada_tree::{BinaryOp, Bounds, Drange, Expr, ExprKind, Names, Subind, UnaryOp};
use ded_io::Sink;
use ded_io::pages::Page;

// An operator before its operand, with the blank behind a word.
fn unary_word(op: UnaryOp) -> &'static [u8]
    ensures { result.now ≡ unary_text op }
{
    match op {
        UnaryOp::Plus => b"+",
        UnaryOp::Minus => b"-",
        UnaryOp::Abs => b"abs ",
        UnaryOp::Not => b"not ",
    }
}

// An operator between its operands, with the blanks around it.
fn binary_word(op: BinaryOp) -> &'static [u8]
    ensures { result.now ≡ binary_text op }
{
    match op {
        BinaryOp::And => b" and ",
        BinaryOp::Or => b" or ",
        BinaryOp::Xor => b" xor ",
        BinaryOp::AndThen => b" and then ",
        BinaryOp::OrElse => b" or else ",
        BinaryOp::Equal => b" = ",
        BinaryOp::NotEqual => b" /= ",
        BinaryOp::Less => b" < ",
        BinaryOp::LessEqual => b" <= ",
        BinaryOp::Greater => b" > ",
        BinaryOp::GreaterEqual => b" >= ",
        BinaryOp::Plus => b" + ",
        BinaryOp::Minus => b" - ",
        BinaryOp::Times => b" * ",
        BinaryOp::Divide => b" / ",
        BinaryOp::Mod => b" mod ",
        BinaryOp::Rem => b" rem ",
    }
}

pub(crate) fn put_expr<K: Sink>(names: &Names, expr: &Expr, page: &mut Page, out: &mut K)
    ensures { Drew (over page.old (K.told out.old) (K.faults out.old)) (over page.new (K.told out.new) (K.faults out.new)) (expr_text names.now (plain_expr expr.now)) }
{
    match &expr.kind {
        ExprKind::Integer(value) => put_number(*value, page, out),
        ExprKind::Name(name) => put_name(names, *name, page, out),
        ExprKind::Index { name, arg } => {
            put_word(names, *name, page, out);
            page.put(b"(", out);
            put_expr(names, arg, page, out);
            page.put(b")", out);
        }
        ExprKind::Attribute { mark, word, arg } => {
            put_word(names, *mark, page, out);
            page.put(b"'", out);
            put_word(names, *word, page, out);
            match arg {
                Some(arg) => {
                    page.put(b"(", out);
                    put_expr(names, arg, page, out);
                    page.put(b")", out);
                }
                None => {}
            }
        }
        ExprKind::Paren(inner) => {
            page.put(b"(", out);
            put_expr(names, inner, page, out);
            page.put(b")", out);
        }
        ExprKind::Unary { op, part } => {
            page.put(unary_word(*op), out);
            put_expr(names, part, page, out);
        }
        ExprKind::Binary { op, left, right } => {
            put_expr(names, left, page, out);
            page.put(binary_word(*op), out);
            put_expr(names, right, page, out);
        }
    }
}

// Expressions, each with a comma before it.
fn put_more_exprs<K: Sink>(names: &Names, exprs: &[Expr], page: &mut Page, out: &mut K)
    ensures { Drew (over page.old (K.told out.old) (K.faults out.old)) (over page.new (K.told out.new) (K.faults out.new)) (each_text (λ e. codes ", " ⧺ expr_text names.now e) (map plain_expr exprs.now)) }
{
    for expr in exprs {
        page.put(b", ", out);
        put_expr(names, expr, page, out);
    }
}

// `(A, B)`
pub(crate) fn put_exprs<K: Sink>(names: &Names, exprs: &[Expr], page: &mut Page, out: &mut K)
    ensures { Drew (over page.old (K.told out.old) (K.faults out.old)) (over page.new (K.told out.new) (K.faults out.new)) (exprs_text names.now (map plain_expr exprs.now)) }
{
    page.put(b"(", out);
    put_separated_exprs(names, exprs, page, out);
    page.put(b")", out);
}

// Expressions with a comma between each two.
fn put_separated_exprs<K: Sink>(names: &Names, exprs: &[Expr], page: &mut Page, out: &mut K)
    ensures { Drew (over page.old (K.told out.old) (K.faults out.old)) (over page.new (K.told out.new) (K.faults out.new)) (separated (codes ", ") (expr_text names.now) (map plain_expr exprs.now)) }
{
    match exprs {
        [first, rest @ ..] => {
            put_expr(names, first, page, out);
            put_more_exprs(names, rest, page, out);
        }
        [] => {}
    }
}

// An index in parentheses, where there is one.
pub(crate) fn put_index<K: Sink>(names: &Names, index: &Option<Expr>, page: &mut Page, out: &mut K)
    ensures { Drew (over page.old (K.told out.old) (K.faults out.old)) (over page.new (K.told out.new) (K.faults out.new)) (index_text names.now (option_map plain_expr index.now)) }
{
    match index {
        Some(index) => {
            page.put(b"(", out);
            put_expr(names, index, page, out);
            page.put(b")", out);
        }
        None => {}
    }
}

// `first .. last`
pub(crate) fn put_bounds<K: Sink>(names: &Names, bounds: &Bounds, page: &mut Page, out: &mut K)
    ensures { Drew (over page.old (K.told out.old) (K.faults out.old)) (over page.new (K.told out.new) (K.faults out.new)) (bounds_text names.now (plain_bounds bounds.now)) }
{
    put_expr(names, &bounds.first, page, out);
    page.put(b" .. ", out);
    put_expr(names, &bounds.last, page, out);
}

// The range of a subtype indication, where there is one.
fn put_range<K: Sink>(names: &Names, bounds: &Option<Bounds>, page: &mut Page, out: &mut K)
    ensures { Drew (over page.old (K.told out.old) (K.faults out.old)) (over page.new (K.told out.new) (K.faults out.new)) (range_text names.now (option_map plain_bounds bounds.now)) }
{
    match bounds {
        Some(bounds) => {
            page.put(b" range ", out);
            put_bounds(names, bounds, page, out);
        }
        None => {}
    }
}

pub(crate) fn put_subind<K: Sink>(names: &Names, subind: &Subind, page: &mut Page, out: &mut K)
    ensures { Drew (over page.old (K.told out.old) (K.faults out.old)) (over page.new (K.told out.new) (K.faults out.new)) (subind_text names.now (plain_subind subind.now)) }
{
    put_word(names, subind.mark, page, out);
    put_range(names, &subind.bounds, page, out);
}

pub(crate) fn put_drange<K: Sink>(names: &Names, range: &Drange, page: &mut Page, out: &mut K)
    ensures { Drew (over page.old (K.told out.old) (K.faults out.old)) (over page.new (K.told out.new) (K.faults out.new)) (drange_text names.now (plain_drange range.now)) }
{
    match range {
        Drange::Given(bounds) => put_bounds(names, bounds, page, out),
        Drange::Marked(subind) => put_subind(names, subind, page, out),
    }
}

// `array (range) of part`
pub(crate) fn put_array<K: Sink>(
    names: &Names,
    range: &Drange,
    part: &Subind,
    page: &mut Page,
    out: &mut K,
)
    ensures { Drew (over page.old (K.told out.old) (K.faults out.old)) (over page.new (K.told out.new) (K.faults out.new)) (array_text names.now (plain_drange range.now) (plain_subind part.now)) }
{
    page.put(b"array (", out);
    put_drange(names, range, page, out);
    page.put(b") of ", out);
    put_subind(names, part, page, out);
}
