// The same expressions, ranges and names.

ghost use Rattle.std.specs.Prelude.{◌≡◌, ◌↔◌, IsTrue, map, option_map};
ghost use Rattle.std.specs.List.{AllZip};
ghost use Rattle.ada_tree.specs.PlainExpr.{plain_expr, plain_bounds, plain_subind, plain_drange};
ghost use Rattle.ada_tree.specs.Same.{SameName, SameWord, SameExpr, SameOption, SameBounds, SameSubind, SameDrange};

use ada_tree::{Bounds, Drange, Expr, ExprKind, NameId, Names, Subind, Word};

/// Whether two names have one text.
pub fn same_name(left: &Names, right: &Names, a: NameId, b: NameId) -> bool
    ensures { IsTrue result ↔ SameName left.now right.now a b }
{
    match (left.text(a), right.text(b)) {
        (Some(a), Some(b)) => a == b,
        (None, None) => true,
        (Some(_), None) | (None, Some(_)) => false,
    }
}

/// Whether two names as they stand in the sources have one text.
pub fn same_word(left: &Names, right: &Names, a: Word, b: Word) -> bool
    ensures { IsTrue result ↔ SameWord left.now right.now a b }
{
    same_name(left, right, a.name, b.name)
}

/// Whether two lists of names have the same texts, place by place.
pub fn same_words(left: &Names, right: &Names, a: &[Word], b: &[Word]) -> bool
    ensures { IsTrue result ↔ AllZip (SameWord left.now right.now) a.now b.now }
{
    if a.len() != b.len() {
        return false;
    }
    for i in 0..a.len() {
        if !same_word(left, right, a[i], b[i]) {
            return false;
        }
    }
    true
}

/// Whether two expressions are the same.
pub fn same_expr(left: &Names, right: &Names, a: &Expr, b: &Expr) -> bool
    ensures { IsTrue result ↔ SameExpr left.now right.now (plain_expr a.now) (plain_expr b.now) }
{
    match &a.kind {
        ExprKind::Integer(a) => match &b.kind {
            ExprKind::Integer(b) => *a == *b,
            _ => false,
        },
        ExprKind::Name(a) => match &b.kind {
            ExprKind::Name(b) => same_name(left, right, *a, *b),
            _ => false,
        },
        ExprKind::Index { name, arg } => match &b.kind {
            ExprKind::Index { name: n, arg: e } => {
                same_word(left, right, *name, *n) & same_expr(left, right, arg, e)
            }
            _ => false,
        },
        ExprKind::Attribute {
            mark,
            word,
            arg: None,
        } => match &b.kind {
            ExprKind::Attribute {
                mark: m,
                word: w,
                arg: None,
            } => same_word(left, right, *mark, *m) & same_word(left, right, *word, *w),
            _ => false,
        },
        ExprKind::Attribute {
            mark,
            word,
            arg: Some(arg),
        } => match &b.kind {
            ExprKind::Attribute {
                mark: m,
                word: w,
                arg: Some(e),
            } => {
                same_word(left, right, *mark, *m)
                    & same_word(left, right, *word, *w)
                    & same_expr(left, right, arg, e)
            }
            _ => false,
        },
        ExprKind::Paren(a) => match &b.kind {
            ExprKind::Paren(b) => same_expr(left, right, a, b),
            _ => false,
        },
        ExprKind::Unary { op, part } => match &b.kind {
            ExprKind::Unary { op: o, part: p } => (*op == *o) & same_expr(left, right, part, p),
            _ => false,
        },
        ExprKind::Binary {
            op,
            left: first,
            right: second,
        } => match &b.kind {
            ExprKind::Binary {
                op: o,
                left: f,
                right: s,
            } => {
                (*op == *o) & same_expr(left, right, first, f) & same_expr(left, right, second, s)
            }
            _ => false,
        },
    }
}

/// Whether two expressions that may be left out are the same.
pub fn same_option(left: &Names, right: &Names, a: &Option<Expr>, b: &Option<Expr>) -> bool
    ensures { IsTrue result ↔ SameOption (SameExpr left.now right.now) (option_map plain_expr a.now) (option_map plain_expr b.now) }
{
    match a {
        Some(a) => match b {
            Some(b) => same_expr(left, right, a, b),
            None => false,
        },
        None => b.is_none(),
    }
}

/// Whether two lists of expressions are the same, place by place.
pub fn same_exprs(left: &Names, right: &Names, a: &[Expr], b: &[Expr]) -> bool
    ensures { IsTrue result ↔ AllZip (SameExpr left.now right.now) (map plain_expr a.now) (map plain_expr b.now) }
{
    if a.len() != b.len() {
        return false;
    }
    for i in 0..a.len() {
        if !same_expr(left, right, &a[i], &b[i]) {
            return false;
        }
    }
    true
}

/// Whether two ranges with bounds are the same.
pub fn same_bounds(left: &Names, right: &Names, a: &Bounds, b: &Bounds) -> bool
    ensures { IsTrue result ↔ SameBounds left.now right.now (plain_bounds a.now) (plain_bounds b.now) }
{
    same_expr(left, right, &a.first, &b.first) & same_expr(left, right, &a.last, &b.last)
}

/// Whether two subtype indications are the same.
pub fn same_subind(left: &Names, right: &Names, a: &Subind, b: &Subind) -> bool
    ensures { IsTrue result ↔ SameSubind left.now right.now (plain_subind a.now) (plain_subind b.now) }
{
    same_word(left, right, a.mark, b.mark) & same_limits(left, right, &a.bounds, &b.bounds)
}

// Whether two pairs of bounds that may be left out are the same.
fn same_limits(left: &Names, right: &Names, a: &Option<Bounds>, b: &Option<Bounds>) -> bool
    ensures { IsTrue result ↔ SameOption (SameBounds left.now right.now) (option_map plain_bounds a.now) (option_map plain_bounds b.now) }
{
    match a {
        Some(a) => match b {
            Some(b) => same_bounds(left, right, a, b),
            None => false,
        },
        None => b.is_none(),
    }
}

/// Whether two discrete ranges are the same.
pub fn same_drange(left: &Names, right: &Names, a: &Drange, b: &Drange) -> bool
    ensures { IsTrue result ↔ SameDrange left.now right.now (plain_drange a.now) (plain_drange b.now) }
{
    match a {
        Drange::Given(a) => match b {
            Drange::Given(b) => same_bounds(left, right, a, b),
            Drange::Marked(_) => false,
        },
        Drange::Marked(a) => match b {
            Drange::Marked(b) => same_subind(left, right, a, b),
            Drange::Given(_) => false,
        },
    }
}
