// Whether what statements are built of beside statements is the same: calls, parameters, parts of what PUT writes, choices and schemes of loops.

ghost use Rattle.std.specs.Prelude.{◌≡◌, ◌↔◌, IsTrue, map, option_map};
ghost use Rattle.std.specs.List.{AllZip};
ghost use Rattle.ada_tree.specs.PlainExpr.{plain_expr};
ghost use Rattle.ada_tree.specs.PlainStmt.{plain_target, plain_callee, plain_call, plain_args, plain_formal, plain_part, plain_choice, plain_scheme};
ghost use Rattle.ada_tree.specs.Same.{SameWord, SameExpr, SameOption, SameTarget, SameCallee, SameArgs, SameCall, SameFormal, SamePart, SameChoice, SameScheme};

use crate::expressions::expressions::{
    same_drange, same_expr, same_exprs, same_option, same_word, same_words,
};
use ada_tree::{Args, Call, Callee, CaseChoice, Expr, Formal, Names, Part, Scheme, Target, Word};

/// Whether two names that may be left out have one text.
pub fn same_label(left: &Names, right: &Names, a: Option<Word>, b: Option<Word>) -> bool
    ensures { IsTrue result ↔ SameOption (SameWord left.now right.now) a b }
{
    match a {
        Some(a) => match b {
            Some(b) => same_word(left, right, a, b),
            None => false,
        },
        None => b.is_none(),
    }
}

/// Whether two variables or components are the same.
pub fn same_target(left: &Names, right: &Names, a: &Target, b: &Target) -> bool
    ensures { IsTrue result ↔ SameTarget left.now right.now (plain_target a.now) (plain_target b.now) }
{
    same_word(left, right, a.name, b.name) & same_option(left, right, &a.index, &b.index)
}

fn same_callee(left: &Names, right: &Names, a: &Callee, b: &Callee) -> bool
    ensures { IsTrue result ↔ SameCallee left.now right.now (plain_callee a.now) (plain_callee b.now) }
{
    same_word(left, right, a.name, b.name) & same_option(left, right, &a.index, &b.index)
}

fn same_args(left: &Names, right: &Names, a: &Args, b: &Args) -> bool
    ensures { IsTrue result ↔ SameArgs left.now right.now (plain_args a.now) (plain_args b.now) }
{
    same_exprs(left, right, &a.first, &b.first) & same_second(left, right, &a.second, &b.second)
}

// Whether two second lists that may be left out are the same.
fn same_second(left: &Names, right: &Names, a: &Option<Vec<Expr>>, b: &Option<Vec<Expr>>) -> bool
    ensures { IsTrue result ↔ SameOption (AllZip (SameExpr left.now right.now)) (option_map (λ v. map plain_expr v.items) a.now) (option_map (λ v. map plain_expr v.items) b.now) }
{
    match a {
        Some(a) => match b {
            Some(b) => same_exprs(left, right, a, b),
            None => false,
        },
        None => b.is_none(),
    }
}

/// Whether two entry calls are the same.
pub fn same_call(left: &Names, right: &Names, a: &Call, b: &Call) -> bool
    ensures { IsTrue result ↔ SameCall left.now right.now (plain_call a.now) (plain_call b.now) }
{
    same_callee(left, right, &a.task, &b.task)
        & same_word(left, right, a.entry, b.entry)
        & same_lists(left, right, &a.args, &b.args)
}

// Whether what stands behind the entry's name is the same, where it may be left out.
fn same_lists(left: &Names, right: &Names, a: &Option<Args>, b: &Option<Args>) -> bool
    ensures { IsTrue result ↔ SameOption (SameArgs left.now right.now) (option_map plain_args a.now) (option_map plain_args b.now) }
{
    match a {
        Some(a) => match b {
            Some(b) => same_args(left, right, a, b),
            None => false,
        },
        None => b.is_none(),
    }
}

fn same_formal(left: &Names, right: &Names, a: &Formal, b: &Formal) -> bool
    ensures { IsTrue result ↔ SameFormal left.now right.now (plain_formal a.now) (plain_formal b.now) }
{
    same_words(left, right, &a.names, &b.names)
        & (a.mode == b.mode)
        & same_word(left, right, a.mark, b.mark)
}

fn same_part(left: &Names, right: &Names, a: &Part, b: &Part) -> bool
    ensures { IsTrue result ↔ SamePart left.now right.now (plain_part a.now) (plain_part b.now) }
{
    match a {
        Part::Words { text, .. } => match b {
            Part::Words { text: t, .. } => text == t,
            Part::Value(_) => false,
        },
        Part::Value(a) => match b {
            Part::Value(b) => same_expr(left, right, a, b),
            Part::Words { .. } => false,
        },
    }
}

fn same_choice(left: &Names, right: &Names, a: &CaseChoice, b: &CaseChoice) -> bool
    ensures { IsTrue result ↔ SameChoice left.now right.now (plain_choice a.now) (plain_choice b.now) }
{
    same_expr(left, right, &a.first, &b.first) & same_option(left, right, &a.last, &b.last)
}

fn same_scheme(left: &Names, right: &Names, a: &Scheme, b: &Scheme) -> bool
    ensures { IsTrue result ↔ SameScheme left.now right.now (plain_scheme a.now) (plain_scheme b.now) }
{
    match a {
        Scheme::While(a) => match b {
            Scheme::While(b) => same_expr(left, right, a, b),
            Scheme::For { .. } => false,
        },
        Scheme::For {
            name,
            reverse,
            range,
        } => match b {
            Scheme::For {
                name: n,
                reverse: r,
                range: d,
            } => {
                same_word(left, right, *name, *n)
                    & (*reverse == *r)
                    & same_drange(left, right, range, d)
            }
            Scheme::While(_) => false,
        },
    }
}

/// Whether two schemes of loops that may be left out are the same.
pub fn same_schemes(left: &Names, right: &Names, a: &Option<Scheme>, b: &Option<Scheme>) -> bool
    ensures { IsTrue result ↔ SameOption (SameScheme left.now right.now) (option_map plain_scheme a.now) (option_map plain_scheme b.now) }
{
    match a {
        Some(a) => match b {
            Some(b) => same_scheme(left, right, a, b),
            None => false,
        },
        None => b.is_none(),
    }
}

/// Whether two lists of tasks are the same, place by place.
pub fn same_callees(left: &Names, right: &Names, a: &[Callee], b: &[Callee]) -> bool
    ensures { IsTrue result ↔ AllZip (SameCallee left.now right.now) (map plain_callee a.now) (map plain_callee b.now) }
{
    if a.len() != b.len() {
        return false;
    }
    for i in 0..a.len() {
        if !same_callee(left, right, &a[i], &b[i]) {
            return false;
        }
    }
    true
}

/// Whether two lists of parameters are the same, place by place.
pub fn same_formals(left: &Names, right: &Names, a: &[Formal], b: &[Formal]) -> bool
    ensures { IsTrue result ↔ AllZip (SameFormal left.now right.now) (map plain_formal a.now) (map plain_formal b.now) }
{
    if a.len() != b.len() {
        return false;
    }
    for i in 0..a.len() {
        if !same_formal(left, right, &a[i], &b[i]) {
            return false;
        }
    }
    true
}

/// Whether two lists of what PUT writes are the same, place by place.
pub fn same_parts(left: &Names, right: &Names, a: &[Part], b: &[Part]) -> bool
    ensures { IsTrue result ↔ AllZip (SamePart left.now right.now) (map plain_part a.now) (map plain_part b.now) }
{
    if a.len() != b.len() {
        return false;
    }
    for i in 0..a.len() {
        if !same_part(left, right, &a[i], &b[i]) {
            return false;
        }
    }
    true
}

/// Whether two lists of choices are the same, place by place.
pub fn same_choices(left: &Names, right: &Names, a: &[CaseChoice], b: &[CaseChoice]) -> bool
    ensures { IsTrue result ↔ AllZip (SameChoice left.now right.now) (map plain_choice a.now) (map plain_choice b.now) }
{
    if a.len() != b.len() {
        return false;
    }
    for i in 0..a.len() {
        if !same_choice(left, right, &a[i], &b[i]) {
            return false;
        }
    }
    true
}
