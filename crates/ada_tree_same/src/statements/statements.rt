// The same statements. Lists are gone through by loops, so recursion follows nesting alone.

ghost use Rattle.std.specs.Prelude.{◌≡◌, ◌↔◌, IsTrue, map};
ghost use Rattle.ada_tree.specs.PlainStmt.{plain_accept, plain_alt, plain_arm, plain_case_arm, plain_handler, plain_body, plain_stmt, stmts_of, alts_of, arms_of, case_arms_of, handlers_of};
ghost use Rattle.ada_tree.specs.Same.{SameStmt, SameStmts, SameAccept, SameAlt, SameAlts, SameArm, SameArms, SameCaseArm, SameCaseArms, SameBody, SameHandler, SameHandlers};

use crate::expressions::{
    same_call, same_choices, same_expr, same_formals, same_label, same_option, same_schemes,
    same_word, same_words,
};
use crate::statements::simple::same_simple;
use ada_tree::{Accept, Alt, AltKind, Arm, Body, CaseArm, Handler, Names, Stmt, StmtKind};

#[cycle(same)]
fn same_accept(left: &Names, right: &Names, a: &Accept, b: &Accept) -> bool
    ensures { IsTrue result ↔ SameAccept left.now right.now (plain_accept a.now) (plain_accept b.now) }
{
    same_word(left, right, a.entry, b.entry)
        && same_option(left, right, &a.index, &b.index)
        && same_formals(left, right, &a.formals, &b.formals)
        && match &a.stmts {
            Some(a) => match &b.stmts {
                Some(b) => same_stmts(left, right, a, b),
                None => false,
            },
            None => b.stmts.is_none(),
        }
}

#[cycle(same)]
fn same_alt(left: &Names, right: &Names, a: &Alt, b: &Alt) -> bool
    ensures { IsTrue result ↔ SameAlt left.now right.now (plain_alt a.now) (plain_alt b.now) }
{
    same_option(left, right, &a.guard, &b.guard)
        && match &a.kind {
            AltKind::Accept { accept, stmts } => match &b.kind {
                AltKind::Accept {
                    accept: c,
                    stmts: k,
                } => { same_accept(left, right, accept, c) && same_stmts(left, right, stmts, k) }
                _ => false,
            },
            AltKind::Delay { thousandths, stmts } => match &b.kind {
                AltKind::Delay {
                    thousandths: d,
                    stmts: k,
                } => { *thousandths == *d && same_stmts(left, right, stmts, k) }
                _ => false,
            },
            AltKind::Terminate => match &b.kind {
                AltKind::Terminate => true,
                _ => false,
            },
        }
}

#[cycle(same)]
fn same_arm(left: &Names, right: &Names, a: &Arm, b: &Arm) -> bool
    ensures { IsTrue result ↔ SameArm left.now right.now (plain_arm a.now) (plain_arm b.now) }
{
    same_expr(left, right, &a.test, &b.test) && same_stmts(left, right, &a.stmts, &b.stmts)
}

#[cycle(same)]
fn same_case_arm(left: &Names, right: &Names, a: &CaseArm, b: &CaseArm) -> bool
    ensures { IsTrue result ↔ SameCaseArm left.now right.now (plain_case_arm a.now) (plain_case_arm b.now) }
{
    same_choices(left, right, &a.choices, &b.choices) && same_stmts(left, right, &a.stmts, &b.stmts)
}

#[cycle(same)]
fn same_handler(left: &Names, right: &Names, a: &Handler, b: &Handler) -> bool
    ensures { IsTrue result ↔ SameHandler left.now right.now (plain_handler a.now) (plain_handler b.now) }
{
    same_words(left, right, &a.names, &b.names) && same_stmts(left, right, &a.stmts, &b.stmts)
}

/// Whether two bodies are the same.
#[cycle(same)]
pub fn same_body(left: &Names, right: &Names, a: &Body, b: &Body) -> bool
    ensures { IsTrue result ↔ SameBody left.now right.now (plain_body a.now) (plain_body b.now) }
{
    same_stmts(left, right, &a.stmts, &b.stmts)
        && same_handlers(left, right, &a.handlers, &b.handlers)
}

/// Whether two statements are the same.
#[cycle(same)]
#[tactic(auto, using(crate::proofs::expressions::SameLemmas::places, crate::proofs::expressions::Joined::joined, ada_tree::proofs::Rows::rows))]
pub fn same_stmt(left: &Names, right: &Names, a: &Stmt, b: &Stmt) -> bool
    ensures { IsTrue result ↔ SameStmt left.now right.now (plain_stmt a.now) (plain_stmt b.now) }
{
    match &a.kind {
        StmtKind::Accept(a) => match &b.kind {
            StmtKind::Accept(b) => same_accept(left, right, a, b),
            _ => false,
        },
        StmtKind::Wait { alts, otherwise } => match &b.kind {
            StmtKind::Wait {
                alts: x,
                otherwise: o,
            } => {
                same_alts(left, right, alts, x)
                    && match otherwise {
                        Some(k) => match o {
                            Some(l) => same_stmts(left, right, k, l),
                            None => false,
                        },
                        None => o.is_none(),
                    }
            }
            _ => false,
        },
        StmtKind::Conditional {
            call,
            behind,
            otherwise,
        } => match &b.kind {
            StmtKind::Conditional {
                call: c,
                behind: k,
                otherwise: o,
            } => {
                same_call(left, right, call, c)
                    & same_stmts(left, right, behind, k)
                    & same_stmts(left, right, otherwise, o)
            }
            _ => false,
        },
        StmtKind::Timed {
            call,
            behind,
            thousandths,
            after,
        } => match &b.kind {
            StmtKind::Timed {
                call: c,
                behind: k,
                thousandths: t,
                after: l,
            } => {
                same_call(left, right, call, c)
                    && same_stmts(left, right, behind, k)
                    && *thousandths == *t
                    && same_stmts(left, right, after, l)
            }
            _ => false,
        },
        StmtKind::If { arms, otherwise } => match &b.kind {
            StmtKind::If {
                arms: x,
                otherwise: o,
            } => {
                same_arms(left, right, arms, x)
                    && match otherwise {
                        Some(k) => match o {
                            Some(l) => same_stmts(left, right, k, l),
                            None => false,
                        },
                        None => o.is_none(),
                    }
            }
            _ => false,
        },
        StmtKind::Case {
            selector,
            arms,
            others,
        } => match &b.kind {
            StmtKind::Case {
                selector: e,
                arms: x,
                others: o,
            } => {
                same_expr(left, right, selector, e)
                    && same_case_arms(left, right, arms, x)
                    && match others {
                        Some(k) => match o {
                            Some(l) => same_stmts(left, right, k, l),
                            None => false,
                        },
                        None => o.is_none(),
                    }
            }
            _ => false,
        },
        StmtKind::Block(a) => match &b.kind {
            StmtKind::Block(b) => same_body(left, right, a, b),
            _ => false,
        },
        StmtKind::Loop {
            name,
            scheme,
            stmts,
        } => match &b.kind {
            StmtKind::Loop {
                name: n,
                scheme: c,
                stmts: k,
            } => {
                same_label(left, right, *name, *n)
                    & same_schemes(left, right, scheme, c)
                    & same_stmts(left, right, stmts, k)
            }
            _ => false,
        },
        _ => same_simple(left, right, a, b),
    }
}

#[cycle(same)]
#[tactic(auto, using(crate::proofs::statements::SameRows::same_stmts))]
fn same_stmts(left: &Names, right: &Names, a: &[Stmt], b: &[Stmt]) -> bool
    ensures { IsTrue result ↔ SameStmts left.now right.now (stmts_of (map plain_stmt a.now)) (stmts_of (map plain_stmt b.now)) }
{
    if a.len() != b.len() {
        return false;
    }
    for i in 0..a.len() {
        if !same_stmt(left, right, &a[i], &b[i]) {
            return false;
        }
    }
    true
}

#[cycle(same)]
#[tactic(auto, using(crate::proofs::statements::SameRows::same_alts))]
fn same_alts(left: &Names, right: &Names, a: &[Alt], b: &[Alt]) -> bool
    ensures { IsTrue result ↔ SameAlts left.now right.now (alts_of (map plain_alt a.now)) (alts_of (map plain_alt b.now)) }
{
    if a.len() != b.len() {
        return false;
    }
    for i in 0..a.len() {
        if !same_alt(left, right, &a[i], &b[i]) {
            return false;
        }
    }
    true
}

#[cycle(same)]
#[tactic(auto, using(crate::proofs::statements::SameRows::same_arms))]
fn same_arms(left: &Names, right: &Names, a: &[Arm], b: &[Arm]) -> bool
    ensures { IsTrue result ↔ SameArms left.now right.now (arms_of (map plain_arm a.now)) (arms_of (map plain_arm b.now)) }
{
    if a.len() != b.len() {
        return false;
    }
    for i in 0..a.len() {
        if !same_arm(left, right, &a[i], &b[i]) {
            return false;
        }
    }
    true
}

#[cycle(same)]
#[tactic(auto, using(crate::proofs::statements::SameRows::same_case_arms))]
fn same_case_arms(left: &Names, right: &Names, a: &[CaseArm], b: &[CaseArm]) -> bool
    ensures { IsTrue result ↔ SameCaseArms left.now right.now (case_arms_of (map plain_case_arm a.now)) (case_arms_of (map plain_case_arm b.now)) }
{
    if a.len() != b.len() {
        return false;
    }
    for i in 0..a.len() {
        if !same_case_arm(left, right, &a[i], &b[i]) {
            return false;
        }
    }
    true
}

#[cycle(same)]
#[tactic(auto, using(crate::proofs::statements::SameRows::same_handlers))]
fn same_handlers(left: &Names, right: &Names, a: &[Handler], b: &[Handler]) -> bool
    ensures { IsTrue result ↔ SameHandlers left.now right.now (handlers_of (map plain_handler a.now)) (handlers_of (map plain_handler b.now)) }
{
    if a.len() != b.len() {
        return false;
    }
    for i in 0..a.len() {
        if !same_handler(left, right, &a[i], &b[i]) {
            return false;
        }
    }
    true
}
