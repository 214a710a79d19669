// The first abort statement of a program. Lists are gone through by loops, so recursion follows nesting alone; no memory is taken.

ghost use Rattle.std.specs.Prelude.{◌≡◌, None, fold, map};
ghost use Rattle.ada_tree.specs.PlainStmt.{plain_stmt, plain_accept, plain_alt_kind, plain_alt, plain_arm, plain_case_arm, plain_handler, plain_body, alts_of, arms_of, case_arms_of, handlers_of, seen};
ghost use Rattle.ada_tree.specs.PlainDecl.{plain_decl};
ghost use Rattle.ada_tree.specs.PlainProgram.{plain_program};
ghost use Rattle.normal_model.specs.Walk.{after_parts, after_stmts, after_accept, after_kind, after_alts, after_arms, after_case_arms, after_body, after_handlers};
ghost use Rattle.collect_model.specs.FirstAbort.{found_or, with_stmt, abort_finder, with_decl, first_abort};

use ada_tree::{
    Accept, Alt, AltKind, Arm, Body, CaseArm, Decl, DeclKind, Handler, Program, Span, Stmt,
    StmtKind,
};

// The place that was found, or this one.
fn found_or(found: Option<Span>, s: Span) -> Option<Span>
    ensures { result ≡ found_or found s }
{
    match found {
        Some(_) => found,
        None => Some(s),
    }
}

// What has been found behind statements.
#[cycle(finding)]
fn behind_stmts(stmts: &[Stmt], found: Option<Span>) -> Option<Span>
    ensures { result ≡ after_stmts abort_finder (seen stmts.now) found }
{
    let mut found = found;
    for stmt in stmts {
        found = behind_stmt(stmt, found);
    }
    found
}

// The same of one statement.
#[cycle(finding)]
fn behind_stmt(stmt: &Stmt, found: Option<Span>) -> Option<Span>
    ensures { result ≡ after_parts abort_finder (plain_stmt stmt.now) (with_stmt found (plain_stmt stmt.now)) }
{
    match &stmt.kind {
        StmtKind::Abort { .. } => found_or(found, stmt.span),
        StmtKind::Accept(accept) => behind_accept(accept, found),
        StmtKind::Wait { alts, otherwise } => {
            let found = behind_alts(alts, found);
            match otherwise {
                Some(stmts) => behind_stmts(stmts, found),
                None => found,
            }
        }
        StmtKind::Conditional {
            behind,
            otherwise,
            ..
        } => behind_stmts(otherwise, behind_stmts(behind, found)),
        StmtKind::Timed { behind, after, .. } => behind_stmts(after, behind_stmts(behind, found)),
        StmtKind::If { arms, otherwise } => {
            let found = behind_arms(arms, found);
            match otherwise {
                Some(stmts) => behind_stmts(stmts, found),
                None => found,
            }
        }
        StmtKind::Case { arms, others, .. } => {
            let found = behind_case_arms(arms, found);
            match others {
                Some(stmts) => behind_stmts(stmts, found),
                None => found,
            }
        }
        StmtKind::Block(body) => behind_body(body, found),
        StmtKind::Loop { stmts, .. } => behind_stmts(stmts, found),
        _ => found,
    }
}

#[cycle(finding)]
fn behind_accept(accept: &Accept, found: Option<Span>) -> Option<Span>
    ensures { result ≡ after_accept abort_finder (plain_accept accept.now) found }
{
    match &accept.stmts {
        Some(stmts) => behind_stmts(stmts, found),
        None => found,
    }
}

#[cycle(finding)]
fn behind_alts(alts: &[Alt], found: Option<Span>) -> Option<Span>
    ensures { result ≡ after_alts abort_finder (alts_of (map plain_alt alts.now)) found }
{
    let mut found = found;
    for alt in alts {
        found = behind_alternative(&alt.kind, found);
    }
    found
}

#[cycle(finding)]
fn behind_alternative(kind: &AltKind, found: Option<Span>) -> Option<Span>
    ensures { result ≡ after_kind abort_finder (plain_alt_kind kind.now) found }
{
    match kind {
        AltKind::Accept { accept, stmts } => behind_stmts(stmts, behind_accept(accept, found)),
        AltKind::Delay { stmts, .. } => behind_stmts(stmts, found),
        AltKind::Terminate => found,
    }
}

#[cycle(finding)]
fn behind_arms(arms: &[Arm], found: Option<Span>) -> Option<Span>
    ensures { result ≡ after_arms abort_finder (arms_of (map plain_arm arms.now)) found }
{
    let mut found = found;
    for arm in arms {
        found = behind_stmts(&arm.stmts, found);
    }
    found
}

#[cycle(finding)]
fn behind_case_arms(arms: &[CaseArm], found: Option<Span>) -> Option<Span>
    ensures { result ≡ after_case_arms abort_finder (case_arms_of (map plain_case_arm arms.now)) found }
{
    let mut found = found;
    for arm in arms {
        found = behind_stmts(&arm.stmts, found);
    }
    found
}

#[cycle(finding)]
fn behind_handlers(handlers: &[Handler], found: Option<Span>) -> Option<Span>
    ensures { result ≡ after_handlers abort_finder (handlers_of (map plain_handler handlers.now)) found }
{
    let mut found = found;
    for handler in handlers {
        found = behind_stmts(&handler.stmts, found);
    }
    found
}

// What has been found behind a body with its handlers.
#[cycle(finding)]
fn behind_body(body: &Body, found: Option<Span>) -> Option<Span>
    ensures { result ≡ after_body abort_finder (plain_body body.now) found }
{
    behind_handlers(&body.handlers, behind_stmts(&body.stmts, found))
}

// What has been found behind a declaration.
fn behind_decl(decl: &Decl, found: Option<Span>) -> Option<Span>
    ensures { result ≡ with_decl found (plain_decl decl.now) }
{
    match &decl.kind {
        DeclKind::TaskBody { body, .. } => behind_body(body, found),
        _ => found,
    }
}

// What has been found behind declarations.
fn behind_decls(decls: &[Decl]) -> Option<Span>
    ensures { result ≡ fold with_decl None (map plain_decl decls.now) }
{
    let mut found = None;
    for decl in decls {
        found = behind_decl(decl, found);
    }
    found
}

/// The place of the first abort statement of a program, in the order of its text. It takes no memory, and time linear in the program.
pub fn first_abort(p: &Program) -> Option<Span>
    ensures { result ≡ first_abort (plain_program p.now) }
{
    behind_body(&p.body, behind_decls(&p.decls))
}
