// Statements of their parts. Each part comes as a result; where one is missing, so is the whole. What is made has all parts as they came.

ghost use Rattle.std.specs.Prelude.{◌≡◌, IfOk, map, option_map};
ghost use Rattle.ada_tree.specs.PlainExpr.{plain_expr};
ghost use Rattle.ada_tree.specs.PlainStmt.{plain_target, plain_callee, plain_call, plain_formal, plain_part, plain_choice, plain_scheme, plain_accept, plain_alt, plain_arm, plain_case_arm, plain_handler, plain_body, plain_stmt, alts_of, arms_of, case_arms_of, handlers_of, seen, seen_maybe, absent, present, SAssign, SExit, SAbort, SCall, SAccept, SWait, SConditional, STimed, SPut, SPutLine, SGet, SIf, SCase, SBlock, SLoop, accepting, alternative, AAccept, ADelay, ATerminate, arm, case_arm, body, handler};
ghost use Rattle.ada_stmt_copy.specs.expressions.Parts.{OkWith};

use crate::expressions::{all, both};
use ada_tree::{
    Accept, Alt, AltKind, Arm, Body, Call, Callee, CaseArm, CaseChoice, Expr, Formal, Handler,
    Memory, Part, Scheme, Span, Stmt, StmtKind, Target, Word,
};

/// An assignment.
pub fn assign_of(
    target: Result<Target, Memory>,
    value: Result<Expr, Memory>,
    span: Span,
) -> Result<Stmt, Memory>
    ensures { IfOk result (λ made. OkWith target (λ t. OkWith value (λ v. plain_stmt made ≡ SAssign (plain_target t) (plain_expr v) span))) }
{
    match both(target, value) {
        Ok((target, value)) => Ok(Stmt {
            kind: StmtKind::Assign { target, value },
            span,
        }),
        Err(e) => Err(e),
    }
}

/// An exit statement.
pub fn exit_of(
    name: Option<Word>,
    test: Result<Option<Expr>, Memory>,
    span: Span,
) -> Result<Stmt, Memory>
    ensures { IfOk result (λ made. OkWith test (λ t. plain_stmt made ≡ SExit name (option_map plain_expr t) span)) }
{
    match test {
        Ok(test) => Ok(Stmt {
            kind: StmtKind::Exit { name, test },
            span,
        }),
        Err(e) => Err(e),
    }
}

/// An abort statement.
pub fn abort_of(names: Result<Vec<Callee>, Memory>, span: Span) -> Result<Stmt, Memory>
    ensures { IfOk result (λ made. OkWith names (λ n. plain_stmt made ≡ SAbort (map plain_callee n.items) span)) }
{
    match names {
        Ok(names) => Ok(Stmt {
            kind: StmtKind::Abort { names },
            span,
        }),
        Err(e) => Err(e),
    }
}

/// An entry call statement.
pub fn call_of(call: Result<Call, Memory>, span: Span) -> Result<Stmt, Memory>
    ensures { IfOk result (λ made. OkWith call (λ c. plain_stmt made ≡ SCall (plain_call c) span)) }
{
    match call {
        Ok(call) => Ok(Stmt {
            kind: StmtKind::Call(call),
            span,
        }),
        Err(e) => Err(e),
    }
}

/// An accept statement, as a statement.
pub fn accept_of(accept: Result<Accept, Memory>, span: Span) -> Result<Stmt, Memory>
    ensures { IfOk result (λ made. OkWith accept (λ a. plain_stmt made ≡ SAccept (plain_accept a) span)) }
{
    match accept {
        Ok(accept) => Ok(Stmt {
            kind: StmtKind::Accept(accept),
            span,
        }),
        Err(e) => Err(e),
    }
}

/// A selective wait.
pub fn wait_of(
    alts: Result<Vec<Alt>, Memory>,
    otherwise: Result<Option<Vec<Stmt>>, Memory>,
    span: Span,
) -> Result<Stmt, Memory>
    ensures { IfOk result (λ made. OkWith alts (λ a. OkWith otherwise (λ o. plain_stmt made ≡ SWait (alts_of (map plain_alt a.items)) (seen_maybe o) span))) }
{
    match both(alts, otherwise) {
        Ok((alts, otherwise)) => Ok(Stmt {
            kind: StmtKind::Wait { alts, otherwise },
            span,
        }),
        Err(e) => Err(e),
    }
}

/// A conditional entry call.
pub fn conditional_of(
    call: Result<Call, Memory>,
    behind: Result<Vec<Stmt>, Memory>,
    otherwise: Result<Vec<Stmt>, Memory>,
    span: Span,
) -> Result<Stmt, Memory>
    ensures { IfOk result (λ made. OkWith call (λ c. OkWith behind (λ b. OkWith otherwise (λ o. plain_stmt made ≡ SConditional (plain_call c) (seen b.items) (seen o.items) span)))) }
{
    match all(call, behind, otherwise) {
        Ok((call, behind, otherwise)) => Ok(Stmt {
            kind: StmtKind::Conditional {
                call,
                behind,
                otherwise,
            },
            span,
        }),
        Err(e) => Err(e),
    }
}

/// A timed entry call.
pub fn timed_of(
    call: Result<Call, Memory>,
    behind: Result<Vec<Stmt>, Memory>,
    thousandths: u32,
    after: Result<Vec<Stmt>, Memory>,
    span: Span,
) -> Result<Stmt, Memory>
    ensures { IfOk result (λ made. OkWith call (λ c. OkWith behind (λ b. OkWith after (λ a. plain_stmt made ≡ STimed (plain_call c) (seen b.items) thousandths (seen a.items) span)))) }
{
    match all(call, behind, after) {
        Ok((call, behind, after)) => Ok(Stmt {
            kind: StmtKind::Timed {
                call,
                behind,
                thousandths,
                after,
            },
            span,
        }),
        Err(e) => Err(e),
    }
}

/// A call of PUT.
pub fn put_of(parts: Result<Vec<Part>, Memory>, span: Span) -> Result<Stmt, Memory>
    ensures { IfOk result (λ made. OkWith parts (λ p. plain_stmt made ≡ SPut (map plain_part p.items) span)) }
{
    match parts {
        Ok(parts) => Ok(Stmt {
            kind: StmtKind::Put { parts },
            span,
        }),
        Err(e) => Err(e),
    }
}

/// A call of PUT_LINE.
pub fn put_line_of(parts: Result<Vec<Part>, Memory>, span: Span) -> Result<Stmt, Memory>
    ensures { IfOk result (λ made. OkWith parts (λ p. plain_stmt made ≡ SPutLine (map plain_part p.items) span)) }
{
    match parts {
        Ok(parts) => Ok(Stmt {
            kind: StmtKind::PutLine { parts },
            span,
        }),
        Err(e) => Err(e),
    }
}

/// A call of GET.
pub fn get_of(target: Result<Target, Memory>, span: Span) -> Result<Stmt, Memory>
    ensures { IfOk result (λ made. OkWith target (λ t. plain_stmt made ≡ SGet (plain_target t) span)) }
{
    match target {
        Ok(target) => Ok(Stmt {
            kind: StmtKind::Get { target },
            span,
        }),
        Err(e) => Err(e),
    }
}

/// An if statement.
pub fn if_of(
    arms: Result<Vec<Arm>, Memory>,
    otherwise: Result<Option<Vec<Stmt>>, Memory>,
    span: Span,
) -> Result<Stmt, Memory>
    ensures { IfOk result (λ made. OkWith arms (λ a. OkWith otherwise (λ o. plain_stmt made ≡ SIf (arms_of (map plain_arm a.items)) (seen_maybe o) span))) }
{
    match both(arms, otherwise) {
        Ok((arms, otherwise)) => Ok(Stmt {
            kind: StmtKind::If { arms, otherwise },
            span,
        }),
        Err(e) => Err(e),
    }
}

/// A case statement with no `when others`.
pub fn case_of(
    selector: Result<Expr, Memory>,
    arms: Result<Vec<CaseArm>, Memory>,
    span: Span,
) -> Result<Stmt, Memory>
    ensures { IfOk result (λ made. OkWith selector (λ s. OkWith arms (λ a. plain_stmt made ≡ SCase (plain_expr s) (case_arms_of (map plain_case_arm a.items)) absent span))) }
{
    match both(selector, arms) {
        Ok((selector, arms)) => Ok(Stmt {
            kind: StmtKind::Case {
                selector,
                arms,
                others: None,
            },
            span,
        }),
        Err(e) => Err(e),
    }
}

/// A case statement with the statements of its `when others`.
pub fn case_others_of(
    selector: Result<Expr, Memory>,
    arms: Result<Vec<CaseArm>, Memory>,
    others: Result<Vec<Stmt>, Memory>,
    span: Span,
) -> Result<Stmt, Memory>
    ensures { IfOk result (λ made. OkWith selector (λ s. OkWith arms (λ a. OkWith others (λ o. plain_stmt made ≡ SCase (plain_expr s) (case_arms_of (map plain_case_arm a.items)) (present (seen o.items)) span)))) }
{
    match all(selector, arms, others) {
        Ok((selector, arms, others)) => Ok(Stmt {
            kind: StmtKind::Case {
                selector,
                arms,
                others: Some(others),
            },
            span,
        }),
        Err(e) => Err(e),
    }
}

/// A block.
pub fn block_of(body: Result<Body, Memory>, span: Span) -> Result<Stmt, Memory>
    ensures { IfOk result (λ made. OkWith body (λ b. plain_stmt made ≡ SBlock (plain_body b) span)) }
{
    match body {
        Ok(body) => Ok(Stmt {
            kind: StmtKind::Block(body),
            span,
        }),
        Err(e) => Err(e),
    }
}

/// A loop.
pub fn loop_of(
    name: Option<Word>,
    scheme: Result<Option<Scheme>, Memory>,
    stmts: Result<Vec<Stmt>, Memory>,
    span: Span,
) -> Result<Stmt, Memory>
    ensures { IfOk result (λ made. OkWith scheme (λ c. OkWith stmts (λ k. plain_stmt made ≡ SLoop name (option_map plain_scheme c) (seen k.items) span))) }
{
    match both(scheme, stmts) {
        Ok((scheme, stmts)) => Ok(Stmt {
            kind: StmtKind::Loop {
                name,
                scheme,
                stmts,
            },
            span,
        }),
        Err(e) => Err(e),
    }
}

/// An accept statement.
pub fn accepting_of(
    entry: Word,
    index: Result<Option<Expr>, Memory>,
    formals: Result<Vec<Formal>, Memory>,
    stmts: Result<Option<Vec<Stmt>>, Memory>,
    span: Span,
) -> Result<Accept, Memory>
    ensures { IfOk result (λ made. OkWith index (λ i. OkWith formals (λ f. OkWith stmts (λ k. plain_accept made ≡ accepting record { entry = entry; index = option_map plain_expr i; formals = map plain_formal f.items; span = span } (seen_maybe k))))) }
{
    match all(index, formals, stmts) {
        Ok((index, formals, stmts)) => Ok(Accept {
            entry,
            index,
            formals,
            stmts,
            span,
        }),
        Err(e) => Err(e),
    }
}

/// An accept alternative.
pub fn accept_alternative_of(
    guard: Result<Option<Expr>, Memory>,
    accept: Result<Accept, Memory>,
    stmts: Result<Vec<Stmt>, Memory>,
    span: Span,
) -> Result<Alt, Memory>
    ensures { IfOk result (λ made. OkWith guard (λ g. OkWith accept (λ a. OkWith stmts (λ k. plain_alt made ≡ alternative (option_map plain_expr g) (AAccept (plain_accept a) (seen k.items)) span)))) }
{
    match all(guard, accept, stmts) {
        Ok((guard, accept, stmts)) => Ok(Alt {
            guard,
            kind: AltKind::Accept { accept, stmts },
            span,
        }),
        Err(e) => Err(e),
    }
}

/// A delay alternative.
pub fn delay_alternative_of(
    guard: Result<Option<Expr>, Memory>,
    thousandths: u32,
    stmts: Result<Vec<Stmt>, Memory>,
    span: Span,
) -> Result<Alt, Memory>
    ensures { IfOk result (λ made. OkWith guard (λ g. OkWith stmts (λ k. plain_alt made ≡ alternative (option_map plain_expr g) (ADelay thousandths (seen k.items)) span))) }
{
    match both(guard, stmts) {
        Ok((guard, stmts)) => Ok(Alt {
            guard,
            kind: AltKind::Delay { thousandths, stmts },
            span,
        }),
        Err(e) => Err(e),
    }
}

/// A terminate alternative.
pub fn terminate_alternative_of(
    guard: Result<Option<Expr>, Memory>,
    span: Span,
) -> Result<Alt, Memory>
    ensures { IfOk result (λ made. OkWith guard (λ g. plain_alt made ≡ alternative (option_map plain_expr g) ATerminate span)) }
{
    match guard {
        Ok(guard) => Ok(Alt {
            guard,
            kind: AltKind::Terminate,
            span,
        }),
        Err(e) => Err(e),
    }
}

/// A condition with its statements.
pub fn arm_of(test: Result<Expr, Memory>, stmts: Result<Vec<Stmt>, Memory>) -> Result<Arm, Memory>
    ensures { IfOk result (λ made. OkWith test (λ t. OkWith stmts (λ k. plain_arm made ≡ arm (plain_expr t) (seen k.items)))) }
{
    match both(test, stmts) {
        Ok((test, stmts)) => Ok(Arm { test, stmts }),
        Err(e) => Err(e),
    }
}

/// Choices with their statements.
pub fn case_arm_of(
    choices: Result<Vec<CaseChoice>, Memory>,
    stmts: Result<Vec<Stmt>, Memory>,
) -> Result<CaseArm, Memory>
    ensures { IfOk result (λ made. OkWith choices (λ c. OkWith stmts (λ k. plain_case_arm made ≡ case_arm (map plain_choice c.items) (seen k.items)))) }
{
    match both(choices, stmts) {
        Ok((choices, stmts)) => Ok(CaseArm { choices, stmts }),
        Err(e) => Err(e),
    }
}

/// A handler.
pub fn handler_of(
    names: Result<Vec<Word>, Memory>,
    stmts: Result<Vec<Stmt>, Memory>,
    span: Span,
) -> Result<Handler, Memory>
    ensures { IfOk result (λ made. OkWith names (λ n. OkWith stmts (λ k. plain_handler made ≡ handler n.items (seen k.items) span))) }
{
    match both(names, stmts) {
        Ok((names, stmts)) => Ok(Handler { names, stmts, span }),
        Err(e) => Err(e),
    }
}

/// Statements with their handlers.
pub fn body_of(
    stmts: Result<Vec<Stmt>, Memory>,
    handlers: Result<Vec<Handler>, Memory>,
) -> Result<Body, Memory>
    ensures { IfOk result (λ made. OkWith stmts (λ k. OkWith handlers (λ h. plain_body made ≡ body (seen k.items) (handlers_of (map plain_handler h.items))))) }
{
    match both(stmts, handlers) {
        Ok((stmts, handlers)) => Ok(Body { stmts, handlers }),
        Err(e) => Err(e),
    }
}
