// Copies of statements. Lists are gone through by loops, so recursion follows nesting alone.

ghost use Rattle.std.specs.Prelude.{◌≡◌, IfOk, map};
ghost use Rattle.ada_tree.specs.PlainStmt.{plain_accept, plain_alt, plain_arm, plain_case_arm, plain_handler, plain_body, plain_stmt};

use crate::StmtCopy;
use crate::building::{
    accept_alternative_of, accept_of, accepting_of, arm_of, block_of, body_of, case_arm_of,
    case_of, case_others_of, conditional_of, delay_alternative_of, handler_of, if_of, loop_of,
    terminate_alternative_of, timed_of, wait_of,
};
use crate::expressions::{
    ExprCopy, copy_choices, copy_formals, copy_option, copy_scheme, copy_words, put, there,
};
use crate::simple::copy_simple;
use ada_tree::{Accept, Alt, AltKind, Arm, Body, CaseArm, Handler, Memory, Stmt, StmtKind};
use std::alloc::Global;

impl StmtCopy for Accept {
    /// A copy with the same ids and places.
    #[cycle(copy)]
    fn copy(&self, alloc: Global) -> Result<Accept, Memory>
        ensures { IfOk result (λ copy. plain_accept copy ≡ plain_accept self.now) }
    {
        let index = copy_option(alloc, &self.index);
        let formals = copy_formals(alloc, &self.formals);
        let stmts = match &self.stmts {
            Some(stmts) => there(copy_stmts(alloc, stmts)),
            None => Ok(None),
        };
        accepting_of(self.entry, index, formals, stmts, self.span)
    }
}

impl StmtCopy for Alt {
    /// A copy with the same ids and places.
    #[cycle(copy)]
    fn copy(&self, alloc: Global) -> Result<Alt, Memory>
        ensures { IfOk result (λ copy. plain_alt copy ≡ plain_alt self.now) }
    {
        let guard = copy_option(alloc, &self.guard);
        match &self.kind {
            AltKind::Accept { accept, stmts } => {
                let accept = accept.copy(alloc);
                accept_alternative_of(guard, accept, copy_stmts(alloc, stmts), self.span)
            }
            AltKind::Delay { thousandths, stmts } => {
                delay_alternative_of(guard, *thousandths, copy_stmts(alloc, stmts), self.span)
            }
            AltKind::Terminate => terminate_alternative_of(guard, self.span),
        }
    }
}

impl StmtCopy for Arm {
    /// A copy with the same ids and places.
    #[cycle(copy)]
    fn copy(&self, alloc: Global) -> Result<Arm, Memory>
        ensures { IfOk result (λ copy. plain_arm copy ≡ plain_arm self.now) }
    {
        arm_of(self.test.copy(alloc), copy_stmts(alloc, &self.stmts))
    }
}

impl StmtCopy for CaseArm {
    /// A copy with the same ids and places.
    #[cycle(copy)]
    fn copy(&self, alloc: Global) -> Result<CaseArm, Memory>
        ensures { IfOk result (λ copy. plain_case_arm copy ≡ plain_case_arm self.now) }
    {
        case_arm_of(
            copy_choices(alloc, &self.choices),
            copy_stmts(alloc, &self.stmts),
        )
    }
}

impl StmtCopy for Handler {
    /// A copy with the same ids and places.
    #[cycle(copy)]
    fn copy(&self, alloc: Global) -> Result<Handler, Memory>
        ensures { IfOk result (λ copy. plain_handler copy ≡ plain_handler self.now) }
    {
        let names = copy_words(alloc, &self.names);
        handler_of(names, copy_stmts(alloc, &self.stmts), self.span)
    }
}

impl StmtCopy for Body {
    /// A copy with the same ids and places.
    #[cycle(copy)]
    fn copy(&self, alloc: Global) -> Result<Body, Memory>
        ensures { IfOk result (λ copy. plain_body copy ≡ plain_body self.now) }
    {
        body_of(
            copy_stmts(alloc, &self.stmts),
            copy_handlers(alloc, &self.handlers),
        )
    }
}

impl StmtCopy for Stmt {
    /// A copy with the same ids and places.
    #[cycle(copy)]
    fn copy(&self, alloc: Global) -> Result<Stmt, Memory>
        ensures { IfOk result (λ copy. plain_stmt copy ≡ plain_stmt self.now) }
    {
        let span = self.span;
        match &self.kind {
            StmtKind::Accept(accept) => accept_of(accept.copy(alloc), span),
            StmtKind::Wait { alts, otherwise } => {
                let otherwise = match otherwise {
                    Some(stmts) => there(copy_stmts(alloc, stmts)),
                    None => Ok(None),
                };
                wait_of(copy_alts(alloc, alts), otherwise, span)
            }
            StmtKind::Conditional {
                call,
                behind,
                otherwise,
            } => {
                let behind = copy_stmts(alloc, behind);
                let otherwise = copy_stmts(alloc, otherwise);
                conditional_of(call.copy(alloc), behind, otherwise, span)
            }
            StmtKind::Timed {
                call,
                behind,
                thousandths,
                after,
            } => {
                let behind = copy_stmts(alloc, behind);
                let after = copy_stmts(alloc, after);
                timed_of(call.copy(alloc), behind, *thousandths, after, span)
            }
            StmtKind::If { arms, otherwise } => {
                let otherwise = match otherwise {
                    Some(stmts) => there(copy_stmts(alloc, stmts)),
                    None => Ok(None),
                };
                if_of(copy_arms(alloc, arms), otherwise, span)
            }
            StmtKind::Case {
                selector,
                arms,
                others,
            } => {
                let selector = selector.copy(alloc);
                let arms = copy_case_arms(alloc, arms);
                match others {
                    Some(stmts) => case_others_of(selector, arms, copy_stmts(alloc, stmts), span),
                    None => case_of(selector, arms, span),
                }
            }
            StmtKind::Block(body) => block_of(body.copy(alloc), span),
            StmtKind::Loop {
                name,
                scheme,
                stmts,
            } => loop_of(
                *name,
                copy_scheme(alloc, scheme),
                copy_stmts(alloc, stmts),
                span,
            ),
            _ => copy_simple(alloc, self),
        }
    }
}

/// A copy of a list of statements, with the same ids and places.
#[cycle(copy)]
pub fn copy_stmts(alloc: Global, stmts: &[Stmt]) -> Result<Vec<Stmt>, Memory>
    ensures { IfOk result (λ copy. map plain_stmt copy.items ≡ map plain_stmt stmts.now) }
{
    let mut copies = Vec::new(alloc);
    for stmt in stmts {
        put(&mut copies, stmt.copy(alloc))?;
    }
    Ok(copies)
}

#[cycle(copy)]
fn copy_alts(alloc: Global, alts: &[Alt]) -> Result<Vec<Alt>, Memory>
    ensures { IfOk result (λ copy. map plain_alt copy.items ≡ map plain_alt alts.now) }
{
    let mut copies = Vec::new(alloc);
    for alt in alts {
        put(&mut copies, alt.copy(alloc))?;
    }
    Ok(copies)
}

#[cycle(copy)]
fn copy_arms(alloc: Global, arms: &[Arm]) -> Result<Vec<Arm>, Memory>
    ensures { IfOk result (λ copy. map plain_arm copy.items ≡ map plain_arm arms.now) }
{
    let mut copies = Vec::new(alloc);
    for arm in arms {
        put(&mut copies, arm.copy(alloc))?;
    }
    Ok(copies)
}

#[cycle(copy)]
fn copy_case_arms(alloc: Global, arms: &[CaseArm]) -> Result<Vec<CaseArm>, Memory>
    ensures { IfOk result (λ copy. map plain_case_arm copy.items ≡ map plain_case_arm arms.now) }
{
    let mut copies = Vec::new(alloc);
    for arm in arms {
        put(&mut copies, arm.copy(alloc))?;
    }
    Ok(copies)
}

#[cycle(copy)]
fn copy_handlers(alloc: Global, handlers: &[Handler]) -> Result<Vec<Handler>, Memory>
    ensures { IfOk result (λ copy. map plain_handler copy.items ≡ map plain_handler handlers.now) }
{
    let mut copies = Vec::new(alloc);
    for handler in handlers {
        put(&mut copies, handler.copy(alloc))?;
    }
    Ok(copies)
}
