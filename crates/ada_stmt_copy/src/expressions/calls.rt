// Copies of what statements are built of beside statements: calls, parameters, parts of what PUT writes, choices and schemes of loops.

ghost use Rattle.std.specs.Prelude.{◌≡◌, IfOk, map, option_map};
ghost use Rattle.ada_tree.specs.PlainExpr.{plain_expr, plain_drange};
ghost use Rattle.ada_tree.specs.PlainStmt.{plain_target, plain_callee, plain_call, plain_args, plain_formal, plain_part, plain_choice, plain_scheme, PValue, LWhile, LFor};
ghost use Rattle.ada_stmt_copy.specs.expressions.Parts.{OkWith};

use crate::expressions::ExprCopy;
use crate::expressions::expressions::{copy_exprs, copy_option, copy_words};
use crate::expressions::joining::{both, put, there};
use ada_tree::{
    Args, Call, Callee, CaseChoice, Drange, Expr, Formal, Memory, Part, Scheme, Target, Word,
};
use std::alloc::Global;

impl ExprCopy for Target {
    /// A copy with the same ids and places.
    fn copy(&self, alloc: Global) -> Result<Target, Memory>
        ensures { IfOk result (λ copy. plain_target copy ≡ plain_target self.now) }
    {
        let index = copy_option(alloc, &self.index)?;
        Ok(Target {
            name: self.name,
            index,
        })
    }
}

impl ExprCopy for Callee {
    /// A copy with the same ids and places.
    fn copy(&self, alloc: Global) -> Result<Callee, Memory>
        ensures { IfOk result (λ copy. plain_callee copy ≡ plain_callee self.now) }
    {
        let index = copy_option(alloc, &self.index)?;
        Ok(Callee {
            name: self.name,
            index,
        })
    }
}

impl ExprCopy for Args {
    /// A copy with the same ids and places.
    fn copy(&self, alloc: Global) -> Result<Args, Memory>
        ensures { IfOk result (λ copy. plain_args copy ≡ plain_args self.now) }
    {
        match both(copy_exprs(alloc, &self.first), copy_second(alloc, self)) {
            Ok((first, second)) => Ok(Args { first, second }),
            Err(e) => Err(e),
        }
    }
}

// A copy of the second of two lists.
fn copy_second(alloc: Global, args: &Args) -> Result<Option<Vec<Expr>>, Memory>
    ensures { IfOk result (λ copy. option_map (λ v. map plain_expr v.items) copy ≡ option_map (λ v. map plain_expr v.items) args.now.second) }
{
    match &args.second {
        Some(second) => there(copy_exprs(alloc, second)),
        None => Ok(None),
    }
}

impl ExprCopy for Call {
    /// A copy with the same ids and places.
    fn copy(&self, alloc: Global) -> Result<Call, Memory>
        ensures { IfOk result (λ copy. plain_call copy ≡ plain_call self.now) }
    {
        match both(self.task.copy(alloc), copy_args(alloc, &self.args)) {
            Ok((task, args)) => Ok(Call {
                task,
                entry: self.entry,
                args,
            }),
            Err(e) => Err(e),
        }
    }
}

// A copy of a call's lists, which may be left out.
fn copy_args(alloc: Global, args: &Option<Args>) -> Result<Option<Args>, Memory>
    ensures { IfOk result (λ copy. option_map plain_args copy ≡ option_map plain_args args.now) }
{
    match args {
        Some(args) => there(args.copy(alloc)),
        None => Ok(None),
    }
}

impl ExprCopy for Formal {
    /// A copy with the same ids and places.
    fn copy(&self, alloc: Global) -> Result<Formal, Memory>
        ensures { IfOk result (λ copy. plain_formal copy ≡ plain_formal self.now) }
    {
        let names = copy_words(alloc, &self.names)?;
        Ok(Formal {
            names,
            mode: self.mode,
            mark: self.mark,
        })
    }
}

impl ExprCopy for Part {
    /// A copy with the same ids and places.
    fn copy(&self, alloc: Global) -> Result<Part, Memory>
        ensures { IfOk result (λ copy. plain_part copy ≡ plain_part self.now) }
    {
        match self {
            Part::Words { text, span } => {
                let text = String::from_str(alloc, text.as_str())?;
                Ok(Part::Words { text, span: *span })
            }
            Part::Value(expr) => value_of(expr.copy(alloc)),
        }
    }
}

fn value_of(expr: Result<Expr, Memory>) -> Result<Part, Memory>
    ensures { IfOk result (λ made. OkWith expr (λ e. plain_part made ≡ PValue (plain_expr e))) }
{
    match expr {
        Ok(expr) => Ok(Part::Value(expr)),
        Err(e) => Err(e),
    }
}

impl ExprCopy for CaseChoice {
    /// A copy with the same ids and places.
    fn copy(&self, alloc: Global) -> Result<CaseChoice, Memory>
        ensures { IfOk result (λ copy. plain_choice copy ≡ plain_choice self.now) }
    {
        match both(self.first.copy(alloc), copy_option(alloc, &self.last)) {
            Ok((first, last)) => Ok(CaseChoice { first, last }),
            Err(e) => Err(e),
        }
    }
}

impl ExprCopy for Scheme {
    /// A copy with the same ids and places.
    fn copy(&self, alloc: Global) -> Result<Scheme, Memory>
        ensures { IfOk result (λ copy. plain_scheme copy ≡ plain_scheme self.now) }
    {
        match self {
            Scheme::While(test) => while_of(test.copy(alloc)),
            Scheme::For {
                name,
                reverse,
                range,
            } => for_of(*name, *reverse, range.copy(alloc)),
        }
    }
}

fn while_of(test: Result<Expr, Memory>) -> Result<Scheme, Memory>
    ensures { IfOk result (λ made. OkWith test (λ e. plain_scheme made ≡ LWhile (plain_expr e))) }
{
    match test {
        Ok(test) => Ok(Scheme::While(test)),
        Err(e) => Err(e),
    }
}

fn for_of(name: Word, reverse: bool, range: Result<Drange, Memory>) -> Result<Scheme, Memory>
    ensures { IfOk result (λ made. OkWith range (λ r. plain_scheme made ≡ LFor name reverse (plain_drange r))) }
{
    match range {
        Ok(range) => Ok(Scheme::For {
            name,
            reverse,
            range,
        }),
        Err(e) => Err(e),
    }
}

/// A copy of a loop's scheme, which may be left out.
pub fn copy_scheme(alloc: Global, scheme: &Option<Scheme>) -> Result<Option<Scheme>, Memory>
    ensures { IfOk result (λ copy. option_map plain_scheme copy ≡ option_map plain_scheme scheme.now) }
{
    match scheme {
        Some(scheme) => there(scheme.copy(alloc)),
        None => Ok(None),
    }
}

/// A copy of a list of tasks.
pub fn copy_callees(alloc: Global, callees: &[Callee]) -> Result<Vec<Callee>, Memory>
    ensures { IfOk result (λ copy. map plain_callee copy.items ≡ map plain_callee callees.now) }
{
    let mut copies = Vec::new(alloc);
    for callee in callees {
        put(&mut copies, callee.copy(alloc))?;
    }
    Ok(copies)
}

/// A copy of a list of parameters.
pub fn copy_formals(alloc: Global, formals: &[Formal]) -> Result<Vec<Formal>, Memory>
    ensures { IfOk result (λ copy. map plain_formal copy.items ≡ map plain_formal formals.now) }
{
    let mut copies = Vec::new(alloc);
    for formal in formals {
        put(&mut copies, formal.copy(alloc))?;
    }
    Ok(copies)
}

/// A copy of a list of parts of what PUT writes.
pub fn copy_parts(alloc: Global, parts: &[Part]) -> Result<Vec<Part>, Memory>
    ensures { IfOk result (λ copy. map plain_part copy.items ≡ map plain_part parts.now) }
{
    let mut copies = Vec::new(alloc);
    for part in parts {
        put(&mut copies, part.copy(alloc))?;
    }
    Ok(copies)
}

/// A copy of a list of choices.
pub fn copy_choices(alloc: Global, choices: &[CaseChoice]) -> Result<Vec<CaseChoice>, Memory>
    ensures { IfOk result (λ copy. map plain_choice copy.items ≡ map plain_choice choices.now) }
{
    let mut copies = Vec::new(alloc);
    for choice in choices {
        put(&mut copies, choice.copy(alloc))?;
    }
    Ok(copies)
}
