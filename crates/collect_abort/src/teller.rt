// What a unit is told: what it is told without aborts, and the names of places.

ghost use Rattle.std.specs.Prelude.{◌≡◌, IfOk, string_bytes};
ghost use Rattle.ada_tree.specs.PlainExpr.{plain_expr, EName};
ghost use Rattle.collect_model.specs.aborts.AbortTeller.{told_at};
ghost use Rattle.collect_model.specs.aborts.Names.{refused_text, taken_text};
ghost use Rattle.collect_abort.specs.Looked.{told_of};

use crate::finder::Finder;
use ada_tree::{Expr, Memory, NameId, Span};
use collect_statements::Reporter;
use itoa::Buffer;
use std::alloc::Global;
use tree_rewriting::making::name_expr;

/// A unit that is rewritten: what it is told without aborts, the ids of the recorder's further names, and the names of the text.
#[derive(Clone, Copy)]
pub(crate) struct AbortReporter<'a> {
    pub reporter: Reporter<'a>,
    pub acceptors: NameId,
    pub each: NameId,
    pub names: &'a Finder,
}

/// The same for the unit of another task.
pub(crate) fn reporter_at<'a>(x: &AbortReporter<'a>, task: u32) -> AbortReporter<'a>
    ensures { told_of result ≡ told_at (told_of x.now) task }
{
    AbortReporter {
        reporter: Reporter {
            tables: x.reporter.tables,
            numbers: x.reporter.numbers,
            task,
        },
        acceptors: x.acceptors,
        each: x.each,
        names: x.names,
    }
}

/// The text of the variable of a place that keeps the caller.
pub(crate) fn taken_text(alloc: Global, place: u32) -> Result<String, Memory>
    ensures { IfOk result (λ text. string_bytes text ≡ taken_text place) }
{
    let mut buffer = Buffer::new();
    let mut text = String::from_str(alloc, "DED_Q")?;
    text.push_str(buffer.format(place))?;
    Ok(text)
}

/// The text of the variable of a place that keeps whether the caller is refused.
pub(crate) fn refused_text(alloc: Global, place: u32) -> Result<String, Memory>
    ensures { IfOk result (λ text. string_bytes text ≡ refused_text place) }
{
    let mut buffer = Buffer::new();
    let mut text = String::from_str(alloc, "DED_R")?;
    text.push_str(buffer.format(place))?;
    Ok(text)
}

/// The variable of a place that keeps the caller.
pub(crate) fn taken(alloc: Global, x: &AbortReporter, place: u32) -> Result<NameId, Memory>
    ensures { IfOk result (λ id. id ≡ (told_of x.now).taken place) }
{
    let text = taken_text(alloc, place)?;
    Ok(x.names.find(text.as_str()))
}

/// The variable of a place that keeps whether the caller is refused.
pub(crate) fn refused(alloc: Global, x: &AbortReporter, place: u32) -> Result<NameId, Memory>
    ensures { IfOk result (λ id. id ≡ (told_of x.now).refused place) }
{
    let text = refused_text(alloc, place)?;
    Ok(x.names.find(text.as_str()))
}

/// The variable that keeps the caller, as an expression.
pub(crate) fn taken_expr(
    alloc: Global,
    x: &AbortReporter,
    place: u32,
    s: Span,
) -> Result<Expr, Memory>
    ensures { IfOk result (λ made. plain_expr made ≡ EName ((told_of x.now).taken place) s) }
{
    Ok(name_expr(taken(alloc, x, place)?, s))
}

/// The variable that keeps whether the caller is refused, as an expression.
pub(crate) fn refused_expr(
    alloc: Global,
    x: &AbortReporter,
    place: u32,
    s: Span,
) -> Result<Expr, Memory>
    ensures { IfOk result (λ made. plain_expr made ≡ EName ((told_of x.now).refused place) s) }
{
    Ok(name_expr(refused(alloc, x, place)?, s))
}
