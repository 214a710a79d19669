// The parts of a PUT.

ghost use Rattle.std.specs.Prelude.{◌≡◌, ◌++◌, length, map, option_map, take, IfNone, IfOk, OnOk, OnErr};
ghost use Rattle.ada_tree.specs.PlainExpr.{plain_expr};
ghost use Rattle.ada_tree.specs.PlainStmt.{plain_part};
ghost use Rattle.ada_value.specs.Texts.{expr_output, part_output, parts_output};
ghost use Rattle.ada_value.specs.put_text.Written.{image_part, exception_of, text_or_none, written_with};

use crate::put_text::images::{add, add_image, add_integer};
use crate::{NameValues, Raised, evaluate, position_of};
use ada_tree::{Expr, ExprKind, Memory, NameId, Names, Part};

// The argument of an 'IMAGE, if an expression is one.
fn image_part(e: &Expr) -> Option<&Expr>
    ensures { option_map (λ x. plain_expr x.now) result ≡ image_part (plain_expr e.now) }
{
    match &e.kind {
        ExprKind::Attribute { word, arg, .. } => match arg {
            Some(part) => {
                if word.name == NameId::IMAGE {
                    Some(part)
                } else {
                    None
                }
            }
            None => None,
        },
        ExprKind::Integer(_) => None,
        ExprKind::Name(_) => None,
        ExprKind::Index { .. } => None,
        ExprKind::Paren(_) => None,
        ExprKind::Unary { .. } => None,
        ExprKind::Binary { .. } => None,
    }
}

// Writes the text of an expression as a part, or answers the exception that its evaluation raises.
fn put_expr<N: NameValues>(
    names: &Names,
    scope: &N,
    e: &Expr,
    output: &mut Vec<u8>,
) -> Result<Option<Raised>, Memory>
    ensures raised { IfOk result (λ raised. raised ≡ exception_of (expr_output names.now (N.table scope.now) (N.vars scope.now) (plain_expr e.now))) }
    ensures ok { OnOk result (output.new.items ≡ output.old.items ++ text_or_none (expr_output names.now (N.table scope.now) (N.vars scope.now) (plain_expr e.now))) }
    ensures err { OnErr result (output.new.items ≡ output.old.items) }
{
    match image_part(e) {
        Some(part) => match evaluate(part, scope) {
            Ok(value) => {
                add_image(names, scope.types(), value, output)?;
                Ok(None)
            }
            Err(raised) => Ok(Some(raised)),
        },
        None => match evaluate(e, scope) {
            Ok(value) => {
                add_integer(output, position_of(value))?;
                Ok(None)
            }
            Err(raised) => Ok(Some(raised)),
        },
    }
}

// Writes the text of a part, or answers the exception that its evaluation raises.
fn put_part<N: NameValues>(
    names: &Names,
    scope: &N,
    part: &Part,
    output: &mut Vec<u8>,
) -> Result<Option<Raised>, Memory>
    ensures raised { IfOk result (λ raised. raised ≡ exception_of (part_output names.now (N.table scope.now) (N.vars scope.now) (plain_part part.now))) }
    ensures ok { OnOk result (output.new.items ≡ output.old.items ++ text_or_none (part_output names.now (N.table scope.now) (N.vars scope.now) (plain_part part.now))) }
    ensures err { OnErr result (output.new.items ≡ output.old.items) }
{
    match part {
        Part::Words { text, .. } => {
            add(output, text.as_bytes())?;
            Ok(None)
        }
        Part::Value(e) => put_expr(names, scope, e, output),
    }
}

// Writes the texts of parts in their order, until one raises an exception.
fn put_all<N: NameValues>(
    names: &Names,
    scope: &N,
    parts: &[Part],
    output: &mut Vec<u8>,
) -> Result<Option<Raised>, Memory>
    ensures raised { IfOk result (λ raised. raised ≡ exception_of (parts_output names.now (N.table scope.now) (N.vars scope.now) (map plain_part parts.now))) }
    ensures ok { IfOk result (λ raised. IfNone raised (output.new.items ≡ output.old.items ++ text_or_none (parts_output names.now (N.table scope.now) (N.vars scope.now) (map plain_part parts.now)))) }
    ensures grows { take (length output.old.items) output.new.items ≡ output.old.items }
{
    for part in parts {
        match put_part(names, scope, part, output)? {
            Some(raised) => return Ok(Some(raised)),
            None => {}
        }
    }
    Ok(None)
}

/// Writes the text of the parts of a PUT and then a closing, behind what stands in the output. All parts are evaluated, in order, before
/// any text counts as written: where one raises an exception it is the answer, and nothing is written (14.3; this project's rule). It fails by
/// want of memory alone, and then nothing is written either.
pub fn put_parts<N: NameValues>(
    names: &Names,
    scope: &N,
    parts: &[Part],
    closing: &[u8],
    output: &mut Vec<u8>,
) -> Result<Option<Raised>, Memory>
    ensures raised { IfOk result (λ raised. raised ≡ exception_of (parts_output names.now (N.table scope.now) (N.vars scope.now) (map plain_part parts.now))) }
    ensures ok { OnOk result (output.new.items ≡ output.old.items ++ written_with closing.now (parts_output names.now (N.table scope.now) (N.vars scope.now) (map plain_part parts.now))) }
    ensures err { OnErr result (output.new.items ≡ output.old.items) }
{
    let start = output.len();
    match put_all(names, scope, parts, output) {
        Ok(None) => match add(output, closing) {
            Ok(()) => Ok(None),
            Err(_) => {
                output.truncate(start);
                Err(Memory)
            }
        },
        Ok(Some(raised)) => {
            output.truncate(start);
            Ok(Some(raised))
        }
        Err(_) => {
            output.truncate(start);
            Err(Memory)
        }
    }
}
