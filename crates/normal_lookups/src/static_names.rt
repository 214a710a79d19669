// Which expressions are static.

ghost use Rattle.std.specs.Prelude.{◌≡◌, ◌==◌, ◌||◌, ℕ, IfOk, OnOk, is_some};
ghost use Rattle.std.specs.List.{list_any};
ghost use Rattle.ada_tree.specs.TypeTable.{TypeTable};
ghost use Rattle.ada_static_rules.specs.StaticValue.{is_static, literal_position, position_in, value_named};
ghost use Rattle.ada_tree.specs.PlainExpr.{plain_expr};
ghost use Rattle.scoped_names.specs.Meaning.{meaning_in};
ghost use Rattle.normal_lookups.specs.inner.Kept.{AreStatic};

use ada_scopes::values::static_values::{is_bound_word, is_static_word};
use ada_tree::{Constant, Expr, ExprKind, Kind, Memory, NameId, Types};
use scoped_names::ScopedNames;
use std::alloc::Global;
use task_links::TypeNames;

// The names of constants are static.
fn know_constants(known: &mut ScopedNames<bool>, constants: &[Constant]) -> Result<(), Memory>
    ensures { OnOk result ((q : ℕ) → is_some (meaning_in known.new q) ≡ (is_some (meaning_in known.old q) || list_any (λ c. c.name.0 == q) constants.now)) }
{
    for constant in constants {
        known.declare(constant.name.0, true)?;
    }
    Ok(())
}

// The names of literals are static.
fn know_literals(known: &mut ScopedNames<bool>, names: &[NameId]) -> Result<(), Memory>
    ensures { OnOk result ((q : ℕ) → is_some (meaning_in known.new q) ≡ (is_some (meaning_in known.old q) || list_any (λ n. n.0 == q) names.now)) }
{
    for name in names {
        known.declare(name.0, true)?;
    }
    Ok(())
}

// The literals of a kind are static, where it is an enumeration.
fn know_kind(known: &mut ScopedNames<bool>, kind: &Kind) -> Result<(), Memory>
    ensures { OnOk result ((id : NameId) → is_some (meaning_in known.new id.0) ≡ (is_some (meaning_in known.old id.0) || is_some (position_in id kind.now))) }
{
    match kind {
        Kind::Enumeration { literals } => know_literals(known, literals.as_slice()),
        _ => Ok(()),
    }
}

// The literals of all kinds are static.
fn know_kinds(known: &mut ScopedNames<bool>, kinds: &[Kind]) -> Result<(), Memory>
    ensures { OnOk result ((id : NameId) → is_some (meaning_in known.new id.0) ≡ (is_some (meaning_in known.old id.0) || is_some (literal_position kinds.now id))) }
{
    for kind in kinds {
        know_kind(known, kind)?;
    }
    Ok(())
}

/// The names of the named numbers, constants and literals of a table.
pub(crate) fn static_names(alloc: Global, types: &Types) -> Result<ScopedNames<bool>, Memory>
    ensures { IfOk result (λ known. AreStatic types.now known) }
{
    let mut known = ScopedNames::new(alloc);
    know_constants(&mut known, &types.constants)?;
    know_kinds(&mut known, &types.kinds)?;
    Ok(known)
}

// A name that is static.
#[tactic(auto, using(crate::proofs::Statics::static_name))]
fn is_static_name(known: &ScopedNames<bool>, id: NameId) -> bool
    ensures { (types : TypeTable) → AreStatic types known.now → result ≡ is_some (value_named types id) }
{
    id == NameId::FALSE || id == NameId::TRUE || known.meaning(id.0).is_some()
}

/// Whether an expression is static: built of literals, named numbers and scalar constants of the main procedure, operators, and attributes of static parts (4.9).
pub(crate) fn is_static(e: &Expr, names: &TypeNames, known: &ScopedNames<bool>) -> bool
    ensures { AreStatic names.now known.now → result ≡ is_static names.now (plain_expr e.now) }
{
    match &e.kind {
        ExprKind::Integer(_) => true,
        ExprKind::Name(id) => is_static_name(known, *id),
        ExprKind::Index { .. } => false,
        ExprKind::Attribute { mark, word, arg } => match arg {
            None => is_bound_word(word.name) && names.mark_named(mark.name).is_some(),
            Some(part) => {
                is_static_word(word.name)
                    && names.mark_named(mark.name).is_some()
                    && is_static(part, names, known)
            }
        },
        ExprKind::Paren(part) => is_static(part, names, known),
        ExprKind::Unary { part, .. } => is_static(part, names, known),
        ExprKind::Binary { left, right, .. } => {
            is_static(left, names, known) && is_static(right, names, known)
        }
    }
}
