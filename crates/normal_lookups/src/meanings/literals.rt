// The literals of the indices of members.

ghost use Rattle.std.specs.Prelude.{◌≡◌, Some, option_map, slice_get, unsigned_abs, unwrap_or};
ghost use Rattle.ada_tree.specs.declared.naming.Span.{Span};
ghost use Rattle.normal_model.specs.Members.{index_literal, literal_in};
ghost use Rattle.normal_lookups.specs.pieces.Seen.{literal_seen};

use crate::pieces::Literal;
use ada_tree::{Kind, NameId};

// The literal of an enumeration at a position.
fn literal_at(names: &[NameId], position: i32) -> NameId
    ensures { result ≡ unwrap_or (slice_get names.now (unsigned_abs position)) (record { 0 = 0 }) }
{
    match names.get(position.unsigned_abs() as usize) {
        Some(name) => *name,
        None => NameId(0),
    }
}

// The literal of a kind at a position.
fn literal_in(kind: Option<&Kind>, position: i32) -> Literal
    ensures { (s : Span) → literal_seen s result ≡ literal_in (option_map (λ k. k.now) kind.entry) s position }
{
    match kind {
        Some(Kind::Truth) => {
            if position == 0 {
                Literal::Name(NameId::FALSE)
            } else {
                Literal::Name(NameId::TRUE)
            }
        }
        Some(Kind::Enumeration { literals }) => {
            Literal::Name(literal_at(literals.as_slice(), position))
        }
        _ => Literal::Number(position),
    }
}

/// The literal of a member's index, of the kind of the array's range.
pub(crate) fn index_literal(kind: Option<&Kind>, index: Option<i32>) -> Literal
    ensures { (s : Span) → literal_seen s result ≡ index_literal (option_map (λ k. k.now) kind.entry) s index }
{
    match index {
        Some(position) => literal_in(kind, position),
        None => Literal::Number(0),
    }
}
