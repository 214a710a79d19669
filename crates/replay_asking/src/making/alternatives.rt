// Lists of conditions with their statements, and of alternatives.

ghost use Rattle.std.specs.Prelude.{◌≡◌, ◌∷◌, ◌++◌, IfOk};
ghost use Rattle.ada_stmt_copy.specs.expressions.Parts.{OkWith};

use crate::making::statement_lists::{front, join};
use ada_tree::{Alt, Arm, Memory};
use std::alloc::Global;

/// A condition with its statements, in front of others.
pub fn arms_before(
    alloc: Global,
    part: Result<Arm, Memory>,
    rest: Result<Vec<Arm>, Memory>,
) -> Result<Vec<Arm>, Memory>
    ensures { IfOk result (λ made. OkWith part (λ x. OkWith rest (λ r. made.items ≡ x ∷ r.items))) }
{
    front(alloc, part, rest)
}

/// Conditions with their statements, in front of others.
pub fn arms_joined(
    first: Result<Vec<Arm>, Memory>,
    more: Result<Vec<Arm>, Memory>,
) -> Result<Vec<Arm>, Memory>
    ensures { IfOk result (λ made. OkWith first (λ a. OkWith more (λ b. made.items ≡ a.items ++ b.items))) }
{
    join(first, more)
}

/// An alternative in front of others.
pub fn alts_before(
    alloc: Global,
    part: Result<Alt, Memory>,
    rest: Result<Vec<Alt>, Memory>,
) -> Result<Vec<Alt>, Memory>
    ensures { IfOk result (λ made. OkWith part (λ x. OkWith rest (λ r. made.items ≡ x ∷ r.items))) }
{
    front(alloc, part, rest)
}
