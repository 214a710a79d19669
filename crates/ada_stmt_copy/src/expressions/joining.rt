// Parts that are handed on as results. What builds a whole takes its parts so, and joins them in one step: no part of a tree is owned where another may still be missing.

ghost use Rattle.std.specs.Prelude.{◌≡◌, ◌++◌, ◌∷◌, [], Some, IfOk};
ghost use Rattle.ada_stmt_copy.specs.expressions.Parts.{OkWith};

use ada_tree::Memory;
use std::alloc::Global;

/// Two parts, or want of memory where one of them is missing.
pub fn both<A: Drop, B: Drop>(
    first: Result<A, Memory>,
    second: Result<B, Memory>,
) -> Result<(A, B), Memory>
    ensures { IfOk result (λ made. OkWith first (λ a. OkWith second (λ b. made ≡ (a, b)))) }
{
    match first {
        Ok(a) => match second {
            Ok(b) => Ok((a, b)),
            Err(e) => Err(e),
        },
        Err(e) => Err(e),
    }
}

/// Three parts, or want of memory where one of them is missing.
pub fn all<A: Drop, B: Drop, C: Drop>(
    first: Result<A, Memory>,
    second: Result<B, Memory>,
    third: Result<C, Memory>,
) -> Result<(A, B, C), Memory>
    ensures { IfOk result (λ made. OkWith first (λ a. OkWith second (λ b. OkWith third (λ c. made ≡ (a, b, c))))) }
{
    match both(first, both(second, third)) {
        Ok((a, (b, c))) => Ok((a, b, c)),
        Err(e) => Err(e),
    }
}

/// A part in a box of its own.
pub fn boxed<A: Drop>(alloc: Global, part: Result<A, Memory>) -> Result<Box<A>, Memory>
    ensures { IfOk result (λ made. OkWith part (λ a. made.value ≡ a)) }
{
    match part {
        Ok(a) => Ok(Box::new(alloc, a)?),
        Err(e) => Err(e),
    }
}

/// A part behind the others of a list.
pub fn put<A: Drop>(list: &mut Vec<A>, part: Result<A, Memory>) -> Result<(), Memory>
    ensures { IfOk result (λ _. OkWith part (λ a. list.new.items ≡ list.old.items ++ a ∷ [])) }
{
    match part {
        Ok(a) => Ok(list.push(a)?),
        Err(e) => Err(e),
    }
}

/// A part that may be left out, and is there.
pub fn there<A: Drop>(part: Result<A, Memory>) -> Result<Option<A>, Memory>
    ensures { IfOk result (λ made. OkWith part (λ a. made ≡ Some a)) }
{
    match part {
        Ok(a) => Ok(Some(a)),
        Err(e) => Err(e),
    }
}
