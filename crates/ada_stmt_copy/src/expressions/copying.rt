// The call of these copies.

use ada_tree::Memory;
use std::alloc::Global;

/// Trees without statements that are copied. Each type says of its copy that it is the same tree in the plain mirror, so with the same ids and places; it fails by want of memory alone.
pub trait ExprCopy: Sized {
    /// A copy with the same ids and places.
    fn copy(&self, alloc: Global) -> Result<Self, Memory>;
}
