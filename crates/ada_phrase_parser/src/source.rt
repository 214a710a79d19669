//! What the items of a text do not say themselves.

use ada_tree::Names;

/// The bytes of a text, in which its strings stand, and its names.
#[derive(Drop)]
pub struct Source<'a> {
    pub bytes: &'a [u8],
    pub names: &'a Names,
}
