//! What the names of a program and of its normal form mean, for what puts statements in their places.

mod array_members;
mod literals;
mod meanings;

pub use array_members::{Members, members_of};
pub use meanings::NormalMeanings;
