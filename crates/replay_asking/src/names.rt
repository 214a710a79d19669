//! The names that a replay text has beside those of the normal form: they are interned, and their ids are looked up once.
#![tactic(auto)]

mod added_names;
mod adding;
mod doubles;
mod finding;

pub use added_names::{AddedNames, find_added};
pub use adding::add_names;
pub use doubles::{find_double, find_doubles};
pub use finding::find;
