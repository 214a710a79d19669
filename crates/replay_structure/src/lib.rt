//! What a replay text has in common with the normal form that it is made from, part by part; and that the replay text of a legal program is legal (`legal`).
#![tactic(auto)]

pub mod asked;
pub mod bodies;
pub mod checkable;
pub mod checked;
pub mod declares_once;
pub mod legal;
pub mod placed;
pub mod scopes;
pub mod spots;
pub mod texts;
pub mod typed;
