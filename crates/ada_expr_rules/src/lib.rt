//! The static rules at expressions and ranges of Ada.
#![tactic(auto)]

pub mod judging;
pub mod kinds;
pub mod known;
pub mod marks;
pub mod nodes;
pub mod ranges;
pub mod walking;
