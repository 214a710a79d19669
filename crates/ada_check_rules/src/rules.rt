//! What the static rules on tasks, statements and limits ask of names and numbers, and which of several refusals comes first.

mod amounts;
mod asking_by_mode;
mod counting;
mod refusals;

pub use amounts::{plus, product};
pub use asking_by_mode::Standard;
pub use counting::{Counted, count_on, refuse_formals};
pub use refusals::{Refusal, Rule, first, refuse_if};
