//! What a task of a replay text says to the controller and tests of its permits, and what stands in the place of its calls and accept statements.
#![tactic(auto, using(ada_tree::proofs::Rows::rows))]

mod calling;
pub mod making;
pub mod names;
mod saying;
mod serving;
mod speaker;
mod testing;

pub use calling::{conditional_image, double_word, plain_image, task_called, timed_image};
pub use saying::{ask, ask_only, ask_which, done, word};
pub use serving::{accept_image, is_served, serve, whatever};
pub use speaker::{Speaker, Tables};
pub use testing::{both_of, is_at, is_for, is_kind};
