//! What stands in the place of a selective wait of a replay text: one branch for each alternative, and one for the else part.
#![tactic(auto, using(ada_tree::proofs::Rows::rows))]

mod branching;
mod guarding;
mod pausing;
mod seen_pause;

pub use branching::wait_image;
pub use seen_pause::SeenPause;
