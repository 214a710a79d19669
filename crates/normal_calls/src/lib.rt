//! What stands in the place of entry calls and abort statements in the normal form.
#![tactic(auto, using(ada_tree::proofs::Rows::rows, normal_lookups::proofs::pieces::Fronts::fronts))]

mod aborts;
mod actuals;
mod call_forms;
mod called;
mod calls;
mod member_branches;
mod numbers;
mod passed;
mod selects;

pub use aborts::push_aborts;
pub use calls::push_call;
pub use selects::{push_conditional, push_timed};
