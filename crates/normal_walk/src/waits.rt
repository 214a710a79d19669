//! What stands in the place of accept statements and selective waits in the normal form, and the normal form of one statement of any form.
#![tactic(auto, using(ada_tree::proofs::Rows::rows, normal_lookups::proofs::pieces::Fronts::fronts))]

mod accepts;
mod alternatives;
mod closing;
mod images;

pub use alternatives::{leave_alternative, push_alternative_before};
pub use images::put_image;
