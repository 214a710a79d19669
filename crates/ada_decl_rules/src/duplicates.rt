//! What an Ada program declares or names again though it may not.

pub mod named_so_far;
mod namings_in_order;
mod repeats;
