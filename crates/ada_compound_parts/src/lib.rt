//! What stands in compound statements besides the statements in them (ANSI/MIL-STD-1815A 5.3 to 5.6, 9.5, 9.7, 11.2):
//! choices, and how each of them ends once its statements are read.
#![tactic(auto)]

mod accepts;
mod choices;
mod compound_ends;
mod compound_heads;
mod handlers;
mod spans;
mod waits;

pub use accepts::read_end_of;
pub use choices::read_choices;
pub use compound_ends::{block_end, case_end, if_end, loop_end};
pub use compound_heads::{begins_loop, begins_stmt, loop_scheme, read_guard, terminate_kind};
pub use handlers::add_others;
pub use spans::last_span;
pub use waits::{end_select, first_of_alt, or_delay, selected, selected_call, wait_end};
