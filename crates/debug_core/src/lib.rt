//! The program's one call, and the commands that it has.
#![tactic(auto)]

mod check_command;
mod choosing;
mod chosen_events;
mod chosen_runs;
mod collect_command;
mod collect_run_command;
mod continue_command;
mod judge_command;
mod laws;
mod migrate_command;
mod print_command;
mod reading;
mod replay_command;
mod require_command;
mod rule_fault;
mod run_command;
mod starting;
mod text_fault;
mod top;
mod variants_command;

pub use debug_judge::{LinesError, LinesVerdict, judge_lines};
pub use laws::{collected, headline, one_answer};
pub use top::{debug_main, debug_program};
