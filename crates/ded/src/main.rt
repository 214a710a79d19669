//! The program `ded`.
#![tactic(auto)]

use ded_program::run_program;
use std::process::ExitCode;

fn main(rt: HostRuntime) -> ExitCode {
    ExitCode::from(run_program(&rt, rt.stdout(), rt.stderr()))
}
