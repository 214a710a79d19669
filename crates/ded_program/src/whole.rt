//! The whole program over the operating system.

ghost use Rattle.ded_program.specs.Whole.{IsWholeAnswer};

use crate::real::{RealFiles, StdSink, real_words};
use debug_core::debug_program;
use std::alloc::AllocGlobal;
use std::io::Write;
use std::rt::{Env, Files};

/// All that the program does: takes its words and its files from `system`, writes to `out` and `err`, and answers the status with which it ends. No
/// reading and no write has failed before.
pub fn run_program<R: Env + Files + AllocGlobal, O: Write + Drop, E: Write + Drop>(
    system: &R,
    out: O,
    err: E,
) -> u8
    ensures { IsWholeAnswer result }
{
    let mut files = RealFiles::new(system);
    let mut out = StdSink::new(out);
    let mut err = StdSink::new(err);
    let words = real_words(system);
    debug_program(system.alloc(), words, &mut files, &mut out, &mut err)
}
