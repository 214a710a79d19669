//! Plays the cases of its standard input, and writes them with their answers in their places. It compares nothing.
#![tactic(auto)]

mod calling;
mod playing;

use playing::transcript;
use std::io::{self, Write};
use std::process::ExitCode;

fn main(rt: HostRuntime) -> ExitCode {
    match play(&rt) {
        Ok(()) => ExitCode::SUCCESS,
        Err(_) => {
            let _ = eprintln!(rt; "ded_cases: no memory, or the streams failed");
            ExitCode::FAILURE
        }
    }
}

// Reads the cases, and writes the transcript.
fn play(rt: &HostRuntime) -> io::Result<()> {
    let cases = io::read_to_string(rt.alloc(), rt.stdin())?;
    match transcript(rt.alloc(), cases.as_str()) {
        Ok(text) => rt.stdout().write_all(text.as_bytes()),
        Err(_) => Err(io::Error::from(io::ErrorKind::OutOfMemory)),
    }
}
