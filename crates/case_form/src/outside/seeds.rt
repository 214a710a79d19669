//! Choices by a seeded generator.

ghost use Rattle.std.specs.Prelude.{◌<◌};

use crate::Question;
use ded_io::{Chooser, SeedChooser};
use std::alloc::AllocError;

// How many picks are written.
const PICKS: u32 = 10;

/// `seed SEED`: the first picks of the chooser of that seed, each from so many places as the question says.
pub fn seeded(seed: &str, question: &Question<'_>, out: &mut String) -> Result<(), AllocError> {
    question.ask(out)?;
    match (seed.parse::<u64>(), question.written().parse::<u32>()) {
        (Ok(seed), Ok(count)) if count > 0 => put_picks(SeedChooser::new(seed), count, out),
        _ => out.push_str("no seed, or no places"),
    }
}

fn put_picks(mut chooser: SeedChooser, count: u32, out: &mut String) -> Result<(), AllocError>
    requires { 0 < count }
{
    for place in 0..PICKS {
        if place > 0 {
            out.push(' ')?;
        }
        let pick = chooser.pick(count);
        write!(out, "{pick}")?;
    }
    Ok(())
}
