// The run of a program under the choices that are given.

ghost use Rattle.debug_outcome.specs.files.Giving.{AreShortChoices, given_as};
ghost use Rattle.debug_outcome.specs.Coming.{Comes};
ghost use Rattle.debug_run.specs.RunOutcomes.{IsRunOf};
ghost use Rattle.debug_core.specs.ChosenRuns.{RunsUnder, IsRunBy};
ghost use Rattle.debug_core.specs.inner.Started.{choosing_of, setup_of};

use crate::choosing::{Choosing, choosing_of};
use crate::starting::Start;
use debug_outcome::Stop;
use debug_outcome::files::ChoiceBytes;
use debug_run::write_run;
use ded_io::{Chooser, ListChooser, SeedChooser, Sink};
use std::alloc::Global;

// Runs a program under the choices that are given, and writes the text of its run.
pub(crate) fn run_under<'w, O: Sink>(
    alloc: Global,
    start: &Start,
    choices: &ChoiceBytes,
    turns: u64,
    out: &mut O,
) -> Result<u8, Stop<'w>>
    requires { AreShortChoices choices.now }
    ensures { Comes (RunsUnder (setup_of start.now) start.now.legal.numbers (given_as choices.now) turns) (RunsUnder (setup_of start.now) start.now.legal.numbers (given_as choices.now) turns) (O.told out.old) (O.told out.new) (O.faults out.old) (O.faults out.new) result }
{
    match choosing_of(alloc, choices) {
        Ok(choosing) => run_chosen(alloc, start, choosing, turns, out),
        Err(stop) => Err(stop),
    }
}

// Runs a program as the choices pick that are made so.
fn run_chosen<'w, O: Sink>(
    alloc: Global,
    start: &Start,
    choosing: Choosing,
    turns: u64,
    out: &mut O,
) -> Result<u8, Stop<'w>>
    ensures { Comes (IsRunBy (setup_of start.now) start.now.legal.numbers turns (choosing_of choosing)) (IsRunBy (setup_of start.now) start.now.legal.numbers turns (choosing_of choosing)) (O.told out.old) (O.told out.new) (O.faults out.old) (O.faults out.new) result }
{
    match choosing {
        Choosing::FromList(choices) => {
            run_by(alloc, start, &mut ListChooser::new(choices), turns, out)
        }
        Choosing::FromSeed(seed) => run_by(alloc, start, &mut SeedChooser::new(seed), turns, out),
    }
}

// Runs a program under the picks of a chooser.
fn run_by<'w, C: Chooser, O: Sink>(
    alloc: Global,
    start: &Start,
    choices: &mut C,
    turns: u64,
    out: &mut O,
) -> Result<u8, Stop<'w>>
    ensures { Comes (IsRunOf C.word C.next (setup_of start.now) start.now.legal.numbers choices.old turns) (IsRunOf C.word C.next (setup_of start.now) start.now.legal.numbers choices.old turns) (O.told out.old) (O.told out.new) (O.faults out.old) (O.faults out.new) result }
{
    write_run(
        alloc,
        &start.legal.program,
        &start.legal.types,
        &start.legal.numbers,
        &start.inputs,
        choices,
        turns,
        out,
    )
}
