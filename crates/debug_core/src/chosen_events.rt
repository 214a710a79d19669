// Going on from a sequence of events by the choices that are given.

ghost use Rattle.debug_outcome.specs.files.Giving.{AreShortChoices, IsShort, given_as};
ghost use Rattle.debug_outcome.specs.Coming.{Comes, Never};
ghost use Rattle.debug_variants.specs.ContinueOutcomes.{ContinueMeans};
ghost use Rattle.debug_core.specs.ChosenEvents.{GoesOnUnder, GoesOnBy};
ghost use Rattle.debug_core.specs.inner.Started.{IsOriginal, choosing_of, setup_of};

use crate::choosing::{Choosing, choosing_of};
use crate::starting::Start;
use debug_outcome::Stop;
use debug_outcome::files::ChoiceBytes;
use debug_variants::report_continued;
use ded_io::{Chooser, ListChooser, SeedChooser, Sink};
use std::alloc::Global;

// The words of a going on that are numbers: at most so many events are added, and a task may make so many local steps.
#[derive(Clone, Copy)]
pub(crate) struct Most {
    pub(crate) count: u32,
    pub(crate) bound: u64,
}

// Writes the sequence of the lines with the events that the choices pick behind it. A bad file of choices is told whatever the lines are.
pub(crate) fn go_on_under<'w, O: Sink>(
    alloc: Global,
    start: &Start,
    lines: &[u8],
    choices: &ChoiceBytes,
    most: Most,
    out: &mut O,
) -> Result<u8, Stop<'w>>
    requires original { IsOriginal start.now }
    requires lines { IsShort lines.now }
    requires choices { AreShortChoices choices.now }
    ensures { Comes (GoesOnUnder (setup_of start.now) start.now.legal.numbers lines.now (given_as choices.now) most.count most.bound) Never (O.told out.old) (O.told out.new) (O.faults out.old) (O.faults out.new) result }
{
    match choosing_of(alloc, choices) {
        Ok(choosing) => go_on_chosen(alloc, start, lines, choosing, most, out),
        Err(stop) => Err(stop),
    }
}

// Goes on from the lines as the choices pick that are made so.
fn go_on_chosen<'w, O: Sink>(
    alloc: Global,
    start: &Start,
    lines: &[u8],
    choosing: Choosing,
    most: Most,
    out: &mut O,
) -> Result<u8, Stop<'w>>
    requires original { IsOriginal start.now }
    requires lines { IsShort lines.now }
    ensures { Comes (GoesOnBy (setup_of start.now) start.now.legal.numbers lines.now most.count most.bound (choosing_of choosing)) Never (O.told out.old) (O.told out.new) (O.faults out.old) (O.faults out.new) result }
{
    match choosing {
        Choosing::FromList(choices) => {
            go_on_by(
                alloc,
                start,
                lines,
                &mut ListChooser::new(choices),
                most,
                out,
            )
        }
        Choosing::FromSeed(seed) => {
            go_on_by(alloc, start, lines, &mut SeedChooser::new(seed), most, out)
        }
    }
}

// Goes on from the lines under the picks of a chooser.
fn go_on_by<'w, C: Chooser, O: Sink>(
    alloc: Global,
    start: &Start,
    lines: &[u8],
    choices: &mut C,
    most: Most,
    out: &mut O,
) -> Result<u8, Stop<'w>>
    requires original { IsOriginal start.now }
    requires lines { IsShort lines.now }
    ensures { Comes (ContinueMeans C.word C.next (setup_of start.now) start.now.legal.numbers lines.now choices.old most.count most.bound) Never (O.told out.old) (O.told out.new) (O.faults out.old) (O.faults out.new) result }
{
    report_continued(
        alloc,
        &start.legal.program,
        &start.legal.types,
        &start.legal.numbers,
        &start.inputs,
        lines,
        choices,
        most.count,
        most.bound,
        out,
    )
}
