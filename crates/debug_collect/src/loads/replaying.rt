// The run of the replay text of LOAD.

ghost use Rattle.std.specs.Prelude.{◌≤◌, length, IfOk};
ghost use Rattle.ada_tree.specs.PlainProgram.{plain_program};
ghost use Rattle.ada_static_rules.specs.Refusals.{types_in};
ghost use Rattle.syn_event.specs.AllNumbers.{all_numbers};
ghost use Rattle.syn_event.specs.declared.numbering.Mode.TheVariants.{Any};
ghost use Rattle.syn_event.specs.Legal.{Legal};
ghost use Rattle.replay_model.specs.ReplayTree.{replay_tree};
ghost use Rattle.debug_collect.specs.loads.inner.Loaded.{IsRunOf};

use crate::loads::gathering::Lines;
use crate::loads::recording::most_turns;
use ada_check::{CheckError, Checked, check};
use ada_tree::{Memory, Program, Types};
use ada_value::Inputs;
use ded_io::SeedChooser;
use event_machine::Event;
use interp::{RunEnd, run};
use normal_form::XformError;
use replay_xform::replay;
use std::alloc::Global;
use syn_event::{Mode, Numbers};
use task_links::Links;
use task_machine::Machine;

/// How the run ended, and how many events it has.
#[derive(Clone, Copy)]
pub(crate) struct Replayed {
    pub(crate) end: RunEnd,
    pub(crate) events: u64,
}

// Runs the replay text of a program and these events as the generator of the seed picks.
pub(crate) fn replay_load(
    alloc: Global,
    program: &Program,
    types: &Types,
    numbers: &Numbers,
    events: &[Event],
    seed: u64,
) -> Result<Replayed, Memory>
    requires few { length events.now ≤ 200000 }
    requires legal { let text = replay_tree (plain_program program.now) types.now numbers.now events.now in Legal text (types_in text) (all_numbers (types_in text) text) Any }
    ensures { IfOk result (IsRunOf (replay_tree (plain_program program.now) types.now numbers.now events.now) seed) }
{
    match replay(alloc, program, types, numbers, events) {
        Ok(text) => run_text(alloc, &text, seed),
        Err(XformError::Memory) => Err(Memory),
        Err(XformError::TooManyEvents { .. }) => unreachable!(),
    }
}

// Runs a text.
fn run_text(alloc: Global, text: &Program, seed: u64) -> Result<Replayed, Memory>
    requires { Legal (plain_program text.now) (types_in (plain_program text.now)) (all_numbers (types_in (plain_program text.now)) (plain_program text.now)) Any }
    ensures { IfOk result (IsRunOf (plain_program text.now) seed) }
{
    match check(alloc, text, Mode::Any) {
        Ok(checked) => run_checked(alloc, text, &checked, seed),
        Err(CheckError::Memory) => Err(Memory),
        Err(_) => unreachable!(),
    }
}

// The same with the types and numbers that were found.
fn run_checked(
    alloc: Global,
    text: &Program,
    checked: &Checked,
    seed: u64,
) -> Result<Replayed, Memory>
    requires { Legal (plain_program text.now) checked.now.types checked.now.numbers Any }
    ensures { IfOk result (IsRunOf (plain_program text.now) seed) }
{
    let links = Links::new(alloc, text, &checked.types, &checked.numbers)?;
    let inputs = Inputs {
        lists: Vec::new(alloc),
    };
    let mut machine = Machine::new(alloc, &links, &inputs)?;
    let mut lines = Lines::new(alloc);
    let mut choices = SeedChooser::new(seed);
    match run(
        alloc,
        &mut machine,
        &checked.numbers,
        &mut choices,
        most_turns(),
        &mut lines,
    ) {
        Ok(report) => Ok(Replayed {
            end: report.end,
            events: lines.count(),
        }),
        Err(_) => Err(Memory),
    }
}
