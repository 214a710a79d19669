// The run of the collecting text of LOAD.

ghost use Rattle.std.specs.Prelude.{◌≡◌, IfOk};
ghost use Rattle.ada_tree.specs.PlainProgram.{plain_program};
ghost use Rattle.debug_collect.specs.loads.LoadOutcomes.{load_turns};
ghost use Rattle.debug_collect.specs.loads.inner.Loaded.{IsCollectedAs, IsLoadOf};

use crate::loads::gathering::Lines;
use crate::write_recorded;
use ada_tree::{Memory, Program, Types};
use ada_value::Inputs;
use debug_outcome::Stop;
use ded_io::SeedChooser;
use std::alloc::Global;
use syn_event::Numbers;

// How many actions each of the two runs makes at most.
#[tactic(auto, unfolding(crate::specs::loads::LoadOutcomes::load_turns))]
pub(crate) fn most_turns() -> u64
    ensures { result ≡ load_turns }
{
    10_000_000
}

/// The file that the run has recorded, and the status of its end.
#[derive(Drop)]
pub(crate) struct Collected {
    pub(crate) file: Lines,
    pub(crate) status: u8,
}

// Runs the collecting text of LOAD with n producers.
pub(crate) fn collect_load(
    alloc: Global,
    n: u32,
    program: &Program,
    types: &Types,
    numbers: &Numbers,
) -> Result<Collected, Memory>
    requires { IsLoadOf n (plain_program program.now) types.now numbers.now }
    ensures { IfOk result (IsCollectedAs n) }
{
    let mut file = Lines::new(alloc);
    let inputs = Inputs {
        lists: Vec::new(alloc),
    };
    let mut choices = SeedChooser::new(n as u64);
    match write_recorded(
        alloc,
        program,
        types,
        numbers,
        &inputs,
        &mut choices,
        most_turns(),
        &mut file,
    ) {
        Ok(status) => Ok(Collected { file, status }),
        Err(Stop::Memory) => Err(Memory),
        Err(Stop::OutputFailed) => Err(Memory),
        Err(Stop::Refused(_)) => unreachable!(),
    }
}
