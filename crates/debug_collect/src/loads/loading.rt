//! LOAD collected, judged and replayed.

ghost use Rattle.std.specs.Prelude.{◌≡◌, ◌≤◌, ℕ, List, IfOk, IfErr, length};
ghost use Rattle.ada_tree.specs.PlainProgram.{plain_program};
ghost use Rattle.event_machine.specs.declared.Event.{Event};
ghost use Rattle.seq_file.specs.Files.{most_events};
ghost use Rattle.load_gen.specs.LoadTree.{most_producers};
ghost use Rattle.debug_outcome.specs.Coming.{Comes, Never, Stops};
ghost use Rattle.debug_outcome.specs.files.Wanting.{sequence_limit};
ghost use Rattle.debug_collect.specs.loads.LoadOutcomes.{IsCollected, LoadMeans, collected_file, lines_by_end, load_text};
ghost use Rattle.debug_collect.specs.loads.inner.Loaded.{IsLoadOf, outcome_of};

use crate::loads::judging::judge_load;
use crate::loads::recording::collect_load;
use crate::loads::replaying::{Replayed, replay_load};
use crate::loads::telling::put_loaded;
use ada_check::{CheckError, check};
use ada_tree::{Program, Types};
use debug_outcome::files::SEQUENCE_LIMIT;
use debug_outcome::sequences::sequence_failure;
use debug_outcome::{Refusal, Stop};
use debug_run::status_of;
use ded_io::Sink;
use event_machine::Event;
use feasible::Verdict;
use interp::RunEnd;
use seq_file::read_seq;
use std::alloc::Global;
use syn_event::{Mode, Numbers};

/// What there is to tell.
#[derive(Clone, Copy)]
pub(crate) enum Loaded {
    /// A run has not ended, and this is the status of that.
    Cut(u8),
    /// Both runs have ended.
    Whole(Figures),
}

/// How many events were collected, their verdict, and how many events the run of the replay text has.
#[derive(Clone, Copy)]
pub(crate) struct Figures {
    pub(crate) events: u64,
    pub(crate) verdict: Verdict,
    pub(crate) replayed: u64,
}

/// Makes LOAD with n producers, at most 100, and runs its collecting text without inputs as the generator of the seed n picks, for at most
/// 10,000,000 actions. Where that run has ended, it judges the events that were recorded, where a task may make 1,000 local steps between those
/// that change it, and runs their replay text as the generator of the seed n + 1 picks, for at most as many actions. It writes the number of
/// producers, that of the recorded events, their verdict, and the number of all events of the second run, and answers 0. Where one of the runs has
/// not ended, it writes the first line alone, and answers 10 where no action applies any more and 11 where all turns were made and more actions
/// apply. A recorded file is refused that is longer, or has more events, than a file of a sequence. All is found before any of it is put.
pub fn write_load<'w, K: Sink>(alloc: Global, n: u32, out: &mut K) -> Result<u8, Stop<'w>>
    requires { n ≤ most_producers }
    ensures { Comes (LoadMeans n) Never (K.told out.old) (K.told out.new) (K.faults out.old) (K.faults out.new) result }
{
    match load(alloc, n) {
        Ok(loaded) => put_loaded(n, &loaded, out),
        Err(stop) => Err(stop),
    }
}

// What there is to tell of LOAD.
fn load<'w>(alloc: Global, n: u32) -> Result<Loaded, Stop<'w>>
    requires { n ≤ most_producers }
    ensures loaded { IfOk result (λ loaded. LoadMeans n (outcome_of n loaded)) }
    ensures cause { IfErr result (Stops (LoadMeans n)) }
{
    let program = match load_gen::program(alloc, n) {
        Ok(program) => program,
        Err(_) => return Err(Stop::Memory),
    };
    match check(alloc, &program, Mode::Original) {
        Ok(checked) => load_program(alloc, n, &program, &checked.types, &checked.numbers),
        Err(CheckError::Memory) => Err(Stop::Memory),
        Err(_) => unreachable!(),
    }
}

// The same of the program with its types and numbers.
fn load_program<'w>(
    alloc: Global,
    n: u32,
    program: &Program,
    types: &Types,
    numbers: &Numbers,
) -> Result<Loaded, Stop<'w>>
    requires { IsLoadOf n (plain_program program.now) types.now numbers.now }
    ensures loaded { IfOk result (λ loaded. LoadMeans n (outcome_of n loaded)) }
    ensures cause { IfErr result (Stops (LoadMeans n)) }
{
    let found = match collect_load(alloc, n, program, types, numbers) {
        Ok(found) => found,
        Err(_) => return Err(Stop::Memory),
    };
    if found.status == 0 {
        load_file(alloc, n, program, types, numbers, found.file.bytes())
    } else {
        Ok(Loaded::Cut(found.status))
    }
}

// The same of the file that was recorded by a run that has ended.
fn load_file<'w>(
    alloc: Global,
    n: u32,
    program: &Program,
    types: &Types,
    numbers: &Numbers,
    file: &[u8],
) -> Result<Loaded, Stop<'w>>
    requires load { IsLoadOf n (plain_program program.now) types.now numbers.now }
    requires file { file.now ≡ collected_file n }
    requires collected { (events : List Event) × IsCollected n events }
    ensures loaded { IfOk result (λ loaded. LoadMeans n (outcome_of n loaded)) }
    ensures cause { IfErr result (Stops (LoadMeans n)) }
{
    if file.len() as u64 > SEQUENCE_LIMIT {
        return Err(Stop::Refused(Refusal::TooLong {
            limit: SEQUENCE_LIMIT,
        }));
    }
    match read_seq(alloc, file, numbers, &program.names) {
        Ok(events) => load_events(alloc, n, program, types, numbers, &events),
        Err(error) => Err(sequence_failure(error)),
    }
}

// The same of its events.
fn load_events<'w>(
    alloc: Global,
    n: u32,
    program: &Program,
    types: &Types,
    numbers: &Numbers,
    events: &[Event],
) -> Result<Loaded, Stop<'w>>
    requires load { IsLoadOf n (plain_program program.now) types.now numbers.now }
    requires short { length (collected_file n) ≤ sequence_limit }
    requires few { length events.now ≤ most_events }
    requires collected { IsCollected n events.now }
    ensures loaded { IfOk result (λ loaded. LoadMeans n (outcome_of n loaded)) }
    ensures cause { IfErr result (Stops (LoadMeans n)) }
{
    let verdict = match judge_load(alloc, program, types, numbers, events) {
        Ok(verdict) => verdict,
        Err(_) => return Err(Stop::Memory),
    };
    match replay_load(alloc, program, types, numbers, events, n as u64 + 1) {
        Ok(found) => Ok(loaded_of(events, verdict, found)),
        Err(_) => Err(Stop::Memory),
    }
}

// What there is to tell, by the end of the second run.
fn loaded_of(events: &[Event], verdict: Verdict, found: Replayed) -> Loaded
    ensures { (n : ℕ) → outcome_of n result ≡ lines_by_end n (load_text n (length events.now) verdict found.events) found.end }
{
    match found.end {
        RunEnd::Ended => Loaded::Whole(Figures {
            events: events.len() as u64,
            verdict,
            replayed: found.events,
        }),
        RunEnd::Stuck => Loaded::Cut(status_of(RunEnd::Stuck)),
        RunEnd::Turns => Loaded::Cut(status_of(RunEnd::Turns)),
    }
}
