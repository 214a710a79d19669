//! Loading the files of a run, of a collecting, of a judgement, of going on, of a replaying and of a requiring.

ghost use Rattle.std.specs.Prelude.{◌≡◌, ◌≤◌, ◌<◌, ◌-◌, ◌^◌, is_some, length, IfOk};
ghost use Rattle.debug_outcome.specs.words.Commands.{name_as, source_as};
ghost use Rattle.debug_outcome.specs.Loads.{CameOf};
ghost use Rattle.debug_outcome.specs.Traces.{HasLoads};
ghost use Rattle.debug_outcome.specs.files.Giving.{IsGivenBy, given_as, given_bytes, start_contents, run_contents, judge_contents, replay_contents, require_contents, continue_contents, IsShortStart, AreShortChoices, IsShortRun, IsShortCollect, IsShortJudge, IsShortReplay, IsShortRequire, IsShortContinue};
ghost use Rattle.debug_outcome.specs.files.Wanting.{choice_files, start_files, run_files, collect_files, judge_files, replay_files, require_files, continue_files};

use crate::words::{Choices, ContinueWords, JudgeWords, ReplayWords, RequireWords, RunWords};
use crate::{Stop, TracedFiles, load_file, load_named};
use std::alloc::Global;

/// A program that is printed or run has at most this many bytes, and so has one that is written.
pub const TEXT_LIMIT: u64 = 33_554_432;

/// A program that is given to any other command has at most this many bytes.
pub const ORIGINAL_LIMIT: u64 = 1_048_576;

/// A file of inputs has at most this many bytes.
pub const INPUTS_LIMIT: u64 = 4_194_304;

/// A file of a sequence has at most this many bytes.
pub const SEQUENCE_LIMIT: u64 = 16_777_216;

/// A file of choices has at most this many bytes.
pub const CHOICES_LIMIT: u64 = 16_777_216;

/// A file of constraints has at most this many bytes.
pub const CONSTRAINTS_LIMIT: u64 = 262_144;

/// The bytes of a program, and of a file of inputs if one is named.
#[derive(Drop)]
pub struct StartFiles {
    pub text: Vec<u8>,
    pub inputs: Option<Vec<u8>>,
}

/// The choices of a run, or of going on, before any of their lines is read.
#[derive(Drop)]
pub enum ChoiceBytes {
    /// An empty list of choices.
    Empty,
    /// The bytes of a file of choices.
    In(Vec<u8>),
    /// The seed of a generator.
    Seeded(u64),
}

/// The bytes of the files of a run, or of the run of a collecting text.
#[derive(Drop)]
pub struct RunFiles {
    pub start: StartFiles,
    pub choices: ChoiceBytes,
}

/// The bytes of the files of a judgement, or of variants.
#[derive(Drop)]
pub struct JudgeFiles {
    pub start: StartFiles,
    pub sequence: Vec<u8>,
}

/// The bytes of the files of a replaying, or of a migration.
#[derive(Drop)]
pub struct ReplayFiles {
    pub text: Vec<u8>,
    pub sequence: Vec<u8>,
}

/// The bytes of a program and of a sequence of its events, and of a file of constraints.
#[derive(Drop)]
pub struct RequireFiles {
    pub sequenced: ReplayFiles,
    pub constraints: Vec<u8>,
}

/// The bytes of the files of going on from a sequence.
#[derive(Drop)]
pub struct ContinueFiles {
    pub judged: JudgeFiles,
    pub choices: ChoiceBytes,
}

/// Loads the files of a run: the program's, that of inputs if it is named, and that of choices if it is.
pub fn load_run<'w, F: TracedFiles>(
    alloc: Global,
    asked: RunWords<'w>,
    files: &mut F,
) -> Result<RunFiles, Stop<'w>>
    ensures came { HasLoads F.leads files.old files.new (CameOf run_contents (F.told files.old) (F.faults files.old) (F.faults files.new) (run_files asked.entry.file.now (name_as asked.entry.inputs) (source_as asked.entry.choices)) result) }
    ensures named { IfOk result (λ found. is_some found.start.inputs ≡ is_some asked.entry.inputs) }
    ensures chosen { IfOk result (λ found. IsGivenBy (source_as asked.entry.choices) (given_as found.choices)) }
    ensures short { IfOk result IsShortRun }
    ensures told_stays { F.told files.new ≡ F.told files.old }
    ensures count_never_falls { F.faults files.old ≤ F.faults files.new }
{
    let start = match load_start(alloc, asked.file, TEXT_LIMIT, asked.inputs, files) {
        Ok(start) => start,
        Err(stop) => return Err(stop),
    };
    match load_choices(alloc, asked.choices, files) {
        Ok(choices) => Ok(RunFiles { start, choices }),
        Err(stop) => Err(stop),
    }
}

/// Loads the files of the run of a collecting text: those of a run, where the program is an original.
pub fn load_collect<'w, F: TracedFiles>(
    alloc: Global,
    asked: RunWords<'w>,
    files: &mut F,
) -> Result<RunFiles, Stop<'w>>
    ensures came { HasLoads F.leads files.old files.new (CameOf run_contents (F.told files.old) (F.faults files.old) (F.faults files.new) (collect_files asked.entry.file.now (name_as asked.entry.inputs) (source_as asked.entry.choices)) result) }
    ensures named { IfOk result (λ found. is_some found.start.inputs ≡ is_some asked.entry.inputs) }
    ensures chosen { IfOk result (λ found. IsGivenBy (source_as asked.entry.choices) (given_as found.choices)) }
    ensures short { IfOk result IsShortCollect }
    ensures told_stays { F.told files.new ≡ F.told files.old }
    ensures count_never_falls { F.faults files.old ≤ F.faults files.new }
{
    let start = match load_start(alloc, asked.file, ORIGINAL_LIMIT, asked.inputs, files) {
        Ok(start) => start,
        Err(stop) => return Err(stop),
    };
    match load_choices(alloc, asked.choices, files) {
        Ok(choices) => Ok(RunFiles { start, choices }),
        Err(stop) => Err(stop),
    }
}

/// Loads the files of a judgement, or of variants: the program's, that of inputs if it is named, and the sequence's.
pub fn load_judge<'w, F: TracedFiles>(
    alloc: Global,
    asked: JudgeWords<'w>,
    files: &mut F,
) -> Result<JudgeFiles, Stop<'w>>
    ensures came { HasLoads F.leads files.old files.new (CameOf judge_contents (F.told files.old) (F.faults files.old) (F.faults files.new) (judge_files asked.entry.file.now (name_as asked.entry.inputs) asked.entry.sequence.now) result) }
    ensures named { IfOk result (λ found. is_some found.start.inputs ≡ is_some asked.entry.inputs) }
    ensures short { IfOk result IsShortJudge }
    ensures told_stays { F.told files.new ≡ F.told files.old }
    ensures count_never_falls { F.faults files.old ≤ F.faults files.new }
{
    let start = match load_start(alloc, asked.file, ORIGINAL_LIMIT, asked.inputs, files) {
        Ok(start) => start,
        Err(stop) => return Err(stop),
    };
    match load_file(alloc, asked.sequence, SEQUENCE_LIMIT, files) {
        Ok(sequence) => Ok(JudgeFiles { start, sequence }),
        Err(stop) => Err(stop),
    }
}

/// Loads the files of going on from a sequence: those of a judgement, and that of choices if it is named.
pub fn load_continue<'w, F: TracedFiles>(
    alloc: Global,
    asked: ContinueWords<'w>,
    files: &mut F,
) -> Result<ContinueFiles, Stop<'w>>
    ensures came { HasLoads F.leads files.old files.new (CameOf continue_contents (F.told files.old) (F.faults files.old) (F.faults files.new) (continue_files asked.entry.judged.file.now (name_as asked.entry.judged.inputs) asked.entry.judged.sequence.now (source_as asked.entry.choices)) result) }
    ensures named { IfOk result (λ found. is_some found.judged.start.inputs ≡ is_some asked.entry.judged.inputs) }
    ensures chosen { IfOk result (λ found. IsGivenBy (source_as asked.entry.choices) (given_as found.choices)) }
    ensures short { IfOk result IsShortContinue }
    ensures told_stays { F.told files.new ≡ F.told files.old }
    ensures count_never_falls { F.faults files.old ≤ F.faults files.new }
{
    let judged = match load_judge(alloc, asked.judged, files) {
        Ok(judged) => judged,
        Err(stop) => return Err(stop),
    };
    match load_choices(alloc, asked.choices, files) {
        Ok(choices) => Ok(ContinueFiles { judged, choices }),
        Err(stop) => Err(stop),
    }
}

/// Loads the files of a replaying, or of a migration: the program's and the sequence's.
pub fn load_replay<'w, F: TracedFiles>(
    alloc: Global,
    asked: ReplayWords<'w>,
    files: &mut F,
) -> Result<ReplayFiles, Stop<'w>>
    ensures came { HasLoads F.leads files.old files.new (CameOf replay_contents (F.told files.old) (F.faults files.old) (F.faults files.new) (replay_files asked.entry.file.now asked.entry.sequence.now) result) }
    ensures short { IfOk result IsShortReplay }
    ensures told_stays { F.told files.new ≡ F.told files.old }
    ensures count_never_falls { F.faults files.old ≤ F.faults files.new }
{
    let text = match load_file(alloc, asked.file, ORIGINAL_LIMIT, files) {
        Ok(text) => text,
        Err(stop) => return Err(stop),
    };
    match load_file(alloc, asked.sequence, SEQUENCE_LIMIT, files) {
        Ok(sequence) => Ok(ReplayFiles { text, sequence }),
        Err(stop) => Err(stop),
    }
}

/// Loads the files of a requiring: the program's, the sequence's and that of the constraints.
pub fn load_require<'w, F: TracedFiles>(
    alloc: Global,
    asked: RequireWords<'w>,
    files: &mut F,
) -> Result<RequireFiles, Stop<'w>>
    ensures came { HasLoads F.leads files.old files.new (CameOf require_contents (F.told files.old) (F.faults files.old) (F.faults files.new) (require_files asked.entry.file.now asked.entry.sequence.now asked.entry.constraints.now) result) }
    ensures short { IfOk result IsShortRequire }
    ensures told_stays { F.told files.new ≡ F.told files.old }
    ensures count_never_falls { F.faults files.old ≤ F.faults files.new }
{
    let words = ReplayWords {
        file: asked.file,
        sequence: asked.sequence,
    };
    let sequenced = match load_replay(alloc, words, files) {
        Ok(sequenced) => sequenced,
        Err(stop) => return Err(stop),
    };
    match load_file(alloc, asked.constraints, CONSTRAINTS_LIMIT, files) {
        Ok(constraints) => Ok(RequireFiles {
            sequenced,
            constraints,
        }),
        Err(stop) => Err(stop),
    }
}

// Loads a program of at most so many bytes, and then the inputs of its tasks, if a file of inputs is named.
fn load_start<'w, F: TracedFiles>(
    alloc: Global,
    file: &'w str,
    limit: u64,
    inputs: Option<&'w str>,
    files: &mut F,
) -> Result<StartFiles, Stop<'w>>
    requires { limit < 2 ^ 32 - 1 }
    ensures came { HasLoads F.leads files.old files.new (CameOf start_contents (F.told files.old) (F.faults files.old) (F.faults files.new) (start_files file.now limit (name_as inputs.entry)) result) }
    ensures named { IfOk result (λ start. is_some start.inputs ≡ is_some inputs.entry) }
    ensures within { IfOk result (λ start. length start.text.items ≤ limit) }
    ensures short { IfOk result IsShortStart }
    ensures told_stays { F.told files.new ≡ F.told files.old }
    ensures count_never_falls { F.faults files.old ≤ F.faults files.new }
{
    let text = match load_file(alloc, file, limit, files) {
        Ok(text) => text,
        Err(stop) => return Err(stop),
    };
    match load_named(alloc, inputs, INPUTS_LIMIT, files) {
        Ok(inputs) => Ok(StartFiles { text, inputs }),
        Err(stop) => Err(stop),
    }
}

// Loads the choices, if they stand in a file.
fn load_choices<'w, F: TracedFiles>(
    alloc: Global,
    choices: Choices<'w>,
    files: &mut F,
) -> Result<ChoiceBytes, Stop<'w>>
    ensures came { HasLoads F.leads files.old files.new (CameOf (λ found. given_bytes (given_as found)) (F.told files.old) (F.faults files.old) (F.faults files.new) (choice_files (source_as choices.entry)) result) }
    ensures chosen { IfOk result (λ found. IsGivenBy (source_as choices.entry) (given_as found)) }
    ensures short { IfOk result AreShortChoices }
    ensures told_stays { F.told files.new ≡ F.told files.old }
    ensures count_never_falls { F.faults files.old ≤ F.faults files.new }
{
    match choices {
        Choices::Empty => Ok(ChoiceBytes::Empty),
        Choices::In(name) => match load_file(alloc, name, CHOICES_LIMIT, files) {
            Ok(bytes) => Ok(ChoiceBytes::In(bytes)),
            Err(stop) => Err(stop),
        },
        Choices::Seeded(seed) => Ok(ChoiceBytes::Seeded(seed)),
    }
}
