// The words that the program is called with.

ghost use Rattle.std.specs.Prelude.{◌≡◌, ◌≤◌, map, option_map, string_bytes, length};
ghost use Rattle.debug_outcome.specs.words.Words.{AsksLoad, asked_by, asks_of_one, asks_of_two, asks_of_three, asks_of_four, asks_of_six, asks_run, asks_collect_run, asks_judge, asks_variants, asks_continue, inputs_of, choice_source, seed_of, number_of, count_of, producers_of, digits_value, begins_well, is_zero};
ghost use Rattle.debug_outcome.specs.words.Commands.{asked_as, source_as, name_as};

/// What the words ask for.
#[derive(Clone, Copy)]
pub enum Command<'w> {
    /// The text of the program in this file.
    Print(&'w str),
    /// The numbers of the program in this file.
    Check(&'w str),
    /// A run of the program in a file.
    Run(RunWords<'w>),
    /// The verdict on a sequence of events.
    Judge(JudgeWords<'w>),
    /// The replay text of a program and a sequence of events.
    Replay(ReplayWords<'w>),
    /// Which constraints a sequence of events breaks.
    Require(RequireWords<'w>),
    /// A sequence of events in the other format.
    Migrate(ReplayWords<'w>),
    /// What else can come at each place of a sequence of events.
    Variants(JudgeWords<'w>),
    /// Going on from a sequence of events.
    Continue(ContinueWords<'w>),
    /// The collecting text of the program in this file.
    Collect(&'w str),
    /// The sequence of events that a run of the collecting text of a program records.
    CollectRun(RunWords<'w>),
    /// The collecting, judging and replaying of a run of LOAD with so many producers, from 1 to 100.
    Load(u32),
}

/// Where the choices of a run, or of going on, come from.
#[derive(Clone, Copy)]
pub enum Choices<'w> {
    /// From nowhere: an empty list of choices.
    Empty,
    /// From the file of this name.
    In(&'w str),
    /// From the generator of this seed.
    Seeded(u64),
}

/// A run of the program in a file, of at most so many turns, from 1 to 100,000,000. The tasks read what the file of inputs says, if one is named.
#[derive(Clone, Copy)]
pub struct RunWords<'w> {
    pub file: &'w str,
    pub inputs: Option<&'w str>,
    pub choices: Choices<'w>,
    pub turns: u64,
}

/// The sequence in a file, as it is judged for the program in another, where a task may make so many local steps, from 1 to
/// 100,000,000, between the events that change it. The tasks read what the file of inputs says, if one is named.
#[derive(Clone, Copy)]
pub struct JudgeWords<'w> {
    pub file: &'w str,
    pub inputs: Option<&'w str>,
    pub sequence: &'w str,
    pub bound: u64,
}

/// A program in a file, and a sequence of its events in another.
#[derive(Clone, Copy)]
pub struct ReplayWords<'w> {
    pub file: &'w str,
    pub sequence: &'w str,
}

/// Which of the constraints in a file the sequence in another breaks, for the program in a third.
#[derive(Clone, Copy)]
pub struct RequireWords<'w> {
    pub file: &'w str,
    pub sequence: &'w str,
    pub constraints: &'w str,
}

/// Going on from a sequence that is judged as these words say, by choices, and by at most so many events, from 1 to 100,000.
#[derive(Clone, Copy)]
pub struct ContinueWords<'w> {
    pub judged: JudgeWords<'w>,
    pub choices: Choices<'w>,
    pub count: u32,
}

/// Why there are no words.
#[derive(Clone, Copy)]
pub enum NoWords {
    /// One of them is no text, so that they are no usage.
    NotText,
    /// There was no memory for them.
    Memory,
}

/// What the words ask for; none where they are no usage. The usages are `print FILE`, `check FILE`, `replay FILE SEQUENCE`,
/// `migrate FILE SEQUENCE`, `require FILE SEQUENCE CONSTRAINTS`, `run FILE IN CHOICES TURNS`, `judge FILE IN SEQUENCE STEPS`,
/// `variants FILE IN SEQUENCE STEPS`, `continue FILE IN SEQUENCE CHOICES COUNT STEPS`, `collect FILE`,
/// `collect-run FILE IN CHOICES TURNS` and `load PRODUCERS`, where IN is a file's name, or `-` for no inputs, and
/// CHOICES a file's name, `-` for none, or `seed:` and a number from 0 to 18,446,744,073,709,551,615 without leading zeros. It takes no memory.
#[tactic(auto, using(crate::proofs::words::Usages::no_usage))]
pub fn command_of<'w>(words: &'w [String]) -> Option<Command<'w>>
    ensures { option_map asked_as result ≡ asked_by (map string_bytes words.now) }
{
    match words {
        [command, file] => of_one(command.as_str(), file.as_str()),
        [command, file, sequence] => { of_two(command.as_str(), file.as_str(), sequence.as_str()) }
        [command, file, sequence, constraints] => {
            of_three(
                command.as_str(),
                file.as_str(),
                sequence.as_str(),
                constraints.as_str(),
            )
        }
        [command, file, inputs, other, number] => {
            of_four(
                command.as_str(),
                file.as_str(),
                inputs.as_str(),
                other.as_str(),
                number.as_str(),
            )
        }
        [command, file, inputs, sequence, choices, count, number] => {
            of_six(
                command.as_str(),
                file.as_str(),
                inputs.as_str(),
                sequence.as_str(),
                choices.as_str(),
                count.as_str(),
                number.as_str(),
            )
        }
        [] => None,
        [_] => None,
        [_, _, _, _, _, _] => None,
        [_, _, _, _, _, _, _, _, ..] => None,
    }
}

// A command of one word.
fn of_one<'w>(command: &str, file: &'w str) -> Option<Command<'w>>
    ensures { option_map asked_as result ≡ asks_of_one command.now file.now }
{
    if command == "print" {
        Some(Command::Print(file))
    } else if command == "check" {
        Some(Command::Check(file))
    } else if command == "collect" {
        Some(Command::Collect(file))
    } else if command == "load" {
        load_of(file)
    } else {
        None
    }
}

// LOAD with as many producers as the word says.
fn load_of<'w>(word: &str) -> Option<Command<'w>>
    ensures { option_map asked_as result ≡ option_map AsksLoad (producers_of word.now) }
{
    match producers_of(word.as_bytes()) {
        Some(n) => Some(Command::Load(n)),
        None => None,
    }
}

// A command of two words.
fn of_two<'w>(command: &str, file: &'w str, sequence: &'w str) -> Option<Command<'w>>
    ensures { option_map asked_as result ≡ asks_of_two command.now file.now sequence.now }
{
    if command == "replay" {
        Some(Command::Replay(ReplayWords { file, sequence }))
    } else if command == "migrate" {
        Some(Command::Migrate(ReplayWords { file, sequence }))
    } else {
        None
    }
}

// A command of three words.
fn of_three<'w>(
    command: &str,
    file: &'w str,
    sequence: &'w str,
    constraints: &'w str,
) -> Option<Command<'w>>
    ensures { option_map asked_as result ≡ asks_of_three command.now file.now sequence.now constraints.now }
{
    if command == "require" {
        Some(Command::Require(RequireWords {
            file,
            sequence,
            constraints,
        }))
    } else {
        None
    }
}

// A command of four words.
fn of_four<'w>(
    command: &str,
    file: &'w str,
    inputs: &'w str,
    other: &'w str,
    number: &str,
) -> Option<Command<'w>>
    ensures { option_map asked_as result ≡ asks_of_four command.now file.now inputs.now other.now number.now }
{
    if command == "run" {
        run_of(file, inputs, other, number)
    } else if command == "judge" {
        judge_of(file, inputs, other, number)
    } else if command == "variants" {
        variants_of(file, inputs, other, number)
    } else if command == "collect-run" {
        collect_run_of(file, inputs, other, number)
    } else {
        None
    }
}

// A command of six words.
fn of_six<'w>(
    command: &str,
    file: &'w str,
    inputs: &'w str,
    sequence: &'w str,
    choices: &'w str,
    count: &str,
    number: &str,
) -> Option<Command<'w>>
    ensures { option_map asked_as result ≡ asks_of_six command.now file.now inputs.now sequence.now choices.now count.now number.now }
{
    if command == "continue" {
        continue_of(file, inputs, sequence, choices, count, number)
    } else {
        None
    }
}

// The words of a run of the file, where those behind it are inputs, choices and a number of turns.
fn run_words<'w>(
    file: &'w str,
    inputs: &'w str,
    choices: &'w str,
    word: &str,
) -> Option<RunWords<'w>>
    ensures run { option_map (λ words. asked_as (Command.Run words)) result ≡ asks_run file.now inputs.now choices.now word.now }
    ensures collect { option_map (λ words. asked_as (Command.CollectRun words)) result ≡ asks_collect_run file.now inputs.now choices.now word.now }
{
    let choices = match choices_of(choices) {
        Some(choices) => choices,
        None => return None,
    };
    match number_of(word.as_bytes()) {
        Some(turns) => Some(RunWords {
            file,
            inputs: inputs_of(inputs),
            choices,
            turns,
        }),
        None => None,
    }
}

// A run of the file.
fn run_of<'w>(file: &'w str, inputs: &'w str, choices: &'w str, word: &str) -> Option<Command<'w>>
    ensures { option_map asked_as result ≡ asks_run file.now inputs.now choices.now word.now }
{
    match run_words(file, inputs, choices, word) {
        Some(words) => Some(Command::Run(words)),
        None => None,
    }
}

// The run of the collecting text of the file.
fn collect_run_of<'w>(
    file: &'w str,
    inputs: &'w str,
    choices: &'w str,
    word: &str,
) -> Option<Command<'w>>
    ensures { option_map asked_as result ≡ asks_collect_run file.now inputs.now choices.now word.now }
{
    match run_words(file, inputs, choices, word) {
        Some(words) => Some(Command::CollectRun(words)),
        None => None,
    }
}

// The judging of the sequence, where the last word is a number of local steps.
fn judge_of<'w>(
    file: &'w str,
    inputs: &'w str,
    sequence: &'w str,
    word: &str,
) -> Option<Command<'w>>
    ensures { option_map asked_as result ≡ asks_judge file.now inputs.now sequence.now word.now }
{
    match number_of(word.as_bytes()) {
        Some(bound) => Some(Command::Judge(JudgeWords {
            file,
            inputs: inputs_of(inputs),
            sequence,
            bound,
        })),
        None => None,
    }
}

// The variants of the sequence, where the last word is a number of local steps.
fn variants_of<'w>(
    file: &'w str,
    inputs: &'w str,
    sequence: &'w str,
    word: &str,
) -> Option<Command<'w>>
    ensures { option_map asked_as result ≡ asks_variants file.now inputs.now sequence.now word.now }
{
    match number_of(word.as_bytes()) {
        Some(bound) => Some(Command::Variants(JudgeWords {
            file,
            inputs: inputs_of(inputs),
            sequence,
            bound,
        })),
        None => None,
    }
}

// Going on from the sequence, where the last words are choices, a number of events and a number of local steps.
fn continue_of<'w>(
    file: &'w str,
    inputs: &'w str,
    sequence: &'w str,
    choices: &'w str,
    count: &str,
    word: &str,
) -> Option<Command<'w>>
    ensures { option_map asked_as result ≡ asks_continue file.now inputs.now sequence.now choices.now count.now word.now }
{
    let choices = match choices_of(choices) {
        Some(choices) => choices,
        None => return None,
    };
    let count = match count_of(count.as_bytes()) {
        Some(count) => count,
        None => return None,
    };
    match number_of(word.as_bytes()) {
        Some(bound) => {
            let inputs = inputs_of(inputs);
            let judged = JudgeWords {
                file,
                inputs,
                sequence,
                bound,
            };
            Some(Command::Continue(ContinueWords {
                judged,
                choices,
                count,
            }))
        }
        None => None,
    }
}

// The name of the file of inputs, unless the word stands for none.
fn inputs_of<'w>(word: &'w str) -> Option<&'w str>
    ensures { name_as result ≡ inputs_of word.now }
{
    if word == "-" { None } else { Some(word) }
}

// The choices that the word stands for, if it stands for any.
fn choices_of<'w>(word: &'w str) -> Option<Choices<'w>>
    ensures { option_map source_as result ≡ choice_source word.now }
{
    if word == "-" {
        return Some(Choices::Empty);
    }
    if !word.as_bytes().starts_with(b"seed:") {
        return Some(Choices::In(word));
    }
    match seed_of(&word.as_bytes()[5..]) {
        Some(seed) => Some(Choices::Seeded(seed)),
        None => None,
    }
}

// The seed that the digits say.
fn seed_of(digits: &[u8]) -> Option<u64>
    ensures { result ≡ seed_of digits.now }
{
    if is_zero(digits) {
        return Some(0);
    }
    if !begins_well(digits) || digits.len() > 20 {
        return None;
    }
    match value_of(digits) {
        Some(n) => {
            if n <= 18_446_744_073_709_551_615 {
                Some(n as u64)
            } else {
                None
            }
        }
        None => None,
    }
}

// It is the one digit 0.
fn is_zero(digits: &[u8]) -> bool
    ensures { result ≡ is_zero digits.now }
{
    match digits {
        [digit] => *digit == b'0',
        _ => false,
    }
}

// The number from 1 to 100,000,000 that the word gives.
fn number_of(word: &[u8]) -> Option<u64>
    ensures { result ≡ number_of word.now }
{
    if begins_well(word) && word.len() <= 9 {
        match value_of(word) {
            Some(n) => {
                if n <= 100_000_000 {
                    Some(n as u64)
                } else {
                    None
                }
            }
            None => None,
        }
    } else {
        None
    }
}

// The number from 1 to 100,000 that the word gives.
fn count_of(word: &[u8]) -> Option<u32>
    ensures { result ≡ count_of word.now }
{
    if begins_well(word) && word.len() <= 6 {
        match value_of(word) {
            Some(n) => { if n <= 100_000 { Some(n as u32) } else { None } }
            None => None,
        }
    } else {
        None
    }
}

// The number from 1 to 100 that the word gives.
fn producers_of(word: &[u8]) -> Option<u32>
    ensures { result ≡ producers_of word.now }
{
    if begins_well(word) && word.len() <= 3 {
        match value_of(word) {
            Some(n) => { if n <= 100 { Some(n as u32) } else { None } }
            None => None,
        }
    } else {
        None
    }
}

// The digits do not begin with a zero, and there is one.
fn begins_well(word: &[u8]) -> bool
    ensures { result ≡ begins_well word.now }
{
    match word {
        [digit, ..] => *digit != b'0',
        [] => false,
    }
}

// The value of at most twenty decimal digits.
fn value_of(word: &[u8]) -> Option<u128>
    requires { length word.now ≤ 20 }
    ensures { result ≡ digits_value 0 word.now }
{
    let mut value = 0u128;
    for digit in word {
        if b'0' <= *digit && *digit <= b'9' {
            value = value * 10 + (*digit - b'0') as u128;
        } else {
            return None;
        }
    }
    Some(value)
}
