//! Why a command is refused, and with which status.

ghost use Rattle.std.specs.Prelude.{◌≡◌};
ghost use Rattle.debug_outcome.specs.Refusals.{refusal_status, text_status, rule_status};

use ada_check_rules::rules::Rule as CheckRule;
use ada_static_rules::refusals::Rule as TypeRule;
use syn_event::What;

/// Why a command is refused. Lines and columns count from 1.
#[derive(Clone, Copy)]
pub enum Refusal<'w> {
    /// The program's text is read as none of the language, for this fault.
    BadText(TextFault),
    /// The program is read, and breaks a static rule or passes a limit.
    BadProgram(RuleFault),
    /// The words are no usage.
    Usage,
    /// The sequence is refused, at a line.
    BadSequence { fault: SequenceFault, line: u32 },
    /// The sequence is refused: its lists by tasks stand for no order of events. The list of this task is the first that is not used up.
    NoOrder { task: u32 },
    /// The inputs are refused, at a line.
    BadInputs { fault: InputFault, line: u32 },
    /// The choices are refused, at a line.
    BadChoices { fault: InputFault, line: u32 },
    /// The constraints are refused, at a line.
    BadConstraints { fault: ConstraintFault, line: u32 },
    /// The file of this name cannot be read.
    Unreadable(&'w str),
    /// A file is longer than the limit, in bytes.
    TooLong { limit: u64 },
    /// A file lists more than the limit.
    TooMany { what: Listed, limit: u32 },
    /// The text that would be written is longer than the limit, in bytes.
    LongText { limit: u64 },
}

/// Why a text is read as no program.
#[derive(Clone, Copy)]
pub enum TextFault {
    /// What stands at a place breaks a rule of tokens or of the grammar.
    Misspelled {
        what: Misspelling,
        line: u32,
        column: u32,
    },
    /// An identifier, or the content of a string, has more bytes than the limit.
    LongToken {
        limit: u32,
    },
    /// Its parts are nested deeper than the limit.
    TooNested {
        limit: u32,
    },
}

/// What is wrong at a place of a text.
#[derive(Clone, Copy)]
pub enum Misspelling {
    BadByte,
    OpenString,
    BadNumber,
    Syntax,
}

/// Why a program that was read is refused.
#[derive(Clone, Copy)]
pub enum RuleFault {
    /// What stands at a place breaks a static rule.
    Broken { rule: Rule, line: u32, column: u32 },
    /// A limit is passed.
    Passed { what: What, limit: u32 },
}

/// A static rule. A limit that is passed is told as `Passed`.
#[derive(Clone, Copy)]
pub enum Rule {
    /// One of the first twelve rules, which are those on names and types.
    OfTypes(TypeRule),
    /// One of the rules that are asked after those.
    OfCheck(CheckRule),
}

/// What is wrong with a line of a sequence: with the first bad one, or, `BadOrder`, with the first whose event can't follow those before it, as
/// events alone tell.
#[derive(Clone, Copy)]
pub enum SequenceFault {
    BadLine,
    OtherProgram,
    BadNumber,
    AfterEnd,
    BadOrder,
}

/// What is wrong with the first bad line of inputs or choices.
#[derive(Clone, Copy)]
pub enum InputFault {
    BadLine,
    UnknownTask,
}

/// What is wrong with the first bad line of a file of constraints.
#[derive(Clone, Copy)]
pub enum ConstraintFault {
    BadLine,
    BadNumber,
}

/// What the files list of which they may have too much.
#[derive(Clone, Copy)]
pub enum Listed {
    Events,
    Inputs,
    Choices,
    Constraints,
}

impl Refusal<'_> {
    /// The status that the program ends with.
    pub fn status(self) -> u8
        ensures { result ≡ refusal_status self.entry }
    {
        match self {
            Refusal::BadText(fault) => text_status(fault),
            Refusal::BadProgram(fault) => rule_status(fault),
            Refusal::Usage => 2,
            Refusal::BadSequence { .. } => 3,
            Refusal::NoOrder { .. } => 3,
            Refusal::BadInputs { .. } => 12,
            Refusal::BadChoices { .. } => 12,
            Refusal::BadConstraints { .. } => 15,
            Refusal::Unreadable(_) => 6,
            Refusal::TooLong { .. } => 8,
            Refusal::TooMany { .. } => 8,
            Refusal::LongText { .. } => 8,
        }
    }
}

// The status of a text's fault.
fn text_status(fault: TextFault) -> u8
    ensures { result ≡ text_status fault }
{
    match fault {
        TextFault::Misspelled { .. } => 1,
        TextFault::LongToken { .. } | TextFault::TooNested { .. } => 8,
    }
}

// The status of a program's fault.
fn rule_status(fault: RuleFault) -> u8
    ensures { result ≡ rule_status fault }
{
    match fault {
        RuleFault::Broken { .. } => 1,
        RuleFault::Passed { .. } => 8,
    }
}
