//! The lines of refusals on the error output.

ghost use Rattle.std.specs.Prelude.{◌≡◌, decimal};
ghost use Rattle.ded_io.specs.Counts.{HasCause};
ghost use Rattle.ded_io.specs.Written.{Wrote};
ghost use Rattle.debug_outcome.specs.Refusals.{refusal_line, first_words, unread_words, fault_name, input_fault_name, constraint_fault_name, named_line, fault_line, place_line, passed_line, text_line, rule_line, misspelling_name, rule_name, type_rule_name, check_rule_name, what_word};

use crate::refusal::{
    ConstraintFault, InputFault, Listed, Misspelling, Refusal, Rule, RuleFault, SequenceFault,
    TextFault,
};
use ada_check_rules::rules::Rule as CheckRule;
use ada_static_rules::refusals::Rule as TypeRule;
use ded_io::decimals::put_number;
use ded_io::{Sink, SinkError};
use syn_event::What;

// Writes the line of a refusal, with the file's name where it has one.
pub(crate) fn put_refusal<K: Sink>(refusal: Refusal<'_>, err: &mut K) -> Result<(), SinkError>
    ensures bytes { Wrote result (K.told err.old) (K.told err.new) (refusal_line refusal.entry) }
    ensures cause { HasCause (K.faults err.old) (K.faults err.new) result }
{
    match refusal {
        Refusal::BadText(fault) => put_text_fault(fault, err),
        Refusal::BadProgram(fault) => put_rule_fault(fault, err),
        Refusal::Usage => err.put(first_words(Refusal::Usage)),
        Refusal::BadSequence { fault, line } => {
            put_fault(
                Refusal::BadSequence { fault, line },
                name_of(fault),
                line,
                err,
            )
        }
        Refusal::NoOrder { task } => put_numbered(Refusal::NoOrder { task }, task as u64, err),
        Refusal::BadInputs { fault, line } => {
            put_fault(
                Refusal::BadInputs { fault, line },
                input_name_of(fault),
                line,
                err,
            )
        }
        Refusal::BadChoices { fault, line } => {
            put_fault(
                Refusal::BadChoices { fault, line },
                input_name_of(fault),
                line,
                err,
            )
        }
        Refusal::BadConstraints { fault, line } => put_bad_constraints(fault, line, err),
        Refusal::Unreadable(name) => put_unread(name, err),
        Refusal::TooLong { limit } => put_numbered(Refusal::TooLong { limit }, limit, err),
        Refusal::TooMany { what, limit } => {
            put_numbered(Refusal::TooMany { what, limit }, limit as u64, err)
        }
        Refusal::LongText { limit } => put_numbered(Refusal::LongText { limit }, limit, err),
    }
}

// Writes what is wrong with a line of constraints, and which line that is.
fn put_bad_constraints<K: Sink>(
    fault: ConstraintFault,
    line: u32,
    err: &mut K,
) -> Result<(), SinkError>
    ensures bytes { Wrote result (K.told err.old) (K.told err.new) (refusal_line (Refusal.BadConstraints fault line)) }
    ensures cause { HasCause (K.faults err.old) (K.faults err.new) result }
{
    let refusal = Refusal::BadConstraints { fault, line };
    put_fault(refusal, constraint_name_of(fault), line, err)
}

// Writes the name of what is wrong with a line of a file, and which line that is.
#[tactic(auto, using(ded_io::proofs::Writes::writes))]
fn put_fault<K: Sink>(
    refusal: Refusal<'_>,
    name: &[u8],
    line: u32,
    err: &mut K,
) -> Result<(), SinkError>
    ensures bytes { Wrote result (K.told err.old) (K.told err.new) (fault_line (first_words refusal.entry) name.now line) }
    ensures cause { HasCause (K.faults err.old) (K.faults err.new) result }
{
    err.put(first_words(refusal))?;
    err.put(name)?;
    err.put(b" at line ")?;
    put_number(line as u64, err)?;
    err.put(b"\n")
}

// Writes what is wrong with a text, and where, or the limit that it passes.
fn put_text_fault<K: Sink>(fault: TextFault, err: &mut K) -> Result<(), SinkError>
    ensures bytes { Wrote result (K.told err.old) (K.told err.new) (text_line fault) }
    ensures cause { HasCause (K.faults err.old) (K.faults err.new) result }
{
    match fault {
        TextFault::Misspelled { what, line, column } => {
            put_place(
                Refusal::BadText(fault),
                misspelling_name(what),
                line,
                column,
                err,
            )
        }
        TextFault::LongToken { limit } => put_numbered(Refusal::BadText(fault), limit as u64, err),
        TextFault::TooNested { limit } => put_numbered(Refusal::BadText(fault), limit as u64, err),
    }
}

// Writes which rule a program breaks, and where, or the limit that it passes.
fn put_rule_fault<K: Sink>(fault: RuleFault, err: &mut K) -> Result<(), SinkError>
    ensures bytes { Wrote result (K.told err.old) (K.told err.new) (rule_line fault) }
    ensures cause { HasCause (K.faults err.old) (K.faults err.new) result }
{
    match fault {
        RuleFault::Broken { rule, line, column } => {
            put_place(
                Refusal::BadProgram(fault),
                rule_name(rule),
                line,
                column,
                err,
            )
        }
        RuleFault::Passed { what, limit } => put_passed(what, limit, err),
    }
}

// Writes that a program passes a limit.
#[tactic(auto, using(ded_io::proofs::Writes::writes))]
fn put_passed<K: Sink>(what: What, limit: u32, err: &mut K) -> Result<(), SinkError>
    ensures bytes { Wrote result (K.told err.old) (K.told err.new) (passed_line (first_words (Refusal.BadProgram (RuleFault.Passed what limit))) what limit) }
    ensures cause { HasCause (K.faults err.old) (K.faults err.new) result }
{
    err.put(first_words(Refusal::BadProgram(RuleFault::Passed { what, limit })))?;
    err.put(what_word(what))?;
    err.put(b" ")?;
    put_number(limit as u64, err)?;
    err.put(b"\n")
}

// Writes the name of what is wrong with a program, or in its way, and where.
#[tactic(auto, using(ded_io::proofs::Writes::writes))]
fn put_place<K: Sink>(
    refusal: Refusal<'_>,
    name: &[u8],
    line: u32,
    column: u32,
    err: &mut K,
) -> Result<(), SinkError>
    ensures bytes { Wrote result (K.told err.old) (K.told err.new) (place_line (first_words refusal.entry) name.now line column) }
    ensures cause { HasCause (K.faults err.old) (K.faults err.new) result }
{
    err.put(first_words(refusal))?;
    err.put(name)?;
    err.put(b" at ")?;
    put_number(line as u64, err)?;
    err.put(b":")?;
    put_number(column as u64, err)?;
    err.put(b"\n")
}

// Writes that a file cannot be read.
#[tactic(auto, using(ded_io::proofs::Writes::writes))]
fn put_unread<K: Sink>(name: &str, err: &mut K) -> Result<(), SinkError>
    ensures bytes { Wrote result (K.told err.old) (K.told err.new) (named_line unread_words name.now) }
    ensures cause { HasCause (K.faults err.old) (K.faults err.new) result }
{
    err.put(unread_words())?;
    err.put(name.as_bytes())?;
    err.put(b"\n")
}

// Writes the line of a refusal that ends with a number.
#[tactic(auto, using(ded_io::proofs::Writes::writes))]
fn put_numbered<K: Sink>(refusal: Refusal<'_>, number: u64, err: &mut K) -> Result<(), SinkError>
    ensures bytes { Wrote result (K.told err.old) (K.told err.new) (named_line (first_words refusal.entry) (decimal number)) }
    ensures cause { HasCause (K.faults err.old) (K.faults err.new) result }
{
    err.put(first_words(refusal))?;
    put_number(number, err)?;
    err.put(b"\n")
}

// The name of what is wrong with a line of a sequence.
fn name_of(fault: SequenceFault) -> &'static [u8]
    ensures { result.now ≡ fault_name fault }
{
    match fault {
        SequenceFault::BadLine => b"BadLine",
        SequenceFault::OtherProgram => b"OtherProgram",
        SequenceFault::BadNumber => b"BadNumber",
        SequenceFault::AfterEnd => b"AfterEnd",
        SequenceFault::BadOrder => b"BadOrder",
    }
}

// The name of what is wrong with a line of inputs or choices.
fn input_name_of(fault: InputFault) -> &'static [u8]
    ensures { result.now ≡ input_fault_name fault }
{
    match fault {
        InputFault::BadLine => b"BadLine",
        InputFault::UnknownTask => b"UnknownTask",
    }
}

// The name of what is wrong with a line of constraints.
fn constraint_name_of(fault: ConstraintFault) -> &'static [u8]
    ensures { result.now ≡ constraint_fault_name fault }
{
    match fault {
        ConstraintFault::BadLine => b"BadLine",
        ConstraintFault::BadNumber => b"BadNumber",
    }
}

// The name of what is wrong with a text.
fn misspelling_name(what: Misspelling) -> &'static [u8]
    ensures { result.now ≡ misspelling_name what }
{
    match what {
        Misspelling::BadByte => b"BadByte",
        Misspelling::OpenString => b"OpenString",
        Misspelling::BadNumber => b"BadNumber",
        Misspelling::Syntax => b"Syntax",
    }
}

// The name of a rule.
fn rule_name(rule: Rule) -> &'static [u8]
    ensures { result.now ≡ rule_name rule }
{
    match rule {
        Rule::OfTypes(rule) => type_rule_name(rule),
        Rule::OfCheck(rule) => check_rule_name(rule),
    }
}

// The name of a rule on names and types.
fn type_rule_name(rule: TypeRule) -> &'static [u8]
    ensures { result.now ≡ type_rule_name rule }
{
    match rule {
        TypeRule::Unknown => b"Unknown",
        TypeRule::Duplicate => b"Duplicate",
        TypeRule::Mismatch => b"Mismatch",
        TypeRule::NotStatic => b"NotStatic",
        TypeRule::RangeBad => b"RangeBad",
        TypeRule::NotVariable => b"NotVariable",
        TypeRule::ReadOut => b"ReadOut",
        TypeRule::ArgCount => b"ArgCount",
        TypeRule::ChoiceBad => b"ChoiceBad",
        TypeRule::ArrayUse => b"ArrayUse",
        TypeRule::TextUse => b"TextUse",
        TypeRule::NotException => b"NotException",
    }
}

// The name of a rule after those on names and types.
fn check_rule_name(rule: CheckRule) -> &'static [u8]
    ensures { result.now ≡ check_rule_name rule }
{
    match rule {
        CheckRule::SharedVariable => b"SharedVariable",
        CheckRule::AcceptPlace => b"AcceptPlace",
        CheckRule::SelectForm => b"SelectForm",
        CheckRule::SameEntryTwice => b"SameEntryTwice",
        CheckRule::ReservedName => b"ReservedName",
        CheckRule::MainEntry => b"MainEntry",
        CheckRule::AbortOrder => b"AbortOrder",
        CheckRule::BodyMissing => b"BodyMissing",
        CheckRule::ExitPlace => b"ExitPlace",
        CheckRule::RaisePlace => b"RaisePlace",
        CheckRule::Limit { .. } => b"Limit",
    }
}

// The word for what a limit counts.
fn what_word(what: What) -> &'static [u8]
    ensures { result.now ≡ what_word what }
{
    match what {
        What::Name => b"name",
        What::Nesting => b"nesting",
        What::Tasks => b"tasks",
        What::Entries => b"entries",
        What::Members => b"members",
        What::Components => b"components",
        What::Alternatives => b"alternatives",
        What::Formals => b"formals",
        What::Copies => b"copies",
    }
}

// The words before the name of a file that cannot be read.
#[tactic(auto, unfolding(crate::specs::Refusals::unread_words))]
fn unread_words() -> &'static [u8]
    ensures { result.now ≡ unread_words }
{
    b"ded: cannot read "
}

// The words that the line of a refusal begins with, or all of it.
#[tactic(auto, unfolding(crate::specs::Refusals::first_words))]
fn first_words(refusal: Refusal<'_>) -> &'static [u8]
    ensures { result.now ≡ first_words refusal.entry }
{
    match refusal {
        Refusal::BadText(TextFault::Misspelled { .. }) => b"ded: program refused: ",
        Refusal::BadText(TextFault::LongToken { .. }) => b"ded: limit token ",
        Refusal::BadText(TextFault::TooNested { .. }) => b"ded: limit nesting ",
        Refusal::BadProgram(RuleFault::Broken { .. }) => b"ded: program refused: ",
        Refusal::BadProgram(RuleFault::Passed { .. }) => b"ded: limit ",
        Refusal::Usage => b"ded: usage\n",
        Refusal::BadSequence { .. } => b"ded: sequence refused: ",
        Refusal::NoOrder { .. } => b"ded: sequence refused: NoOrder at task ",
        Refusal::BadInputs { .. } => b"ded: inputs refused: ",
        Refusal::BadChoices { .. } => b"ded: choices refused: ",
        Refusal::BadConstraints { .. } => b"ded: constraints refused: ",
        Refusal::Unreadable(_) => unread_words(),
        Refusal::TooLong { .. } => b"ded: limit file ",
        Refusal::TooMany {
            what: Listed::Events,
            ..
        } => b"ded: limit events ",
        Refusal::TooMany {
            what: Listed::Inputs,
            ..
        } => b"ded: limit inputs ",
        Refusal::TooMany {
            what: Listed::Choices,
            ..
        } => b"ded: limit choices ",
        Refusal::TooMany {
            what: Listed::Constraints,
            ..
        } => b"ded: limit constraints ",
        Refusal::LongText { .. } => b"ded: limit text ",
    }
}
