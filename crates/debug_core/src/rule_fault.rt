// Why a program that was read is refused.

ghost use Rattle.std.specs.Prelude.{◌≡◌, ◌<◌, ◌-◌, ◌^◌, length};
ghost use Rattle.debug_outcome.specs.Coming.{stop_by};
ghost use Rattle.debug_core.specs.RuleFaults.{refusal_of_error, refusal_of_types, broken_at};

use ada_check::CheckError;
use ada_check_rules::rules::Rule as CheckRule;
use ada_lexer::line_col;
use ada_static_rules::refusals::Rule as TypeRule;
use ada_tree::Span;
use ada_types::TypeError;
use debug_outcome::{Refusal, Rule, RuleFault, Stop};

/// Why a command stops where the check of the static rules refuses the program of this text: the rule by its name, with the line and
/// column, from 1, at which what breaks it starts, or the limit that is passed. `text` is the text from which the program was read.
pub(crate) fn rule_failure<'w>(text: &[u8], error: CheckError) -> Stop<'w>
    requires { length text.now < 2 ^ 32 - 1 }
    ensures { result ≡ stop_by (refusal_of_error text.now error) }
{
    match error {
        CheckError::Rule(error) => type_failure(text, error),
        CheckError::SharedVariable { span } => check_broken(text, CheckRule::SharedVariable, span),
        CheckError::AcceptPlace { span } => check_broken(text, CheckRule::AcceptPlace, span),
        CheckError::SelectForm { span } => check_broken(text, CheckRule::SelectForm, span),
        CheckError::SameEntryTwice { span } => check_broken(text, CheckRule::SameEntryTwice, span),
        CheckError::ReservedName { span } => check_broken(text, CheckRule::ReservedName, span),
        CheckError::MainEntry { span } => check_broken(text, CheckRule::MainEntry, span),
        CheckError::AbortOrder { span } => check_broken(text, CheckRule::AbortOrder, span),
        CheckError::BodyMissing { span } => check_broken(text, CheckRule::BodyMissing, span),
        CheckError::ExitPlace { span } => check_broken(text, CheckRule::ExitPlace, span),
        CheckError::RaisePlace { span } => check_broken(text, CheckRule::RaisePlace, span),
        CheckError::Limit { what, limit, .. } => {
            Stop::Refused(Refusal::BadProgram(RuleFault::Passed { what, limit }))
        }
        CheckError::Memory => Stop::Memory,
    }
}

// The same where the types of the program are refused.
fn type_failure<'w>(text: &[u8], error: TypeError) -> Stop<'w>
    requires { length text.now < 2 ^ 32 - 1 }
    ensures { result ≡ stop_by (refusal_of_types text.now error) }
{
    match error {
        TypeError::Unknown { span } => type_broken(text, TypeRule::Unknown, span),
        TypeError::Duplicate { span } => type_broken(text, TypeRule::Duplicate, span),
        TypeError::Mismatch { span } => type_broken(text, TypeRule::Mismatch, span),
        TypeError::NotStatic { span } => type_broken(text, TypeRule::NotStatic, span),
        TypeError::RangeBad { span } => type_broken(text, TypeRule::RangeBad, span),
        TypeError::NotVariable { span } => type_broken(text, TypeRule::NotVariable, span),
        TypeError::ReadOut { span } => type_broken(text, TypeRule::ReadOut, span),
        TypeError::ArgCount { span } => type_broken(text, TypeRule::ArgCount, span),
        TypeError::ChoiceBad { span } => type_broken(text, TypeRule::ChoiceBad, span),
        TypeError::ArrayUse { span } => type_broken(text, TypeRule::ArrayUse, span),
        TypeError::TextUse { span } => type_broken(text, TypeRule::TextUse, span),
        TypeError::NotException { span } => type_broken(text, TypeRule::NotException, span),
        TypeError::Memory => Stop::Memory,
    }
}

// The refusal of a program that breaks a rule on names and types at a place.
fn type_broken<'w>(text: &[u8], rule: TypeRule, span: Span) -> Stop<'w>
    requires { length text.now < 2 ^ 32 - 1 }
    ensures { result ≡ stop_by (broken_at text.now (Rule.OfTypes rule) span) }
{
    broken(text, Rule::OfTypes(rule), span)
}

// The refusal of a program that breaks another rule at a place.
fn check_broken<'w>(text: &[u8], rule: CheckRule, span: Span) -> Stop<'w>
    requires { length text.now < 2 ^ 32 - 1 }
    ensures { result ≡ stop_by (broken_at text.now (Rule.OfCheck rule) span) }
{
    broken(text, Rule::OfCheck(rule), span)
}

// The refusal of a program that breaks a rule at a place.
fn broken<'w>(text: &[u8], rule: Rule, span: Span) -> Stop<'w>
    requires { length text.now < 2 ^ 32 - 1 }
    ensures { result ≡ stop_by (broken_at text.now rule span) }
{
    let place = line_col(text, span.start);
    Stop::Refused(Refusal::BadProgram(RuleFault::Broken {
        rule,
        line: place.line,
        column: place.col,
    }))
}
