// The error that tells a refusal.

ghost use Rattle.std.specs.Prelude.{◌≡◌, Some};
ghost use Rattle.ada_check.specs.Telling.{refusal_of};

use crate::errors::CheckError;
use ada_check_rules::rules::{Refusal, Rule};

/// The error that tells a refusal.
pub(crate) fn error_of(refusal: Refusal) -> CheckError
    ensures { refusal_of result ≡ Some refusal }
{
    let (rule, span) = refusal.parts();
    match rule {
        Rule::SharedVariable => CheckError::SharedVariable { span },
        Rule::AcceptPlace => CheckError::AcceptPlace { span },
        Rule::SelectForm => CheckError::SelectForm { span },
        Rule::SameEntryTwice => CheckError::SameEntryTwice { span },
        Rule::ReservedName => CheckError::ReservedName { span },
        Rule::MainEntry => CheckError::MainEntry { span },
        Rule::AbortOrder => CheckError::AbortOrder { span },
        Rule::BodyMissing => CheckError::BodyMissing { span },
        Rule::ExitPlace => CheckError::ExitPlace { span },
        Rule::RaisePlace => CheckError::RaisePlace { span },
        Rule::Limit { what, limit } => CheckError::Limit { what, limit, span },
    }
}
