// Reading a constraint file.

ghost use Rattle.std.specs.Prelude.{◌≡◌, ◌≢◌, ◌<◌, ◌-◌, ◌^◌, ◌++◌, ◌∷◌, [], List, length, IfOk, IfErr, MatchResult, Some, option_and_then};
ghost use Rattle.seq_file.specs.text_lines.LineFiles.{HasFirstFault};
ghost use Rattle.seq_file.specs.text_lines.Lines.{first_line};
ghost use Rattle.seq_file.specs.Short.{IsShort};
ghost use Rattle.syn_constraint.specs.declared.constraints.Constraint.{Constraint};
ghost use Rattle.syn_constraint.specs.declared.errors.ConError.{ConError};
ghost use Rattle.syn_constraint.specs.declared.errors.ConError.TheVariants.{Memory};
ghost use Rattle.syn_constraint.specs.Lines.{line_of_text};
ghost use Rattle.syn_constraint.specs.Files.{constraint_format, fault_behind, ConstraintsRead};
ghost use Rattle.syn_constraint.specs.inner.Reading.{IsNextConstraint};

use super::constraints::Constraint;
use super::errors::ConError;
use super::known::is_known;
use super::lines::read_line;
use seq_file::text_lines::{behind_header, cut_at};
use std::alloc::Global;
use syn_event::Numbers;

const MOST_CONSTRAINTS: usize = 1000;

/// The constraints of a constraint file, in order.
///
/// `Ok` comes exactly where the bytes are a constraint file for the program that has these numbers. Otherwise the error is the fault of the first bad
/// line. `Memory` alone may stand for either answer. The list of constraints takes memory, and nothing else does.
pub fn read_constraints(
    alloc: Global,
    bytes: &[u8],
    numbers: &Numbers,
) -> Result<Vec<Constraint>, ConError>
    requires { length bytes.now < 2 ^ 32 - 1 }
    ensures reads { IfOk result (λ found. ConstraintsRead numbers.now bytes.now found.items) }
    ensures first_fault { IfErr result (λ error. error ≢ Memory → HasFirstFault (constraint_format numbers.now) bytes.now error) }
    ensures only_constraints { (wanted : List Constraint) → ConstraintsRead numbers.now bytes.now wanted
        → MatchResult result (λ found. found.items ≡ wanted) (λ error. error ≡ Memory) }
    ensures only_fault { (fault : ConError) → HasFirstFault (constraint_format numbers.now) bytes.now fault
        → MatchResult result (λ found. ⊥) (λ error. error ≢ Memory → error ≡ fault) }
{
    check_short(numbers);
    let Some(mut rest) = behind_header(bytes, b"ded-con 1") else {
        return Err(ConError::BadLine { line: 1 });
    };
    let mut constraints = Vec::new(alloc);
    while !rest.is_empty() {
        let (constraint, behind) = match next_constraint(rest, numbers, constraints.len()) {
            Ok(next) => next,
            Err(error) => return Err(error),
        };
        add(&mut constraints, constraint)?;
        rest = behind;
    }
    Ok(constraints)
}

// The lists of a program are short enough for numbers of 32 bits.
fn check_short(numbers: &Numbers)
    ensures { IsShort numbers.now }
{
    let _tasks = numbers.tasks.len();
}

fn add(constraints: &mut Vec<Constraint>, constraint: Constraint) -> Result<(), ConError>
    ensures added { IfOk result (λ _. constraints.new.items ≡ constraints.old.items ++ constraint ∷ []) }
    ensures memory { IfErr result (λ error. error ≡ Memory) }
{
    match constraints.push(constraint) {
        Ok(()) => Ok(()),
        Err(_) => Err(ConError::Memory),
    }
}

// The constraint of the next line, and what stands behind that line, where so many lines stand before it.
fn next_constraint<'a>(
    rest: &'a [u8],
    numbers: &Numbers,
    count: usize,
) -> Result<(Constraint, &'a [u8]), ConError>
    requires { IsShort numbers.now }
    ensures read { IfOk result (λ x. IsNextConstraint numbers.now count rest.now x.0 x.1.now) }
    ensures fault { IfErr result (λ error. fault_behind numbers.now count (option_and_then line_of_text (first_line rest.now)) ≡ Some error) }
{
    if count >= MOST_CONSTRAINTS {
        return Err(ConError::TooMany {
            limit: MOST_CONSTRAINTS as u32,
        });
    }
    let number = count as u32 + 2;
    let Some((text, behind)) = cut_at(rest, b'\n') else {
        return Err(ConError::BadLine { line: number });
    };
    let Some(constraint) = read_line(text) else {
        return Err(ConError::BadLine { line: number });
    };
    if is_known(numbers, &constraint) {
        Ok((constraint, behind))
    } else {
        Err(ConError::BadNumber { line: number })
    }
}
