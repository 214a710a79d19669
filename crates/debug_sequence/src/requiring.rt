//! Which of the constraints in a file the sequence in another breaks.

ghost use Rattle.std.specs.Prelude.{◌≡◌, ◌<◌, ◌-◌, ◌^◌, ◌++◌, [], ◌∷◌, length, true, IfOk};
ghost use Rattle.std.specs.List.{list_any};
ghost use Rattle.ded_io.specs.Counts.{HasCause};
ghost use Rattle.ded_io.specs.Written.{Wrote, each_text};
ghost use Rattle.syn_event.specs.DeclaredTasks.{text_of};
ghost use Rattle.seq_file.specs.Lines.{is_upper_name};
ghost use Rattle.seq_file.specs.Lists.{list_count};
ghost use Rattle.debug_outcome.specs.Coming.{Comes, Never, stop_by};
ghost use Rattle.debug_outcome.specs.Outcomes.{writes};
ghost use Rattle.debug_sequence.specs.RequireOutcomes.{RequiresLines, AreFindings, IsFirstBroken, is_broken, finding_line, broken_line, whole_line, findings_status, refusal_of_constraints};
ghost use Rattle.debug_sequence.specs.inner.Placing.{broken_at};

use crate::reading::read_sequence;
use ada_tree::{Memory, Names};
use debug_outcome::{ConstraintFault, Listed, Refusal, Stop};
use ded_io::decimals::put_number;
use ded_io::{Sink, SinkError};
use std::alloc::Global;
use syn_constraint::{ConError, Constraint, first_break, read_constraints};
use syn_event::{Event, Numbers, show};

// The statuses where a constraint is broken, and where each holds.
const BROKEN: u8 = 14;

const ALL_HOLD: u8 = 0;

/// The first event that breaks a constraint, and its place in the sequence, from 1.
#[derive(Clone, Copy)]
pub struct Broken {
    pub place: u32,
    pub event: Event,
}

/// What is found of the constraint of this number, from 1: where it is broken first, or nothing.
#[derive(Clone, Copy)]
pub struct Finding {
    pub number: u32,
    pub broken: Option<Broken>,
}

/// Writes a line for each of the constraints, in order, that says whether the sequence breaks it and where first, and answers 14 where one is
/// broken, else 0.
///
/// `lines` are the bytes of the sequence, in either format, and `constraints` those of the constraints, both for the program of these names and
/// numbers, whose tasks are all the original's. Bytes that stand for no sequence of it are refused as the reader of sequences refuses them; else bytes
/// that are no constraints are, with the fault of their first bad line. Each constraint takes time in step with the events. What is found of all is
/// kept until the first line is written, so that want of memory comes before it.
pub fn report_breaks<'w, K: Sink>(
    alloc: Global,
    names: &Names,
    numbers: &Numbers,
    lines: &[u8],
    constraints: &[u8],
    out: &mut K,
) -> Result<u8, Stop<'w>>
    requires lines { length lines.now < 2 ^ 32 - 1 }
    requires constraints { length constraints.now < 2 ^ 32 - 1 }
    requires name { is_upper_name (text_of names.now numbers.now.main) ≡ true }
    requires tasks { length numbers.now.tasks ≡ list_count numbers.now }
    ensures { Comes (RequiresLines names.now numbers.now lines.now constraints.now) Never (K.told out.old) (K.told out.new) (K.faults out.old) (K.faults out.new) result }
{
    let events = match read_sequence(alloc, lines, numbers, names) {
        Ok(events) => events,
        Err(stop) => return Err(stop),
    };
    let constraints = match read_constraints(alloc, constraints, numbers) {
        Ok(constraints) => constraints,
        Err(error) => return Err(constraints_failure(error)),
    };
    match findings_of(alloc, &constraints, &events) {
        Ok(findings) => put_report(&findings, out),
        Err(_) => Err(Stop::Memory),
    }
}

// Why a command stops where a file of constraints is refused.
fn constraints_failure<'w>(error: ConError) -> Stop<'w>
    ensures { result ≡ stop_by (refusal_of_constraints error) }
{
    match error {
        ConError::BadLine { line } => bad_constraints(ConstraintFault::BadLine, line),
        ConError::BadNumber { line } => bad_constraints(ConstraintFault::BadNumber, line),
        ConError::TooMany { limit } => Stop::Refused(Refusal::TooMany {
            what: Listed::Constraints,
            limit,
        }),
        ConError::Memory => Stop::Memory,
    }
}

// The refusal of constraints with a bad line.
fn bad_constraints<'w>(fault: ConstraintFault, line: u32) -> Stop<'w>
    ensures { result ≡ Stop.Refused (Refusal.BadConstraints fault line) }
{
    Stop::Refused(Refusal::BadConstraints { fault, line })
}

// What is found of each constraint, in order.
fn findings_of(
    alloc: Global,
    constraints: &[Constraint],
    events: &[Event],
) -> Result<Vec<Finding>, Memory>
    requires events { length events.now < 2 ^ 32 }
    requires constraints { length constraints.now < 2 ^ 32 }
    ensures { IfOk result (λ findings. AreFindings events.now 1 constraints.now findings.items) }
{
    let mut findings = Vec::new(alloc);
    let mut number: u32 = 0;
    for constraint in constraints {
        number += 1;
        let broken = first_broken(alloc, constraint, events)?;
        add(&mut findings, Finding { number, broken })?;
    }
    Ok(findings)
}

fn add(findings: &mut Vec<Finding>, finding: Finding) -> Result<(), Memory>
    ensures { IfOk result (λ _. findings.new.items ≡ findings.old.items ++ finding ∷ []) }
{
    match findings.push(finding) {
        Ok(()) => Ok(()),
        Err(_) => Err(Memory),
    }
}

// The first event that breaks the constraint, with its place, if one does.
fn first_broken(
    alloc: Global,
    constraint: &Constraint,
    events: &[Event],
) -> Result<Option<Broken>, Memory>
    requires { length events.now < 2 ^ 32 }
    ensures { IfOk result (λ broken. IsFirstBroken events.now constraint.now broken) }
{
    match first_break(alloc, constraint, events)? {
        Some(place) => Ok(broken_at(events, place)),
        None => Ok(None),
    }
}

// The place with the event there, if there is one.
fn broken_at(events: &[Event], place: u32) -> Option<Broken>
    ensures { result ≡ broken_at events.now place }
{
    if place == 0 {
        return None;
    }
    match events.get(place as usize - 1) {
        Some(event) => Some(Broken {
            place,
            event: *event,
        }),
        None => None,
    }
}

// Writes the lines of what is found, and answers the status.
fn put_report<'w, K: Sink>(findings: &[Finding], out: &mut K) -> Result<u8, Stop<'w>>
    ensures { Comes (λ o. o ≡ writes (each_text finding_line findings.now) (findings_status findings.now)) Never (K.told out.old) (K.told out.new) (K.faults out.old) (K.faults out.new) result }
{
    match put_findings(findings, out) {
        Ok(()) => Ok(status_of(findings)),
        Err(_) => Err(Stop::OutputFailed),
    }
}

// The status: whether one of the constraints is broken.
fn status_of(findings: &[Finding]) -> u8
    ensures { result ≡ findings_status findings.now }
{
    if is_any_broken(findings) {
        BROKEN
    } else {
        ALL_HOLD
    }
}

fn is_any_broken(findings: &[Finding]) -> bool
    ensures { result ≡ list_any is_broken findings.now }
{
    findings.iter().any(|finding| is_broken(finding))
}

fn is_broken(finding: &Finding) -> bool
    ensures { result ≡ is_broken finding.now }
{
    finding.broken.is_some()
}

// Writes a line for each finding.
fn put_findings<K: Sink>(findings: &[Finding], out: &mut K) -> Result<(), SinkError>
    ensures bytes { Wrote result (K.told out.old) (K.told out.new) (each_text finding_line findings.now) }
    ensures cause { HasCause (K.faults out.old) (K.faults out.new) result }
{
    for finding in findings {
        match put_finding(finding, out) {
            Ok(()) => {}
            Err(error) => return Err(error),
        }
    }
    Ok(())
}

// Writes the line of a finding.
fn put_finding<K: Sink>(finding: &Finding, out: &mut K) -> Result<(), SinkError>
    ensures bytes { Wrote result (K.told out.old) (K.told out.new) (finding_line finding.now) }
    ensures cause { HasCause (K.faults out.old) (K.faults out.new) result }
{
    match finding.broken {
        Some(broken) => put_broken(finding.number, broken, out),
        None => put_whole(finding.number, out),
    }
}

// Writes that the constraint of the number is broken, at which place, and by which event.
#[tactic(auto, using(ded_io::proofs::Writes::writes))]
fn put_broken<K: Sink>(number: u32, broken: Broken, out: &mut K) -> Result<(), SinkError>
    ensures bytes { Wrote result (K.told out.old) (K.told out.new) (broken_line number broken) }
    ensures cause { HasCause (K.faults out.old) (K.faults out.new) result }
{
    out.put(b"breaks ")?;
    put_number(number as u64, out)?;
    out.put(b" at ")?;
    put_number(broken.place as u64, out)?;
    out.put(b" ")?;
    show(&broken.event, out)?;
    out.put(b"\n")
}

// Writes that the constraint of the number holds.
#[tactic(auto, using(ded_io::proofs::Writes::writes))]
fn put_whole<K: Sink>(number: u32, out: &mut K) -> Result<(), SinkError>
    ensures bytes { Wrote result (K.told out.old) (K.told out.new) (whole_line number) }
    ensures cause { HasCause (K.faults out.old) (K.faults out.new) result }
{
    out.put(b"holds ")?;
    put_number(number as u64, out)?;
    out.put(b"\n")
}
