//! The sequence that a run of a collecting text records, on the output.

ghost use Rattle.std.specs.Prelude.{◌≡◌, ◌≤◌, ◌++◌, length, IfOk, OnOk};
ghost use Rattle.ada_tree.specs.PlainProgram.{plain_program};
ghost use Rattle.ada_static_rules.specs.Refusals.{types_in};
ghost use Rattle.ded_io.specs.Written.{each_text};
ghost use Rattle.syn_event.specs.AllNumbers.{all_numbers};
ghost use Rattle.syn_event.specs.declared.numbering.Mode.TheVariants.{Any, Original};
ghost use Rattle.normal_laws.specs.existence.Laws.{IsLegalOriginal};
ghost use Rattle.syn_event.specs.Legal.{Legal};
ghost use Rattle.debug_outcome.specs.Coming.{Comes, Never};
ghost use Rattle.debug_outcome.specs.Outcomes.{writes};
ghost use Rattle.debug_run.specs.RunOutcomes.{run_status};
ghost use Rattle.debug_run.specs.texts.OutputText.{finished_lines};
ghost use Rattle.collect_runs.specs.files.Files.{end_line, ended_line};
ghost use Rattle.debug_collect.specs.Recorded.{IsRecorded, event_lines, is_ended, opening, recorded_text, recorder_of};
ghost use Rattle.debug_collect.specs.inner.Running.{IsFileOf};

use crate::nowhere::Nowhere;
use ada_check::{CheckError, Checked, check};
use ada_tree::{Memory, Names, Program, Types};
use ada_value::Inputs;
use collect_abort::{collecting, header_text};
use debug_outcome::Stop;
use debug_run::status_of;
use ded_io::{Chooser, Sink};
use interp::{RunEnd, RunError, run};
use normal_parts::last_task;
use seq_file::text_lines::cut_at;
use std::alloc::Global;
use syn_event::{Mode, Numbers};
use task_links::Links;
use task_machine::Machine;

/// The file of a sequence that a run records, and how the run ended.
#[derive(Drop)]
pub(crate) struct Recorded {
    pub(crate) file: Vec<u8>,
    pub(crate) end: RunEnd,
}

/// Runs the collecting text of a legal original with its types and numbers, with these inputs, each turn making the
/// action that the next choice picks, for at most `turns` actions, and writes the sequence file of what its recorder has written. That is the file of a
/// sequence which is feasible in the program with these inputs. It answers 0 where the run has ended, 10 where no action applies any more, and 11 where
/// all turns were made and more actions apply. All of the file is made before any of it is put.
pub fn write_recorded<'w, C: Chooser, K: Sink>(
    alloc: Global,
    program: &Program,
    types: &Types,
    numbers: &Numbers,
    inputs: &Inputs,
    choices: &mut C,
    turns: u64,
    out: &mut K,
) -> Result<u8, Stop<'w>>
    requires legal { IsLegalOriginal (plain_program program.now) }
    requires own { Legal (plain_program program.now) types.now numbers.now Original }
    ensures { Comes (IsRecorded C.word C.next (plain_program program.now) types.now numbers.now inputs.now choices.old turns) Never (K.told out.old) (K.told out.new) (K.faults out.old) (K.faults out.new) result }
{
    let text = match collecting(alloc, program, types, numbers) {
        Ok(text) => text,
        Err(Memory) => return Err(Stop::Memory),
    };
    match record(
        alloc,
        &program.names,
        numbers,
        &text,
        inputs,
        choices,
        turns,
    ) {
        Ok(recorded) => put_recorded(&recorded, out),
        Err(Memory) => Err(Stop::Memory),
    }
}

// Writes the file of a run, and answers the status of its end.
fn put_recorded<'w, K: Sink>(recorded: &Recorded, out: &mut K) -> Result<u8, Stop<'w>>
    ensures { Comes (λ o. o ≡ writes recorded.now.file.items (run_status recorded.now.end)) Never (K.told out.old) (K.told out.new) (K.faults out.old) (K.faults out.new) result }
{
    match out.put(recorded.file.as_slice()) {
        Ok(()) => Ok(status_of(recorded.end)),
        Err(_) => Err(Stop::OutputFailed),
    }
}

// Runs a legal text with its own types and numbers, and gives the file of what its recorder has written for the program of these names and numbers.
fn record<C: Chooser>(
    alloc: Global,
    names: &Names,
    numbers: &Numbers,
    text: &Program,
    inputs: &Inputs,
    choices: &mut C,
    turns: u64,
) -> Result<Recorded, Memory>
    requires few { length numbers.now.tasks ≤ 201 }
    requires legal { let p = plain_program text.now in Legal p (types_in p) (all_numbers (types_in p) p) Any }
    ensures { IfOk result (IsFileOf C.word C.next names.now numbers.now (opening (plain_program text.now) inputs.now) choices.old turns) }
{
    match check(alloc, text, Mode::Any) {
        Ok(checked) => {
            record_checked(
                alloc, names, numbers, text, &checked, inputs, choices, turns,
            )
        }
        Err(CheckError::Memory) => Err(Memory),
        Err(_) => unreachable!(),
    }
}

// The same with the types and numbers that were found.
fn record_checked<C: Chooser>(
    alloc: Global,
    names: &Names,
    numbers: &Numbers,
    text: &Program,
    checked: &Checked,
    inputs: &Inputs,
    choices: &mut C,
    turns: u64,
) -> Result<Recorded, Memory>
    requires few { length numbers.now.tasks ≤ 201 }
    requires legal { Legal (plain_program text.now) checked.now.types checked.now.numbers Any }
    ensures { IfOk result (IsFileOf C.word C.next names.now numbers.now (opening (plain_program text.now) inputs.now) choices.old turns) }
{
    let links = Links::new(alloc, text, &checked.types, &checked.numbers)?;
    match Machine::new(alloc, &links, inputs) {
        Ok(mut machine) => {
            record_machine(
                alloc,
                names,
                numbers,
                &checked.numbers,
                &mut machine,
                choices,
                turns,
            )
        }
        Err(Memory) => Err(Memory),
    }
}

// The same of a machine, whose text has the numbers `its`.
fn record_machine<C: Chooser>(
    alloc: Global,
    names: &Names,
    numbers: &Numbers,
    its: &Numbers,
    machine: &mut Machine<'_>,
    choices: &mut C,
    turns: u64,
) -> Result<Recorded, Memory>
    requires few { length numbers.now.tasks ≤ 201 }
    ensures { IfOk result (IsFileOf C.word C.next names.now numbers.now machine.old choices.old turns) }
{
    let end = match run(alloc, machine, its, choices, turns, &mut Nowhere::new()) {
        Ok(report) => report.end,
        Err(RunError::Memory) => return Err(Memory),
        Err(RunError::Sink) => unreachable!(),
    };
    let output = machine.output(recorder_of(numbers));
    let file = sequence_file(alloc, names, numbers, output, end)?;
    Ok(Recorded { file, end })
}

// The number of the recorder.
fn recorder_of(numbers: &Numbers) -> u32
    requires { length numbers.now.tasks ≤ 201 }
    ensures { result ≡ recorder_of numbers.now }
{
    last_task(numbers) + 1
}

// The sequence file by what the recorder has written.
fn sequence_file(
    alloc: Global,
    names: &Names,
    numbers: &Numbers,
    output: &[u8],
    end: RunEnd,
) -> Result<Vec<u8>, Memory>
    ensures { IfOk result (λ file. file.items ≡ recorded_text names.now numbers.now output.now end) }
{
    let header = header_text(alloc, names, numbers)?;
    let mut file: Vec<u8> = Vec::from_slice(alloc, header.as_bytes())?;
    file.push(b'\n')?;
    put_events(output, &mut file)?;
    put_end(end, &mut file)?;
    Ok(file)
}

// The line of the end goes behind others, where the run has ended.
fn put_end(end: RunEnd, file: &mut Vec<u8>) -> Result<(), Memory>
    ensures { OnOk result (file.new.items ≡ file.old.items ++ end_line (is_ended end)) }
{
    match end {
        RunEnd::Ended => {
            file.extend_from_slice(b"Z\n")?;
            Ok(())
        }
        RunEnd::Stuck => Ok(()),
        RunEnd::Turns => Ok(()),
    }
}

// The lines of events that the recorder has finished go behind others: all but its first.
fn put_events(output: &[u8], file: &mut Vec<u8>) -> Result<(), Memory>
    ensures { OnOk result (file.new.items ≡ file.old.items ++ each_text ended_line (event_lines output.now)) }
{
    match cut_at(output, b'\n') {
        Some((_, behind)) => put_finished(behind, file),
        None => Ok(()),
    }
}

// The finished lines of an output go behind others.
fn put_finished(output: &[u8], file: &mut Vec<u8>) -> Result<(), Memory>
    ensures { OnOk result (file.new.items ≡ file.old.items ++ each_text ended_line (finished_lines output.now)) }
{
    let mut rest = output;
    while let Some((line, behind)) = cut_at(rest, b'\n') {
        file.extend_from_slice(line)?;
        file.push(b'\n')?;
        rest = behind;
    }
    Ok(())
}
