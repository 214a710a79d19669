// The judge.

mod settled;

ghost use Rattle.std.specs.Prelude.{◌≡◌, ◌≤◌, ◌<◌, ◌+◌, ◌^◌, ◌++◌, ◌∷◌, [], ℕ, List, true, false, ◌||◌, length, take, slice_index, All, IsErr, IfOk, OnOk, OnErr};
ghost use Rattle.ada_tree.specs.PlainProgram.{plain_program};
ghost use Rattle.event_machine.specs.declared.Event as event;
ghost use Rattle.event_machine.specs.Tallies.{HasNoEnd};
ghost use Rattle.event_machine.specs.Worlds.{is_last};
ghost use Rattle.task_model.specs.Machine.{ProgramWithInputs};
ghost use Rattle.task_machine.specs.Conditions.{needed_of};
ghost use Rattle.task_machine.specs.Judging.{VerdictIs};
ghost use Rattle.task_machine.specs.Table.{setup_in};
ghost use Rattle.feasible.specs.inner.Deciding.{IsDecided, taken_with, ended_with};
ghost use Rattle.feasible.specs.Failing.{view_at};
ghost use Rattle.feasible.specs.Keeping.{StandsFor, NothingFollows, IsSettled, is_feasible, is_infeasible};
ghost use Rattle.feasible.specs.Rested.{HaveRested, is_changed};
ghost use Rattle.feasible.specs.Shown.{IsShown, Shows};

use crate::conditions::failing;
use crate::happening::{happen, recount};
use crate::settling::settle_needed;
use crate::{TaskView, Verdict};
use ada_tree::{Memory, Program, Types};
use ada_value::{Inputs, Value};
use event_machine::{Event, Standing};
use std::alloc::Global;
use std::marker::Model;
use syn_event::Numbers;
use task_links::Links;
use task_machine::seats::{Seat, offer_at, standing_at};
use task_machine::start_all;

/// Judges the events of a program one after the other. It keeps each task as far as it was run on, with how it stands and its count of local
/// steps, but neither the events nor any queue. A contract sees these as [`Kept`](../specs/Kept.antt); the list of events for which the
/// judge stands is `StandsFor`.
#[derive(Drop)]
pub struct Judge<'p> {
    numbers: &'p Numbers,
    seats: Vec<Seat<'p>>,
    steps: Vec<u64>,
    values: Vec<Value>,
    ended: bool,
    bound: u64,
    taken: u32,
    verdict: Verdict,
    lost: bool,
}

impl<'p> Model for Judge<'p> {
    ghost use Rattle.std.specs.Prelude.{◌≡◌, ◌<◌, length};
    ghost use Rattle.std.specs.Coded.{codes};
    ghost use Rattle.ada_tree.proofs.Codes.{tree_codes};
    ghost use Rattle.task_links.specs.inner.SettingCode.{coded_setting};
    ghost use Rattle.feasible.specs.Kept.{Kept, IsWhole};

    ghost Value = { Kept };

    ghost coded = { Prim.hlevel (codes, tree_codes, coded_setting (Prim.hlevel (codes, tree_codes)) (Prim.hlevel (codes, tree_codes))) };

    ghost view = { λ j. record { numbers = j.numbers.now; tasks = j.seats.items; steps = j.steps.items; ended = j.ended; bound = j.bound; taken = j.taken; verdict = j.verdict; lost = j.lost } };

    ghost invariant = { λ j. IsWhole j.numbers.now j.seats.items j.steps.items };
}

impl<'p> Judge<'p> {
    /// A judge of the program before its first event. To each task `local_bound` local steps are allowed since the last event that
    /// changed it.
    pub fn new(
        alloc: Global,
        links: &'p Links<'p>,
        inputs: &Inputs,
        local_bound: u64,
    ) -> Result<Judge<'p>, Memory>
        ensures stands { IfOk result (λ j. StandsFor (setup_in links.now inputs.now) [] j) }
        ensures numbers { IfOk result (λ j. j.numbers ≡ links.now.numbers) }
        ensures bound { IfOk result (λ j. j.bound ≡ local_bound) }
        ensures taken { IfOk result (λ j. j.taken ≡ 0) }
    {
        let seats = start_all(alloc, links, inputs)?;
        let steps = no_steps(alloc, seats.len())?;
        Ok(Judge {
            numbers: links.numbers(),
            seats,
            steps,
            values: Vec::new(alloc),
            ended: false,
            bound: local_bound,
            taken: 0,
            verdict: Verdict::Feasible,
            lost: false,
        })
    }

    /// The verdict on the events given so far and this one. After a verdict other than feasible it stays that verdict, and after want of
    /// memory the answer is want of memory from then on, and the verdict stays what it was.
    ///
    /// No event is to follow the end of the program, and fewer than 2³² events are to be given.
    pub fn next(&mut self, e: &Event) -> Result<Verdict, Memory>
        requires few { self.old.taken + 1 < 2 ^ 32 }
        // for each list for which the judge stands
        ensures verdict { (setup : ProgramWithInputs) (events : List event.Event) → StandsFor setup events self.old → HasNoEnd events → IfOk result (VerdictIs setup self.old.numbers self.old.bound (events ++ e.now ∷ [])) }
        ensures stands { (setup : ProgramWithInputs) (events : List event.Event) → StandsFor setup events self.old → HasNoEnd events → OnOk result (StandsFor setup (events ++ e.now ∷ []) self.new) }
        ensures settled { is_feasible self.old.verdict ≡ true → IfOk result (λ v. is_infeasible v ≡ true → All (IsSettled self.new.tasks) (needed_of self.old.numbers e.now)) }
        ensures rested { is_feasible self.old.verdict ≡ true → IfOk result (HaveRested self.old.numbers e.now self.new.tasks) }
        // a settled task that the event does not change stays settled
        ensures others { (setup : ProgramWithInputs) (events : List event.Event) → StandsFor setup events self.old → HasNoEnd events → (t : ℕ) → IsSettled self.old.tasks t → IfOk result (λ v. (is_feasible v ≡ true → is_changed self.old.numbers self.old.tasks e.now t ≡ false) → IsSettled self.new.tasks t) }
        ensures last { IfOk result (λ v. v ≡ self.new.verdict) }
        ensures kept { OnErr result (self.new.verdict ≡ self.old.verdict) }
        ensures not_taken { OnErr result (self.new.taken ≡ self.old.taken) }
        ensures not_ended { OnErr result (self.new.ended ≡ self.old.ended) }
        ensures taken { self.new.taken ≤ self.old.taken + 1 }
        ensures grows { self.old.taken ≤ self.new.taken }
        ensures numbers { self.new.numbers ≡ self.old.numbers }
        ensures bound { self.new.bound ≡ self.old.bound }
        ensures stays { is_feasible self.old.verdict ≡ false → self.new ≡ self.old }
        ensures lost { OnErr result (self.new.lost ≡ true) }
        ensures still_lost { self.old.lost ≡ true → IsErr result }
    {
        self.advance(e)
    }

    /// How many local steps the judge allows to a task since the last event that changed it.
    pub fn bound(&self) -> u64
        ensures { result ≡ self.now.bound }
    {
        self.bound
    }

    /// What is seen of a task that is closed, served or settled: a free one has been run on to where it has no local step. The answers of
    /// `next` and `settle` say which tasks are.
    pub fn offer<'a>(&'a self, task: u32) -> TaskView<'a>
        requires { IsSettled self.now.tasks task }
        // after the events that have happened
        ensures view { (setup : ProgramWithInputs) (events : List event.Event) → StandsFor setup events self.now → IsShown setup self.now.numbers (take self.now.taken events) task result }
        ensures shows { Shows (view_at self.now.tasks task) result }
    {
        show_at(&self.seats, task)
    }
}

impl<'p> Judge<'p> {
    // Decides on the event, where none has gone wrong yet.
    fn advance(&mut self, e: &Event) -> Result<Verdict, Memory>
        requires { self.old.taken + 1 < 2 ^ 32 }
        ensures found { OnOk result (self.old.lost ≡ false) }
        ensures stays { is_feasible self.old.verdict ≡ false → self.new ≡ self.old }
        ensures same { is_feasible self.old.verdict ≡ false → IfOk result (λ v. v ≡ self.old.verdict) }
        ensures decided { is_feasible self.old.verdict ≡ true → IfOk result (IsDecided self.old.numbers self.old.bound self.old.taken e.now self.old.tasks self.old.steps self.new.tasks self.new.steps) }
        ensures taken { is_feasible self.old.verdict ≡ true → IfOk result (λ v. self.new.taken ≡ taken_with v self.old.taken) }
        ensures ended { is_feasible self.old.verdict ≡ true → IfOk result (λ v. self.new.ended ≡ ended_with v e.now self.old.ended) }
        ensures few { self.new.taken ≤ self.old.taken + 1 }
        ensures grows { self.old.taken ≤ self.new.taken }
        ensures last { IfOk result (λ v. v ≡ self.new.verdict) }
        ensures numbers { self.new.numbers ≡ self.old.numbers }
        ensures bound { self.new.bound ≡ self.old.bound }
        ensures kept { OnErr result (self.new.verdict ≡ self.old.verdict) }
        ensures not_taken { OnErr result (self.new.taken ≡ self.old.taken) }
        ensures not_ended { OnErr result (self.new.ended ≡ self.old.ended) }
        ensures memory { OnOk result (self.new.lost ≡ false) }
        ensures lost { OnErr result (self.new.lost ≡ true) }
        ensures still_lost { self.old.lost ≡ true → IsErr result }
    {
        if self.lost {
            return Err(Memory);
        }
        if !is_feasible(self.verdict) {
            return Ok(self.verdict);
        }
        match decide(
            &mut self.seats,
            &mut self.steps,
            &mut self.values,
            self.numbers,
            self.bound,
            self.taken,
            e,
        ) {
            Ok(verdict) => {
                if is_feasible(verdict) {
                    self.taken += 1;
                    self.ended = is_last(e) || self.ended;
                }
                self.verdict = verdict;
                Ok(verdict)
            }
            Err(memory) => {
                self.lost = true;
                Err(memory)
            }
        }
    }

    // The last verdict.
    fn verdict(&self) -> Verdict
        ensures { result ≡ self.now.verdict }
    {
        self.verdict
    }
}

/// The verdict on a list of events of a program.
pub fn judge_all(
    alloc: Global,
    p: &Program,
    types: &Types,
    numbers: &Numbers,
    inputs: &Inputs,
    events: &[Event],
    local_bound: u64,
) -> Result<Verdict, Memory>
    requires end { NothingFollows events.now }
    requires few { length events.now < 2 ^ 32 }
    ensures { IfOk result (VerdictIs (record { program = plain_program p.now; types = types.now; inputs = inputs.now }) numbers.now local_bound events.now) }
{
    let links = Links::new(alloc, p, types, numbers)?;
    judge_with(alloc, &links, inputs, events, local_bound)
}

// The verdict on a list of events of a program, of which it is known what its names mean.
fn judge_with(
    alloc: Global,
    links: &Links,
    inputs: &Inputs,
    events: &[Event],
    local_bound: u64,
) -> Result<Verdict, Memory>
    requires end { NothingFollows events.now }
    requires few { length events.now < 2 ^ 32 }
    ensures { IfOk result (VerdictIs (setup_in links.now inputs.now) links.now.numbers local_bound events.now) }
{
    let mut judge = Judge::new(alloc, links, inputs, local_bound)?;
    judge_each(&mut judge, events)
}

// The verdict on all these events, by a judge that has taken none.
pub(crate) fn judge_each(judge: &mut Judge, events: &[Event]) -> Result<Verdict, Memory>
    requires first { judge.old.taken ≡ 0 }
    requires few { length events.now < 2 ^ 32 }
    ensures { (setup : ProgramWithInputs) → StandsFor setup [] judge.old → NothingFollows events.now → IfOk result (VerdictIs setup judge.old.numbers judge.old.bound events.now) }
{
    for e in events {
        match judge.next(e) {
            Ok(_) => {}
            Err(memory) => return Err(memory),
        }
    }
    Ok(judge.verdict())
}

// The counts of so many tasks, all 0.
fn no_steps(alloc: Global, count: usize) -> Result<Vec<u64>, Memory>
    ensures zero { IfOk result (λ steps. (t : ℕ) → slice_index steps.items t ≡ 0) }
    ensures size { IfOk result (λ steps. length steps.items ≡ count) }
{
    let mut steps = Vec::new(alloc);
    for _made in 0..count {
        steps.push(0)?;
    }
    Ok(steps)
}

fn is_feasible(verdict: Verdict) -> bool
    ensures { result ≡ is_feasible verdict }
{
    matches!(verdict, Verdict::Feasible)
}

fn is_last(e: &Event) -> bool
    ensures { result ≡ is_last e.now }
{
    matches!(*e, Event::Z)
}

// Runs the needed tasks on, asks the conditions, and makes the event where all hold.
fn decide(
    seats: &mut [Seat],
    steps: &mut [u64],
    values: &mut Vec<Value>,
    numbers: &Numbers,
    bound: u64,
    taken: u32,
    e: &Event,
) -> Result<Verdict, Memory>
    requires same { length steps.old ≡ length seats.old }
    requires few { length seats.old < 2 ^ 32 }
    requires size { length seats.old ≡ length numbers.now.tasks }
    requires room { taken + 1 < 2 ^ 32 }
    ensures { IfOk result (IsDecided numbers.now bound taken e.now seats.old steps.old seats.new steps.new) }
{
    let at = taken + 1;
    match settle_needed(seats, steps, numbers, bound, e)? {
        Some(task) => Ok(Verdict::Unsettled { at, task }),
        None => match failing(seats, numbers, e) {
            Some(why) => Ok(Verdict::Infeasible { at, why }),
            None => {
                recount(steps, seats, numbers, e);
                happen(seats, values, numbers, e)?;
                Ok(Verdict::Feasible)
            }
        },
    }
}

// What is seen of a task.
fn show_at<'a>(seats: &'a [Seat], t: u32) -> TaskView<'a>
    ensures { Shows (view_at seats.now t) result }
{
    match standing_at(seats, t) {
        Standing::Completed | Standing::Killed => TaskView::Closed,
        Standing::Served { abnormal, .. } => {
            if abnormal {
                TaskView::Closed
            } else {
                TaskView::Busy
            }
        }
        Standing::Live | Standing::Waiting | Standing::Queued => TaskView::At(offer_at(seats, t)),
    }
}
