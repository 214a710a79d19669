// What a judge tells between events: whether a task comes to rest, whether the program has ended, who is a caller in a rendezvous.

ghost use Rattle.std.specs.Prelude.{◌≡◌, ◌↔◌, ℕ, List, true, false, take, IsErr, IfOk, OnOk, OnErr};
ghost use Rattle.event_machine.specs.declared.Event as event;
ghost use Rattle.event_machine.specs.States.{is_served};
ghost use Rattle.task_model.specs.Machine.{ProgramWithInputs};
ghost use Rattle.task_machine.specs.Table.{seat_of};
ghost use Rattle.task_machine.specs.Views.{IsOpenAt, StandsIn};
ghost use Rattle.feasible.specs.Keeping.{StandsFor, IsSettled, HaveEnded};
ghost use Rattle.feasible.specs.inner.Needs.{HaveRun, IsStuck};

use super::Judge;
use crate::settling::settle;
use ada_tree::Memory;
use event_machine::Standing;
use task_machine::seats::standing_at;

impl<'p> Judge<'p> {
    /// Runs a task on, where it is free, until it has no local step left or has made as many as are allowed since the last event that
    /// changed it: whether it is closed, served or settled then. Nothing else changes: the judge stands for what it stood for before.
    ///
    /// After want of memory the judge answers want of memory from then on.
    pub fn settle(&mut self, task: u32) -> Result<bool, Memory>
        // for each list for which the judge stands: it says no exactly where the task is free and has a local step beyond the bound
        ensures exact { (setup : ProgramWithInputs) (events : List event.Event) → StandsFor setup events self.old → IfOk result (λ settled. (settled ≡ false) ↔ IsOpenAt setup self.old.numbers (take self.old.taken events) task self.old.bound) }
        ensures stands { (setup : ProgramWithInputs) (events : List event.Event) → StandsFor setup events self.old → OnOk result (StandsFor setup events self.new) }
        ensures settled { IfOk result (λ settled. settled ≡ true → IsSettled self.new.tasks task) }
        ensures others { (t : ℕ) → IsSettled self.old.tasks t → OnOk result (IsSettled self.new.tasks t) }
        ensures numbers { self.new.numbers ≡ self.old.numbers }
        ensures bound { self.new.bound ≡ self.old.bound }
        ensures taken { self.new.taken ≡ self.old.taken }
        ensures ended { self.new.ended ≡ self.old.ended }
        ensures verdict { self.new.verdict ≡ self.old.verdict }
        ensures found { OnOk result (self.old.lost ≡ false) }
        ensures memory { OnOk result (self.new.lost ≡ false) }
        ensures lost { OnErr result (self.new.lost ≡ true) }
    {
        self.run_task(task)
    }

    /// Gives the judge up, where its caller is out of memory: it answers want of memory from then on. All else stays.
    pub fn give_up(&mut self)
        ensures lost { self.new.lost ≡ true }
        ensures numbers { self.new.numbers ≡ self.old.numbers }
        ensures bound { self.new.bound ≡ self.old.bound }
        ensures taken { self.new.taken ≡ self.old.taken }
        ensures verdict { self.new.verdict ≡ self.old.verdict }
        ensures ended { self.new.ended ≡ self.old.ended }
        ensures tasks { self.new.tasks ≡ self.old.tasks }
        ensures steps { self.new.steps ≡ self.old.steps }
    {
        self.lost = true;
    }

    /// Whether the last of the events that have happened is the end of the program.
    pub fn ended(&self) -> bool
        ensures is { result ≡ self.now.ended }
        // for each list for which the judge stands
        ensures exact { (setup : ProgramWithInputs) (events : List event.Event) → StandsFor setup events self.now → (result ≡ true) ↔ HaveEnded (take self.now.taken events) }
    {
        self.ended
    }

    /// Whether the task of this number is a caller in a rendezvous, abnormal or not, after the events that have happened.
    pub fn served(&self, task: u32) -> bool
        ensures is { result ≡ is_served (seat_of self.now.tasks task).standing }
        // for each list for which the judge stands
        ensures exact { (setup : ProgramWithInputs) (events : List event.Event) → StandsFor setup events self.now → (result ≡ true) ↔ StandsIn setup self.now.numbers (take self.now.taken events) task is_served }
    {
        is_served(standing_at(&self.seats, task))
    }
}

impl<'p> Judge<'p> {
    // Runs a task on, where it is free: whether it is settled.
    fn run_task(&mut self, task: u32) -> Result<bool, Memory>
        ensures run { OnOk result (HaveRun self.old.bound self.old.tasks self.old.steps self.new.tasks self.new.steps) }
        ensures settled { IfOk result (λ settled. settled ≡ true → IsSettled self.new.tasks task) }
        ensures stuck { IfOk result (λ settled. settled ≡ false → IsStuck self.old.bound self.new.tasks self.new.steps task) }
        ensures numbers { self.new.numbers ≡ self.old.numbers }
        ensures bound { self.new.bound ≡ self.old.bound }
        ensures taken { self.new.taken ≡ self.old.taken }
        ensures ended { self.new.ended ≡ self.old.ended }
        ensures verdict { self.new.verdict ≡ self.old.verdict }
        ensures found { OnOk result (self.old.lost ≡ false) }
        ensures memory { OnOk result (self.new.lost ≡ false) }
        ensures lost { OnErr result (self.new.lost ≡ true) }
    {
        if self.lost {
            return Err(Memory);
        }
        match settle(&mut self.seats, &mut self.steps, self.bound, task) {
            Ok(settled) => Ok(settled),
            Err(memory) => {
                self.lost = true;
                Err(memory)
            }
        }
    }
}

fn is_served(standing: Standing) -> bool
    ensures { result ≡ is_served standing }
{
    matches!(standing, Standing::Served { .. })
}
