//! What the controller of a replay text does as its program runs. The crate has no functions of its own but the one that carries the laws.

ghost use Rattle.table_law.specs.Examples.{here, ids, names, numbers, own_tasks, controller, entries, operations};
ghost use Rattle.table_law.specs.runs.Permits.{RunsIn, AlwaysStands, AlwaysGoesOn};
ghost use Rattle.table_law.specs.runs.Bodies.{HasBody, BodiesPermit};
ghost use Rattle.replay_model.specs.tables.Tables.{control_objects};
ghost use Rattle.replay_model.specs.tables.ControlBodies.{control_block};
ghost use Rattle.table_law.specs.runs.Example.{setup};

/// Carries the laws of the controller in every run of each program that is as `RunsIn` asks, whatever the inputs and the schedule. It stands before an
/// operation, at the end of an accept body, or some local steps before (`stands`). Each move leaves it as it is, or is the one that it waits for there:
/// a local step, a call of GO or DONE by the operation's task, the end of the rendezvous, or the failing of its call of the task's DED_JOIN (`goes_on`).
/// There is such a program (`met`). Told of objects and statements alone, whatever program has them: those that are defined let the tasks make the
/// operations and nothing else (`bodies`), and there is a program that has them (`has`).
pub fn laws()
    ensures stands { AlwaysStands }
    ensures goes_on { AlwaysGoesOn }
    ensures met { RunsIn setup numbers controller entries operations }
    ensures bodies { BodiesPermit }
    ensures has { HasBody (control_objects ids here operations) (control_block ids own_tasks here operations) operations own_tasks here names setup numbers 2 entries }
{}
