//! That a run of a collecting text records the file of a feasible sequence. The module has no functions of its own but the one that carries the laws.

ghost use Rattle.collect_runs.specs.files.Laws.{MachinesAreRecorded, RecordsMakeFiles, RunsAreRecorded};

/// Carries what the recorder of a text that collects a legal program writes, as a file: the header, each finished line but the first, and Z where the run
/// has ended. It is the text of the recorded events (`texts`). So each run of the text records a sequence that is feasible in the program with the same
/// inputs: some run of the program has exactly its events, with the same outputs, and a quiet one where no action of the text applies any more (`runs`).
/// That holds whatever the inputs and the schedule, and so of the runs of its machine, which has the tasks in a list (`machines`).
pub fn laws()
    ensures texts { RecordsMakeFiles }
    ensures runs { RunsAreRecorded }
    ensures machines { MachinesAreRecorded }
{}
