//! What the recorder of a collecting text does, task by task. The module has no functions of its own but the one that carries the laws.

ghost use Rattle.collect_runs.specs.recorder.Laws.{RecordersTakeNotes};

/// Carries what a recorder does in every program that is as `IsRecorder` asks, whoever tells it what (`takes`). Its first step writes the header, and
/// from there it comes to its wait, at which it takes a note or terminates. As a task has told it a note (`Tells`) it comes to where it writes the
/// event's line: piece by piece, one local step each, and then the line's end. From there it comes to the end of its accept body, with the answer, and
/// as the rendezvous has ended to its wait again. What it keeps and answers is what the law of collecting says (`run_laws: collecting`).
pub fn laws()
    ensures takes { RecordersTakeNotes }
{}
