//! The laws of programs that are the same: equal but for places in the text, names compared by their texts. They run alike.
//! The module has no functions of its own but the one that carries the laws.

ghost use Rattle.replay_runs.specs.same.Laws.{SameRunAlike, SameAreFeasible, SameReplays, ReadTextReplays, MetByPlaced, ExampleIsMet};

/// Carries the laws of two programs that are the same (`Same`): the first as `IsNamed` asks, the second with names as `IsNameTable` asks. With the same
/// inputs a list of actions is a run of both or of neither, with the same events and the same output of each task, and behind it both can do the same
/// (`alike`); so a list of events is feasible in both or in neither (`feasible`). A text that replays a sequence of a program does so where it is read
/// again, as a program that is the same (`replays`), and so does a replay text (`read_text`). The premises are met by each well placed program beside
/// itself (`met`), and by two programs whose ids differ (`example`).
pub fn laws()
    ensures alike { SameRunAlike }
    ensures feasible { SameAreFeasible }
    ensures replays { SameReplays }
    ensures read_text { ReadTextReplays }
    ensures met { MetByPlaced }
    ensures example { ExampleIsMet }
{}
