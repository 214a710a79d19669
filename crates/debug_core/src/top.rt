// The program's one call.

ghost use Rattle.std.specs.Prelude.{◌≡◌, ◌≤◌, ℕ, map, string_bytes, MatchResult};
ghost use Rattle.load_gen.specs.LoadTree.{most_producers};
ghost use Rattle.debug_outcome.specs.words.Words.{asked_by};
ghost use Rattle.debug_outcome.specs.words.Commands.{asked_as};
ghost use Rattle.debug_outcome.specs.declared.words.command.Command.TheVariants.{Load};
ghost use Rattle.debug_outcome.specs.Coming.{Comes};
ghost use Rattle.debug_outcome.specs.Delivery.{Sides};
ghost use Rattle.debug_outcome.specs.Traces.{HasLoads};
ghost use Rattle.debug_core.specs.Answers.{sides, Answers, AnswersNoWords, CallsFor, GrowsFor, TellsNoWords};

use crate::check_command::check_command;
use crate::collect_command::collect_command;
use crate::collect_run_command::collect_run_command;
use crate::continue_command::continue_command;
use crate::judge_command::judge_command;
use crate::migrate_command::migrate_command;
use crate::print_command::print_command;
use crate::replay_command::replay_command;
use crate::require_command::require_command;
use crate::run_command::run_command;
use crate::variants_command::variants_command;
use debug_collect::loads::write_load;
use debug_outcome::words::{Command, NoWords, command_of};
use debug_outcome::{Refusal, Stop, TracedFiles, tell};
use ded_io::Sink;
use std::alloc::Global;

/// All that the program does: takes its words without the program's own name, reads from `files`, writes to `out` and `err`, and answers the
/// status with which it ends.
///
/// The usages are `print FILE`, `check FILE`, `replay FILE SEQUENCE`, `migrate FILE SEQUENCE`, `require FILE SEQUENCE CONSTRAINTS`,
/// `run FILE IN CHOICES TURNS`, `judge FILE IN SEQUENCE STEPS`, `variants FILE IN SEQUENCE STEPS`,
/// `continue FILE IN SEQUENCE CHOICES COUNT STEPS`, `collect FILE`, `collect-run FILE IN CHOICES TURNS` and `load PRODUCERS`. The statuses are 0 done; 10 no action applied any more and 11 all turns were made, of a run;
/// 4 the sequence is infeasible and 5 it is not settled, where it is judged; 10 nothing can come any more, 5 that is not settled and 11 all events
/// were added, of going on; 14 the sequence breaks a constraint; 1 the program's text is refused, 2 the words are none of these, 3 the sequence is
/// refused, 6 a file cannot be read, 7 an output cannot be written, 8 a limit is passed, 9 out of memory, 12 the inputs or the choices are refused,
/// 13 the program cannot be collected, since it has an abort statement, 15 the constraints are refused. With 1, 2, 3, 6, 8, 9, 12, 13 and 15 a line stands on `err`, and with these but 9 nothing on `out`. After a write
/// that failed nothing is put.
pub fn debug_main<F: TracedFiles, O: Sink, E: Sink>(
    alloc: Global,
    words: &[String],
    files: &mut F,
    out: &mut O,
    err: &mut E,
) -> u8
    ensures answer { HasLoads F.leads files.old files.new (λ loads. Answers (asked_by (map string_bytes words.now))
        (sides F.told F.faults O.told O.faults E.told E.faults files.old files.new out.old out.new err.old err.new loads) result) }
{
    match command_of(words) {
        Some(command) => match carry_out(alloc, command, files, out) {
            Ok(status) => status,
            Err(stop) => tell(stop, err),
        },
        None => tell(Stop::Refused(Refusal::Usage), err),
    }
}

/// All that the program does, given what came of its words: what `debug_main` does with them, and the same as for words that are no usage
/// where one of them is no text. Where there was no memory for them the status is 9, with its line, or 7 where that cannot be written.
pub fn debug_program<F: TracedFiles, O: Sink, E: Sink>(
    alloc: Global,
    words: Result<Vec<String>, NoWords>,
    files: &mut F,
    out: &mut O,
    err: &mut E,
) -> u8
    ensures answer { HasLoads F.leads files.old files.new (λ loads.
        let s : Sides = sides F.told F.faults O.told O.faults E.told E.faults files.old files.new out.old out.new err.old err.new loads in
        MatchResult words (λ given. Answers (asked_by (map string_bytes given.items)) s result) (λ why. AnswersNoWords why s result)) }
{
    match words {
        Ok(words) => debug_main(alloc, words.as_slice(), files, out, err),
        Err(why) => tell_no_words(why, err),
    }
}

// Tells on the error output why there are no words.
fn tell_no_words<E: Sink>(why: NoWords, err: &mut E) -> u8
    ensures { TellsNoWords why (E.told err.old) (E.told err.new) (E.faults err.old) (E.faults err.new) result }
{
    match why {
        NoWords::NotText => tell(Stop::Refused(Refusal::Usage), err),
        NoWords::Memory => tell(Stop::Memory, err),
    }
}

// Carries a command out, up to what is told on the error output.
fn carry_out<'w, F: TracedFiles, O: Sink>(
    alloc: Global,
    command: Command<'w>,
    files: &mut F,
    out: &mut O,
) -> Result<u8, Stop<'w>>
    requires { (n : ℕ) → command ≡ Load n → n ≤ most_producers }
    ensures { HasLoads F.leads files.old files.new (λ loads. Comes (CallsFor (asked_as command.entry) (F.told files.old) (F.faults files.old) (F.faults files.new) loads) (GrowsFor (asked_as command.entry) (F.told files.old) (F.faults files.old) (F.faults files.new) loads) (O.told out.old) (O.told out.new) (O.faults out.old) (O.faults out.new) result) }
{
    match command {
        Command::Print(file) => print_command(alloc, file, files, out),
        Command::Check(file) => check_command(alloc, file, files, out),
        Command::Run(asked) => run_command(alloc, asked, files, out),
        Command::Judge(asked) => judge_command(alloc, asked, files, out),
        Command::Replay(asked) => replay_command(alloc, asked, files, out),
        Command::Require(asked) => require_command(alloc, asked, files, out),
        Command::Migrate(asked) => migrate_command(alloc, asked, files, out),
        Command::Variants(asked) => variants_command(alloc, asked, files, out),
        Command::Continue(asked) => continue_command(alloc, asked, files, out),
        Command::Collect(file) => collect_command(alloc, file, files, out),
        Command::CollectRun(asked) => collect_run_command(alloc, asked, files, out),
        Command::Load(n) => write_load(alloc, n, out),
    }
}
