// Loops (5.5).

ghost use Rattle.std.specs.Prelude.{◌≡◌, if◌then◌else◌, option_map, true, Some, OnOk, OnErr};
ghost use Rattle.ada_tree.specs.PlainExpr.{plain_drange, plain_expr};
ghost use Rattle.ada_tree.specs.PlainStmt.{plain_scheme, seen, LWhile};
ghost use Rattle.task_state.specs.frames.Seen.{turns_as};
ghost use Rattle.task_model.specs.Frames.{While};
ghost use Rattle.task_model.specs.Rendezvous.{behind_of};
ghost use Rattle.task_model.specs.Steps.{counted_range, counted_so_far, counting_begun, loop_step, range_checked};
ghost use Rattle.task_model.specs.Tasks.{vars_of};
ghost use Rattle.task_state.specs.Plain.{plain_task};
ghost use Rattle.task_steps.specs.Turning.{TurnsBy, is_backwards, is_counting, turn_left};

use ada_tree::{Drange, Expr, Memory, Scheme, Stmt, Word};
use ada_value::{Limits, Raised, is_empty_range, lies_in};
use task_state::TaskState;
use task_state::frames::Turns;

// A range of a mark that is not empty lies in the mark, else CONSTRAINT_ERROR is raised (3.3.2).
fn range_checked(mark: Limits, range: Limits) -> Result<Limits, Raised>
    ensures { result ≡ range_checked mark range }
{
    if is_empty_range(range) || (lies_in(mark, range.first) && lies_in(mark, range.last)) {
        Ok(range)
    } else {
        Err(Raised::Constraint)
    }
}

// The range over which a loop counts.
fn counted_range(task: &TaskState, range: &Drange) -> Result<Limits, Raised>
    ensures { result ≡ counted_range (plain_task task.now) (plain_drange range.now) }
{
    match range {
        Drange::Given(_) => task.range(range),
        Drange::Marked(marked) => match task.range(range) {
            Ok(limits) => range_checked(task.links.limits_named(marked.mark.name), limits),
            Err(raised) => Err(raised),
        },
    }
}

// The bound at which a loop begins to count.
fn first_of(backwards: bool, range: Limits) -> i64
    ensures { result ≡ (if backwards then range.last else range.first) }
{
    if backwards { range.last } else { range.first }
}

// The bound up to which it counts.
fn last_of(backwards: bool, range: Limits) -> i64
    ensures { result ≡ (if backwards then range.first else range.last) }
{
    if backwards { range.first } else { range.last }
}

// The first turn of a counting loop; none where the range is empty.
fn begin_counting<'p>(
    task: &mut TaskState<'p>,
    name: Option<Word>,
    word: Word,
    backwards: bool,
    stmts: &'p [Stmt],
    range: Limits,
) -> Result<(), Memory>
    ensures ok { OnOk result (plain_task task.new ≡ counting_begun name word backwards (seen stmts.now) (behind_of (plain_task task.old)) (plain_task task.old) range) }
    ensures err { OnErr result (plain_task task.new ≡ plain_task task.old) }
{
    if is_empty_range(range) {
        task.go_on();
        return Ok(());
    }
    let first = first_of(backwards, range);
    let last = last_of(backwards, range);
    let turns = Turns::Counting { backwards, last };
    task.enter_counting(name, word, range.kind, first, turns, stmts)
}

/// The first step of a loop: the test or the bounds, and the first turn where there is one (5.5). It fails by want of memory alone.
pub fn step_loop<'p>(
    task: &mut TaskState<'p>,
    name: Option<Word>,
    scheme: &'p Option<Scheme>,
    stmts: &'p [Stmt],
) -> Result<(), Memory>
    ensures ok { OnOk result (plain_task task.new ≡ loop_step name (option_map plain_scheme scheme.now) (seen stmts.now) (behind_of (plain_task task.old)) (plain_task task.old)) }
    ensures err { OnErr result (plain_task task.new ≡ plain_task task.old) }
{
    match scheme {
        None => task.enter_loop(name, Turns::Endless, stmts),
        Some(Scheme::While(test)) => begin_while(task, name, test, stmts),
        Some(
            Scheme::For {
                name: word,
                reverse,
                range,
            },
        ) => match counted_range(task, range) {
            Ok(limits) => begin_counting(task, name, *word, *reverse, stmts, limits),
            Err(raised) => {
                task.raise(raised);
                Ok(())
            }
        },
    }
}

// The first turn of a loop with a condition, where it holds.
fn begin_while<'p>(
    task: &mut TaskState<'p>,
    name: Option<Word>,
    test: &'p Expr,
    stmts: &'p [Stmt],
) -> Result<(), Memory>
    ensures ok { OnOk result (plain_task task.new ≡ loop_step name (Some (LWhile (plain_expr test.now))) (seen stmts.now) (behind_of (plain_task task.old)) (plain_task task.old)) }
    ensures err { OnErr result (plain_task task.new ≡ plain_task task.old) }
{
    match task.condition(test) {
        Ok(holds) => {
            if holds {
                task.enter_loop(name, Turns::While(test), stmts)
            } else {
                task.go_on();
                Ok(())
            }
        }
        Err(raised) => {
            task.raise(raised);
            Ok(())
        }
    }
}

// Whether a counting loop has not reached its last position yet; of other loops it tells nothing.
fn has_turn(task: &TaskState, turns: Turns) -> bool
    ensures { result ≡ turn_left (turns_as turns.entry) (counted_so_far (vars_of (plain_task task.now))) }
{
    let position = task.counted();
    match turns {
        Turns::Endless => true,
        Turns::While(_) => true,
        Turns::Counting { backwards, last } => {
            if backwards {
                last < position
            } else {
                position < last
            }
        }
    }
}

// Whether a loop counts backwards.
fn is_backwards(turns: Turns) -> bool
    ensures { result ≡ is_backwards (turns_as turns.entry) }
{
    match turns {
        Turns::Endless => false,
        Turns::While(_) => false,
        Turns::Counting { backwards, .. } => backwards,
    }
}

// The next turn of a loop with a condition, or its leave.
fn turn_while(task: &mut TaskState, test: &Expr)
    ensures { TurnsBy (While (plain_expr test.now)) (plain_task task.old) (plain_task task.new) }
{
    match task.condition(test) {
        Ok(holds) => {
            if holds {
                task.begin_turn();
            } else {
                task.leave_loop();
            }
        }
        Err(raised) => task.raise(raised),
    }
}

// The next turn of a counting loop, or its leave: the parameter is compared before it is counted on.
fn turn_counting(task: &mut TaskState, turns: Turns) -> Result<(), Memory>
    ensures ok { OnOk result (is_counting (turns_as turns.entry) ≡ true → TurnsBy (turns_as turns.entry) (plain_task task.old) (plain_task task.new)) }
    ensures err { OnErr result (plain_task task.new ≡ plain_task task.old) }
{
    if has_turn(task, turns) {
        task.count_on(is_backwards(turns))?;
        task.begin_turn();
        Ok(())
    } else {
        task.leave_loop();
        Ok(())
    }
}

/// The step at the end of a loop's statements: its next turn, or its leave (5.5). It fails by want of memory alone.
pub fn step_turn<'p>(task: &mut TaskState<'p>, turns: Turns<'p>) -> Result<(), Memory>
    ensures ok { OnOk result (TurnsBy (turns_as turns.entry) (plain_task task.old) (plain_task task.new)) }
    ensures err { OnErr result (plain_task task.new ≡ plain_task task.old) }
{
    match turns {
        Turns::Endless => {
            task.begin_turn();
            Ok(())
        }
        Turns::While(test) => {
            turn_while(task, test);
            Ok(())
        }
        Turns::Counting { .. } => turn_counting(task, turns),
    }
}
