// Which programs have abort statements.

ghost use Rattle.std.specs.Prelude.{◌≡◌};
ghost use Rattle.ada_tree.specs.PlainProgram.{plain_program};
ghost use Rattle.collect_model.specs.aborts.Promised.{has_abort};

use ada_tree::Program;
use collect_xform::first_abort;

/// Whether an abort statement stands in a program, also in the body of a task type without objects. It takes no memory, and time linear in the program.
pub fn has_abort(p: &Program) -> bool
    ensures { result ≡ has_abort (plain_program p.now) }
{
    first_abort(p).is_some()
}
