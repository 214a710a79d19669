// Copies of whole programs.

ghost use Rattle.std.specs.Prelude.{◌≡◌, IfOk};
ghost use Rattle.ada_tree.specs.PlainProgram.{plain_program};
ghost use Rattle.ada_tree.specs.Same.{Same};

use crate::TreeCopy;
use crate::building::program_of;
use crate::declarations::copy_decls;
use ada_stmt_copy::StmtCopy;
use ada_tree::{Memory, Program};
use std::alloc::Global;

impl TreeCopy for Program {
    /// A copy that differs in nothing: it has the same names under the same ids, and the same places.
    fn copy(&self, alloc: Global) -> Result<Program, Memory>
        ensures equal { IfOk result (λ copy. plain_program copy ≡ plain_program self.now) }
        ensures same { IfOk result (λ copy. Same (plain_program self.now) (plain_program copy)) }
    {
        let names = self.names.copy(alloc);
        let decls = copy_decls(alloc, &self.decls);
        let body = self.body.copy(alloc);
        program_of(names, self.text_io, self.name, decls, body)
    }
}
