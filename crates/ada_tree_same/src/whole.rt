// The same programs.

ghost use Rattle.std.specs.Prelude.{◌≡◌, ◌↔◌, IsTrue};
ghost use Rattle.ada_tree.specs.PlainProgram.{plain_program};
ghost use Rattle.ada_tree.specs.Same.{Same};

use crate::declarations::same_decls;
use crate::expressions::same_word;
use crate::statements::same_body;
use ada_tree::Program;

/// Programs that are compared.
pub trait TreeSame {
    /// Whether two programs are equal but for the places in their sources, where names are compared by their texts and not by their ids. It takes no memory.
    fn same(&self, other: &Self) -> bool;
}

impl TreeSame for Program {
    /// Whether two programs are equal but for the places in their sources, where names are compared by their texts and not by their ids. It takes no memory.
    fn same(&self, other: &Program) -> bool
        ensures { IsTrue result ↔ Same (plain_program self.now) (plain_program other.now) }
    {
        self.text_io == other.text_io
            && same_word(&self.names, &other.names, self.name, other.name)
            && same_decls(&self.names, &other.names, &self.decls, &other.decls)
            && same_body(&self.names, &other.names, &self.body, &other.body)
    }
}
