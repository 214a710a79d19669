// Whole programs.
#![tactic(auto, using(crate::proofs::Listed::listed))]

ghost use Rattle.ada_tree.specs.PlainProgram.{plain_program};
ghost use Rattle.ada_printer.specs.ProgramText.{context_text, program_text};
ghost use Rattle.ded_io.specs.pages.Pages.{Drew, over};

use crate::declarations::{put_decls, put_unit};
use crate::names_and_literals::put_word;
use ada_tree::Program;
use ded_io::Sink;
use ded_io::pages::Page;

// The two context clauses, where they stand.
fn put_context<K: Sink>(text_io: bool, page: &mut Page, out: &mut K)
    ensures { Drew (over page.old (K.told out.old) (K.faults out.old)) (over page.new (K.told out.new) (K.faults out.new)) (context_text text_io) }
{
    if text_io {
        page.put(b"with TEXT_IO;\n", out);
        page.put(b"use TEXT_IO;\n", out);
    }
}

pub(crate) fn put_program<K: Sink>(program: &Program, page: &mut Page, out: &mut K)
    ensures { Drew (over page.old (K.told out.old) (K.faults out.old)) (over page.new (K.told out.new) (K.faults out.new)) (program_text (plain_program program.now)) }
{
    put_context(program.text_io, page, out);
    page.put(b"procedure ", out);
    put_word(&program.names, program.name, page, out);
    page.put(b" is\n", out);
    put_decls(&program.names, 1, &program.decls, page, out);
    put_unit(&program.names, 0, &program.body, program.name, page, out);
}
