// What is printed on an output, and how long it is.

ghost use Rattle.std.specs.Prelude.{◌≡◌, min, length};
ghost use Rattle.ada_tree.specs.PlainExpr.{plain_expr};
ghost use Rattle.ada_tree.specs.PlainProgram.{plain_program};
ghost use Rattle.ded_io.specs.Counts.{last_count, HasCause};
ghost use Rattle.ded_io.specs.Written.{Wrote};
ghost use Rattle.ada_printer.specs.ExprText.{expr_text};
ghost use Rattle.ada_printer.specs.ProgramText.{program_text};

use crate::expressions::put_expr;
use crate::whole::put_program;
use ada_tree::{Expr, Names, Program};
use ded_io::pages::Page;
use ded_io::{Sink, SinkError};

/// Appends the text of a program in few writes. It takes no memory. After an error, which comes only where a write failed, a front of the text was appended.
pub fn print<K: Sink>(p: &Program, out: &mut K) -> Result<(), SinkError>
    ensures bytes { Wrote result (K.told out.old) (K.told out.new) (program_text (plain_program p.now)) }
    ensures cause { HasCause (K.faults out.old) (K.faults out.new) result }
{
    let mut page = Page::new();
    put_program(p, &mut page, out);
    page.close(out)
}

/// How many bytes the text of a program has, or 18446744073709551615 where it has more. It takes no memory.
pub fn text_len(p: &Program) -> u64
    ensures { result ≡ min (length (program_text (plain_program p.now))) last_count }
{
    let mut counter = Page::new();
    let mut nowhere = Nowhere { faults: 0 };
    put_program(p, &mut counter, &mut nowhere);
    counter.count()
}

/// Appends the text of an expression, whose names have their texts in `names`, in few writes. It takes no memory. After an error, which comes only where a write failed, a front of the text was appended.
pub fn print_expr<K: Sink>(names: &Names, expr: &Expr, out: &mut K) -> Result<(), SinkError>
    ensures bytes { Wrote result (K.told out.old) (K.told out.new) (expr_text names.now (plain_expr expr.now)) }
    ensures cause { HasCause (K.faults out.old) (K.faults out.new) result }
{
    let mut page = Page::new();
    put_expr(names, expr, &mut page, out);
    page.close(out)
}

/// How many bytes the text of an expression has, or 18446744073709551615 where it has more. It takes no memory.
pub fn expr_len(names: &Names, expr: &Expr) -> u64
    ensures { result ≡ min (length (expr_text names.now (plain_expr expr.now))) last_count }
{
    let mut page = Page::new();
    let mut nowhere = Nowhere { faults: 0 };
    put_expr(names, expr, &mut page, &mut nowhere);
    page.count()
}

// An output that keeps nothing.
#[derive(Drop)]
struct Nowhere {
    faults: u64,
}

impl Sink for Nowhere {
    ghost use Rattle.std.specs.Prelude.{None};

    ghost told = { λ _. None };

    ghost faults = { λ out. out.faults };

    #[tactic(auto, unfolding(ded_io::specs::Written::Wrote))]
    fn put(&mut self, _bytes: &[u8]) -> Result<(), SinkError> {
        Ok(())
    }

    fn faults(&self) -> u64 {
        self.faults
    }
}
