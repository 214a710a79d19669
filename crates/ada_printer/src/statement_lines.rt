// Lines of statements: simple statements, and the lines that compound statements begin, part and end with.
#![tactic(auto, using(crate::proofs::Listed::listed))]

ghost use Rattle.std.specs.Prelude.{◌≡◌, codes, map, option_map};
ghost use Rattle.ada_tree.specs.PlainExpr.{plain_expr};
ghost use Rattle.ada_tree.specs.PlainStmt.{plain_target, plain_callee, plain_call, plain_part, plain_choice, plain_scheme};
ghost use Rattle.ded_io.specs.Written.{◌⧺◌};
ghost use Rattle.ada_printer.specs.Layout.{deeper as level_below, indent, separated, later_word, word_text};
ghost use Rattle.ada_printer.specs.ExprText.{expr_text};
ghost use Rattle.ada_printer.specs.StmtText.{target_text, callee_text, call_text, delay_text, parts_text, choice_text, caught_text, when_text, label_text, scheme_text};
ghost use Rattle.ded_io.specs.pages.Pages.{Drew, over};

use crate::calls::{
    put_call, put_callees, put_caught, put_choices, put_label, put_parts, put_scheme, put_target,
    put_when,
};
use crate::expressions::put_expr;
use crate::names_and_literals::{put_duration, put_indent, put_later_word, put_word};
use ada_tree::{Call, Callee, CaseChoice, Expr, Names, Part, Scheme, Target, Word};
use ded_io::Sink;
use ded_io::pages::Page;

// The level of what stands inside.
pub(crate) fn deeper(level: u32) -> u32
    ensures { result ≡ level_below level }
{
    level.saturating_add(1)
}

// A line without names.
pub(crate) fn put_line<K: Sink>(level: u32, line: &[u8], page: &mut Page, out: &mut K)
    ensures { Drew (over page.old (K.told out.old) (K.faults out.old)) (over page.new (K.told out.new) (K.faults out.new)) (indent level ⧺ line.now) }
{
    put_indent(level, page, out);
    page.put(line, out);
}

// `X := 1;`
pub(crate) fn put_assign<K: Sink>(
    names: &Names,
    target: &Target,
    value: &Expr,
    page: &mut Page,
    out: &mut K,
)
    ensures { Drew (over page.old (K.told out.old) (K.faults out.old)) (over page.new (K.told out.new) (K.faults out.new)) (target_text names.now (plain_target target.now) ⧺ (codes " := " ⧺ (expr_text names.now (plain_expr value.now) ⧺ codes ";\n"))) }
{
    put_target(names, target, page, out);
    page.put(b" := ", out);
    put_expr(names, value, page, out);
    page.put(b";\n", out);
}

// `delay 1.5;`
pub(crate) fn put_delay<K: Sink>(thousandths: u32, page: &mut Page, out: &mut K)
    ensures { Drew (over page.old (K.told out.old) (K.faults out.old)) (over page.new (K.told out.new) (K.faults out.new)) (delay_text thousandths) }
{
    page.put(b"delay ", out);
    put_duration(thousandths, page, out);
    page.put(b";\n", out);
}

// `exit L when X;`
pub(crate) fn put_exit<K: Sink>(
    names: &Names,
    name: Option<Word>,
    test: &Option<Expr>,
    page: &mut Page,
    out: &mut K,
)
    ensures { Drew (over page.old (K.told out.old) (K.faults out.old)) (over page.new (K.told out.new) (K.faults out.new)) (codes "exit" ⧺ (later_word names.now name ⧺ (when_text names.now (option_map plain_expr test.now) ⧺ codes ";\n"))) }
{
    page.put(b"exit", out);
    put_later_word(names, name, page, out);
    put_when(names, test, page, out);
    page.put(b";\n", out);
}

// `raise E;`
pub(crate) fn put_raise<K: Sink>(names: &Names, name: Option<Word>, page: &mut Page, out: &mut K)
    ensures { Drew (over page.old (K.told out.old) (K.faults out.old)) (over page.new (K.told out.new) (K.faults out.new)) (codes "raise" ⧺ (later_word names.now name ⧺ codes ";\n")) }
{
    page.put(b"raise", out);
    put_later_word(names, name, page, out);
    page.put(b";\n", out);
}

// `abort A, B(1);`
pub(crate) fn put_abort<K: Sink>(names: &Names, callees: &[Callee], page: &mut Page, out: &mut K)
    ensures { Drew (over page.old (K.told out.old) (K.faults out.old)) (over page.new (K.told out.new) (K.faults out.new)) (codes "abort " ⧺ (separated (codes ", ") (callee_text names.now) (map plain_callee callees.now) ⧺ codes ";\n")) }
{
    page.put(b"abort ", out);
    put_callees(names, callees, page, out);
    page.put(b";\n", out);
}

// `PUT(X);` or `PUT_LINE(X);`, by the word in front.
pub(crate) fn put_printed<K: Sink>(
    names: &Names,
    word: &[u8],
    parts: &[Part],
    page: &mut Page,
    out: &mut K,
)
    ensures { Drew (over page.old (K.told out.old) (K.faults out.old)) (over page.new (K.told out.new) (K.faults out.new)) (word.now ⧺ (parts_text names.now (map plain_part parts.now) ⧺ codes ");\n")) }
{
    page.put(word, out);
    put_parts(names, parts, page, out);
    page.put(b");\n", out);
}

// `GET(X);`
pub(crate) fn put_get<K: Sink>(names: &Names, target: &Target, page: &mut Page, out: &mut K)
    ensures { Drew (over page.old (K.told out.old) (K.faults out.old)) (over page.new (K.told out.new) (K.faults out.new)) (codes "GET(" ⧺ (target_text names.now (plain_target target.now) ⧺ codes ");\n")) }
{
    page.put(b"GET(", out);
    put_target(names, target, page, out);
    page.put(b");\n", out);
}

// The line of a call.
pub(crate) fn put_call_line<K: Sink>(
    names: &Names,
    level: u32,
    call: &Call,
    page: &mut Page,
    out: &mut K,
)
    ensures { Drew (over page.old (K.told out.old) (K.faults out.old)) (over page.new (K.told out.new) (K.faults out.new)) (indent level ⧺ call_text names.now (plain_call call.now)) }
{
    put_indent(level, page, out);
    put_call(names, call, page, out);
}

// `when X =>` before an alternative.
pub(crate) fn put_guard<K: Sink>(
    names: &Names,
    level: u32,
    guard: &Expr,
    page: &mut Page,
    out: &mut K,
)
    ensures { Drew (over page.old (K.told out.old) (K.faults out.old)) (over page.new (K.told out.new) (K.faults out.new)) (indent level ⧺ (codes "when " ⧺ (expr_text names.now (plain_expr guard.now) ⧺ codes " =>\n"))) }
{
    put_indent(level, page, out);
    page.put(b"when ", out);
    put_expr(names, guard, page, out);
    page.put(b" =>\n", out);
}

// `when 1 | 2 .. 4 =>`
pub(crate) fn put_case_line<K: Sink>(
    names: &Names,
    level: u32,
    choices: &[CaseChoice],
    page: &mut Page,
    out: &mut K,
)
    ensures { Drew (over page.old (K.told out.old) (K.faults out.old)) (over page.new (K.told out.new) (K.faults out.new)) (indent level ⧺ (codes "when " ⧺ (separated (codes " | ") (choice_text names.now) (map plain_choice choices.now) ⧺ codes " =>\n"))) }
{
    put_indent(level, page, out);
    page.put(b"when ", out);
    put_choices(names, choices, page, out);
    page.put(b" =>\n", out);
}

// `when A | B =>`
pub(crate) fn put_handler_line<K: Sink>(
    names: &Names,
    level: u32,
    caught: &[Word],
    page: &mut Page,
    out: &mut K,
)
    ensures { Drew (over page.old (K.told out.old) (K.faults out.old)) (over page.new (K.told out.new) (K.faults out.new)) (indent level ⧺ (codes "when " ⧺ (caught_text names.now caught.now ⧺ codes " =>\n"))) }
{
    put_indent(level, page, out);
    page.put(b"when ", out);
    put_caught(names, caught, page, out);
    page.put(b" =>\n", out);
}

// `case X is`
pub(crate) fn put_selector<K: Sink>(names: &Names, selector: &Expr, page: &mut Page, out: &mut K)
    ensures { Drew (over page.old (K.told out.old) (K.faults out.old)) (over page.new (K.told out.new) (K.faults out.new)) (codes "case " ⧺ (expr_text names.now (plain_expr selector.now) ⧺ codes " is\n")) }
{
    page.put(b"case ", out);
    put_expr(names, selector, page, out);
    page.put(b" is\n", out);
}

// The line of a delay.
pub(crate) fn put_delay_line<K: Sink>(level: u32, thousandths: u32, page: &mut Page, out: &mut K)
    ensures { Drew (over page.old (K.told out.old) (K.faults out.old)) (over page.new (K.told out.new) (K.faults out.new)) (indent level ⧺ delay_text thousandths) }
{
    put_indent(level, page, out);
    put_delay(thousandths, page, out);
}

// The last line of a unit, a task or an accept statement with this name.
pub(crate) fn put_end<K: Sink>(names: &Names, level: u32, name: Word, page: &mut Page, out: &mut K)
    ensures { Drew (over page.old (K.told out.old) (K.faults out.old)) (over page.new (K.told out.new) (K.faults out.new)) (indent level ⧺ (codes "end " ⧺ (word_text names.now name ⧺ codes ";\n"))) }
{
    put_indent(level, page, out);
    page.put(b"end ", out);
    put_word(names, name, page, out);
    page.put(b";\n", out);
}

// `L : while X loop`
pub(crate) fn put_loop_head<K: Sink>(
    names: &Names,
    name: Option<Word>,
    scheme: &Option<Scheme>,
    page: &mut Page,
    out: &mut K,
)
    ensures { Drew (over page.old (K.told out.old) (K.faults out.old)) (over page.new (K.told out.new) (K.faults out.new)) (label_text names.now name ⧺ (scheme_text names.now (option_map plain_scheme scheme.now) ⧺ codes "loop\n")) }
{
    put_label(names, name, page, out);
    put_scheme(names, scheme, page, out);
    page.put(b"loop\n", out);
}

// The last line of a loop.
pub(crate) fn put_loop_end<K: Sink>(
    names: &Names,
    level: u32,
    name: Option<Word>,
    page: &mut Page,
    out: &mut K,
)
    ensures { Drew (over page.old (K.told out.old) (K.faults out.old)) (over page.new (K.told out.new) (K.faults out.new)) (indent level ⧺ (codes "end loop" ⧺ (later_word names.now name ⧺ codes ";\n"))) }
{
    put_indent(level, page, out);
    page.put(b"end loop", out);
    put_later_word(names, name, page, out);
    page.put(b";\n", out);
}
