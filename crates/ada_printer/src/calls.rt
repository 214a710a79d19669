// Parts of statements that hold no statements: targets, calls, formals, texts, choices and the heads of loops.
#![tactic(auto, using(crate::proofs::Listed::listed))]

ghost use Rattle.std.specs.Prelude.{◌≡◌, codes, map, option_map};
ghost use Rattle.ada_tree.specs.PlainExpr.{plain_expr};
ghost use Rattle.ada_tree.specs.PlainStmt.{plain_target, plain_callee, plain_args, plain_call, plain_formal, plain_part, plain_choice, plain_scheme};
ghost use Rattle.ada_printer.specs.Layout.{separated};
ghost use Rattle.ada_printer.specs.StmtText.{mode_text, reverse_text, target_text, callee_text, second_text, args_text, call_text, formal_text, formals_text, head_text, part_text, parts_text, last_text, choice_text, caught_text, label_text, scheme_text, when_text};
ghost use Rattle.ded_io.specs.pages.Pages.{Drew, over};

use crate::expressions::{put_drange, put_expr, put_exprs, put_index};
use crate::names_and_literals::{put_separated_words, put_string, put_word, put_words};
use ada_tree::{
    Args, Call, Callee, CaseChoice, Expr, Formal, Names, ParMode, Part, Scheme, Target, Word,
};
use ded_io::Sink;
use ded_io::pages::Page;

pub(crate) fn put_target<K: Sink>(names: &Names, target: &Target, page: &mut Page, out: &mut K)
    ensures { Drew (over page.old (K.told out.old) (K.faults out.old)) (over page.new (K.told out.new) (K.faults out.new)) (target_text names.now (plain_target target.now)) }
{
    put_word(names, target.name, page, out);
    put_index(names, &target.index, page, out);
}

pub(crate) fn put_callee<K: Sink>(names: &Names, callee: &Callee, page: &mut Page, out: &mut K)
    ensures { Drew (over page.old (K.told out.old) (K.faults out.old)) (over page.new (K.told out.new) (K.faults out.new)) (callee_text names.now (plain_callee callee.now)) }
{
    put_word(names, callee.name, page, out);
    put_index(names, &callee.index, page, out);
}

// `A, B(1)`
pub(crate) fn put_callees<K: Sink>(names: &Names, callees: &[Callee], page: &mut Page, out: &mut K)
    ensures { Drew (over page.old (K.told out.old) (K.faults out.old)) (over page.new (K.told out.new) (K.faults out.new)) (separated (codes ", ") (callee_text names.now) (map plain_callee callees.now)) }
{
    match callees {
        [first, rest @ ..] => {
            put_callee(names, first, page, out);
            for callee in rest {
                page.put(b", ", out);
                put_callee(names, callee, page, out);
            }
        }
        [] => {}
    }
}

// A second list in parentheses, where there is one.
fn put_second<K: Sink>(names: &Names, second: &Option<Vec<Expr>>, page: &mut Page, out: &mut K)
    ensures { Drew (over page.old (K.told out.old) (K.faults out.old)) (over page.new (K.told out.new) (K.faults out.new)) (second_text names.now (option_map (λ v. map plain_expr v.items) second.now)) }
{
    match second {
        Some(exprs) => put_exprs(names, exprs, page, out),
        None => {}
    }
}

fn put_args<K: Sink>(names: &Names, args: &Option<Args>, page: &mut Page, out: &mut K)
    ensures { Drew (over page.old (K.told out.old) (K.faults out.old)) (over page.new (K.told out.new) (K.faults out.new)) (args_text names.now (option_map plain_args args.now)) }
{
    match args {
        Some(args) => {
            put_exprs(names, &args.first, page, out);
            put_second(names, &args.second, page, out);
        }
        None => {}
    }
}

// `T.E(1)(X);`
pub(crate) fn put_call<K: Sink>(names: &Names, call: &Call, page: &mut Page, out: &mut K)
    ensures { Drew (over page.old (K.told out.old) (K.faults out.old)) (over page.new (K.told out.new) (K.faults out.new)) (call_text names.now (plain_call call.now)) }
{
    put_callee(names, &call.task, page, out);
    page.put(b".", out);
    put_word(names, call.entry, page, out);
    put_args(names, &call.args, page, out);
    page.put(b";\n", out);
}

// A mode, with the blank behind it.
fn mode_word(mode: ParMode) -> &'static [u8]
    ensures { result.now ≡ mode_text mode }
{
    match mode {
        ParMode::Take => b"in ",
        ParMode::Give => b"out ",
        ParMode::Both => b"in out ",
    }
}

// `X, Y : in INTEGER`
fn put_formal<K: Sink>(names: &Names, formal: &Formal, page: &mut Page, out: &mut K)
    ensures { Drew (over page.old (K.told out.old) (K.faults out.old)) (over page.new (K.told out.new) (K.faults out.new)) (formal_text names.now (plain_formal formal.now)) }
{
    put_words(names, &formal.names, page, out);
    page.put(b" : ", out);
    page.put(mode_word(formal.mode), out);
    put_word(names, formal.mark, page, out);
}

// `(X : in INTEGER; Y : out INTEGER)`, or nothing.
pub(crate) fn put_formals<K: Sink>(names: &Names, formals: &[Formal], page: &mut Page, out: &mut K)
    ensures { Drew (over page.old (K.told out.old) (K.faults out.old)) (over page.new (K.told out.new) (K.faults out.new)) (formals_text names.now (map plain_formal formals.now)) }
{
    match formals {
        [_, ..] => {
            page.put(b"(", out);
            put_separated_formals(names, formals, page, out);
            page.put(b")", out);
        }
        [] => {}
    }
}

// Formals with a semicolon between each two.
fn put_separated_formals<K: Sink>(names: &Names, formals: &[Formal], page: &mut Page, out: &mut K)
    ensures { Drew (over page.old (K.told out.old) (K.faults out.old)) (over page.new (K.told out.new) (K.faults out.new)) (separated (codes "; ") (formal_text names.now) (map plain_formal formals.now)) }
{
    match formals {
        [first, rest @ ..] => {
            put_formal(names, first, page, out);
            for formal in rest {
                page.put(b"; ", out);
                put_formal(names, formal, page, out);
            }
        }
        [] => {}
    }
}

// `accept E(1)(X : in INTEGER)`
pub(crate) fn put_head<K: Sink>(
    names: &Names,
    entry: Word,
    index: &Option<Expr>,
    formals: &[Formal],
    page: &mut Page,
    out: &mut K,
)
    ensures { Drew (over page.old (K.told out.old) (K.faults out.old)) (over page.new (K.told out.new) (K.faults out.new)) (head_text names.now entry (option_map plain_expr index.now) (map plain_formal formals.now)) }
{
    page.put(b"accept ", out);
    put_word(names, entry, page, out);
    put_index(names, index, page, out);
    put_formals(names, formals, page, out);
}

fn put_part<K: Sink>(names: &Names, part: &Part, page: &mut Page, out: &mut K)
    ensures { Drew (over page.old (K.told out.old) (K.faults out.old)) (over page.new (K.told out.new) (K.faults out.new)) (part_text names.now (plain_part part.now)) }
{
    match part {
        Part::Words { text, .. } => put_string(text.as_str(), page, out),
        Part::Value(value) => put_expr(names, value, page, out),
    }
}

// `"A" & B`
pub(crate) fn put_parts<K: Sink>(names: &Names, parts: &[Part], page: &mut Page, out: &mut K)
    ensures { Drew (over page.old (K.told out.old) (K.faults out.old)) (over page.new (K.told out.new) (K.faults out.new)) (parts_text names.now (map plain_part parts.now)) }
{
    match parts {
        [first, rest @ ..] => {
            put_part(names, first, page, out);
            for part in rest {
                page.put(b" & ", out);
                put_part(names, part, page, out);
            }
        }
        [] => {}
    }
}

// The end of a range, where there is one.
fn put_last<K: Sink>(names: &Names, last: &Option<Expr>, page: &mut Page, out: &mut K)
    ensures { Drew (over page.old (K.told out.old) (K.faults out.old)) (over page.new (K.told out.new) (K.faults out.new)) (last_text names.now (option_map plain_expr last.now)) }
{
    match last {
        Some(last) => {
            page.put(b" .. ", out);
            put_expr(names, last, page, out);
        }
        None => {}
    }
}

// `1` or `2 .. 4`
fn put_choice<K: Sink>(names: &Names, choice: &CaseChoice, page: &mut Page, out: &mut K)
    ensures { Drew (over page.old (K.told out.old) (K.faults out.old)) (over page.new (K.told out.new) (K.faults out.new)) (choice_text names.now (plain_choice choice.now)) }
{
    put_expr(names, &choice.first, page, out);
    put_last(names, &choice.last, page, out);
}

// `1 | 2 .. 4`
pub(crate) fn put_choices<K: Sink>(
    names: &Names,
    choices: &[CaseChoice],
    page: &mut Page,
    out: &mut K,
)
    ensures { Drew (over page.old (K.told out.old) (K.faults out.old)) (over page.new (K.told out.new) (K.faults out.new)) (separated (codes " | ") (choice_text names.now) (map plain_choice choices.now)) }
{
    match choices {
        [first, rest @ ..] => {
            put_choice(names, first, page, out);
            for choice in rest {
                page.put(b" | ", out);
                put_choice(names, choice, page, out);
            }
        }
        [] => {}
    }
}

// The names of a handler, or `others`.
pub(crate) fn put_caught<K: Sink>(names: &Names, caught: &[Word], page: &mut Page, out: &mut K)
    ensures { Drew (over page.old (K.told out.old) (K.faults out.old)) (over page.new (K.told out.new) (K.faults out.new)) (caught_text names.now caught.now) }
{
    match caught {
        [_, ..] => put_separated_words(names, b" | ", caught, page, out),
        [] => page.put(b"others", out),
    }
}

// The name of a loop, before it.
pub(crate) fn put_label<K: Sink>(names: &Names, name: Option<Word>, page: &mut Page, out: &mut K)
    ensures { Drew (over page.old (K.told out.old) (K.faults out.old)) (over page.new (K.told out.new) (K.faults out.new)) (label_text names.now name) }
{
    match name {
        Some(word) => {
            put_word(names, word, page, out);
            page.put(b" : ", out);
        }
        None => {}
    }
}

fn reverse_word(reverse: bool) -> &'static [u8]
    ensures { result.now ≡ reverse_text reverse }
{
    if reverse { b"reverse " } else { b"" }
}

// What stands before `loop`.
pub(crate) fn put_scheme<K: Sink>(
    names: &Names,
    scheme: &Option<Scheme>,
    page: &mut Page,
    out: &mut K,
)
    ensures { Drew (over page.old (K.told out.old) (K.faults out.old)) (over page.new (K.told out.new) (K.faults out.new)) (scheme_text names.now (option_map plain_scheme scheme.now)) }
{
    match scheme {
        Some(Scheme::While(test)) => {
            page.put(b"while ", out);
            put_expr(names, test, page, out);
            page.put(b" ", out);
        }
        Some(
            Scheme::For {
                name,
                reverse,
                range,
            },
        ) => {
            page.put(b"for ", out);
            put_word(names, *name, page, out);
            page.put(b" in ", out);
            page.put(reverse_word(*reverse), out);
            put_drange(names, range, page, out);
            page.put(b" ", out);
        }
        None => {}
    }
}

// The condition of an exit statement.
pub(crate) fn put_when<K: Sink>(names: &Names, test: &Option<Expr>, page: &mut Page, out: &mut K)
    ensures { Drew (over page.old (K.told out.old) (K.faults out.old)) (over page.new (K.told out.new) (K.faults out.new)) (when_text names.now (option_map plain_expr test.now)) }
{
    match test {
        Some(test) => {
            page.put(b" when ", out);
            put_expr(names, test, page, out);
        }
        None => {}
    }
}
