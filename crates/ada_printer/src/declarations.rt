// Declarations.
#![tactic(auto, using(crate::proofs::Listed::listed))]

ghost use Rattle.std.specs.Prelude.{◌≡◌, ◌≤◌, ◌+◌, true, false, codes, length, map, option_map};
ghost use Rattle.ada_tree.specs.PlainExpr.{plain_expr, plain_subind, plain_drange};
ghost use Rattle.ada_tree.specs.PlainStmt.{plain_body};
ghost use Rattle.ada_tree.specs.PlainDecl.{plain_shape, plain_init, plain_priority, plain_entry, plain_task, plain_decl, decls_of};
ghost use Rattle.ded_io.specs.Written.{◌⧺◌};
ghost use Rattle.ada_printer.specs.Layout.{indent, word_text, words_text};
ghost use Rattle.ada_printer.specs.ExprText.{expr_text, subind_text, array_text};
ghost use Rattle.ada_printer.specs.DeclText.{constant_text, task_word, task_rest, unit_text, standing as standing_behind, shape_text, init_text, value_text, pragma_text, priorities_text, family_text, entry_text, items_text, task_text, decl_text, decls_text};
ghost use Rattle.ded_io.specs.pages.Pages.{Drew, over};

use crate::calls::put_formals;
use crate::expressions::{put_array, put_drange, put_expr, put_exprs, put_subind};
use crate::names_and_literals::{put_indent, put_word, put_words};
use crate::nesting::put_body;
use crate::statement_lines::{deeper, put_end};
use ada_tree::{
    Body, Decl, DeclKind, Drange, EntryDecl, Expr, Init, Names, Priority, Shape, Subind, TaskUnit,
    Word,
};
use ded_io::Sink;
use ded_io::pages::Page;

fn put_shape<K: Sink>(names: &Names, shape: &Shape, page: &mut Page, out: &mut K)
    ensures { Drew (over page.old (K.told out.old) (K.faults out.old)) (over page.new (K.told out.new) (K.faults out.new)) (shape_text names.now (plain_shape shape.now)) }
{
    match shape {
        Shape::Plain(subind) => put_subind(names, subind, page, out),
        Shape::ConstrainedArray { index, part } => put_array(names, index, part, page, out),
    }
}

fn put_init<K: Sink>(names: &Names, init: &Init, page: &mut Page, out: &mut K)
    ensures { Drew (over page.old (K.told out.old) (K.faults out.old)) (over page.new (K.told out.new) (K.faults out.new)) (init_text names.now (plain_init init.now)) }
{
    match init {
        Init::One(value) => put_expr(names, value, page, out),
        Init::List { parts, .. } => put_exprs(names, parts, page, out),
        Init::Others { part, .. } => put_others(names, part, page, out),
    }
}

// One value for all components of an array.
fn put_others<K: Sink>(names: &Names, part: &Expr, page: &mut Page, out: &mut K)
    ensures { Drew (over page.old (K.told out.old) (K.faults out.old)) (over page.new (K.told out.new) (K.faults out.new)) (codes "(others => " ⧺ (expr_text names.now (plain_expr part.now) ⧺ codes ")")) }
{
    page.put(b"(others => ", out);
    put_expr(names, part, page, out);
    page.put(b")", out);
}

// An initial value, where there is one.
fn put_value<K: Sink>(names: &Names, init: &Option<Init>, page: &mut Page, out: &mut K)
    ensures { Drew (over page.old (K.told out.old) (K.faults out.old)) (over page.new (K.told out.new) (K.faults out.new)) (value_text names.now (option_map plain_init init.now)) }
{
    match init {
        Some(init) => {
            page.put(b" := ", out);
            put_init(names, init, page, out);
        }
        None => {}
    }
}

// `N : constant := 1;`
fn put_number_decl<K: Sink>(names: &Names, name: Word, value: &Expr, page: &mut Page, out: &mut K)
    ensures { Drew (over page.old (K.told out.old) (K.faults out.old)) (over page.new (K.told out.new) (K.faults out.new)) (word_text names.now name ⧺ (codes " : constant := " ⧺ (expr_text names.now (plain_expr value.now) ⧺ codes ";\n"))) }
{
    put_word(names, name, page, out);
    page.put(b" : constant := ", out);
    put_expr(names, value, page, out);
    page.put(b";\n", out);
}

fn constant_word(constant: bool) -> &'static [u8]
    ensures { result.now ≡ constant_text constant }
{
    if constant { b"constant " } else { b"" }
}

// `X, Y : constant INTEGER := 1;`
fn put_object<K: Sink>(
    names: &Names,
    words: &[Word],
    constant: bool,
    shape: &Shape,
    init: &Option<Init>,
    page: &mut Page,
    out: &mut K,
)
    ensures { Drew (over page.old (K.told out.old) (K.faults out.old)) (over page.new (K.told out.new) (K.faults out.new)) (words_text names.now words.now ⧺ (codes " : " ⧺ (constant_text constant ⧺ (shape_text names.now (plain_shape shape.now) ⧺ (value_text names.now (option_map plain_init init.now) ⧺ codes ";\n"))))) }
{
    put_words(names, words, page, out);
    page.put(b" : ", out);
    page.put(constant_word(constant), out);
    put_shape(names, shape, page, out);
    put_value(names, init, page, out);
    page.put(b";\n", out);
}

// `type T is (A, B);`
fn put_enumeration<K: Sink>(
    names: &Names,
    name: Word,
    literals: &[Word],
    page: &mut Page,
    out: &mut K,
)
    ensures { Drew (over page.old (K.told out.old) (K.faults out.old)) (over page.new (K.told out.new) (K.faults out.new)) (codes "type " ⧺ (word_text names.now name ⧺ (codes " is (" ⧺ (words_text names.now literals.now ⧺ codes ");\n")))) }
{
    page.put(b"type ", out);
    put_word(names, name, page, out);
    page.put(b" is (", out);
    put_words(names, literals, page, out);
    page.put(b");\n", out);
}

// `type T is array (1 .. 3) of INTEGER;`
fn put_array_decl<K: Sink>(
    names: &Names,
    name: Word,
    index: &Drange,
    part: &Subind,
    page: &mut Page,
    out: &mut K,
)
    ensures { Drew (over page.old (K.told out.old) (K.faults out.old)) (over page.new (K.told out.new) (K.faults out.new)) (codes "type " ⧺ (word_text names.now name ⧺ (codes " is " ⧺ (array_text names.now (plain_drange index.now) (plain_subind part.now) ⧺ codes ";\n")))) }
{
    page.put(b"type ", out);
    put_word(names, name, page, out);
    page.put(b" is ", out);
    put_array(names, index, part, page, out);
    page.put(b";\n", out);
}

// `subtype T is INTEGER range 1 .. 3;`
fn put_subtype<K: Sink>(names: &Names, name: Word, base: &Subind, page: &mut Page, out: &mut K)
    ensures { Drew (over page.old (K.told out.old) (K.faults out.old)) (over page.new (K.told out.new) (K.faults out.new)) (codes "subtype " ⧺ (word_text names.now name ⧺ (codes " is " ⧺ (subind_text names.now (plain_subind base.now) ⧺ codes ";\n")))) }
{
    page.put(b"subtype ", out);
    put_word(names, name, page, out);
    page.put(b" is ", out);
    put_subind(names, base, page, out);
    page.put(b";\n", out);
}

// `E, F : exception;`
fn put_exceptions<K: Sink>(names: &Names, words: &[Word], page: &mut Page, out: &mut K)
    ensures { Drew (over page.old (K.told out.old) (K.faults out.old)) (over page.new (K.told out.new) (K.faults out.new)) (words_text names.now words.now ⧺ codes " : exception;\n") }
{
    put_words(names, words, page, out);
    page.put(b" : exception;\n", out);
}

// An instance of INTEGER_IO, with the line of its use clause.
fn put_instance<K: Sink>(names: &Names, level: u32, name: Word, page: &mut Page, out: &mut K)
    ensures { Drew (over page.old (K.told out.old) (K.faults out.old)) (over page.new (K.told out.new) (K.faults out.new)) (codes "package " ⧺ (word_text names.now name ⧺ (codes " is new INTEGER_IO(INTEGER);\n" ⧺ (indent level ⧺ (codes "use " ⧺ (word_text names.now name ⧺ codes ";\n")))))) }
{
    page.put(b"package ", out);
    put_word(names, name, page, out);
    page.put(b" is new INTEGER_IO(INTEGER);\n", out);
    put_indent(level, page, out);
    page.put(b"use ", out);
    put_word(names, name, page, out);
    page.put(b";\n", out);
}

// `pragma PRIORITY(5);`
fn put_pragma<K: Sink>(names: &Names, value: &Expr, page: &mut Page, out: &mut K)
    ensures { Drew (over page.old (K.told out.old) (K.faults out.old)) (over page.new (K.told out.new) (K.faults out.new)) (pragma_text names.now (plain_expr value.now)) }
{
    page.put(b"pragma PRIORITY(", out);
    put_expr(names, value, page, out);
    page.put(b");\n", out);
}

// The lines of a task's pragmas.
fn put_priorities<K: Sink>(
    names: &Names,
    level: u32,
    priorities: &[Priority],
    page: &mut Page,
    out: &mut K,
)
    ensures { Drew (over page.old (K.told out.old) (K.faults out.old)) (over page.new (K.told out.new) (K.faults out.new)) (priorities_text names.now level (map plain_priority priorities.now)) }
{
    for priority in priorities {
        put_indent(level, page, out);
        put_pragma(names, &priority.value, page, out);
    }
}

// The range of a family, in parentheses.
fn put_family<K: Sink>(names: &Names, family: &Option<Drange>, page: &mut Page, out: &mut K)
    ensures { Drew (over page.old (K.told out.old) (K.faults out.old)) (over page.new (K.told out.new) (K.faults out.new)) (family_text names.now (option_map plain_drange family.now)) }
{
    match family {
        Some(range) => {
            page.put(b"(", out);
            put_drange(names, range, page, out);
            page.put(b")", out);
        }
        None => {}
    }
}

// The line of an entry.
fn put_entry<K: Sink>(names: &Names, level: u32, entry: &EntryDecl, page: &mut Page, out: &mut K)
    ensures { Drew (over page.old (K.told out.old) (K.faults out.old)) (over page.new (K.told out.new) (K.faults out.new)) (entry_text names.now level (plain_entry entry.now)) }
{
    put_indent(level, page, out);
    page.put(b"entry ", out);
    put_word(names, entry.name, page, out);
    put_family(names, &entry.family, page, out);
    put_formals(names, &entry.formals, page, out);
    page.put(b";\n", out);
}

// How many of a task's pragmas, from the front on, stand behind at most so many entries.
fn standing(before: usize, priorities: &[Priority]) -> usize
    ensures value { result ≡ standing_behind before (map plain_priority priorities.now) }
    ensures within { result ≤ length priorities.now }
{
    for (count, priority) in priorities.iter().enumerate() {
        if priority.place as usize > before {
            return count;
        }
    }
    priorities.len()
}

// The entries of a task, each behind the pragmas that stand before it; the other pragmas come last.
fn put_items<K: Sink>(
    names: &Names,
    level: u32,
    entries: &[EntryDecl],
    priorities: &[Priority],
    page: &mut Page,
    out: &mut K,
)
    ensures { Drew (over page.old (K.told out.old) (K.faults out.old)) (over page.new (K.told out.new) (K.faults out.new)) (items_text names.now level 0 (map plain_entry entries.now) (map plain_priority priorities.now)) }
{
    let mut rest = priorities;
    for (before, entry) in entries.iter().enumerate() {
        let (ahead, behind) = rest.split_at(standing(before, rest));
        put_priorities(names, level, ahead, page, out);
        put_entry(names, level, entry, page, out);
        rest = behind;
    }
    put_priorities(names, level, rest, page, out);
}

// Whether a task has neither entries nor pragmas.
fn is_bare(entries: &[EntryDecl], priorities: &[Priority]) -> bool
    ensures bare { result ≡ true → length entries.now + length priorities.now ≡ 0 }
    ensures some { result ≡ false → 1 ≤ length entries.now + length priorities.now }
{
    match entries {
        [_, ..] => false,
        [] => priorities.is_empty(),
    }
}

// What stands behind a task's name.
fn put_task_rest<K: Sink>(names: &Names, level: u32, task: &TaskUnit, page: &mut Page, out: &mut K)
    ensures { Drew (over page.old (K.told out.old) (K.faults out.old)) (over page.new (K.told out.new) (K.faults out.new)) (task_rest names.now level (plain_task task.now) (plain_task task.now).entries (plain_task task.now).priorities) }
{
    if is_bare(&task.entries, &task.priorities) {
        page.put(b";\n", out);
        return;
    }
    page.put(b" is\n", out);
    put_items(
        names,
        deeper(level),
        &task.entries,
        &task.priorities,
        page,
        out,
    );
    put_end(names, level, task.name, page, out);
}

// What a task's declaration begins with.
fn opening_of(of_kind: bool) -> &'static [u8]
    ensures { result.now ≡ task_word of_kind }
{
    if of_kind { b"task type " } else { b"task " }
}

// A task or a task type behind its indentation.
fn put_task<K: Sink>(names: &Names, level: u32, task: &TaskUnit, page: &mut Page, out: &mut K)
    ensures { Drew (over page.old (K.told out.old) (K.faults out.old)) (over page.new (K.told out.new) (K.faults out.new)) (task_text names.now level (plain_task task.now)) }
{
    page.put(opening_of(task.of_kind), out);
    put_word(names, task.name, page, out);
    put_task_rest(names, level, task, page, out);
}

// The body of a unit and its last line.
pub(crate) fn put_unit<K: Sink>(
    names: &Names,
    level: u32,
    body: &Body,
    name: Word,
    page: &mut Page,
    out: &mut K,
)
    ensures { Drew (over page.old (K.told out.old) (K.faults out.old)) (over page.new (K.told out.new) (K.faults out.new)) (unit_text names.now level (plain_body body.now) name) }
{
    put_indent(level, page, out);
    put_body(names, level, body, page, out);
    put_end(names, level, name, page, out);
}

// `task body T is`
fn put_task_body_line<K: Sink>(names: &Names, name: Word, page: &mut Page, out: &mut K)
    ensures { Drew (over page.old (K.told out.old) (K.faults out.old)) (over page.new (K.told out.new) (K.faults out.new)) (codes "task body " ⧺ (word_text names.now name ⧺ codes " is\n")) }
{
    page.put(b"task body ", out);
    put_word(names, name, page, out);
    page.put(b" is\n", out);
}

#[cycle(put_decl)]
#[tactic(auto, using(ada_tree::proofs::Rows::rows))]
fn put_decl<K: Sink>(names: &Names, level: u32, decl: &Decl, page: &mut Page, out: &mut K)
    ensures { Drew (over page.old (K.told out.old) (K.faults out.old)) (over page.new (K.told out.new) (K.faults out.new)) (decl_text names.now level (plain_decl decl.now)) }
{
    put_indent(level, page, out);
    match &decl.kind {
        DeclKind::Number { name, value } => put_number_decl(names, *name, value, page, out),
        DeclKind::Object {
            names: words,
            constant,
            shape,
            init,
        } => put_object(names, words, *constant, shape, init, page, out),
        DeclKind::Enumeration { name, literals } => {
            put_enumeration(names, *name, literals, page, out)
        }
        DeclKind::Array { name, index, part } => {
            put_array_decl(names, *name, index, part, page, out)
        }
        DeclKind::Subtype { name, base } => put_subtype(names, *name, base, page, out),
        DeclKind::Exception { names: words } => put_exceptions(names, words, page, out),
        DeclKind::IntIo { name } => put_instance(names, level, *name, page, out),
        DeclKind::Pragma { value } => put_pragma(names, value, page, out),
        DeclKind::Task(task) => put_task(names, level, task, page, out),
        DeclKind::TaskBody {
            name,
            objects,
            body,
        } => {
            put_task_body_line(names, *name, page, out);
            put_decls(names, deeper(level), objects, page, out);
            put_unit(names, level, body, *name, page, out);
        }
    }
}

// Declarations, one behind the other.
#[cycle(put_decl)]
#[tactic(auto, using(ada_tree::proofs::Rows::rows))]
pub(crate) fn put_decls<K: Sink>(
    names: &Names,
    level: u32,
    decls: &[Decl],
    page: &mut Page,
    out: &mut K,
)
    ensures { Drew (over page.old (K.told out.old) (K.faults out.old)) (over page.new (K.told out.new) (K.faults out.new)) (decls_text names.now level (decls_of (map plain_decl decls.now))) }
{
    for decl in decls {
        put_decl(names, level, decl, page, out);
    }
}
