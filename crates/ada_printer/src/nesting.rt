// Statements and what holds them. Lists are gone through by loops, so recursion follows nesting alone.
#![tactic(auto, using(ada_tree::proofs::Rows::rows))]

ghost use Rattle.std.specs.Prelude.{◌≡◌, map};
ghost use Rattle.ada_tree.specs.PlainStmt.{plain_accept, plain_alt, plain_alt_kind, plain_arm, plain_body, plain_stmt, seen, alts_of, arms_of, case_arms_of, handlers_of, plain_case_arm, plain_handler};
ghost use Rattle.ada_printer.specs.StmtText.{stmt_text, stmts_text, accept_text, alt_text, alt_kind_text, alts_text, arm_text, arms_text, case_arms_text, handlers_text, body_text};
ghost use Rattle.ded_io.specs.pages.Pages.{Drew, over};

use crate::calls::{put_call, put_head};
use crate::expressions::put_expr;
use crate::names_and_literals::put_indent;
use crate::statement_lines::{
    deeper, put_abort, put_assign, put_call_line, put_case_line, put_delay, put_delay_line,
    put_end, put_exit, put_get, put_guard, put_handler_line, put_line, put_loop_end, put_loop_head,
    put_printed, put_raise, put_selector,
};
use ada_tree::{Accept, Alt, AltKind, Arm, Body, CaseArm, Handler, Names, Stmt, StmtKind};
use ded_io::Sink;
use ded_io::pages::Page;

// An accept statement behind its indentation.
#[cycle(put)]
fn put_accept<K: Sink>(names: &Names, level: u32, accept: &Accept, page: &mut Page, out: &mut K)
    ensures { Drew (over page.old (K.told out.old) (K.faults out.old)) (over page.new (K.told out.new) (K.faults out.new)) (accept_text names.now level (plain_accept accept.now)) }
{
    let inner = deeper(level);
    put_head(
        names,
        accept.entry,
        &accept.index,
        &accept.formals,
        page,
        out,
    );
    match &accept.stmts {
        Some(stmts) => {
            page.put(b" do\n", out);
            put_stmts(names, inner, stmts, page, out);
            put_end(names, level, accept.entry, page, out);
        }
        None => page.put(b";\n", out),
    }
}

// An alternative without its guard.
#[cycle(put)]
fn put_alt_kind<K: Sink>(names: &Names, level: u32, kind: &AltKind, page: &mut Page, out: &mut K)
    ensures { Drew (over page.old (K.told out.old) (K.faults out.old)) (over page.new (K.told out.new) (K.faults out.new)) (alt_kind_text names.now level (plain_alt_kind kind.now)) }
{
    match kind {
        AltKind::Accept { accept, stmts } => {
            put_indent(level, page, out);
            put_accept(names, level, accept, page, out);
            put_stmts(names, level, stmts, page, out);
        }
        AltKind::Delay { thousandths, stmts } => {
            put_delay_line(level, *thousandths, page, out);
            put_stmts(names, level, stmts, page, out);
        }
        AltKind::Terminate => put_line(level, b"terminate;\n", page, out),
    }
}

// An alternative; behind a guard it stands one level deeper.
#[cycle(put)]
fn put_alt<K: Sink>(names: &Names, level: u32, alt: &Alt, page: &mut Page, out: &mut K)
    ensures { Drew (over page.old (K.told out.old) (K.faults out.old)) (over page.new (K.told out.new) (K.faults out.new)) (alt_text names.now level (plain_alt alt.now)) }
{
    let inner = deeper(level);
    match &alt.guard {
        Some(guard) => {
            put_guard(names, level, guard, page, out);
            put_alt_kind(names, inner, &alt.kind, page, out);
        }
        None => put_alt_kind(names, level, &alt.kind, page, out),
    }
}

// The alternatives of a selective wait at this level, with `or` between each two.
#[cycle(put)]
fn put_alts<K: Sink>(names: &Names, level: u32, alts: &[Alt], page: &mut Page, out: &mut K)
    ensures { Drew (over page.old (K.told out.old) (K.faults out.old)) (over page.new (K.told out.new) (K.faults out.new)) (alts_text names.now level (alts_of (map plain_alt alts.now))) }
{
    let inner = deeper(level);
    match alts {
        [first, rest @ ..] => {
            put_alt(names, inner, first, page, out);
            for alt in rest {
                put_line(level, b"or\n", page, out);
                put_alt(names, inner, alt, page, out);
            }
        }
        [] => {}
    }
}

// A condition with `then`, and its statements, behind `if` or `elsif`.
#[cycle(put)]
fn put_arm<K: Sink>(names: &Names, level: u32, arm: &Arm, page: &mut Page, out: &mut K)
    ensures { Drew (over page.old (K.told out.old) (K.faults out.old)) (over page.new (K.told out.new) (K.faults out.new)) (arm_text names.now level (plain_arm arm.now)) }
{
    let inner = deeper(level);
    put_expr(names, &arm.test, page, out);
    page.put(b" then\n", out);
    put_stmts(names, inner, &arm.stmts, page, out);
}

// The branches of an if statement behind its indentation.
#[cycle(put)]
fn put_arms<K: Sink>(names: &Names, level: u32, arms: &[Arm], page: &mut Page, out: &mut K)
    ensures { Drew (over page.old (K.told out.old) (K.faults out.old)) (over page.new (K.told out.new) (K.faults out.new)) (arms_text names.now level (arms_of (map plain_arm arms.now))) }
{
    match arms {
        [first, rest @ ..] => {
            page.put(b"if ", out);
            put_arm(names, level, first, page, out);
            for arm in rest {
                put_line(level, b"elsif ", page, out);
                put_arm(names, level, arm, page, out);
            }
        }
        [] => {}
    }
}

// The `when` parts of a case statement but the one for all others.
#[cycle(put)]
fn put_case_arms<K: Sink>(names: &Names, level: u32, arms: &[CaseArm], page: &mut Page, out: &mut K)
    ensures { Drew (over page.old (K.told out.old) (K.faults out.old)) (over page.new (K.told out.new) (K.faults out.new)) (case_arms_text names.now level (case_arms_of (map plain_case_arm arms.now))) }
{
    let inner = deeper(level);
    for arm in arms {
        put_case_line(names, level, &arm.choices, page, out);
        put_stmts(names, inner, &arm.stmts, page, out);
    }
}

#[cycle(put)]
fn put_handlers<K: Sink>(
    names: &Names,
    level: u32,
    handlers: &[Handler],
    page: &mut Page,
    out: &mut K,
)
    ensures { Drew (over page.old (K.told out.old) (K.faults out.old)) (over page.new (K.told out.new) (K.faults out.new)) (handlers_text names.now level (handlers_of (map plain_handler handlers.now))) }
{
    let inner = deeper(level);
    for handler in handlers {
        put_handler_line(names, level, &handler.names, page, out);
        put_stmts(names, inner, &handler.stmts, page, out);
    }
}

// A body behind the indentation of its `begin`, up to its `end`.
#[cycle(put)]
pub(crate) fn put_body<K: Sink>(
    names: &Names,
    level: u32,
    body: &Body,
    page: &mut Page,
    out: &mut K,
)
    ensures { Drew (over page.old (K.told out.old) (K.faults out.old)) (over page.new (K.told out.new) (K.faults out.new)) (body_text names.now level (plain_body body.now)) }
{
    let inner = deeper(level);
    page.put(b"begin\n", out);
    put_stmts(names, inner, &body.stmts, page, out);
    if !body.handlers.is_empty() {
        put_line(level, b"exception\n", page, out);
        put_handlers(names, inner, &body.handlers, page, out);
    }
}

#[cycle(put)]
fn put_stmt<K: Sink>(names: &Names, level: u32, stmt: &Stmt, page: &mut Page, out: &mut K)
    ensures { Drew (over page.old (K.told out.old) (K.faults out.old)) (over page.new (K.told out.new) (K.faults out.new)) (stmt_text names.now level (plain_stmt stmt.now)) }
{
    let inner = deeper(level);
    put_indent(level, page, out);
    match &stmt.kind {
        StmtKind::Null => page.put(b"null;\n", out),
        StmtKind::Assign { target, value } => put_assign(names, target, value, page, out),
        StmtKind::Delay { thousandths } => put_delay(*thousandths, page, out),
        StmtKind::Exit { name, test } => put_exit(names, *name, test, page, out),
        StmtKind::Raise { name } => put_raise(names, *name, page, out),
        StmtKind::Abort { names: callees } => put_abort(names, callees, page, out),
        StmtKind::Call(call) => put_call(names, call, page, out),
        StmtKind::Accept(accept) => put_accept(names, level, accept, page, out),
        StmtKind::Wait { alts, otherwise } => {
            page.put(b"select\n", out);
            put_alts(names, level, alts, page, out);
            match otherwise {
                Some(stmts) => {
                    put_line(level, b"else\n", page, out);
                    put_stmts(names, inner, stmts, page, out);
                    put_line(level, b"end select;\n", page, out);
                }
                None => put_line(level, b"end select;\n", page, out),
            }
        }
        StmtKind::Conditional {
            call,
            behind,
            otherwise,
        } => {
            page.put(b"select\n", out);
            put_call_line(names, inner, call, page, out);
            put_stmts(names, inner, behind, page, out);
            put_line(level, b"else\n", page, out);
            put_stmts(names, inner, otherwise, page, out);
            put_line(level, b"end select;\n", page, out);
        }
        StmtKind::Timed {
            call,
            behind,
            thousandths,
            after,
        } => {
            page.put(b"select\n", out);
            put_call_line(names, inner, call, page, out);
            put_stmts(names, inner, behind, page, out);
            put_line(level, b"or\n", page, out);
            put_delay_line(inner, *thousandths, page, out);
            put_stmts(names, inner, after, page, out);
            put_line(level, b"end select;\n", page, out);
        }
        StmtKind::Put { parts } => put_printed(names, b"PUT(", parts, page, out),
        StmtKind::PutLine { parts } => put_printed(names, b"PUT_LINE(", parts, page, out),
        StmtKind::NewLine => page.put(b"NEW_LINE;\n", out),
        StmtKind::Get { target } => put_get(names, target, page, out),
        StmtKind::If { arms, otherwise } => {
            put_arms(names, level, arms, page, out);
            match otherwise {
                Some(stmts) => {
                    put_line(level, b"else\n", page, out);
                    put_stmts(names, inner, stmts, page, out);
                    put_line(level, b"end if;\n", page, out);
                }
                None => put_line(level, b"end if;\n", page, out),
            }
        }
        StmtKind::Case {
            selector,
            arms,
            others,
        } => {
            put_selector(names, selector, page, out);
            put_case_arms(names, inner, arms, page, out);
            match others {
                Some(stmts) => {
                    put_line(inner, b"when others =>\n", page, out);
                    put_stmts(names, deeper(inner), stmts, page, out);
                    put_line(level, b"end case;\n", page, out);
                }
                None => put_line(level, b"end case;\n", page, out),
            }
        }
        StmtKind::Block(body) => {
            put_body(names, level, body, page, out);
            put_line(level, b"end;\n", page, out);
        }
        StmtKind::Loop {
            name,
            scheme,
            stmts,
        } => {
            put_loop_head(names, *name, scheme, page, out);
            put_stmts(names, inner, stmts, page, out);
            put_loop_end(names, level, *name, page, out);
        }
    }
}

// Statements, one behind the other.
#[cycle(put)]
fn put_stmts<K: Sink>(names: &Names, level: u32, stmts: &[Stmt], page: &mut Page, out: &mut K)
    ensures { Drew (over page.old (K.told out.old) (K.faults out.old)) (over page.new (K.told out.new) (K.faults out.new)) (stmts_text names.now level (seen stmts.now)) }
{
    for stmt in stmts {
        put_stmt(names, level, stmt, page, out);
    }
}
