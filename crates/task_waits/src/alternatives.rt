// The accept that is taken for a caller (9.5). No call takes memory.

ghost use Rattle.std.specs.Prelude.{◌≡◌, ◌∷◌, [], ℕ, Option, Ok, None, find, map, option_map, IsOk};
ghost use Rattle.ada_tree.specs.PlainStmt.{PStmts, no_stmt, plain_accept, plain_alt, plain_alt_kind, plain_stmt, alts_of, seen};
ghost use Rattle.ada_value.specs.Values.{and_then};
ghost use Rattle.task_model.specs.Waits.{Open, accept_opened, kind_opened, alternatives_open, open_at, accepts_member, first_accepting};
ghost use Rattle.task_waits.specs.Standing.{task_here, plain_parts, body_accepted, parts_behind, parts_in, parts_opened};
ghost use Rattle.task_waits.specs.inner.Choosing.{alternative_open, opens_or_none, accepts_in, taken, taken_if};

use crate::calls::{Here, Member};
use crate::choosing::{guard_holds, least_duration, member_accepted};
use ada_tree::{Accept, Alt, AltKind, Formal, Stmt, StmtKind};

/// An accept that is taken: its formal part, the statements of its body, and those behind it in its alternative.
#[derive(Clone, Copy)]
pub struct Accepting<'p> {
    pub formals: &'p [Formal],
    pub body: &'p [Stmt],
    pub behind: &'p [Stmt],
}

// The statements of the body of an accept.
fn body_of<'p>(accept: &'p Accept) -> &'p [Stmt]
    ensures { seen result.now ≡ body_accepted (plain_accept accept.now) }
{
    match &accept.stmts {
        Some(stmts) => stmts,
        None => &[],
    }
}

// The parts of an accept, with the statements behind it.
fn parts_behind<'p>(accept: &'p Accept, behind: &'p [Stmt]) -> Accepting<'p>
    ensures { plain_parts result ≡ parts_behind (plain_accept accept.now) (seen behind.now) }
{
    Accepting {
        formals: &accept.formals,
        body: body_of(accept),
        behind,
    }
}

/// The parts of no accept: no formals and no statements.
pub fn no_parts<'p>() -> Accepting<'p>
    ensures { plain_parts result ≡ parts_opened None }
{
    Accepting {
        formals: &[],
        body: &[],
        behind: &[],
    }
}

// Whether an accept is for this member.
fn is_for(here: &Here, accept: &Accept, member: Member) -> bool
    ensures { (behind : PStmts) → result ≡ accepts_in member.entry member.index (accept_opened (task_here here.now) (plain_accept accept.now) behind) }
{
    match member_accepted(here, accept) {
        Ok(accepted) => member.entry == accepted.entry && member.index == accepted.index,
        Err(_) => false,
    }
}

// An alternative whose guard holds, where it accepts this member.
fn taken<'p>(here: &Here, kind: &'p AltKind, member: Member) -> Option<Accepting<'p>>
    ensures { (k : ℕ) (o : Open) → kind_opened (task_here here.now) (plain_alt_kind kind.now) k ≡ Ok o → option_map plain_parts result ≡ option_map parts_in (taken member.entry member.index o) }
{
    match kind {
        AltKind::Accept { accept, stmts } => {
            if is_for(here, accept, member) {
                Some(parts_behind(accept, stmts))
            } else {
                None
            }
        }
        AltKind::Delay { .. } => None,
        AltKind::Terminate => None,
    }
}

// An alternative, where it is open and accepts this member.
fn taken_at<'p>(here: &Here, alt: &'p Alt, member: Member) -> Option<Accepting<'p>>
    ensures { (k : ℕ) (o : Option Open) → alternative_open (task_here here.now) (plain_alt alt.now) k ≡ Ok o → option_map plain_parts result ≡ option_map parts_in (taken_if member.entry member.index o) }
{
    match guard_holds(here, &alt.guard) {
        Ok(holds) => {
            if holds {
                taken(here, &alt.kind, member)
            } else {
                None
            }
        }
        Err(_) => None,
    }
}

// The first alternative that is open and accepts this member.
fn first_taken<'p>(here: &Here, alts: &'p [Alt], member: Member) -> Accepting<'p>
    requires { IsOk (alternatives_open (task_here here.now) (alts_of (map plain_alt alts.now)) 0) }
    ensures { plain_parts result ≡ parts_opened (find (accepts_member member.entry member.index) (opens_or_none (alternatives_open (task_here here.now) (alts_of (map plain_alt alts.now)) 0))) }
{
    for alt in alts {
        match taken_at(here, alt, member) {
            Some(parts) => return parts,
            None => {}
        }
    }
    no_parts()
}

// The alternative of a wait that is taken, where the guards and indexes raise nothing.
fn wait_taken<'p>(here: &Here, alts: &'p [Alt], member: Member) -> Accepting<'p>
    ensures { plain_parts result ≡ parts_opened (first_accepting member.entry member.index (alternatives_open (task_here here.now) (alts_of (map plain_alt alts.now)) 0)) }
{
    match least_duration(here, alts) {
        Ok(_) => first_taken(here, alts, member),
        Err(_) => no_parts(),
    }
}

// An accept statement that is taken.
fn accept_taken<'p>(here: &Here, accept: &'p Accept, member: Member) -> Accepting<'p>
    ensures { plain_parts result ≡ parts_opened (first_accepting member.entry member.index (and_then (accept_opened (task_here here.now) (plain_accept accept.now) no_stmt) (λ o. Ok (o ∷ [])))) }
{
    if is_for(here, accept, member) {
        parts_behind(accept, &[])
    } else {
        no_parts()
    }
}

/// The accept that is taken at a statement for a caller of this member: the accept statement itself, or the first open alternative of a
/// wait that accepts the member (9.5, 9.7.1). Where there is none, as in no legal program, or where the statement raises, all parts are
/// empty.
pub fn alternative_for<'p>(here: &Here, stmt: &'p Stmt, member: Member) -> Accepting<'p>
    ensures { plain_parts result ≡ parts_opened (first_accepting member.entry member.index (open_at (task_here here.now) (plain_stmt stmt.now))) }
{
    match &stmt.kind {
        StmtKind::Accept(accept) => accept_taken(here, accept, member),
        StmtKind::Wait { alts, .. } => wait_taken(here, alts, member),
        _ => no_parts(),
    }
}
