// Accept statements without their statements.

ghost use Rattle.std.specs.Prelude.{◌≡◌, ◌∷◌, ◌++◌, ◌||◌, [], List, map, Some, option_map, is_some, if◌then◌else◌};
ghost use Rattle.ada_tree.specs.declared.naming.Span.{Span};
ghost use Rattle.ada_tree.specs.PlainExpr.{plain_expr};
ghost use Rattle.ada_tree.specs.PlainStmt.{plain_formal};
ghost use Rattle.ada_static_rules.specs.Scope.{entry_named, is_entry_somewhere};
ghost use Rattle.ada_static_rules.specs.Demand.{must_lie_in, accepts};
ghost use Rattle.ada_static_rules.specs.RuleArgCount.{Written, are_same, written_formals, fits_accept, wrong_accept};
ghost use Rattle.ada_static_rules.specs.Sites.{site, if_there, expr_of, accept_index_sites, formals_sites, formal_mark_sites, head_sites};
ghost use Rattle.ada_static_rules.specs.Sooner.{found};
ghost use Rattle.ada_static_rules.specs.RefusedFirst.{refused_first_at, refused_first};
ghost use Rattle.ada_scopes.specs.Entries.{plain_range, plain_family, plain_part, plain_entry};
ghost use Rattle.ada_entry_rules.specs.inner.Accepts.{written_of, is_alike, are_same_behind};

use ada_expr_rules::marks::{MarkUse, walk_mark};
use ada_expr_rules::ranges::refuse_outside;
use ada_expr_rules::walking::{walk, walk_of};
use ada_scopes::denotations::{EntryPart, Family, FormalPart, Range};
use ada_scopes::scope::Scope;
use ada_static_rules::refusals::{Refusal, Rule, first, refuse, refuse_if};
use ada_tree::{Expr, Formal, Word};

// Whether a formal of an accept is one of its entry: in name, mode and mark.
fn is_alike(word: Word, formal: &Formal, part: FormalPart) -> bool
    ensures { result ≡ is_alike (written_of (plain_formal formal.now) word) (plain_part part) }
{
    word.name.0 == part.name.0 && formal.mode == part.mode && formal.mark.name.0 == part.mark.0
}

// The formals of an entry behind those that are alike, one after the other; none where one is not.
fn rest_behind<'a>(formal: &Formal, parts: &'a [FormalPart]) -> Option<&'a [FormalPart]>
    ensures { (behind : List Written) → are_same (map (written_of (plain_formal formal.now)) formal.now.names.items ++ behind) (map plain_part parts.now) ≡ are_same_behind behind (option_map (λ r. map plain_part r.now) result) }
{
    let mut rest = parts;
    for word in &formal.names {
        match rest {
            [part, left @ ..] => {
                if !is_alike(*word, formal, *part) {
                    return None;
                }
                rest = left;
            }
            [] => return None,
        }
    }
    Some(rest)
}

// Whether the formals of an accept are those of its entry.
fn are_same(formals: &[Formal], parts: &[FormalPart]) -> bool
    ensures { result ≡ are_same (written_formals (map plain_formal formals.now)) (map plain_part parts.now) }
{
    let mut rest = parts;
    for formal in formals {
        match rest_behind(formal, rest) {
            Some(left) => rest = left,
            None => return false,
        }
    }
    match rest {
        [] => true,
        _ => false,
    }
}

// Whether an index stands where the entry is a family.
fn fits(family: Family, index: &Option<Expr>) -> bool
    ensures { result ≡ fits_accept (plain_family family) (option_map plain_expr index.now) }
{
    match family {
        Family::Single => index.is_none(),
        Family::Over(_) => index.is_some(),
        Family::Unclear => true,
    }
}

// An accept that differs from its entry.
fn refuse_other(
    entry: Option<&EntryPart>,
    word: Word,
    index: &Option<Expr>,
    formals: &[Formal],
) -> Option<Refusal>
    ensures { (span : Span) → result ≡ found 8 (wrong_accept (option_map (λ e. plain_entry e.now) entry.entry) record { entry = word; index = option_map plain_expr index.now; formals = map plain_formal formals.now; span = span }) }
{
    match entry {
        Some(entry) => {
            let same = fits(entry.family, index) && are_same(formals, &entry.formals);
            refuse_if(!same, Rule::ArgCount, word.span)
        }
        None => None,
    }
}

// An accept of an entry that is none of the own task and of no task that is declared before.
fn refuse_missing(scope: &Scope, entry: Option<&EntryPart>, word: Word) -> Option<Refusal>
    requires { option_map (λ e. plain_entry e.now) entry ≡ entry_named scope.now.own word.name }
    ensures { result ≡ found 1 (if is_some (entry_named scope.now.own word.name) || is_entry_somewhere scope.now word.name then [] else word.span ∷ []) }
{
    if entry.is_some() || scope.is_entry_somewhere(word.name) {
        None
    } else {
        refuse(Rule::Unknown, word.span)
    }
}

// An accept's entry, its index and its formals.
fn refuse_accept(
    scope: &Scope,
    entry: Option<&EntryPart>,
    word: Word,
    index: &Option<Expr>,
    formals: &[Formal],
) -> Option<Refusal>
    requires { option_map (λ e. plain_entry e.now) entry ≡ entry_named scope.now.own word.name }
    ensures { (span : Span) → result ≡ refused_first_at scope.now (accepts record { entry = word; index = option_map plain_expr index.now; formals = map plain_formal formals.now; span = span }) }
{
    let missing = refuse_missing(scope, entry, word);
    let other = refuse_other(entry, word, index, formals);
    first(missing, other)
}

// Walks the index of a member of a family.
fn walk_member(scope: &Scope, range: Range, index: &Expr) -> Option<Refusal>
    ensures { result ≡ refused_first (expr_of scope.now (Some range.kind) (plain_expr index.now) ++ site scope.now (must_lie_in (plain_expr index.now) (Some (plain_range range))) ∷ []) }
{
    let walked = walk_of(scope, Some(range.kind), index);
    let outside = refuse_outside(scope, index, walked.known(), Some(range));
    first(walked.refusal, outside)
}

// Walks the index of an accept, in the range of its family.
fn walk_index(scope: &Scope, entry: Option<&EntryPart>, index: &Expr) -> Option<Refusal>
    ensures { result ≡ refused_first (accept_index_sites scope.now (option_map (λ e. plain_entry e.now) entry.entry) (plain_expr index.now)) }
{
    match entry {
        Some(entry) => match entry.family {
            Family::Single => walk(scope, index).refusal,
            Family::Over(range) => walk_member(scope, range, index),
            Family::Unclear => walk(scope, index).refusal,
        },
        None => walk(scope, index).refusal,
    }
}

// Walks the index of an accept, where there is one.
fn walk_index_if(scope: &Scope, entry: Option<&EntryPart>, index: &Option<Expr>) -> Option<Refusal>
    ensures { result ≡ refused_first (if_there (accept_index_sites scope.now (option_map (λ e. plain_entry e.now) entry.entry)) (option_map plain_expr index.now)) }
{
    match index {
        Some(index) => walk_index(scope, entry, index),
        None => None,
    }
}

// Walks the marks of formals.
fn walk_marks(scope: &Scope, formals: &[Formal]) -> Option<Refusal>
    ensures { result ≡ refused_first (formal_mark_sites scope.now (map plain_formal formals.now)) }
{
    let mut refusal = None;
    for formal in formals {
        refusal = first(refusal, walk_mark(scope, MarkUse::Scalar, formal.mark));
    }
    refusal
}

/// Walks the formals of an entry or an accept.
pub(crate) fn walk_formals(scope: &Scope, formals: &[Formal]) -> Option<Refusal>
    ensures { result ≡ refused_first (formals_sites scope.now (map plain_formal formals.now)) }
{
    walk_marks(scope, formals)
}

/// Walks an accept statement without its statements.
pub fn walk_head(
    scope: &Scope,
    word: Word,
    index: &Option<Expr>,
    formals: &[Formal],
) -> Option<Refusal>
    ensures { (span : Span) → result ≡ refused_first (head_sites scope.now record { entry = word; index = option_map plain_expr index.now; formals = map plain_formal formals.now; span = span }) }
{
    let entry = scope.own().named(word.name);
    let own = refuse_accept(scope, entry, word, index, formals);
    let at = walk_index_if(scope, entry, index);
    let marks = walk_formals(scope, formals);
    first(first(own, at), marks)
}
