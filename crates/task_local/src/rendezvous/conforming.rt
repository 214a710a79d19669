// Whether the formals of an accept are those of its entry (9.5). No call takes memory.

ghost use Rattle.std.specs.Prelude.{◌≡◌, ◌↔◌, ◌++◌, List, map, option_map, IsTrue, MatchOption};
ghost use Rattle.ada_tree.specs.PlainStmt.{plain_formal};
ghost use Rattle.task_links.specs.inner.Made.{parameter_named};
ghost use Rattle.task_model.specs.declared.parameters.FormalParameter.{FormalParameter};
ghost use Rattle.task_model.specs.Setting.{entry_parameters, parameters_of};
ghost use Rattle.task_local.specs.rendezvous.inner.Conforming.{are_same, are_same_behind, is_alike, same_limits};

use ada_tree::{Formal, ParMode, Word};
use ada_value::Limits;
use task_links::Links;
use task_model::FormalParameter;

// Whether two subtypes are the same.
fn are_same_limits(one: Limits, other: Limits) -> bool
    ensures { result ≡ same_limits one other }
{
    one.kind == other.kind && one.first == other.first && one.last == other.last
}

// Whether a formal of this name, mode and subtype is one of an entry.
fn is_alike(word: Word, mode: ParMode, limits: Limits, parameter: FormalParameter) -> bool
    ensures { result ≡ is_alike (parameter_named mode limits word) parameter }
{
    word.name.0 == parameter.name.0
        && mode == parameter.mode
        && are_same_limits(limits, parameter.limits)
}

// The formals of an entry behind those of one parameter declaration of an accept; none where one differs.
fn rest_behind<'a>(
    words: &[Word],
    mode: ParMode,
    limits: Limits,
    parameters: &'a [FormalParameter],
) -> Option<&'a [FormalParameter]>
    ensures { (behind : List FormalParameter) → are_same (map (parameter_named mode limits) words.now ++ behind) parameters.now ≡ are_same_behind behind (option_map (λ rest. rest.now) result) }
{
    let mut rest = parameters;
    for word in words {
        match rest {
            [parameter, left @ ..] => {
                if !is_alike(*word, mode, limits, *parameter) {
                    return None;
                }
                rest = left;
            }
            [] => return None,
        }
    }
    Some(rest)
}

// Whether the formals of an accept are these, compared one after the other.
fn are_same(links: &Links, formals: &[Formal], parameters: &[FormalParameter]) -> bool
    ensures { result ≡ are_same (parameters_of links.now.types (map plain_formal formals.now)) parameters.now }
{
    let mut rest = parameters;
    for formal in formals {
        let limits = links.limits_named(formal.mark.name);
        match rest_behind(&formal.names, formal.mode, limits, rest) {
            Some(left) => rest = left,
            None => return false,
        }
    }
    match rest {
        [] => true,
        _ => false,
    }
}

// Whether the formals of an accept are these of its entry.
fn conforms(links: &Links, formals: &[Formal], parameters: &[FormalParameter]) -> bool
    ensures { IsTrue result ↔ (parameters_of links.now.types (map plain_formal formals.now) ≡ parameters.now) }
{
    are_same(links, formals, parameters)
}

/// The formals of an accept of this entry, lent where those of the entry stand; none where they differ from those.
pub(crate) fn lent_formals<'p>(
    links: &'p Links<'p>,
    entry: u32,
    formals: &[Formal],
) -> Option<&'p [FormalParameter]>
    ensures { MatchOption result (¬ (parameters_of links.now.types (map plain_formal formals.now) ≡ entry_parameters links.now entry)) (λ lent. lent.now ≡ parameters_of links.now.types (map plain_formal formals.now)) }
{
    if formals.is_empty() {
        return Some(&[]);
    }
    let parameters = links.entry_parameters(entry);
    if conforms(links, formals, parameters) {
        Some(parameters)
    } else {
        None
    }
}
