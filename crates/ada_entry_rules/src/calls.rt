// Entry calls.

ghost use Rattle.std.specs.Prelude.{◌≡◌, option_map, is_none};
ghost use Rattle.ada_tree.specs.PlainStmt.{plain_args, plain_call};
ghost use Rattle.ada_static_rules.specs.RuleUnknown.{unknown_entry};
ghost use Rattle.ada_static_rules.specs.RuleArgCount.{called_entry, fits_single, fits_family, fits_call, wrong_call};
ghost use Rattle.ada_static_rules.specs.Sites.{if_there, args_sites, call_sites};
ghost use Rattle.ada_static_rules.specs.Sooner.{found};
ghost use Rattle.ada_static_rules.specs.RefusedFirst.{refused_first};
ghost use Rattle.ada_scopes.specs.Entries.{plain_family, plain_entry};
ghost use Rattle.ada_scopes.specs.Denotations.{plain_thing};
ghost use Rattle.ada_entry_rules.specs.inner.Calls.{has_entries};

use crate::actuals::walk_args;
use crate::callees::walk_callee;
use ada_scopes::denotations::{EntryPart, Family, Thing};
use ada_scopes::scope::Scope;
use ada_static_rules::refusals::{Refusal, Rule, first, refuse_if};
use ada_tree::{Args, Call, NameId, Span, Word};

// Whether an entry is looked up behind what a name means: behind a task, an object of a task type or an array of tasks.
fn has_entries(thing: Option<&Thing>) -> bool
    ensures { result ≡ has_entries (option_map (λ t. plain_thing t.now) thing.entry) }
{
    match thing {
        Some(thing) => match thing {
            Thing::SingleTask(_) | Thing::TaskObject(_) | Thing::TaskArray(..) => true,
            _ => false,
        },
        None => false,
    }
}

// The entry that a call names.
fn called_entry<'a>(thing: Option<&'a Thing>, id: NameId) -> Option<&'a EntryPart>
    ensures { option_map (λ e. plain_entry e.now) result ≡ called_entry (option_map (λ t. plain_thing t.now) thing.entry) id }
{
    match thing {
        Some(thing) => match thing {
            Thing::SingleTask(entries) => entries.named(id),
            Thing::TaskObject(entries) => entries.named(id),
            Thing::TaskArray(_, entries) => entries.named(id),
            _ => None,
        },
        None => None,
    }
}

// An entry that a task has not.
fn refuse_missing(thing: Option<&Thing>, entry: Option<&EntryPart>, word: Word) -> Option<Refusal>
    requires { option_map (λ e. plain_entry e.now) entry ≡ called_entry (option_map (λ t. plain_thing t.now) thing) word.name }
    ensures { result ≡ found 1 (unknown_entry (option_map (λ t. plain_thing t.now) thing.entry) word) }
{
    refuse_if(
        has_entries(thing) && entry.is_none(),
        Rule::Unknown,
        word.span,
    )
}

// Whether the lists behind a plain entry are its actuals alone; no list stands for no actuals.
#[tactic(auto, using(ada_static_rules::proofs::Listing::counted))]
fn fits_single(args: &Option<Args>, count: usize) -> bool
    ensures { result ≡ fits_single (option_map plain_args args.now) count }
{
    match args {
        Some(args) => args.second.is_none() && count != 0 && args.first.len() == count,
        None => count == 0,
    }
}

// Whether the lists behind a family are one index and the actuals.
#[tactic(auto, using(ada_static_rules::proofs::Listing::counted))]
fn fits_family(args: &Option<Args>, count: usize) -> bool
    ensures { result ≡ fits_family (option_map plain_args args.now) count }
{
    match args {
        Some(args) => match &args.second {
            Some(actuals) => args.first.len() == 1 && count != 0 && actuals.len() == count,
            None => args.first.len() == 1 && count == 0,
        },
        None => false,
    }
}

// Whether the lists of a call fit its entry, by the number of the formals.
fn fits(family: Family, args: &Option<Args>, count: usize) -> bool
    ensures { result ≡ fits_call (plain_family family) (option_map plain_args args.now) count }
{
    match family {
        Family::Single => fits_single(args, count),
        Family::Over(_) => fits_family(args, count),
        Family::Unclear => true,
    }
}

// Too many or too few lists or actuals.
#[tactic(auto, using(ada_static_rules::proofs::Listing::counted))]
fn refuse_count(entry: Option<&EntryPart>, args: &Option<Args>, span: Span) -> Option<Refusal>
    ensures { result ≡ found 8 (wrong_call (option_map (λ e. plain_entry e.now) entry.entry) (option_map plain_args args.now) span) }
{
    match entry {
        Some(entry) => {
            let fit = fits(entry.family, args, entry.formals.len());
            refuse_if(!fit, Rule::ArgCount, span)
        }
        None => None,
    }
}

// Walks the lists behind an entry, where there are some.
fn walk_lists(scope: &Scope, entry: Option<&EntryPart>, args: &Option<Args>) -> Option<Refusal>
    ensures { result ≡ refused_first (if_there (args_sites scope.now (option_map (λ e. plain_entry e.now) entry.entry)) (option_map plain_args args.now)) }
{
    match args {
        Some(args) => walk_args(scope, entry, args),
        None => None,
    }
}

/// Walks an entry call.
pub fn walk_call(scope: &Scope, call: &Call) -> Option<Refusal>
    ensures { result ≡ refused_first (call_sites scope.now (plain_call call.now)) }
{
    let callee = walk_callee(scope, &call.task);
    let thing = scope.meaning(call.task.name.name);
    let entry = called_entry(thing, call.entry.name);
    let missing = refuse_missing(thing, entry, call.entry);
    let count = refuse_count(entry, &call.args, call.entry.span);
    let lists = walk_lists(scope, entry, &call.args);
    first(callee, first(first(missing, count), lists))
}
