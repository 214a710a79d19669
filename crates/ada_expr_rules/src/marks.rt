// Names that stand as marks.

ghost use Rattle.std.specs.Prelude.{◌≡◌};
ghost use Rattle.ada_static_rules.specs.Demand.{stands_as_mark};
ghost use Rattle.ada_static_rules.specs.RuleMismatch.{is_allowed, wrong_mark};
ghost use Rattle.ada_static_rules.specs.Sooner.{found};
ghost use Rattle.ada_static_rules.specs.RefusedFirst.{refused_first_at};
ghost use Rattle.ada_scopes.specs.Readings.{plain_marking};
ghost use Rattle.ada_expr_rules.specs.Plain.{plain_use};

use crate::nodes::refuse_unseen;
use ada_scopes::readings::{Marking, mark_named};
use ada_scopes::scope::Scope;
use ada_static_rules::refusals::{Refusal, Rule, first, refuse};
use ada_tree::Word;

/// The marks that may stand at a place: scalar ones always, and besides array types or task types.
#[derive(Clone, Copy)]
pub enum MarkUse {
    Scalar,
    OrArray,
    OrTask,
    OrArrayOrTask,
}

// Whether a mark may stand at a place. Nothing is asked of one that is not declared, or whose declaration is refused.
fn is_allowed(allowed: MarkUse, marking: Marking) -> bool
    ensures { result ≡ is_allowed (plain_use allowed) (plain_marking marking.entry) }
{
    match marking {
        Marking::Array { .. } => match allowed {
            MarkUse::OrArray | MarkUse::OrArrayOrTask => true,
            _ => false,
        },
        Marking::Task(_) => match allowed {
            MarkUse::OrTask | MarkUse::OrArrayOrTask => true,
            _ => false,
        },
        Marking::NoMark => false,
        _ => true,
    }
}

/// A mark that may not stand at its place.
pub(crate) fn refuse_mark(scope: &Scope, allowed: MarkUse, mark: Word) -> Option<Refusal>
    ensures { result ≡ found 3 (wrong_mark (plain_use allowed) scope.now mark) }
{
    if is_allowed(allowed, mark_named(scope, mark.name)) {
        None
    } else {
        refuse(Rule::Mismatch, mark.span)
    }
}

/// A name that stands as a mark.
#[tactic(auto, using(ada_static_rules::proofs::SoonerLaws::sooner_laws))]
pub fn walk_mark(scope: &Scope, allowed: MarkUse, mark: Word) -> Option<Refusal>
    ensures { result ≡ refused_first_at scope.now (stands_as_mark (plain_use allowed) mark) }
{
    let unseen = refuse_unseen(scope, mark.name, mark.span);
    let wrong = refuse_mark(scope, allowed, mark);
    first(unseen, wrong)
}
