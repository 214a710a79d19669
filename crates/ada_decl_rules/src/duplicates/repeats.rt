// Rule Duplicate: what a program names again though it may not.

ghost use Rattle.std.specs.Prelude.{◌≡◌, [], OnOk, IfOk};
ghost use Rattle.ada_static_rules.specs.RuleDuplicate.{is_predefined};
ghost use Rattle.ada_static_rules.specs.Sooner.{found};
ghost use Rattle.scoped_names.specs.name_sets.Numbers.{numbers_in};
ghost use Rattle.ada_decl_rules.specs.duplicates.NamingsInOrder.{fixed_by, introduced_by, repeated_by, first_repeated};

use crate::duplicates::namings_in_order::Naming;
use ada_static_rules::refusals::{Refusal, Rule, first, refuse_if};
use ada_tree::NameId;
use scoped_names::name_sets::NameSet;
use std::alloc::{AllocError, Global};

// The names of the language's own types, exceptions, packages and procedures are the first ones.
fn is_predefined(name: NameId) -> bool
    ensures { result ≡ is_predefined name.0 }
{
    name.0 < 18
}

// A naming that is refused behind the names that are declared for all of main, and all that are introduced.
fn refuse_again(fixed: &NameSet, introduced: &NameSet, naming: Naming) -> Option<Refusal>
    ensures { result ≡ found 2 (repeated_by (numbers_in fixed.now) (numbers_in introduced.now) naming) }
{
    match naming {
        Naming::Declares {
            for_all,
            again,
            word,
        } => {
            let elsewhere = fixed.has(word.name) || for_all && introduced.has(word.name);
            refuse_if(
                is_predefined(word.name) || again || elsewhere,
                Rule::Duplicate,
                word.span,
            )
        }
        Naming::Labels(word) => refuse_if(
            is_predefined(word.name) || fixed.has(word.name),
            Rule::Duplicate,
            word.span,
        ),
        Naming::Once { again, word } => refuse_if(again, Rule::Duplicate, word.span),
    }
}

// A name that is declared for all of main is put among those.
fn fix(fixed: &mut NameSet, naming: Naming) -> Result<(), AllocError>
    ensures { OnOk result (numbers_in fixed.new ≡ fixed_by naming (numbers_in fixed.old)) }
{
    match naming {
        Naming::Declares { for_all, word, .. } => {
            if for_all {
                fixed.add(word.name)
            } else {
                Ok(())
            }
        }
        _ => Ok(()),
    }
}

// A name that is declared or given to a loop is put among those.
fn introduce(introduced: &mut NameSet, naming: Naming) -> Result<(), AllocError>
    ensures { OnOk result (numbers_in introduced.new ≡ introduced_by naming (numbers_in introduced.old)) }
{
    match naming {
        Naming::Declares { word, .. } => introduced.add(word.name),
        Naming::Labels(word) => introduced.add(word.name),
        Naming::Once { .. } => Ok(()),
    }
}

/// The first of the namings that is refused.
pub(crate) fn refuse_repeats(
    alloc: Global,
    namings: &[Naming],
) -> Result<Option<Refusal>, AllocError>
    ensures { IfOk result (λ r. r ≡ first_repeated [] [] namings.now) }
{
    let mut fixed = NameSet::new(alloc);
    let mut introduced = NameSet::new(alloc);
    let mut refusal = None;
    for naming in namings {
        refusal = first(refusal, refuse_again(&fixed, &introduced, *naming));
        fix(&mut fixed, *naming)?;
        introduce(&mut introduced, *naming)?;
    }
    Ok(refusal)
}
