// The types of a program, and whether it meets the static rules.

ghost use Rattle.std.specs.Prelude.{◌≡◌, IfOk, IfErr};
ghost use Rattle.ada_tree.specs.PlainProgram.{plain_program};
ghost use Rattle.ada_static_rules.specs.Declaring.{first_scope};
ghost use Rattle.ada_static_rules.specs.Refusals.{MeetsTypeRules, types_in};
ghost use Rattle.ada_static_rules.specs.Telling.{TellsFirst};
ghost use Rattle.ada_types.specs.inner.Decls.{IsProgram};

use crate::declarations::walk_decls;
use crate::task_bodies::walk_inside;
use ada_decl_rules::duplicates::named_so_far::Notes;
use ada_scopes::denotations::Thing;
use ada_scopes::scope::Scope;
use ada_static_rules::errors::TypeError;
use ada_static_rules::refusals::{Refusal, first};
use ada_static_rules::verdicts::verdict;
use ada_tree::{Program, Types, Word};
use std::alloc::{AllocError, Global};

/// The types of a program, and what is refused first at its places by the rules but Duplicate, and by that rule.
#[derive(Drop)]
struct WalkedProgram {
    types: Types,
    others: Option<Refusal>,
    repeated: Option<Refusal>,
}

// What can be used before all declarations of a program of that name.
fn first_scope(alloc: Global, name: Word) -> Result<Scope, AllocError>
    ensures { IfOk result (λ scope. scope ≡ first_scope name) }
{
    let mut scope = Scope::new(alloc)?;
    scope.declare(name, Thing::MainProcedure)?;
    Ok(scope)
}

// Walks a program.
fn walk_program(alloc: Global, p: &Program) -> Result<WalkedProgram, AllocError>
    ensures { IfOk result (IsProgram (plain_program p.now)) }
{
    let mut notes = Notes::new(alloc, p.name)?;
    let walked = walk_decls(first_scope(alloc, p.name)?, alloc, &mut notes, &p.decls)?;
    let mut scope = walked.scope;
    let inner = walk_inside(&mut scope, alloc, &p.body)?;
    let repeated = notes.refuse(alloc, &p.body)?;
    Ok(WalkedProgram {
        types: scope.into_types(),
        others: first(walked.refusal, inner),
        repeated,
    })
}

/// The types, marks and constants of a program that meets the first twelve static rules. Otherwise the error tells the refusal whose place starts first, and of several at one start the one of the lowest rule. `Memory` alone may stand for every answer. Time goes by the size of the program.
pub fn types_of(alloc: Global, p: &Program) -> Result<Types, TypeError>
    ensures rules { IfOk result (λ types. MeetsTypeRules (plain_program p.now)) }
    ensures types { IfOk result (λ types. types ≡ types_in (plain_program p.now)) }
    ensures refused { IfErr result (TellsFirst (plain_program p.now)) }
{
    match walk_program(alloc, p) {
        Ok(walked) => match verdict(p, walked.others, walked.repeated) {
            Ok(()) => Ok(walked.types),
            Err(error) => Err(error),
        },
        Err(_) => Err(TypeError::Memory),
    }
}
