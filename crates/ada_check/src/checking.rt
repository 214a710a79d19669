// Whether a program meets all static rules, and which types and numbers it has.

ghost use Rattle.std.specs.Prelude.{◌≡◌, IfOk, OnOk, IfErr};
ghost use Rattle.ada_tree.specs.PlainProgram.{plain_program};
ghost use Rattle.ada_static_rules.specs.Refusals.{MeetsTypeRules, types_in};
ghost use Rattle.syn_event.specs.CheckScope.{CheckScope};
ghost use Rattle.syn_event.specs.CheckSites.{check_sites, around_program, counted_sites};
ghost use Rattle.syn_event.specs.Legal.{Legal};
ghost use Rattle.ada_check_rules.specs.rules.RefusedFirst.{refused_first};
ghost use Rattle.ada_check.specs.Verdicts.{IsWalkedProgram, MeansBroken, TellsWhy};

use crate::declarations::walk_decls;
use crate::errors::CheckError;
use crate::telling::error_of;
use ada_check_places::statements::walk_body;
use ada_check_rules::rules::{Refusal, Standard, first};
use ada_check_rules::scopes::CheckScopes;
use ada_task_numbers::numbers_for;
use ada_task_numbers::task_counts::{refuse_copies, refuse_entries, refuse_tasks};
use ada_task_numbers::task_objects::task_names_of;
use ada_tree::{Program, Types};
use ada_types::{TypeError, types_of};
use std::alloc::{AllocError, Global};
use syn_event::{Mode, Numbers};

/// What is known of a program that meets all static rules: its types, marks and constants, and the numbers of its tasks and entries.
#[derive(Drop)]
pub struct Checked {
    pub types: Types,
    pub numbers: Numbers,
}

/// The types of a program, and the first refusal at its places.
#[derive(Drop)]
struct WalkedProgram {
    types: Types,
    refusal: Option<Refusal>,
}

// What is counted over the whole program.
fn refuse_counts(
    alloc: Global,
    by: &Standard,
    types: &Types,
    p: &Program,
) -> Result<Option<Refusal>, AllocError>
    ensures { (around : CheckScope) → around.types ≡ types.now → IfOk result (λ r. r ≡ refused_first by.now (counted_sites around (plain_program p.now))) }
{
    let found = task_names_of(alloc, p)?;
    let parts = found.as_slice();
    let tasks = refuse_tasks(by, types, parts);
    let entries = refuse_entries(by, types, parts);
    let copies = refuse_copies(alloc, by, types, parts, p)?;
    Ok(first(first(tasks, entries), copies))
}

// The first refusal at the places of a program, which stand in what is around it.
fn walk_program(
    around: &mut CheckScopes,
    alloc: Global,
    by: &Standard,
    p: &Program,
) -> Result<Option<Refusal>, AllocError>
    requires { around.old ≡ around_program (plain_program p.now) }
    ensures told { IfOk result (λ r. r ≡ refused_first by.now (check_sites (plain_program p.now))) }
    ensures types { OnOk result (around.new.types ≡ around.old.types) }
{
    let counted = refuse_counts(alloc, by, around.types(), p)?;
    let name = by.refuse_name(p.name);
    let declared = walk_decls(around, alloc, by, &p.decls)?;
    let inner = walk_body(around, by, 1, &p.body)?;
    Ok(first(first(first(name, declared), inner), counted))
}

// The types of a program and its first refusal.
fn walk(alloc: Global, types: Types, p: &Program, mode: Mode) -> Result<WalkedProgram, AllocError>
    requires { types ≡ types_in (plain_program p.now) }
    ensures { IfOk result (IsWalkedProgram (plain_program p.now) mode) }
{
    let by = Standard::new(mode, &p.names);
    let mut around = CheckScopes::new(alloc, types, p.name)?;
    let refusal = walk_program(&mut around, alloc, &by, p)?;
    Ok(WalkedProgram {
        types: around.into_types(),
        refusal,
    })
}

// A program that meets the first twelve rules and has these types.
fn check_on(alloc: Global, types: Types, p: &Program, mode: Mode) -> Result<Checked, CheckError>
    requires types { types ≡ types_in (plain_program p.now) }
    requires rules { MeetsTypeRules (plain_program p.now) }
    ensures ok { IfOk result (λ c. Legal (plain_program p.now) c.types c.numbers mode) }
    ensures err { IfErr result (TellsWhy (plain_program p.now) mode) }
{
    match walk(alloc, types, p, mode) {
        Ok(WalkedProgram { types, refusal }) => match refusal {
            Some(refusal) => Err(error_of(refusal)),
            None => match numbers_for(alloc, p, &types) {
                Ok(numbers) => Ok(Checked { types, numbers }),
                Err(_) => Err(CheckError::Memory),
            },
        },
        Err(_) => Err(CheckError::Memory),
    }
}

// The same of any program.
fn judged(alloc: Global, p: &Program, mode: Mode) -> Result<Checked, CheckError>
    ensures ok { IfOk result (λ c. Legal (plain_program p.now) c.types c.numbers mode) }
    ensures err { IfErr result (TellsWhy (plain_program p.now) mode) }
{
    match types_of(alloc, p) {
        Ok(types) => check_on(alloc, types, p, mode),
        Err(TypeError::Memory) => Err(CheckError::Memory),
        Err(error) => Err(CheckError::Rule(error)),
    }
}

/// Whether a program meets all static rules, by a mode. It asks nothing of the program. Its types and the numbers of its tasks and entries are handed out where it does. Otherwise the error tells the first refusal, by the first twelve rules where one of these refuses something, and else by the others; then the program is legal with no types and numbers. `Memory` alone may stand for every answer.
pub fn check(alloc: Global, p: &Program, mode: Mode) -> Result<Checked, CheckError>
    ensures ok { IfOk result (λ c. Legal (plain_program p.now) c.types c.numbers mode) }
    ensures err { IfErr result (TellsWhy (plain_program p.now) mode) }
    ensures broken { IfErr result (MeansBroken (plain_program p.now) mode) }
{
    judged(alloc, p, mode)
}
