// Whether a program meets the static rules, by what is found at its places.

ghost use Rattle.std.specs.Prelude.{◌≡◌, [], OnOk, IfErr};
ghost use Rattle.ada_tree.specs.PlainProgram.{plain_program};
ghost use Rattle.ada_static_rules.specs.Refusals.{MeetsTypeRules};
ghost use Rattle.ada_static_rules.specs.Sites.{sites};
ghost use Rattle.ada_static_rules.specs.RefusedFirst.{refused_first};
ghost use Rattle.ada_static_rules.specs.Repeated.{repeated_from};
ghost use Rattle.ada_static_rules.specs.Telling.{TellsFirst};

use crate::errors::TypeError;
use crate::refusals::{Refusal, error_of, first};
use ada_tree::Program;

/// The first refusal of a program, of that by rule Duplicate and that by the other rules.
pub fn verdict(
    _program: &Program,
    others: Option<Refusal>,
    repeated: Option<Refusal>,
) -> Result<(), TypeError>
    requires others { others ≡ refused_first (sites (plain_program _program.now)) }
    requires repeated { repeated ≡ repeated_from [] (sites (plain_program _program.now)) }
    ensures ok { OnOk result (MeetsTypeRules (plain_program _program.now)) }
    ensures err { IfErr result (TellsFirst (plain_program _program.now)) }
{
    match first(others, repeated) {
        Some(refusal) => Err(error_of(refusal)),
        None => Ok(()),
    }
}
