//! Handlers, the last of which may be for others (11.2).

ghost use Rattle.std.specs.Prelude.{◌≡◌, ◌<◌, ◌-◌, IfErr, OnOk, map, option_map};
ghost use Rattle.ada_tree.specs.PlainStmt.{plain_handler};
ghost use Rattle.ada_expr_parser.specs.declared.errors.ParseError.TheVariants.{Memory};
ghost use Rattle.ada_compound_parts.specs.inner.ReadingParts as parts;

use ada_expr_parser::ParseError;
use ada_phrase_parser::add;
use ada_tree::Handler;

/// The handler for others, if there is one, at the end of the list.
#[tactic(auto, using(crate::proofs::Seen::others_none, crate::proofs::Seen::others_last))]
pub fn add_others(list: &mut Vec<Handler>, others: Option<Handler>) -> Result<(), ParseError>
    ensures added { OnOk result (map plain_handler list.new.items ≡ parts.with_others (map plain_handler list.old.items) (option_map plain_handler others)) }
    ensures cause { IfErr result (λ e. e ≡ Memory) }
{
    match others {
        Some(handler) => add(list, handler),
        None => Ok(()),
    }
}
