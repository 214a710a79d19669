// The lists in parentheses behind the name of an entry.

ghost use Rattle.std.specs.Prelude.{◌≡◌, map, option_map, unwrap_or, []};
ghost use Rattle.ada_tree.specs.PlainExpr.{plain_expr};
ghost use Rattle.ada_tree.specs.PlainStmt.{plain_args};
ghost use Rattle.task_model.specs.Setting.{lists_in, lists_of};
ghost use Rattle.task_waits.specs.calls.Looks.{plain_lists};

use ada_tree::{Args, Expr};
use task_links::Links;

/// The index and the actual parameters of a call.
#[derive(Clone, Copy)]
pub struct Lists<'p> {
    pub index: Option<&'p Expr>,
    pub actuals: &'p [Expr],
}

// The second list, if there is one.
fn second_of<'p>(args: &'p Args) -> &'p [Expr]
    ensures { map plain_expr result.now ≡ unwrap_or (plain_args args.now).second [] }
{
    match &args.second {
        Some(second) => second,
        None => &[],
    }
}

// Of a family the first list is the index.
fn lists_in<'p>(is_family: bool, args: &'p Args) -> Lists<'p>
    ensures { plain_lists result ≡ lists_in is_family (plain_args args.now) }
{
    if is_family {
        Lists {
            index: args.first.first(),
            actuals: second_of(args),
        }
    } else {
        Lists {
            index: None,
            actuals: &args.first,
        }
    }
}

/// The index and the actuals in a call of the entry of this number: of a family the first list is the index and the second one, if there
/// is one, the actuals; of a plain entry there is no index (6.4, 9.5).
pub fn lists_of<'p>(links: &Links, entry: u32, args: &'p Option<Args>) -> Lists<'p>
    ensures { plain_lists result ≡ lists_of links.now.numbers entry (option_map plain_args args.now) }
{
    match args {
        Some(args) => lists_in(links.is_family(entry), args),
        None => Lists {
            index: None,
            actuals: &[],
        },
    }
}
