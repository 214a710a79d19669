//! The objects of task bodies (9.1, this project's rule). Each reader takes how many levels may stand below the root of each
//! expression.

ghost use Rattle.std.specs.Prelude.{◌≡◌, ◌<◌, ◌≤◌, IfOk, map, length};
ghost use Rattle.ada_expr_parser.specs.readers.Readers.{fronted};
ghost use Rattle.ada_expr_parser.specs.readers.Readers as lawful;
ghost use Rattle.ada_tree.specs.PlainDecl.{plain_decl, decls_of};
ghost use Rattle.ada_expr_parser.specs.Gives.{Gives};
ghost use Rattle.ada_decl_parser.specs.inner.ReadingDeclarations as declarations;
ghost use Rattle.ada_parser.specs.inner.ReadingDeclarativeParts as declarative;

use ada_decl_parser::read_object;
use ada_expr_parser::{Item, ParseError};
use ada_phrase_parser::{add, word_in};
use ada_tree::Decl;
use std::alloc::Global;

// Whether an item begins an object.
fn begins_object(item: Item) -> bool
    ensures { result ≡ declarative.begins_object item }
{
    word_in(item).is_some()
}

// Further objects at the end of the list, as long as one begins.
#[tactic(auto, using(crate::proofs::Steps::steps))]
fn objects_onto<'a>(
    alloc: Global,
    depth: u32,
    list: &mut Vec<Decl>,
    items: &'a [Item],
) -> Result<&'a [Item], ParseError>
    ensures tree { Gives (λ x. map plain_decl list.new.items) (λ x. x.now) result (fronted (map plain_decl list.old.items) (lawful.items declarative.begins_object (declarations.object depth) items.now)) }
    ensures shorter { IfOk result (λ x. length x.now ≤ length items.now) }
{
    let mut rest = items;
    'objects: loop {
        let [next, ..] = rest else {
            return Err(ParseError::Syntax { at: 0 });
        };
        if !begins_object(*next) {
            return Ok(rest);
        }
        let (object, behind) = read_object(alloc, depth, rest)?;
        add(list, object)?;
        rest = behind;
    }
}

/// The objects of a task body, none or some.
#[tactic(auto, using(crate::proofs::Steps::rows))]
pub(crate) fn read_objects<'a>(
    alloc: Global,
    depth: u32,
    items: &'a [Item],
) -> Result<(Vec<Decl>, &'a [Item]), ParseError>
    ensures tree { Gives (λ x. decls_of (map plain_decl x.0.items)) (λ x. x.1.now) result (declarative.objects depth items.now) }
    ensures shorter { IfOk result (λ x. length x.1.now ≤ length items.now) }
{
    let mut list = Vec::new(alloc);
    let rest = objects_onto(alloc, depth, &mut list, items)?;
    Ok((list, rest))
}
