//! The unit of a text: the context clauses and the main procedure (6.3, 10.1).

ghost use Rattle.std.specs.Prelude.{◌≡◌, ◌<◌, ◌≤◌, suc, true, false, codes, IfOk, length};
ghost use Rattle.ada_expr_parser.specs.Gives.{Gives};
ghost use Rattle.ada_phrase_parser.specs.Spelling.{id_of};
ghost use Rattle.ada_parser.specs.inner.ReadingDeclarativeParts as declarative;
ghost use Rattle.ada_parser.specs.inner.ReadingUnits as units;
ghost use Rattle.ada_parser.specs.inner.UnitViews as views;
ghost use Rattle.ada_parser.specs.inner.UnitViews.{plain_unit};
ghost use Rattle.ada_phrase_parser.specs.Views.{told};

use crate::declarations::read_decls;
use crate::unit_ends::unit_end;
use ada_expr_parser::{Item, ParseError, Symbol, expect, expect_word, symbol_in};
use ada_phrase_parser::{Source, expect_id};
use ada_tree::{Body, Decl, NameId, Word};
use std::alloc::Global;

/// A unit: whether it has the context clauses, its name, its declarations and its body.
#[derive(Drop)]
pub(crate) struct Unit {
    pub text_io: bool,
    pub name: Word,
    pub decls: Vec<Decl>,
    pub body: Body,
}

// Behind the declarations. The statements stand one level higher than a declaration's expressions.
#[tactic(auto, using(crate::proofs::Steps::steps))]
fn unit_behind<'a>(
    alloc: Global,
    source: &Source<'_>,
    depth: u32,
    text_io: bool,
    name: Word,
    decls: Vec<Decl>,
    items: &'a [Item],
) -> Result<(Unit, &'a [Item]), ParseError>
    requires { depth ≤ 298 }
    ensures tree { Gives (λ x. plain_unit x.0) (λ x. x.1.now) result (declarative.unit_end (told source.now) (suc depth) name (views.unit_of_parts text_io name decls.items) items.now) }
    ensures shorter { IfOk result (λ x. length x.1.now < length items.now) }
{
    let (body, _, rest) = unit_end(alloc, source, depth + 1, name, items)?;
    Ok((
        Unit {
            text_io,
            name,
            decls,
            body,
        },
        rest,
    ))
}

// Behind `procedure NAME is`.
#[tactic(auto, using(crate::proofs::Steps::steps))]
fn procedure_rest<'a>(
    alloc: Global,
    source: &Source<'_>,
    depth: u32,
    priority: NameId,
    text_io: bool,
    name: Word,
    items: &'a [Item],
) -> Result<(Unit, &'a [Item]), ParseError>
    requires depth { depth ≤ 298 }
    requires id { priority.0 ≡ id_of source.now.names.now (codes "PRIORITY") }
    ensures tree { Gives (λ x. plain_unit x.0) (λ x. x.1.now) result (views.behind_is (told source.now) depth text_io name items.now) }
    ensures shorter { IfOk result (λ x. length x.1.now < length items.now) }
{
    let (decls, rest) = read_decls(alloc, source, depth, priority, items)?;
    unit_behind(alloc, source, depth, text_io, name, decls, rest)
}

// The procedure; `text_io` tells whether the context clauses stand before it.
#[tactic(auto, using(crate::proofs::Steps::steps))]
fn read_procedure<'a>(
    alloc: Global,
    source: &Source<'_>,
    depth: u32,
    priority: NameId,
    text_io: bool,
    items: &'a [Item],
) -> Result<(Unit, &'a [Item]), ParseError>
    requires depth { depth ≤ 298 }
    requires id { priority.0 ≡ id_of source.now.names.now (codes "PRIORITY") }
    ensures tree { Gives (λ x. plain_unit x.0) (λ x. x.1.now) result (units.procedure (told source.now) depth text_io items.now) }
    ensures shorter { IfOk result (λ x. length x.1.now < length items.now) }
{
    let (_, rest) = expect(Symbol::Procedure, items)?;
    let (name, rest) = expect_word(rest)?;
    let (_, rest) = expect(Symbol::Is, rest)?;
    procedure_rest(alloc, source, depth, priority, text_io, name, rest)
}

// Behind `with`: the rest of the context clauses, and the procedure.
#[tactic(auto, using(crate::proofs::Steps::steps))]
fn context_rest<'a>(
    alloc: Global,
    source: &Source<'_>,
    depth: u32,
    priority: NameId,
    items: &'a [Item],
) -> Result<(Unit, &'a [Item]), ParseError>
    requires depth { depth ≤ 298 }
    requires id { priority.0 ≡ id_of source.now.names.now (codes "PRIORITY") }
    ensures tree { Gives (λ x. plain_unit x.0) (λ x. x.1.now) result (units.context_rest (units.procedure (told source.now) depth true) items.now) }
    ensures shorter { IfOk result (λ x. length x.1.now < length items.now) }
{
    let (_, rest) = expect_id(NameId::TEXT_IO.0, items)?;
    let (_, rest) = expect(Symbol::Semicolon, rest)?;
    let (_, rest) = expect(Symbol::Use, rest)?;
    let (_, rest) = expect_id(NameId::TEXT_IO.0, rest)?;
    let (_, rest) = expect(Symbol::Semicolon, rest)?;
    read_procedure(alloc, source, depth, priority, true, rest)
}

/// A unit. At most `depth` levels may stand below the root of each expression in its own declarations; `priority` is the
/// id of PRIORITY.
#[tactic(auto, using(crate::proofs::Steps::steps))]
pub(crate) fn read_unit<'a>(
    alloc: Global,
    source: &Source<'_>,
    depth: u32,
    priority: NameId,
    items: &'a [Item],
) -> Result<(Unit, &'a [Item]), ParseError>
    requires depth { depth ≤ 298 }
    requires id { priority.0 ≡ id_of source.now.names.now (codes "PRIORITY") }
    ensures tree { Gives (λ x. plain_unit x.0) (λ x. x.1.now) result (units.unit (told source.now) depth items.now) }
    ensures shorter { IfOk result (λ x. length x.1.now < length items.now) }
{
    let [next, rest @ ..] = items else {
        return Err(ParseError::Syntax { at: 0 });
    };
    if symbol_in(Symbol::With, *next).is_some() {
        return context_rest(alloc, source, depth, priority, rest);
    }
    read_procedure(alloc, source, depth, priority, false, items)
}
