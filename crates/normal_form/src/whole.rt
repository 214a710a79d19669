// The normal form of a whole program.

ghost use Rattle.std.specs.Prelude.{◌≡◌, ◌++◌, [], IfOk, OnOk, length, map};
ghost use Rattle.ada_tree.specs.PlainDecl.{plain_decl};
ghost use Rattle.ada_tree.specs.PlainProgram.{plain_program};
ghost use Rattle.ada_tree.specs.PlainStmt.{plain_body};
ghost use Rattle.normal_model.specs.NormalStmts.{normal_body};
ghost use Rattle.normal_model.specs.NormalTree.{main_unit, main_variables, normal_tree};
ghost use Rattle.normal_lookups.specs.names.SoFar.{AreNamesOf};
ghost use Rattle.normal_lookups.specs.meanings.Meant.{AreMembersOf};
ghost use Rattle.normal_walk.specs.variables.Track.{variables_of};
ghost use Rattle.normal_form.specs.unit_declarations.Runners.{AreRunning};
ghost use Rattle.normal_form.specs.inner.Whole.{all_decls, named_behind};

use crate::body_copies::{push_bodies, take_variables};
use crate::unit_declarations::{Running, push_firsts, push_tasks};
use ada_tree::{Body, Decl, Memory, Names, Program, Types};
use ada_tree_copy::building::program_of;
use normal_lookups::Lookups;
use normal_lookups::meanings::{Members, members_of};
use normal_lookups::names::{NormalNames, names_of};
use normal_walk::rewrite_unit;
use normal_walk::variables::Track;
use std::alloc::Global;
use syn_event::Numbers;
use task_links::Links;
use tree_rewriting::making::{append_decls, keep_decls};

// The declarations of the normal form go behind others, where the track has main's variables.
fn fill_decls(
    alloc: Global,
    lookups: &Lookups,
    members: &Members,
    running: &Running,
    track: &mut Track,
    out: &mut Vec<Decl>,
) -> Result<(), Memory>
    requires names { AreNamesOf lookups.now track.old.names }
    requires members { AreMembersOf lookups.now members.now }
    requires running { AreRunning lookups.now running.now }
    ensures decls { OnOk result (map plain_decl out.new.items ≡ map plain_decl out.old.items ++ all_decls lookups.now (variables_of track.old)) }
    ensures names { OnOk result (AreNamesOf lookups.now track.new.names) }
    ensures count { OnOk result (length track.new.names.variables.items ≡ named_behind lookups.now (length track.old.names.variables.items)) }
{
    let decls = &lookups.links().program().decls;
    push_firsts(alloc, decls, out)?;
    let vars = take_variables(alloc, track);
    append_decls(out, vars, Ok(()))?;
    push_tasks(alloc, lookups, &track.names, out)?;
    push_bodies(alloc, lookups, members, running, track, decls, out)
}

// The declarations of the normal form, where the track has main's variables.
fn all_decls(
    alloc: Global,
    lookups: &Lookups,
    members: &Members,
    running: &Running,
    track: &mut Track,
) -> Result<Vec<Decl>, Memory>
    requires names { AreNamesOf lookups.now track.old.names }
    requires members { AreMembersOf lookups.now members.now }
    requires running { AreRunning lookups.now running.now }
    ensures decls { IfOk result (λ made. map plain_decl made.items ≡ all_decls lookups.now (variables_of track.old)) }
    ensures names { IfOk result (λ made. AreNamesOf lookups.now track.new.names) }
    ensures count { IfOk result (λ made. length track.new.names.variables.items ≡ named_behind lookups.now (length track.old.names.variables.items)) }
{
    let mut out = Vec::new(alloc);
    let done = fill_decls(alloc, lookups, members, running, track, &mut out);
    keep_decls(out, done)
}

// The texts of the names of a track.
fn texts_of(track: Track) -> Names
    ensures { result ≡ track.names.names }
{
    let Track { names, decls: _ } = track;
    let NormalNames {
        names,
        tasks: _,
        variables: _,
    } = names;
    names
}

// The normal form, whose body is this, where the track has main's variables and no others have names.
fn with_body(
    alloc: Global,
    lookups: &Lookups,
    members: &Members,
    running: &Running,
    track: Track,
    body: Body,
) -> Result<Program, Memory>
    requires names { AreNamesOf lookups.now track.names }
    requires members { AreMembersOf lookups.now members.now }
    requires running { AreRunning lookups.now running.now }
    requires count { length track.names.variables.items ≡ length track.decls.items }
    requires variables { variables_of track ≡ main_variables lookups.now }
    requires body { plain_body body ≡ normal_body (main_unit lookups.now) lookups.now.program.body }
    ensures { IfOk result (λ q. plain_program q ≡ normal_tree lookups.now.program lookups.now.types lookups.now.numbers) }
{
    let p = lookups.links().program();
    let mut track = track;
    let decls = all_decls(alloc, lookups, members, running, &mut track);
    program_of(Ok(texts_of(track)), p.text_io, p.name, decls, Ok(body))
}

// The normal form of the program of these look-ups, by names in which no variable has one yet.
fn normal_from(
    alloc: Global,
    lookups: &Lookups,
    members: &Members,
    names: NormalNames,
) -> Result<Program, Memory>
    requires names { AreNamesOf lookups.now names }
    requires none { names.variables.items ≡ [] }
    requires members { AreMembersOf lookups.now members.now }
    ensures { IfOk result (λ q. plain_program q ≡ normal_tree lookups.now.program lookups.now.types lookups.now.numbers) }
{
    let running = Running::new(alloc, lookups, &names)?;
    let mut track = Track {
        names,
        decls: Vec::new(alloc),
    };
    let body = &lookups.links().program().body;
    match rewrite_unit(alloc, lookups, members, 0, &mut track, body) {
        Ok(body) => with_body(alloc, lookups, members, &running, track, body),
        Err(e) => Err(e),
    }
}

// The normal form of the program of these look-ups.
fn normal_of(alloc: Global, lookups: &Lookups) -> Result<Program, Memory>
    ensures { IfOk result (λ q. plain_program q ≡ normal_tree lookups.now.program lookups.now.types lookups.now.numbers) }
{
    let names = names_of(alloc, lookups.links().program(), lookups.links().numbers())?;
    let members = members_of(alloc, lookups, &names)?;
    normal_from(alloc, lookups, &members, names)
}

/// The normal form of a program with these types and numbers.
pub fn normal(
    alloc: Global,
    p: &Program,
    types: &Types,
    numbers: &Numbers,
) -> Result<Program, Memory>
    ensures { IfOk result (λ q. plain_program q ≡ normal_tree (plain_program p.now) types.now numbers.now) }
{
    let links = Links::new(alloc, p, types, numbers)?;
    match Lookups::new(alloc, &links) {
        Ok(lookups) => normal_of(alloc, &lookups),
        Err(e) => Err(e),
    }
}
