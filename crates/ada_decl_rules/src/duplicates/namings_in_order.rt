// What a program declares or names, in the order of the text: all that rule Duplicate looks at. Lists are gone through by loops, so recursion follows nesting alone.

ghost use Rattle.std.specs.Prelude.{◌≡◌, ◌++◌, ◌∷◌, [], ℕ, Option, OnOk, map, option_map};
ghost use Rattle.ada_tree.specs.PlainStmt.{plain_formal, plain_scheme, plain_stmt, plain_accept, plain_alt, plain_alt_kind, plain_arm, plain_case_arm, plain_handler, plain_body, stmts_of, alts_of, arms_of, case_arms_of, handlers_of};
ghost use Rattle.ada_static_rules.specs.Scope.{Range};
ghost use Rattle.ada_static_rules.specs.Demand.{labels};
ghost use Rattle.ada_static_rules.specs.Sites.{site, if_there, with_words, formals_sites, scheme_sites, loop_scope, stmt_sites, stmts_sites, accept_sites, alts_sites, alt_sites, arms_sites, case_arms_sites, body_sites, handlers_sites};
ghost use Rattle.scoped_names.specs.name_sets.Numbers.{numbers_in};
ghost use Rattle.ada_decl_rules.specs.duplicates.NamingsInOrder.{Named, declared, named_once};
ghost use Rattle.ada_decl_rules.specs.duplicates.inner.Noted.{handler_places, handler_words};

use ada_tree::{
    Accept, Alt, AltKind, Arm, Body, CaseArm, Formal, Handler, Scheme, Stmt, StmtKind, Word,
};
use scoped_names::name_sets::NameSet;
use std::alloc::{AllocError, Global};

/// A place where a name is declared or named.
#[derive(Clone, Copy)]
pub(crate) enum Naming {
    /// A name is declared: whether it is one of main and no variable, and whether the same scope has it already.
    Declares {
        for_all: bool,
        again: bool,
        word: Word,
    },
    /// A loop has a name.
    Labels(Word),
    /// What may be named once alone, as an entry of a task or an exception in the handlers of a body, and whether it is named again.
    Once {
        again: bool,
        word: Word,
    },
}

/// A name that is declared behind those of the same scope.
pub(crate) fn note_word(
    namings: &mut Vec<Naming>,
    here: &mut NameSet,
    for_all: bool,
    word: Word,
) -> Result<(), AllocError>
    ensures namings { OnOk result (namings.new.items ≡ namings.old.items ++ declared for_all (numbers_in here.old) (word ∷ [])) }
    ensures here { OnOk result (numbers_in here.new ≡ word.name.0 ∷ numbers_in here.old) }
{
    let again = here.has(word.name);
    namings.push(Naming::Declares {
        for_all,
        again,
        word,
    })?;
    here.add(word.name)
}

/// The names of one declaration, behind those of the same scope.
pub(crate) fn note_words(
    namings: &mut Vec<Naming>,
    here: &mut NameSet,
    for_all: bool,
    words: &[Word],
) -> Result<(), AllocError>
    ensures namings { OnOk result (namings.new.items ≡ namings.old.items ++ declared for_all (numbers_in here.old) words.now) }
    ensures here { OnOk result (numbers_in here.new ≡ with_words (numbers_in here.old) words.now) }
{
    for word in words {
        note_word(namings, here, for_all, *word)?;
    }
    Ok(())
}

/// A name that may stand once, behind others.
pub(crate) fn note_once(
    namings: &mut Vec<Naming>,
    names: &mut NameSet,
    word: Word,
) -> Result<(), AllocError>
    ensures namings { OnOk result (namings.new.items ≡ namings.old.items ++ named_once (numbers_in names.old) (word ∷ [])) }
    ensures names { OnOk result (numbers_in names.new ≡ word.name.0 ∷ numbers_in names.old) }
{
    let again = names.has(word.name);
    namings.push(Naming::Once { again, word })?;
    names.add(word.name)
}

// The names of a handler, behind those of the handlers before it.
fn note_exceptions(
    namings: &mut Vec<Naming>,
    names: &mut NameSet,
    words: &[Word],
) -> Result<(), AllocError>
    ensures namings { OnOk result (namings.new.items ≡ namings.old.items ++ named_once (numbers_in names.old) words.now) }
    ensures names { OnOk result (numbers_in names.new ≡ with_words (numbers_in names.old) words.now) }
{
    for word in words {
        note_once(namings, names, *word)?;
    }
    Ok(())
}

/// The formal parameters of an entry or an accept, which are a scope of their own.
pub(crate) fn note_formals(
    alloc: Global,
    namings: &mut Vec<Naming>,
    formals: &[Formal],
) -> Result<(), AllocError>
    ensures { OnOk result (Named namings.old.items namings.new.items (λ scope. formals_sites scope (map plain_formal formals.now))) }
{
    let mut here = NameSet::new(alloc);
    for formal in formals {
        note_words(namings, &mut here, false, &formal.names)?;
    }
    Ok(())
}

// The name of a loop, which may be left out.
fn note_label(namings: &mut Vec<Naming>, name: Option<Word>) -> Result<(), AllocError>
    ensures { OnOk result (Named namings.old.items namings.new.items (λ scope. if_there (λ x. site scope (labels x) ∷ []) name)) }
{
    match name {
        Some(word) => {
            namings.push(Naming::Labels(word))?;
            Ok(())
        }
        None => Ok(()),
    }
}

// How a loop goes on: the parameter of a for loop is a scope of its own.
fn note_scheme(namings: &mut Vec<Naming>, scheme: &Option<Scheme>) -> Result<(), AllocError>
    ensures { OnOk result (Named namings.old.items namings.new.items (λ scope. if_there (scheme_sites scope) (option_map plain_scheme scheme.now))) }
{
    match scheme {
        Some(scheme) => match scheme {
            Scheme::While(_) => Ok(()),
            Scheme::For { name, .. } => {
                namings.push(Naming::Declares {
                    for_all: false,
                    again: false,
                    word: *name,
                })?;
                Ok(())
            }
        },
        None => Ok(()),
    }
}

#[cycle(namings)]
fn note_accept(alloc: Global, namings: &mut Vec<Naming>, accept: &Accept) -> Result<(), AllocError>
    ensures { OnOk result (Named namings.old.items namings.new.items (λ scope. accept_sites scope (plain_accept accept.now))) }
{
    note_formals(alloc, namings, &accept.formals)?;
    match &accept.stmts {
        Some(list) => note_stmts(alloc, namings, list),
        None => Ok(()),
    }
}

// An alternative without its guard.
#[cycle(namings)]
fn note_kind(alloc: Global, namings: &mut Vec<Naming>, kind: &AltKind) -> Result<(), AllocError>
    ensures { OnOk result (Named namings.old.items namings.new.items (λ scope. alt_sites scope (plain_alt_kind kind.now))) }
{
    match kind {
        AltKind::Accept { accept, stmts } => {
            note_accept(alloc, namings, accept)?;
            note_stmts(alloc, namings, stmts)
        }
        AltKind::Delay { stmts, .. } => note_stmts(alloc, namings, stmts),
        AltKind::Terminate => Ok(()),
    }
}

#[cycle(namings)]
fn note_alts(alloc: Global, namings: &mut Vec<Naming>, alts: &[Alt]) -> Result<(), AllocError>
    ensures { OnOk result (Named namings.old.items namings.new.items (λ scope. alts_sites scope (alts_of (map plain_alt alts.now)))) }
{
    for alt in alts {
        note_kind(alloc, namings, &alt.kind)?;
    }
    Ok(())
}

#[cycle(namings)]
fn note_arms(alloc: Global, namings: &mut Vec<Naming>, arms: &[Arm]) -> Result<(), AllocError>
    ensures { OnOk result (Named namings.old.items namings.new.items (λ scope. arms_sites scope (arms_of (map plain_arm arms.now)))) }
{
    for arm in arms {
        note_stmts(alloc, namings, &arm.stmts)?;
    }
    Ok(())
}

#[cycle(namings)]
fn note_case_arms(
    alloc: Global,
    namings: &mut Vec<Naming>,
    arms: &[CaseArm],
) -> Result<(), AllocError>
    ensures { OnOk result ((k : Option ℕ) (range : Option Range) → Named namings.old.items namings.new.items (λ scope. case_arms_sites scope k range (case_arms_of (map plain_case_arm arms.now)))) }
{
    for arm in arms {
        note_stmts(alloc, namings, &arm.stmts)?;
    }
    Ok(())
}

#[cycle(namings)]
fn note_handler(
    alloc: Global,
    namings: &mut Vec<Naming>,
    names: &mut NameSet,
    handler: &Handler,
) -> Result<(), AllocError>
    ensures namings { OnOk result (Named namings.old.items namings.new.items (λ scope. handler_places scope (numbers_in names.old) (plain_handler handler.now))) }
    ensures names { OnOk result (numbers_in names.new ≡ with_words (numbers_in names.old) (handler_words (plain_handler handler.now))) }
{
    note_exceptions(namings, names, &handler.names)?;
    note_stmts(alloc, namings, &handler.stmts)
}

#[cycle(namings)]
fn note_handlers(
    alloc: Global,
    namings: &mut Vec<Naming>,
    handlers: &[Handler],
) -> Result<(), AllocError>
    ensures { OnOk result (Named namings.old.items namings.new.items (λ scope. handlers_sites scope [] (handlers_of (map plain_handler handlers.now)))) }
{
    let mut names = NameSet::new(alloc);
    for handler in handlers {
        note_handler(alloc, namings, &mut names, handler)?;
    }
    Ok(())
}

/// The statements and the handlers of a unit or a block.
#[cycle(namings)]
pub(crate) fn note_body(
    alloc: Global,
    namings: &mut Vec<Naming>,
    body: &Body,
) -> Result<(), AllocError>
    ensures { OnOk result (Named namings.old.items namings.new.items (λ scope. body_sites scope (plain_body body.now))) }
{
    note_stmts(alloc, namings, &body.stmts)?;
    note_handlers(alloc, namings, &body.handlers)
}

#[cycle(namings)]
fn note_loop(
    alloc: Global,
    namings: &mut Vec<Naming>,
    name: Option<Word>,
    scheme: &Option<Scheme>,
    list: &[Stmt],
) -> Result<(), AllocError>
    ensures { OnOk result (Named namings.old.items namings.new.items (λ scope. if_there (λ x. site scope (labels x) ∷ []) name ++ if_there (scheme_sites scope) (option_map plain_scheme scheme.now) ++ stmts_sites (loop_scope scope (option_map plain_scheme scheme.now)) (stmts_of (map plain_stmt list.now)))) }
{
    note_label(namings, name)?;
    note_scheme(namings, scheme)?;
    note_stmts(alloc, namings, list)
}

#[cycle(namings)]
fn note_stmt(alloc: Global, namings: &mut Vec<Naming>, stmt: &Stmt) -> Result<(), AllocError>
    ensures { OnOk result (Named namings.old.items namings.new.items (λ scope. stmt_sites scope (plain_stmt stmt.now))) }
{
    match &stmt.kind {
        StmtKind::Accept(accept) => note_accept(alloc, namings, accept),
        StmtKind::Wait { alts, otherwise } => {
            note_alts(alloc, namings, alts)?;
            match otherwise {
                Some(list) => note_stmts(alloc, namings, list),
                None => Ok(()),
            }
        }
        StmtKind::Conditional {
            behind,
            otherwise,
            ..
        } => {
            note_stmts(alloc, namings, behind)?;
            note_stmts(alloc, namings, otherwise)
        }
        StmtKind::Timed { behind, after, .. } => {
            note_stmts(alloc, namings, behind)?;
            note_stmts(alloc, namings, after)
        }
        StmtKind::If { arms, otherwise } => {
            note_arms(alloc, namings, arms)?;
            match otherwise {
                Some(list) => note_stmts(alloc, namings, list),
                None => Ok(()),
            }
        }
        StmtKind::Case { arms, others, .. } => {
            note_case_arms(alloc, namings, arms)?;
            match others {
                Some(list) => note_stmts(alloc, namings, list),
                None => Ok(()),
            }
        }
        StmtKind::Block(body) => note_body(alloc, namings, body),
        StmtKind::Loop {
            name,
            scheme,
            stmts,
        } => note_loop(alloc, namings, *name, scheme, stmts),
        StmtKind::Null => Ok(()),
        StmtKind::Assign { .. } => Ok(()),
        StmtKind::Delay { .. } => Ok(()),
        StmtKind::Exit { .. } => Ok(()),
        StmtKind::Raise { .. } => Ok(()),
        StmtKind::Abort { .. } => Ok(()),
        StmtKind::Call(_) => Ok(()),
        StmtKind::Put { .. } => Ok(()),
        StmtKind::PutLine { .. } => Ok(()),
        StmtKind::NewLine => Ok(()),
        StmtKind::Get { .. } => Ok(()),
    }
}

#[cycle(namings)]
fn note_stmts(alloc: Global, namings: &mut Vec<Naming>, list: &[Stmt]) -> Result<(), AllocError>
    ensures { OnOk result (Named namings.old.items namings.new.items (λ scope. stmts_sites scope (stmts_of (map plain_stmt list.now)))) }
{
    for stmt in list {
        note_stmt(alloc, namings, stmt)?;
    }
    Ok(())
}
