// The declarations of a normal form, by what they are.

ghost use Rattle.std.specs.Prelude.{◌≡◌, ◌≤◌, ◌||◌, ◌++◌, ◌∷◌, [], not, OnOk, map, length, position};
ghost use Rattle.std.specs.List.{filter, position_or_len};
ghost use Rattle.ada_tree.specs.PlainDecl.{plain_decl};
ghost use Rattle.syn_event.specs.AddedNames.{is_added_name};
ghost use Rattle.replay_model.specs.ReplayTree.{is_added_object, is_task, is_body, last_task};

use ada_tree::{Decl, DeclKind, Memory, NameId, Names};
use replay_asking::making::push_taken_decl;
use syn_event::Numbers;

/// The number of the last task.
pub fn last_task(numbers: &Numbers) -> u32
    ensures { result ≡ last_task numbers.now }
{
    let count = numbers.tasks.len() as u32;
    count.saturating_sub(1)
}

// Whether a rewriter made the name.
fn is_added_name(names: &Names, id: NameId) -> bool
    ensures { result ≡ is_added_name names.now id }
{
    match names.text(id) {
        Some(text) => text.as_bytes().starts_with(b"DED_"),
        None => false,
    }
}

// Whether a declaration is that of a variable of the normal form.
fn is_added_object(names: &Names, decl: &Decl) -> bool
    ensures { result ≡ is_added_object names.now (plain_decl decl.now) }
{
    match &decl.kind {
        DeclKind::Object { names: words, .. } => match words.as_slice() {
            [word, ..] => is_added_name(names, word.name),
            [] => false,
        },
        _ => false,
    }
}

// The place of the first variable of the normal form.
fn added_place(names: &Names, decls: &[Decl]) -> Option<usize>
    ensures { result ≡ position (λ d. is_added_object names.now (plain_decl d)) decls.now }
{
    decls.iter().position(|decl| is_added_object(names, decl))
}

/// How many declarations stand in front of the first variable of the normal form.
pub fn own_objects(names: &Names, decls: &[Decl]) -> usize
    ensures place { result ≡ position_or_len (λ d. is_added_object names.now (plain_decl d)) decls.now }
    ensures within { result ≤ length decls.now }
{
    match added_place(names, decls) {
        Some(place) => place,
        None => decls.len(),
    }
}

// A declaration goes, by what it is, behind other objects, tasks or bodies. It is taken from where it stands.
fn sort_decl(
    decl: &mut Decl,
    objects: &mut Vec<Decl>,
    tasks: &mut Vec<Decl>,
    bodies: &mut Vec<Decl>,
) -> Result<(), Memory>
    ensures objects { OnOk result (map plain_decl objects.new.items ≡ map plain_decl objects.old.items ++ filter (λ d. not (is_task d || is_body d)) (plain_decl decl.old ∷ [])) }
    ensures tasks { OnOk result (map plain_decl tasks.new.items ≡ map plain_decl tasks.old.items ++ filter is_task (plain_decl decl.old ∷ [])) }
    ensures bodies { OnOk result (map plain_decl bodies.new.items ≡ map plain_decl bodies.old.items ++ filter is_body (plain_decl decl.old ∷ [])) }
{
    match &decl.kind {
        DeclKind::Task(_) => push_taken_decl(tasks, decl),
        DeclKind::TaskBody { .. } => push_taken_decl(bodies, decl),
        _ => push_taken_decl(objects, decl),
    }
}

/// The declarations go, by what they are, behind other objects, tasks or bodies. They are taken from where they stand. The only error is want of memory.
pub fn sort_decls(
    decls: &mut Vec<Decl>,
    objects: &mut Vec<Decl>,
    tasks: &mut Vec<Decl>,
    bodies: &mut Vec<Decl>,
) -> Result<(), Memory>
    ensures objects { OnOk result (map plain_decl objects.new.items ≡ map plain_decl objects.old.items ++ filter (λ d. not (is_task d || is_body d)) (map plain_decl decls.old.items)) }
    ensures tasks { OnOk result (map plain_decl tasks.new.items ≡ map plain_decl tasks.old.items ++ filter is_task (map plain_decl decls.old.items)) }
    ensures bodies { OnOk result (map plain_decl bodies.new.items ≡ map plain_decl bodies.old.items ++ filter is_body (map plain_decl decls.old.items)) }
{
    for decl in decls.iter_mut() {
        sort_decl(decl, objects, tasks, bodies)?;
    }
    Ok(())
}
