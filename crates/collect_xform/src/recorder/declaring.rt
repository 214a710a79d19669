// The recorder's declaration, and the formals of its entry.

ghost use Rattle.std.specs.Prelude.{◌≡◌, ◌∷◌, ◌++◌, [], IfOk, OnOk, map};
ghost use Rattle.ada_tree.specs.declared.statements.ParMode.TheVariants.{Take, Give};
ghost use Rattle.ada_tree.specs.PlainStmt.{plain_formal};
ghost use Rattle.ada_tree.specs.PlainDecl.{plain_decl};
ghost use Rattle.normal_model.specs.Ranges.{word_at};
ghost use Rattle.collect_model.specs.Recording.{note_formals, recorder_declared};

use ada_tree::{Decl, Formal, Memory, NameId, ParMode, Span, Word};
use ada_tree_copy::building::{entry_of, task_of, unit_of};
use collect_model::AddedNames;
use collect_statements::one_word;
use replay_asking::making::one_entry;
use replay_asking::word;
use std::alloc::Global;
use tree_rewriting::making::{keep_formals, push_formal};

// The words of the formals that a note fills.
fn note_words(alloc: Global, n: &AddedNames, s: Span) -> Result<Vec<Word>, Memory>
    ensures { IfOk result (λ made. made.items ≡ word_at s n.now.kind ∷ word_at s n.now.subject ∷ word_at s n.now.argument ∷ word_at s n.now.index ∷ word_at s n.now.owner ∷ []) }
{
    let mut words = Vec::new(alloc);
    words.push(word(n.kind, s))?;
    words.push(word(n.subject, s))?;
    words.push(word(n.argument, s))?;
    words.push(word(n.index, s))?;
    words.push(word(n.owner, s))?;
    Ok(words)
}

// The formals of a note.
fn taken_formal(alloc: Global, n: &AddedNames, s: Span) -> Result<Formal, Memory>
    ensures { IfOk result (λ made. plain_formal made ≡ record { names = word_at s n.now.kind ∷ word_at s n.now.subject ∷ word_at s n.now.argument ∷ word_at s n.now.index ∷ word_at s n.now.owner ∷ []; mode = Take; mark = word_at s record { 0 = 0 } }) }
{
    match note_words(alloc, n, s) {
        Ok(names) => Ok(Formal {
            names,
            mode: ParMode::Take,
            mark: word(NameId::INTEGER, s),
        }),
        Err(e) => Err(e),
    }
}

// The formal of the answer.
fn given_formal(alloc: Global, n: &AddedNames, s: Span) -> Result<Formal, Memory>
    ensures { IfOk result (λ made. plain_formal made ≡ record { names = word_at s n.now.reply ∷ []; mode = Give; mark = word_at s record { 0 = 3 } }) }
{
    match one_word(alloc, word(n.reply, s)) {
        Ok(names) => Ok(Formal {
            names,
            mode: ParMode::Give,
            mark: word(NameId::BOOLEAN, s),
        }),
        Err(e) => Err(e),
    }
}

// The formals of the recorder's entry go behind others.
fn put_formals(alloc: Global, n: &AddedNames, s: Span, out: &mut Vec<Formal>) -> Result<(), Memory>
    ensures { OnOk result (map plain_formal out.new.items ≡ map plain_formal out.old.items ++ note_formals n.now s) }
{
    push_formal(out, taken_formal(alloc, n, s))?;
    push_formal(out, given_formal(alloc, n, s))
}

/// The formals of the recorder's entry.
pub fn note_formals(alloc: Global, n: &AddedNames, s: Span) -> Result<Vec<Formal>, Memory>
    ensures { IfOk result (λ made. map plain_formal made.items ≡ note_formals n.now s) }
{
    let mut formals = Vec::new(alloc);
    let done = put_formals(alloc, n, s, &mut formals);
    keep_formals(formals, done)
}

/// The declaration of the recorder.
pub fn recorder_declared(alloc: Global, n: &AddedNames, s: Span) -> Result<Decl, Memory>
    ensures { IfOk result (λ made. plain_decl made ≡ recorder_declared n.now s) }
{
    let note = entry_of(word(n.note, s), Ok(None), note_formals(alloc, n, s), s);
    let entries = one_entry(alloc, note);
    task_of(
        unit_of(word(n.recorder, s), false, entries, Ok(Vec::new(alloc))),
        s,
    )
}
