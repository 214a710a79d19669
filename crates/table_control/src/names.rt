// The ids of the names in the body of the controller.

ghost use Rattle.std.specs.Prelude.{◌≡◌, length, map, take, IfOk, OnOk};
ghost use Rattle.std.specs.List.{fold};
ghost use Rattle.ada_tree.specs.NameList.{interned};
ghost use Rattle.normal_model.specs.Names.{id_of};
ghost use Rattle.replay_model.specs.tables.ControlTexts.{ids_in, with_control_names};

use ada_tree::{Memory, NameId, Names};
use replay_model::tables::ControlNames;

// The id of a text, which goes behind the names where it is not among them.
fn add(names: &mut Names, text: &str) -> Result<NameId, Memory>
    ensures id { IfOk result (λ id. id ≡ id_of names.new text.now) }
    ensures texts { OnOk result (names.new ≡ interned names.old text.now) }
    ensures begins { take (length names.old) names.new ≡ names.old }
{
    names.intern(text)
}

// How many names there are.
const COUNT: usize = 13;

// Texts are interned, in order; their ids.
fn add_all(names: &mut Names, texts: &[&str; COUNT]) -> Result<[NameId; COUNT], Memory>
    ensures ids { IfOk result (λ ids. ids ≡ map (λ t. id_of names.new t.now) texts.now) }
    ensures texts { OnOk result (names.new ≡ fold interned names.old (map (λ t. t.now) texts.now)) }
    ensures begins { take (length names.old) names.new ≡ names.old }
{
    let mut ids = [NameId(0); COUNT];
    for (k, text) in texts.iter().enumerate() {
        ids[k] = add(names, text)?;
    }
    Ok(ids)
}

/// The names in the body of the controller are interned, each once, and their ids. After an error, which comes by want of memory or of free ids, the names begin as before.
pub fn control_names(names: &mut Names) -> Result<ControlNames, Memory>
    ensures ids { IfOk result (λ ids. ids ≡ ids_in names.new) }
    ensures texts { OnOk result (names.new ≡ with_control_names names.old) }
    ensures begins { take (length names.old) names.new ≡ names.old }
{
    let [
        kind,
        argument,
        index,
        go,
        done,
        hold,
        join,
        operations,
        tasks,
        kinds,
        arguments,
        indices,
        counter,
    ] = add_all(
        names,
        &[
            "DED_K", "DED_A", "DED_I", "GO", "DONE", "HOLD", "DED_JOIN", "DED_OPS", "DED_TS",
            "DED_KS", "DED_AS", "DED_IS", "DED_N",
        ],
    )?;
    Ok(ControlNames {
        kind,
        argument,
        index,
        go,
        done,
        hold,
        join,
        operations,
        tasks,
        kinds,
        arguments,
        indices,
        counter,
    })
}
