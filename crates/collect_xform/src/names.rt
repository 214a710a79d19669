// The names that a collecting text has beside those of the normal form.

ghost use Rattle.std.specs.Prelude.{◌≡◌, fold, length, map, take, IfOk, OnOk};
ghost use Rattle.ada_tree.specs.NameList.{interned};
ghost use Rattle.collect_model.specs.Names.{added_in, with_added};

use ada_tree::{Memory, Names};
use collect_model::AddedNames;
use replay_asking::names::find;

// Texts are interned, in order.
fn intern_all(names: &mut Names, texts: &[&str]) -> Result<(), Memory>
    ensures { OnOk result (names.new ≡ fold interned names.old (map (λ t. t.now) texts.now)) }
{
    for text in texts {
        names.intern(text)?;
    }
    Ok(())
}

/// Names become those of the collecting text: those that are added go behind them.
pub fn add_names(names: &mut Names) -> Result<(), Memory>
    ensures { OnOk result (names.new ≡ with_added names.old) }
{
    intern_all(
        names,
        &[
            "DED_INT_IO",
            "DED_FLAGS",
            "DED_C",
            "DED_G",
            "DED_W",
            "DED_RECORD",
            "NOTE",
            "DED_NK",
            "DED_NS",
            "DED_NA",
            "DED_NI",
            "DED_NO",
            "DED_NG",
            "DED_GONE",
            "DED_MET",
        ],
    )
}

/// The ids that the added names have among names. `beside` begins with the names; behind them stand texts that were looked for.
pub(crate) fn find_added(names: &Names, beside: &mut Names) -> Result<AddedNames, Memory>
    requires { take (length names.now) beside.old ≡ names.now }
    ensures ids { IfOk result (λ ids. ids ≡ added_in names.now) }
    ensures beside { OnOk result (take (length names.now) beside.new ≡ names.now) }
{
    let int_io = find(names, beside, "DED_INT_IO")?;
    let flags = find(names, beside, "DED_FLAGS")?;
    let caller = find(names, beside, "DED_C")?;
    let answer = find(names, beside, "DED_G")?;
    let part = find(names, beside, "DED_W")?;
    let recorder = find(names, beside, "DED_RECORD")?;
    let note = find(names, beside, "NOTE")?;
    let kind = find(names, beside, "DED_NK")?;
    let subject = find(names, beside, "DED_NS")?;
    let argument = find(names, beside, "DED_NA")?;
    let index = find(names, beside, "DED_NI")?;
    let owner = find(names, beside, "DED_NO")?;
    let reply = find(names, beside, "DED_NG")?;
    let gone = find(names, beside, "DED_GONE")?;
    let met = find(names, beside, "DED_MET")?;
    Ok(AddedNames {
        int_io,
        flags,
        caller,
        answer,
        part,
        recorder,
        note,
        kind,
        subject,
        argument,
        index,
        owner,
        reply,
        gone,
        met,
    })
}
