// The names that a collecting text with abort statements has beside those of one without.

ghost use Rattle.std.specs.Prelude.{◌≡◌, ◌<◌, ◌+◌, IfOk, OnOk};
ghost use Rattle.ada_tree.specs.NameList.{interned};
ghost use Rattle.collect_model.specs.aborts.Names.{refused_text, taken_text, with_places, with_recorded};

use crate::teller::{refused_text, taken_text};
use ada_tree::{Memory, Names};
use std::alloc::Global;

// Names become those with the recorder's further names.
fn add_recorded(names: &mut Names) -> Result<(), Memory>
    ensures { OnOk result (names.new ≡ with_recorded names.old) }
{
    collect_xform::add_names(names)?;
    names.intern("DED_ACC")?;
    names.intern("DED_U")?;
    Ok(())
}

// The variables of a place get names.
fn add_place(alloc: Global, names: &mut Names, place: u32) -> Result<(), Memory>
    ensures { OnOk result (names.new ≡ interned (interned names.old (taken_text place)) (refused_text place)) }
{
    let taken = taken_text(alloc, place)?;
    names.intern(taken.as_str())?;
    let refused = refused_text(alloc, place)?;
    names.intern(refused.as_str())?;
    Ok(())
}

// The variables of places up to a number get names.
fn add_places(alloc: Global, names: &mut Names, most: u32) -> Result<(), Memory>
    ensures { OnOk result (names.new ≡ with_places names.old most) }
{
    for before in 0..most {
        add_place(alloc, names, before + 1)?;
    }
    Ok(())
}

/// Names become those of the collecting text, in which no unit has more places than this.
pub(crate) fn add_names(alloc: Global, names: &mut Names, most: u32) -> Result<(), Memory>
    ensures { OnOk result (names.new ≡ with_places (with_recorded names.old) most) }
{
    add_recorded(names)?;
    add_places(alloc, names, most)
}
