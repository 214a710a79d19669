// Maps in which the first that comes for a key is kept.

ghost use Rattle.std.specs.Prelude.{◌≡◌, ◌==◌, ℕ, ℤ, nat_eq, Some, None, if◌then◌else◌, IfOk, OnOk};
ghost use Rattle.std.specs.HashMap.{get};
ghost use Rattle.ada_static_rules.specs.StaticValue.{first_of_two};
ghost use Rattle.task_links.specs.inner.Keys.{entry_eq, member_eq};

use ada_tree::Memory;
use std::collections::HashMap;

/// The number that comes after so many, for which there is no room from 2 ^ 32 on.
pub(crate) fn number_of(count: usize) -> Result<u32, Memory>
    ensures { IfOk result (λ number. number ≡ count) }
{
    match u32::try_from(count) {
        Ok(number) => Ok(number),
        Err(_) => Err(Memory),
    }
}

/// Keeps something for a name, unless something is kept for it.
#[tactic(auto, using(crate::proofs::KeepingLemmas::keeping))]
pub(crate) fn keep_first<T: Copy>(
    map: &mut HashMap<u32, T>,
    key: u32,
    value: T,
) -> Result<(), Memory>
    ensures { OnOk result ((q : ℕ) → get nat_eq map.new q ≡ first_of_two (get nat_eq map.old q) (if key == q then Some value else None)) }
{
    if map.contains_key(&key) {
        return Ok(());
    }
    match map.insert(key, value) {
        Ok(_) => Ok(()),
        Err(_) => Err(Memory),
    }
}

/// Keeps a number for an owner and a name, unless one is kept for them.
#[tactic(auto, using(crate::proofs::KeepingLemmas::keeping))]
pub(crate) fn keep_entry(
    map: &mut HashMap<(u32, u32), u32>,
    key: (u32, u32),
    number: u32,
) -> Result<(), Memory>
    ensures { OnOk result ((q : ℕ × ℕ) → get entry_eq map.new q ≡ first_of_two (get entry_eq map.old q) (if entry_eq key q then Some number else None)) }
{
    let known = map.contains_key(&key);
    if known {
        return Ok(());
    }
    match map.insert(key, number) {
        Ok(_) => Ok(()),
        Err(_) => Err(Memory),
    }
}

/// Keeps a number for a name and an index, unless one is kept for them.
#[tactic(auto, using(crate::proofs::KeepingLemmas::keeping))]
pub(crate) fn keep_member(
    map: &mut HashMap<(u32, i64), u32>,
    name: u32,
    index: i64,
    number: u32,
) -> Result<(), Memory>
    ensures { OnOk result ((q : ℕ × ℤ) → get member_eq map.new q ≡ first_of_two (get member_eq map.old q) (if member_eq (name, index) q then Some number else None)) }
{
    let known = map.contains_key(&(name, index));
    if known {
        return Ok(());
    }
    match map.insert((name, index), number) {
        Ok(_) => Ok(()),
        Err(_) => Err(Memory),
    }
}
