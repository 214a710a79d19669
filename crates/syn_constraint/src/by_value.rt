// A number for each value of `?`.

ghost use Rattle.std.specs.Prelude.{◌≡◌, ◌<◌, ℤ, length, replicate, IfOk, IfSome, if◌then◌else◌};
ghost use Rattle.std.specs.Ordering.{int_eq};
ghost use Rattle.syn_constraint.specs.inner.Values.{number_at, place_in};

use ada_tree::Memory;
use std::alloc::Global;
use std::collections::HashMap;

// The values from 0 up to here stand in a list, since nearly all numbers of events are small. The others stand in a map.
const LOW: usize = 4096;

/// A number for each value; 0 where none was set.
#[derive(Drop)]
pub(crate) struct ByValue {
    low: Vec<u32>,
    others: HashMap<i64, u32>,
}

impl ByValue {
    pub(crate) fn new(alloc: Global) -> Result<ByValue, Memory>
        ensures { IfOk result (λ made. (value : ℤ) → number_at made value ≡ 0) }
    {
        let low = zeros(alloc)?;
        Ok(ByValue {
            low,
            others: HashMap::new(alloc),
        })
    }

    pub(crate) fn at(&self, value: i64) -> u32
        ensures { result ≡ number_at self.now value }
    {
        match low_place(&self.low, value) {
            Some(place) => self.low[place],
            None => match self.others.get(&value) {
                Some(number) => *number,
                None => 0,
            },
        }
    }

    pub(crate) fn set(&mut self, value: i64, number: u32) -> Result<(), Memory>
        ensures { IfOk result (λ _. (other : ℤ) → number_at self.new other ≡ (if int_eq value other then number else number_at self.old other)) }
    {
        match low_place(&self.low, value) {
            Some(place) => {
                self.low[place] = number;
                Ok(())
            }
            None => {
                self.others.insert(value, number)?;
                Ok(())
            }
        }
    }
}

fn zeros(alloc: Global) -> Result<Vec<u32>, Memory>
    ensures { IfOk result (λ low. low.items ≡ replicate LOW 0) }
{
    let low = Vec::from_elem(alloc, 0, LOW)?;
    Ok(low)
}

// The place of a value that stands in the list.
fn low_place(low: &[u32], value: i64) -> Option<usize>
    ensures is { result ≡ place_in low.now value }
    ensures within { IfSome result (λ place. place < length low.now) }
{
    if 0 <= value && (value as u64) < low.len() as u64 {
        Some(value as usize)
    } else {
        None
    }
}
