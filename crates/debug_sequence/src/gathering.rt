// A text in memory, gathered so that it is written at once: a file has up to 700,000 lines of up to seven parts, and each put is a call of the system.

ghost use Rattle.std.specs.Prelude.{◌≡◌, [], length, IfOk};
ghost use Rattle.seq_file.specs.Files.{SeqText};
ghost use Rattle.seq_file.specs.Lists.{ListText, list_count};

use ada_tree::{Memory, Names};
use ded_io::{Sink, SinkError};
use seq_file::{TaskLists, write_lists, write_seq};
use std::alloc::Global;
use std::marker::Model;
use syn_event::{Event, Numbers};

// The bytes of a text. A put that finds no memory takes nothing and counts as a fault.
#[derive(Drop)]
pub(crate) struct Text {
    gathered: Vec<u8>,
    missed: u64,
}

impl Model for Text {
    ghost use Rattle.debug_sequence.specs.inner.Gathered.{Gathered};

    ghost Value = { Gathered };

    ghost view = { λ a. record { bytes = a.gathered.items; refused = a.missed } };
}

impl Text {
    // A text without a byte.
    fn new(alloc: Global) -> Text
        ensures { result ≡ record { bytes = []; refused = 0 } }
    {
        Text {
            gathered: Vec::new(alloc),
            missed: 0,
        }
    }

    // The bytes so far.
    pub(crate) fn bytes(&self) -> &[u8]
        ensures { result.now ≡ self.now.bytes }
    {
        self.gathered.as_slice()
    }
}

impl Sink for Text {
    ghost use Rattle.std.specs.Prelude.{Some};

    ghost told = { λ text. Some text.bytes };

    ghost faults = { λ text. text.refused };

    #[tactic(auto, unfolding(ded_io::specs::Counts::Rose, ded_io::specs::Written::Wrote))]
    fn put(&mut self, bytes: &[u8]) -> Result<(), SinkError> {
        match self.gathered.extend_from_slice(bytes) {
            Ok(()) => Ok(()),
            Err(_) => {
                self.missed = self.missed.saturating_add(1);
                Err(SinkError::Failed)
            }
        }
    }

    fn faults(&self) -> u64 {
        self.missed
    }
}

// The text of events as one list.
#[tactic(auto, unfolding(ded_io::specs::Written::Wrote))]
pub(crate) fn text_of_events(
    alloc: Global,
    events: &[Event],
    numbers: &Numbers,
    names: &Names,
) -> Result<Text, Memory>
    ensures { IfOk result (λ text. text.bytes ≡ SeqText names.now numbers.now events.now) }
{
    let mut text = Text::new(alloc);
    match write_seq(events, numbers, names, &mut text) {
        Ok(()) => Ok(text),
        Err(_) => Err(Memory),
    }
}

// The text of lists, one for main and one for each other task of the original.
#[tactic(auto, unfolding(ded_io::specs::Written::Wrote))]
pub(crate) fn text_of_lists(
    alloc: Global,
    lists: &TaskLists,
    numbers: &Numbers,
    names: &Names,
) -> Result<Text, Memory>
    requires { length lists.now ≡ list_count numbers.now }
    ensures { IfOk result (λ text. text.bytes ≡ ListText names.now numbers.now lists.now) }
{
    let mut text = Text::new(alloc);
    match write_lists(lists, numbers, names, &mut text) {
        Ok(()) => Ok(text),
        Err(_) => Err(Memory),
    }
}
