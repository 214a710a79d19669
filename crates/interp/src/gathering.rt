// The bytes of a line, gathered so that they are written at once.

ghost use Rattle.std.specs.Prelude.{◌≡◌, ◌≤◌, ◌+◌, ◌++◌, [], length};

use ded_io::{Sink, SinkError};
use std::marker::Model;

// No line of an event has so many bytes.
const ROOM: usize = 64;

// The bytes of one line. A put that passes its room takes nothing and counts as a fault.
#[derive(Drop)]
pub(crate) struct Line {
    buffer: [u8; 64],
    filled: usize,
    refused: u64,
}

impl Model for Line {
    ghost use Rattle.std.specs.Prelude.{◌≤◌, take};
    ghost use Rattle.interp.specs.inner.Gathered.{Gathered};

    ghost Value = { Gathered };

    ghost view = { λ a. record { bytes = take a.filled a.buffer; refused = a.refused } };

    ghost invariant = { λ a. a.filled ≤ 64 };
}

impl Line {
    // A line without a byte.
    pub(crate) fn new() -> Line
        ensures { result ≡ record { bytes = []; refused = 0 } }
    {
        Line {
            buffer: [0; 64],
            filled: 0,
            refused: 0,
        }
    }

    // The bytes so far.
    pub(crate) fn bytes(&self) -> &[u8]
        ensures { result.now ≡ self.now.bytes }
    {
        &self.buffer[..self.filled]
    }

    // Bytes that fit come behind the others.
    fn keep(&mut self, bytes: &[u8])
        requires { length self.now.bytes + length bytes.now ≤ 64 }
        ensures { self.new ≡ record self.old { bytes = self.old.bytes ++ bytes.now } }
    {
        let end = self.filled + bytes.len();
        self.buffer[self.filled..end].copy_from_slice(bytes);
        self.filled = end;
    }
}

impl Sink for Line {
    ghost use Rattle.std.specs.Prelude.{Some};

    ghost told = { λ line. Some line.bytes };

    ghost faults = { λ line. line.refused };

    #[tactic(auto, unfolding(ded_io::specs::Counts::Rose, ded_io::specs::Written::Wrote))]
    fn put(&mut self, bytes: &[u8]) -> Result<(), SinkError> {
        if bytes.len() > ROOM - self.filled {
            self.refused = self.refused.saturating_add(1);
            return Err(SinkError::Failed);
        }
        self.keep(bytes);
        Ok(())
    }

    fn faults(&self) -> u64 {
        self.refused
    }
}
