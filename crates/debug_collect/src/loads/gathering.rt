// Lines that are gathered in memory.

ghost use Rattle.std.specs.Prelude.{◌≡◌, [], count_by};
ghost use Rattle.seq_file.specs.text_lines.Lines.{is_line_end};

use ded_io::{Sink, SinkError};
use std::alloc::Global;
use std::marker::Model;

/// The bytes of lines. A put that finds no memory takes nothing and counts as a fault.
#[derive(Drop)]
pub(crate) struct Lines {
    gathered: Vec<u8>,
    missed: u64,
}

impl Model for Lines {
    ghost use Rattle.debug_collect.specs.loads.inner.Gathered.{Gathered};

    ghost Value = { Gathered };

    ghost view = { λ a. record { bytes = a.gathered.items; refused = a.missed } };
}

impl Lines {
    /// Lines without a byte.
    pub(crate) fn new(alloc: Global) -> Lines
        ensures { result ≡ record { bytes = []; refused = 0 } }
    {
        Lines {
            gathered: Vec::new(alloc),
            missed: 0,
        }
    }

    /// The bytes so far.
    pub(crate) fn bytes(&self) -> &[u8]
        ensures { result.now ≡ self.now.bytes }
    {
        self.gathered.as_slice()
    }

    /// How many line feeds there are.
    pub(crate) fn count(&self) -> u64
        ensures { result ≡ count_by is_line_end self.now.bytes }
    {
        let mut count = 0u64;
        for byte in self.gathered.as_slice() {
            if *byte == b'\n' {
                count += 1;
            }
        }
        count
    }
}

impl Sink for Lines {
    ghost use Rattle.std.specs.Prelude.{Some};

    ghost told = { λ lines. Some lines.bytes };

    ghost faults = { λ lines. lines.refused };

    #[tactic(auto, unfolding(ded_io::specs::Counts::Rose, ded_io::specs::Written::Wrote))]
    fn put(&mut self, bytes: &[u8]) -> Result<(), SinkError> {
        match self.gathered.extend_from_slice(bytes) {
            Ok(()) => Ok(()),
            Err(_) => {
                self.missed = self.missed.saturating_add(1);
                Err(SinkError::Failed)
            }
        }
    }

    fn faults(&self) -> u64 {
        self.missed
    }
}
