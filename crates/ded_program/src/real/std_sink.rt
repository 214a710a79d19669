//! Standard output and standard error as outputs.
ghost use Rattle.std.specs.Prelude.{◌≡◌, ◌≤◌, None, OnOk};
ghost use Rattle.std.specs.Io.KnownBytes.{Appends};
ghost use Rattle.ded_io.specs.Counts.{HasCause};
ghost use Rattle.ded_io.specs.Written.{Wrote};

use ded_io::{Sink, SinkError};
use std::io::Write;

/// An output over a writer of the operating system, of which nothing is told. It keeps no bytes back: each put is one write
/// where the system takes all of it.
#[derive(Drop)]
pub struct StdSink<W: Write + Drop> {
    stream: W,
    fault_count: u64,
}

impl<W: Write + Drop> StdSink<W> {
    /// An output that writes to `stream`; no write has failed yet.
    pub fn new(stream: W) -> StdSink<W>
        ensures holds { result.stream ≡ stream }
        ensures no_fault { result.fault_count ≡ 0 }
    {
        StdSink {
            stream,
            fault_count: 0,
        }
    }
}

impl<W: Write + Drop> Sink for StdSink<W> {
    ghost use Rattle.std.specs.Prelude.{None};

    ghost told = { λ _. None };

    ghost faults = { λ out. out.fault_count };

    #[tactic(auto, unfolding(ded_io::specs::Counts::Rose, ded_io::specs::Written::Wrote))]
    fn put(&mut self, bytes: &[u8]) -> Result<(), SinkError>
        // Beside what every output promises: where the writer's bytes are known, a success appended all of these.
        ensures written { OnOk result (Appends (W.contents self.old.stream) (W.contents self.new.stream) bytes.now) }
        ensures bytes { Wrote result None None bytes.now }
        ensures cause { HasCause self.old.fault_count self.new.fault_count result }
        ensures count_never_falls { self.old.fault_count ≤ self.new.fault_count }
    {
        match self.stream.write_all(bytes) {
            Ok(()) => Ok(()),
            Err(_) => {
                self.fault_count = self.fault_count.saturating_add(1);
                Err(SinkError::Failed)
            }
        }
    }

    fn faults(&self) -> u64 {
        self.fault_count
    }
}
