//! An output in memory.
ghost use Rattle.std.specs.Prelude.{◌≡◌, ◌+◌, ◌≤◌, ◌↔◌, Some, [], length, IfOk, IsOk, IsTrue};
ghost use Rattle.ded_io.specs.Counts.{one_more, HasCause};
ghost use Rattle.ded_io.specs.Stored.{StoredOutput, is_failing, takes, behind_put};
ghost use Rattle.ded_io.specs.Written.{Wrote};

use crate::writing::{Sink, SinkError};
use std::alloc::{AllocError, Global};
use std::marker::Model;

/// An output in memory, which tells all its bytes. It takes its room at once and no memory later. Its calls of `put` are counted
/// from 1: those whose numbers stand in a list fail, and so does one that passes the room; each such call is a fault and writes nothing.
#[derive(Drop)]
pub struct MemorySink {
    written: Vec<u8>,
    failing: Vec<u64>,
    room: u64,
    calls: u64,
    fault_count: u64,
}

impl Model for MemorySink {
    ghost use Rattle.std.specs.Prelude.{◌≤◌, vec_len, vec_capacity};
    ghost use Rattle.ded_io.specs.Stored.{StoredOutput};

    ghost Value = { StoredOutput };

    ghost view = { λ a. record { bytes = a.written.items; failing = a.failing.items; room = a.room; calls = a.calls; faults = a.fault_count } };

    ghost invariant = { λ a. (vec_len a.written ≤ a.room) × (a.room ≤ vec_capacity a.written) };
}

impl MemorySink {
    /// An empty output with a room of `room` bytes. The calls of `put` whose numbers, from 1, stand in `failing` fail.
    pub fn new(alloc: Global, failing: Vec<u64>, room: u64) -> Result<MemorySink, AllocError>
        ensures { IfOk result (λ sink. sink ≡ record { bytes = []; failing = failing.items; room = room; calls = 0; faults = 0 }) }
    {
        Ok(MemorySink {
            written: Vec::with_capacity(alloc, room as usize)?,
            failing,
            room,
            calls: 0,
            fault_count: 0,
        })
    }

    /// All bytes written so far.
    pub fn bytes(&self) -> &[u8]
        ensures { result.now ≡ self.now.bytes }
    {
        self.written.as_slice()
    }

    /// Counts a call, and says whether it is one of those that fail.
    fn count_call(&mut self) -> bool
        ensures after { self.new ≡ record self.old { calls = one_more self.old.calls } }
        ensures failing { result ≡ is_failing self.old.failing self.old.calls }
    {
        self.calls = self.calls.saturating_add(1);
        self.failing.contains(&self.calls)
    }

    /// Counts a fault.
    fn fail(&mut self) -> SinkError
        ensures { self.new ≡ record self.old { faults = one_more self.old.faults } }
    {
        self.fault_count = self.fault_count.saturating_add(1);
        SinkError::Failed
    }
}

impl Sink for MemorySink {
    ghost use Rattle.std.specs.Prelude.{Some};

    ghost told = { λ stored. Some stored.bytes };

    ghost faults = { λ stored. stored.faults };

    #[tactic(auto, unfolding(crate::specs::Counts::Rose, crate::specs::Written::Wrote))]
    fn put(&mut self, bytes: &[u8]) -> Result<(), SinkError>
        // Beside what every output promises: which calls succeed, and what each leaves.
        ensures after { self.new ≡ behind_put self.old bytes.now }
        ensures taken { IsOk result ↔ IsTrue (takes self.old bytes.now) }
        ensures room_is_enough { self.old.failing ≡ [] → length self.old.bytes + length bytes.now ≤ self.old.room → IsOk result }
        ensures bytes { Wrote result (Some self.old.bytes) (Some self.new.bytes) bytes.now }
        ensures cause { HasCause self.old.faults self.new.faults result }
        ensures count_never_falls { self.old.faults ≤ self.new.faults }
    {
        let is_failing = self.count_call();
        if is_failing || bytes.len() as u64 > self.room - self.written.len() as u64 {
            return Err(self.fail());
        }
        match self.written.extend_from_slice(bytes) {
            Ok(()) => Ok(()),
            Err(_) => Err(self.fail()),
        }
    }

    fn faults(&self) -> u64 {
        self.fault_count
    }
}
