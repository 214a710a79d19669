// An output that keeps nothing.

use ded_io::{Sink, SinkError};

/// An output that keeps nothing, takes no memory and never fails.
#[derive(Drop)]
pub(crate) struct Nowhere {}

impl Nowhere {
    /// Such an output.
    pub(crate) fn new() -> Nowhere {
        Nowhere {}
    }
}

impl Sink for Nowhere {
    ghost use Rattle.std.specs.Prelude.{None};

    ghost told = { λ _. None };

    ghost faults = { λ _. 0 };

    #[tactic(auto, unfolding(ded_io::specs::Written::Wrote))]
    fn put(&mut self, _bytes: &[u8]) -> Result<(), SinkError> {
        Ok(())
    }

    fn faults(&self) -> u64 {
        0
    }
}
