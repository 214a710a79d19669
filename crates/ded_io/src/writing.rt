//! Outputs, as a program writes them.
ghost use Rattle.std.specs.Prelude.{◌≡◌, ◌≤◌};
ghost use Rattle.ded_io.specs.Counts.{HasCause};
ghost use Rattle.ded_io.specs.Written.{Wrote};

use thiserror::Error;

/// Why bytes were not written, or not all of them.
#[derive(Debug, Drop, Error)]
pub enum SinkError {
    /// The output took no more, or only a front of the bytes.
    #[error("the output cannot be written")]
    Failed,
}

/// An output that takes bytes. The ghost member `told` is what it has taken so far, `None` where nothing is known of that, as of
/// a terminal. The ghost member `faults` counts the writings that failed; the count stands still at 18446744073709551615.
pub trait Sink {
    ghost use Rattle.std.specs.Prelude.{ℕ, List, Option};

    ghost told: { Self → Option (List ℕ) };

    ghost faults: { Self → ℕ };

    /// Writes all of `bytes` at the end, or fails behind a front of them.
    fn put(&mut self, bytes: &[u8]) -> Result<(), SinkError>
        ensures bytes { Wrote result (told self.old) (told self.new) bytes.now }

        // A failure is a fault of this call, and nothing else changes the count.
        ensures cause { HasCause (faults self.old) (faults self.new) result }
        ensures count_never_falls { faults self.old ≤ faults self.new };

    /// The count of faults so far.
    fn faults(&self) -> u64
        ensures { result ≡ faults self.now };
}

impl<S: Sink> Sink for &mut S {
    ghost told = { λ out. S.told out.now };

    ghost faults = { λ out. S.faults out.now };

    fn put(&mut self, bytes: &[u8]) -> Result<(), SinkError> {
        (**self).put(bytes)
    }

    fn faults(&self) -> u64 {
        (**self).faults()
    }
}
