//! Files by name, as a program loads them.
ghost use Rattle.std.specs.Prelude.{◌≡◌, ◌≤◌, IfOk, IfErr, IsErrOf, ◌⊎◌, vec_len};
ghost use Rattle.ded_io.specs.Counts.{Rose};
ghost use Rattle.ded_io.specs.Told.{Gives, Lacks, NoFile, TooLongFor};

use std::alloc::Global;
use thiserror::Error;

/// Why a file was not loaded.
#[derive(Debug, Drop, Error)]
pub enum LoadError {
    /// The file is not there, or reading it failed.
    #[error("the file cannot be read")]
    Failed,
    /// The file has more bytes than the caller takes; `limit` is the number that the caller passed.
    #[error("the file is longer than {limit} bytes")]
    TooLong { limit: u64 },
    /// There was no memory for the bytes.
    #[error("out of memory")]
    Memory,
}

/// Files by name. The ghost member `told` is what is known of their bytes, `None` where nothing is, as of the files
/// of an operating system; a name that stands twice has the bytes of its first place. The ghost member `faults` counts the
/// readings that failed. The count never falls, and stands still at 18446744073709551615.
pub trait Files {
    ghost use Rattle.std.specs.Prelude.{ℕ, List, Option};
    ghost use Rattle.ded_io.specs.Told.{ToldFile};

    ghost told: { Self → Option (List ToldFile) };

    ghost faults: { Self → ℕ };

    /// All bytes of the file `name`, if there are at most `limit`.
    fn load(&mut self, alloc: Global, name: &str, limit: u64) -> Result<Vec<u8>, LoadError>
        // No more bytes come than the caller takes, also where nothing is told.
        ensures within { IfOk result (λ bytes. vec_len bytes ≤ limit) }

        // Where the files are told, the bytes are those of the first file of that name.
        ensures given { IfOk result (λ bytes. Gives (told self.old) name.now bytes.items) }

        // A told name that is not there fails and is no fault.
        ensures absent { Lacks (told self.old) name.now → NoFile result × (faults self.new ≡ faults self.old) }

        // A name that is there, or may be, fails only by a fault.
        ensures failed { IsErrOf result LoadError.Failed → Lacks (told self.old) name.now ⊎ Rose (faults self.old) (faults self.new) }

        // The caller's own limit, and only where the told file is longer.
        ensures too_long { IfErr result (TooLongFor (told self.old) name.now limit) }
        ensures told_stays { told self.new ≡ told self.old }
        ensures count_never_falls { faults self.old ≤ faults self.new }
        ensures count_stays { IsErrOf result LoadError.Failed ⊎ (faults self.new ≡ faults self.old) };

    /// The count of faults so far.
    fn faults(&self) -> u64
        ensures { result ≡ faults self.now };
}

impl<F: Files> Files for &mut F {
    ghost told = { λ files. F.told files.now };

    ghost faults = { λ files. F.faults files.now };

    fn load(&mut self, alloc: Global, name: &str, limit: u64) -> Result<Vec<u8>, LoadError> {
        (**self).load(alloc, name, limit)
    }

    fn faults(&self) -> u64 {
        (**self).faults()
    }
}
