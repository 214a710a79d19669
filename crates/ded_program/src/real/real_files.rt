//! The files of the operating system.
ghost use Rattle.std.specs.Prelude.{◌≡◌, ◌<◌, ◌≤◌, ◌-◌, ◌^◌, IfOk, IfErr, IfSome, IsErrOf, None, [], length, vec_len};
ghost use Rattle.ded_io.specs.Told.{TooLongFor};

use debug_outcome::TracedFiles;
use ded_io::{Files, LoadError};
use std::alloc::Global;
use std::io::{ErrorKind, Read};
use std::{fs, rt};

/// The files of the operating system, of which nothing is told. Each load that fails counts as a fault, also where
/// there is no file of the name.
#[derive(Drop)]
pub struct RealFiles<R: rt::Files + Drop> {
    system: R,
    fault_count: u64,
}

impl<R: rt::Files + Drop> RealFiles<R> {
    /// The files that `system` opens; no load has failed yet.
    pub fn new(system: R) -> RealFiles<R>
        ensures holds { result.system ≡ system }
        ensures no_fault { result.fault_count ≡ 0 }
    {
        RealFiles {
            system,
            fault_count: 0,
        }
    }

    // The bytes of a file, without a count of the fault.
    fn read(&self, alloc: Global, name: &str, limit: u64) -> Result<Vec<u8>, LoadError>
        ensures within { IfOk result (λ bytes. vec_len bytes ≤ limit) }
        ensures too_long { IfErr result (TooLongFor None name.now limit) }
    {
        match fs::open(&self.system, name) {
            Ok(file) => read_whole(alloc, file, limit),
            Err(_) => Err(LoadError::Failed),
        }
    }
}

// All that the reader gives, if it is at most `limit` bytes; no more than one byte beyond the limit is read. The greatest limit takes no
// byte beyond it, so that a reader with more to give is not seen there.
#[tactic(auto, using(crate::proofs::real::Fronts::whole))]
fn read_whole<F: Read + Drop>(alloc: Global, file: F, limit: u64) -> Result<Vec<u8>, LoadError>
    ensures within { IfOk result (λ bytes. vec_len bytes ≤ limit) }
    ensures whole { limit < 2 ^ 64 - 1 → IfOk result (λ bytes. IfSome (F.remaining file) (λ given. bytes.items ≡ given)) }
    ensures longer { IsErrOf result (LoadError.TooLong limit) → IfSome (F.remaining file) (λ given. limit < length given) }
    ensures too_long { IfErr result (TooLongFor None [] limit) }
{
    let mut bytes = Vec::new(alloc);
    match file.take(limit.saturating_add(1)).read_to_end(&mut bytes) {
        Ok(_) => {
            if bytes.len() as u64 > limit {
                Err(LoadError::TooLong { limit })
            } else {
                Ok(bytes)
            }
        }
        Err(error) => {
            if error.kind() == ErrorKind::OutOfMemory {
                Err(LoadError::Memory)
            } else {
                Err(LoadError::Failed)
            }
        }
    }
}

impl<R: rt::Files + Drop> Files for RealFiles<R> {
    ghost use Rattle.std.specs.Prelude.{None};

    ghost told = { λ _. None };

    ghost faults = { λ files. files.fault_count };

    #[tactic(auto, unfolding(ded_io::specs::Counts::Rose))]
    fn load(&mut self, alloc: Global, name: &str, limit: u64) -> Result<Vec<u8>, LoadError> {
        let loaded = self.read(alloc, name, limit);
        if matches!(loaded, Err(LoadError::Failed)) {
            self.fault_count = self.fault_count.saturating_add(1);
        }
        loaded
    }

    fn faults(&self) -> u64 {
        self.fault_count
    }
}

impl<R: rt::Files + Drop> TracedFiles for RealFiles<R> {
    ghost use Rattle.ded_program.specs.real.inner.RealLoads.{IsCounted};

    ghost leads = { λ old load new. IsCounted old.fault_count load.answer new.fault_count };

    #[tactic(auto, using(crate::proofs::real::Counting::counted))]
    fn load_traced(&mut self, alloc: Global, name: &str, limit: u64) -> Result<Vec<u8>, LoadError> {
        self.load(alloc, name, limit)
    }
}
