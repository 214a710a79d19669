//! Files whose loads can be told one from another.

ghost use Rattle.std.specs.Prelude.{◌≡◌, ◌≤◌, IfOk, IfErr, IsErrOf, ◌⊎◌, vec_len};
ghost use Rattle.ded_io.specs.Counts.{Rose};
ghost use Rattle.ded_io.specs.Told.{Gives, Lacks, TooLongFor};
ghost use Rattle.debug_outcome.specs.Traces.{answer_by};

use ded_io::{Files, LoadError, MemoryFiles};
use std::alloc::Global;

/// Files of which it can be said which loads were made. The ghost member `leads` says from which state to which a load with its answer leads. Each
/// form of files says what it is; code that serves every form can show it of no load but one that it made. So a clause that names it says
/// which files were loaded, in which order, and what came of each, also where nothing is told of their bytes.
pub trait TracedFiles: Files {
    ghost use Rattle.debug_outcome.specs.Traces.{Load};

    ghost leads: { Self → Load → Self → Type 0 };

    /// What `load` of `Files` gives, with what that promises, and a trace of it.
    fn load_traced(&mut self, alloc: Global, name: &str, limit: u64) -> Result<Vec<u8>, LoadError>
        ensures within { IfOk result (λ bytes. vec_len bytes ≤ limit) }
        ensures given { IfOk result (λ bytes. Gives (Self.told self.old) name.now bytes.items) }
        ensures failed { IsErrOf result LoadError.Failed → Lacks (Self.told self.old) name.now ⊎ Rose (Self.faults self.old) (Self.faults self.new) }
        ensures too_long { IfErr result (TooLongFor (Self.told self.old) name.now limit) }
        ensures told_stays { Self.told self.new ≡ Self.told self.old }
        ensures count_never_falls { Self.faults self.old ≤ Self.faults self.new }
        ensures count_stays { IsErrOf result LoadError.Failed ⊎ (Self.faults self.new ≡ Self.faults self.old) }

        // The load that was made, with its answer.
        ensures traced { leads self.old record { file = record { name = name.now; limit = limit }; answer = answer_by (λ bytes. bytes.items) result } self.new };
}

impl TracedFiles for MemoryFiles {
    ghost use Rattle.debug_outcome.specs.Traces.{IsStoredLoad};

    ghost leads = { IsStoredLoad };

    #[tactic(auto, using(crate::proofs::Traced::stored_load))]
    fn load_traced(&mut self, alloc: Global, name: &str, limit: u64) -> Result<Vec<u8>, LoadError> {
        self.load(alloc, name, limit)
    }
}
