//! Files in memory.
ghost use Rattle.std.specs.Prelude.{◌≡◌, ◌≤◌, ◌↔◌, ◌⊎◌, Some, None, [], IfOk, IfErr, IsTrue, IsErrOf, vec_len};
ghost use Rattle.std.specs.Option.{option_copied};
ghost use Rattle.ded_io.specs.Counts.{one_more, Rose};
ghost use Rattle.ded_io.specs.Stored.{StoredFiles, is_failing, refuses, behind_load};
ghost use Rattle.ded_io.specs.Told.{file_bytes, NoFile, TooLongFor};

use crate::loading::{Files, LoadError};
use std::alloc::Global;
use std::marker::Model;

/// A file in memory; contracts see it as the bytes of its name and its own.
#[derive(Debug, Drop)]
pub struct FileEntry {
    pub name: String,
    pub bytes: Vec<u8>,
}

impl Model for FileEntry {
    ghost use Rattle.std.specs.Prelude.{string_bytes};
    ghost use Rattle.ded_io.specs.Told.{ToldFile};

    ghost Value = { ToldFile };

    ghost view = { λ a. record { name = string_bytes a.name; bytes = a.bytes.items } };
}

/// Files in memory, which tell all their bytes. Their calls of `load` are counted from 1, and those whose numbers
/// stand in a list fail. A load of a name that is not there fails too, and is never a fault.
#[derive(Drop)]
pub struct MemoryFiles {
    entries: Vec<FileEntry>,
    failing: Vec<u64>,
    calls: u64,
    fault_count: u64,
}

impl Model for MemoryFiles {
    ghost use Rattle.ded_io.specs.Stored.{StoredFiles};

    ghost Value = { StoredFiles };

    ghost view = { λ a. record { files = a.entries.items; failing = a.failing.items; calls = a.calls; faults = a.fault_count } };
}

impl MemoryFiles {
    /// The files `entries`, of which a name that stands twice has the bytes of its first place. The calls of `load` whose
    /// numbers, from 1, stand in `failing` fail.
    pub fn new(entries: Vec<FileEntry>, failing: Vec<u64>) -> MemoryFiles
        ensures { result ≡ record { files = entries.items; failing = failing.items; calls = 0; faults = 0 } }
    {
        MemoryFiles {
            entries,
            failing,
            calls: 0,
            fault_count: 0,
        }
    }

    /// Counts a call, and says whether it is one of those that fail.
    fn count_call(&mut self) -> bool
        ensures after { self.new ≡ record self.old { calls = one_more self.old.calls } }
        ensures failing { result ≡ is_failing self.old.failing self.old.calls }
    {
        self.calls = self.calls.saturating_add(1);
        self.failing.contains(&self.calls)
    }

    /// The bytes of the first file of that name.
    fn find(&self, name: &str) -> Option<&[u8]>
        ensures { option_copied result ≡ file_bytes self.now.files name.now }
    {
        self.entries
            .iter()
            .find(|entry| entry.name.as_str() == name)
            .map(|entry| entry.bytes.as_slice())
    }
}

impl Files for MemoryFiles {
    ghost use Rattle.std.specs.Prelude.{Some};

    ghost told = { λ stored. Some stored.files };

    ghost faults = { λ stored. stored.faults };

    #[tactic(auto, unfolding(crate::specs::Counts::Rose))]
    fn load(&mut self, alloc: Global, name: &str, limit: u64) -> Result<Vec<u8>, LoadError>
        // Beside what every form of files promises: which loads fail, and what each leaves.
        ensures after { self.new ≡ behind_load self.old name.now }
        ensures refused { IsErrOf result LoadError.Failed ↔ IsTrue (refuses self.old name.now) }
        ensures within { IfOk result (λ bytes. vec_len bytes ≤ limit) }
        ensures given { IfOk result (λ bytes. file_bytes self.old.files name.now ≡ Some bytes.items) }
        ensures absent { file_bytes self.old.files name.now ≡ None → NoFile result × (self.new.faults ≡ self.old.faults) }
        ensures failed { IsErrOf result LoadError.Failed → (file_bytes self.old.files name.now ≡ None) ⊎ Rose self.old.faults self.new.faults }
        ensures too_long { IfErr result (TooLongFor (Some self.old.files) name.now limit) }
        ensures no_fault { self.old.failing ≡ [] → self.new.faults ≡ self.old.faults }
        ensures count_never_falls { self.old.faults ≤ self.new.faults }
        ensures count_stays { IsErrOf result LoadError.Failed ⊎ (self.new.faults ≡ self.old.faults) }
    {
        let is_failing = self.count_call();
        let Some(bytes) = self.find(name) else {
            return Err(LoadError::Failed);
        };
        if is_failing {
            self.fault_count = self.fault_count.saturating_add(1);
            return Err(LoadError::Failed);
        }
        if bytes.len() as u64 > limit {
            return Err(LoadError::TooLong { limit });
        }
        match Vec::from_slice(alloc, bytes) {
            Ok(copy) => Ok(copy),
            Err(_) => Err(LoadError::Memory),
        }
    }

    fn faults(&self) -> u64 {
        self.fault_count
    }
}
