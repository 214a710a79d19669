//! Loading the files that the words name.

ghost use Rattle.std.specs.Prelude.{◌≡◌, ◌≤◌, ◌∷◌, [], length, option_map, option_to_list, IfOk, IfSome};
ghost use Rattle.debug_outcome.specs.Loads.{CameOf, file_named, files_named};
ghost use Rattle.debug_outcome.specs.Traces.{HasLoads};

use crate::refusal::Refusal;
use crate::stopping::Stop;
use crate::tracing::TracedFiles;
use ded_io::LoadError;
use std::alloc::Global;

/// The bytes of the file `name`, if there are no more than `limit`, by one load; a refusal names this file, or tells this limit.
pub fn load_file<'w, F: TracedFiles>(
    alloc: Global,
    name: &'w str,
    limit: u64,
    files: &mut F,
) -> Result<Vec<u8>, Stop<'w>>
    ensures came { HasLoads F.leads files.old files.new (CameOf (λ bytes. bytes.items ∷ []) (F.told files.old) (F.faults files.old) (F.faults files.new) (file_named name.now limit ∷ []) result) }
    ensures within { IfOk result (λ bytes. length bytes.items ≤ limit) }
    ensures told_stays { F.told files.new ≡ F.told files.old }
    ensures count_never_falls { F.faults files.old ≤ F.faults files.new }
{
    match files.load_traced(alloc, name, limit) {
        Ok(bytes) => Ok(bytes),
        Err(LoadError::Failed) => Err(Stop::Refused(Refusal::Unreadable(name))),
        Err(LoadError::TooLong { .. }) => Err(Stop::Refused(Refusal::TooLong { limit })),
        Err(LoadError::Memory) => Err(Stop::Memory),
    }
}

/// The same of a file that need not be named; without a name nothing is loaded.
pub fn load_named<'w, F: TracedFiles>(
    alloc: Global,
    name: Option<&'w str>,
    limit: u64,
    files: &mut F,
) -> Result<Option<Vec<u8>>, Stop<'w>>
    ensures came { HasLoads F.leads files.old files.new (CameOf (λ bytes. option_to_list (option_map (λ v. v.items) bytes)) (F.told files.old) (F.faults files.old) (F.faults files.new) (files_named (option_map (λ word. word.now) name.entry) limit) result) }
    ensures within { IfOk result (λ bytes. IfSome bytes (λ v. length v.items ≤ limit)) }
    ensures told_stays { F.told files.new ≡ F.told files.old }
    ensures count_never_falls { F.faults files.old ≤ F.faults files.new }
{
    match name {
        Some(name) => match load_file(alloc, name, limit, files) {
            Ok(bytes) => Ok(Some(bytes)),
            Err(stop) => Err(stop),
        },
        None => Ok(None),
    }
}
