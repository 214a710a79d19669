//! What stands around a whole call: the files, and which loads and puts fail.

use ded_io::{FileEntry, MemoryFiles, MemorySink};
use std::alloc::{AllocError, Global};

/// The files of a case.
#[derive(Drop)]
pub struct Stage {
    entries: Vec<FileEntry>,
}

impl Stage {
    /// No files.
    pub fn new(alloc: Global) -> Stage {
        Stage {
            entries: Vec::new(alloc),
        }
    }

    /// One file more.
    pub fn add(&mut self, alloc: Global, name: &str, bytes: Vec<u8>) -> Result<(), AllocError> {
        let name = String::from_str(alloc, name)?;
        self.entries.push(FileEntry { name, bytes })?;
        Ok(())
    }

    /// Copies of the files of another stage, behind the own ones.
    pub fn add_all(&mut self, alloc: Global, stage: &Stage) -> Result<(), AllocError> {
        for entry in &stage.entries {
            let bytes = Vec::from_slice(alloc, &entry.bytes)?;
            self.add(alloc, entry.name.as_str(), bytes)?;
        }
        Ok(())
    }

    /// The files as a call has them, of which the loads of these numbers fail.
    pub fn files(&self, alloc: Global, failing: Vec<u64>) -> Result<MemoryFiles, AllocError> {
        let mut copies = Stage::new(alloc);
        copies.add_all(alloc, self)?;
        Ok(MemoryFiles::new(copies.entries, failing))
    }
}

// The room of an output where none is told.
const ROOM: u64 = 65_536;

/// Which loads and puts of a call fail, by their numbers from 1, and the room of its output.
#[derive(Drop)]
pub struct Failing {
    loads: Vec<u64>,
    puts: Vec<u64>,
    lines: Vec<u64>,
    room: u64,
}

impl Failing {
    /// Nothing fails.
    pub fn new(alloc: Global) -> Failing {
        Failing {
            loads: Vec::new(alloc),
            puts: Vec::new(alloc),
            lines: Vec::new(alloc),
            room: ROOM,
        }
    }

    /// Adds what fails by words: `load 1`, `out 2` or `err 1`, or the room of the output by `room 30`.
    pub fn add(&mut self, words: &str) -> Result<(), AllocError> {
        let (word, number) = words.split_once(' ').unwrap_or((words, ""));
        let number = number.parse().unwrap_or(0);
        match word {
            "load" => self.loads.push(number)?,
            "out" => self.puts.push(number)?,
            "err" => self.lines.push(number)?,
            "room" => self.room = number,
            _ => {}
        }
        Ok(())
    }

    /// The loads that fail.
    pub fn loads(&self, alloc: Global) -> Result<Vec<u64>, AllocError> {
        Vec::from_slice(alloc, &self.loads)
    }

    /// The output and the error output of a call.
    pub fn outputs(&self, alloc: Global) -> Result<(MemorySink, MemorySink), AllocError> {
        let puts = Vec::from_slice(alloc, &self.puts)?;
        let lines = Vec::from_slice(alloc, &self.lines)?;
        let out = MemorySink::new(alloc, puts, self.room)?;
        let err = MemorySink::new(alloc, lines, ROOM)?;
        Ok((out, err))
    }
}
