//! The words with which the program was called.

use debug_outcome::words::NoWords;
use std::alloc::AllocGlobal;
use std::io::ErrorKind;
use std::{env, rt};

/// The words after the program's name. A word that is not UTF-8 stands in no usage, so that then there are none.
pub fn real_words<R: rt::Env + AllocGlobal>(system: &R) -> Result<Vec<String>, NoWords> {
    let mut words = Vec::new(system.alloc());
    match env::args(system) {
        Ok(args) => {
            for word in args.skip(1) {
                if words.push(word).is_err() {
                    return Err(NoWords::Memory);
                }
            }
            Ok(words)
        }
        Err(error) => {
            if error.kind() == ErrorKind::OutOfMemory {
                Err(NoWords::Memory)
            } else {
                Err(NoWords::NotText)
            }
        }
    }
}
