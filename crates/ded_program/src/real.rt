//! The files, the standard streams and the words of the operating system.

mod arguments;
mod real_files;
mod std_sink;

pub use arguments::real_words;
pub use real_files::RealFiles;
pub use std_sink::StdSink;
