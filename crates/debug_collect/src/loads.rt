//! LOAD: a run of it is collected, and what it records is judged and replayed.

mod gathering;
mod judging;
mod loading;
mod recording;
mod replaying;
mod telling;

pub use loading::write_load;
