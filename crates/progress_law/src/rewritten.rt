//! Small programs with their normal forms and their replay texts, by computation.

pub mod normal;
pub mod replay;
