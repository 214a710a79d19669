//! The cases of rewritings: the normal form of a program, with what must hold of it.

mod normal_forms;
mod normal_forms_kept;

pub use normal_forms::normal_question;
