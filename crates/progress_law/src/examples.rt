//! Small programs, as plain trees, and what comes of them by the definitions of `task_model`, by computation: in `proofs/`.
//! In `specs/` stands the run that a list of choices picks. The module has no items of its own.
