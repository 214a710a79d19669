//! Small programs with their normal forms, and what both show, by computation: in `proofs/`. In `specs/` stands the list of all that a
//! program shows in some events. The module has no items of its own.
