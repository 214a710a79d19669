//! Small programs with sequences of events and their replay texts, and runs of these that are named, by computation: in `proofs/`. In `specs/`
//! stands what is said of the runs. The module has no items of its own.
