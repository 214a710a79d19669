//! The entries of a task in the numbers are those that its task or task type declares. The module has lemmas alone.
