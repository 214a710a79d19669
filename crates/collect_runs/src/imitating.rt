//! The tasks of a collecting text do what the law of collecting asks.
