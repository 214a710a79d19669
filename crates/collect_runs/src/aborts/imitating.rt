//! The tasks of a collecting text with abort statements do what the law of collecting asks.
