//! That what can be used in a replay text is what can be used in the normal form, with more names.
