//! That the statements of a replay text meet the static rules 1 and 3 to 12, where those of the normal form do.
