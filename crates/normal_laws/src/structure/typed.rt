//! That the statements of a normal form meet the static rules 1 and 3 to 12, where those of the program do.
