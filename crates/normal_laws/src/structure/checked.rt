//! That the statements of a normal form meet the rules 13 to 23, where those of the program do.
