//! That the scopes of a normal form are alike those of the program.
