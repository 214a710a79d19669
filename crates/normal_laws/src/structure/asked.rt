//! That the statements of a normal form are as asked, from what is asked of those of the program.
