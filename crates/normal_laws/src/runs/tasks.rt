//! One task of the normal form of a program beside the program's task.
