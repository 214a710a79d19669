//! Callees in the normal form of a program.
