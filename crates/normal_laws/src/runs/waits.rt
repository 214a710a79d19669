//! Accepts, selective waits and aborts in the normal form of a program.
