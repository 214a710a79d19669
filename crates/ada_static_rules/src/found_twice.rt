//! Short lemmas on what the tree of a program is made of, for every crate above it. The crate has lemmas alone.
