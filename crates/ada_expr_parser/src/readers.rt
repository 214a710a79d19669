//! Readers of lists of tokens that keep the laws of their grammar, generic in tokens and trees.
//!
//! `specs/` has the words that readers are put together with, the words that grammars are said with, and the record of
//! the laws that join the two; `proofs/` has the law of each word. A grammar's own crate puts its laws together from
//! these, production by production.

ghost use Rattle.ada_expr_parser.specs.readers.Exactness.{LawsReadWhole};

/// Carries the law of this crate: readers that keep the laws of a grammar at every depth find before an end exactly its
/// texts, each has one tree, and each fault stands at the first token with which no text goes on, or only deeper ones.
pub fn laws<K, A>()
    ensures whole { LawsReadWhole K A }
{}
