//! The laws of printing and reading: the text of a well placed program is read as a program that is the same.
#![tactic(auto)]

ghost use Rattle.read_back.specs.Laws.{IsReadBack, IsReadAgain, PrintsAlike};

/// Carries the laws of printing and reading. The printed text of each program that is well placed, as every program is that
/// was read, splits into tokens, these are a text of the grammar, nested at most 300 deep, and the tree that it has is the
/// printed one but for places and ids. Programs that are the same print alike, so what is read back prints as before.
pub fn laws()
    ensures read_back { IsReadBack }
    ensures read_again { IsReadAgain }
    ensures prints_alike { PrintsAlike }
{}
