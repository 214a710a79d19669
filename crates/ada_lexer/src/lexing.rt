//! The tokens of a text.

ghost use Rattle.std.specs.Prelude.{◌≡◌, ◌≢◌, ◌<◌, ◌-◌, ◌^◌, List, [], ◌++◌, length, All, OnOk, IfOk, IfErr, MatchResult};
ghost use Rattle.ada_lexer.specs.declared.kinds.Token.{Token};
ghost use Rattle.ada_lexer.specs.declared.errors.LexError.{LexError};
ghost use Rattle.ada_lexer.specs.declared.errors.LexError.TheVariants.{Memory};
ghost use Rattle.ada_lexer.specs.declared.verdicts.Verdict.TheVariants.{Fault};
ghost use Rattle.ada_lexer.specs.Split.{Splits, HasFirstFault, IsTokenOf, AreInOrder, IsSound, onto_tokens};

use super::bytes::{behind, front};
use super::errors::LexError;
use super::kinds::Token;
use super::lengths::piece_len;
use super::verdicts::{Verdict, verdict_of};
use std::alloc::Global;

/// The tokens of a text, in order, each with its place. White space and comments give none.
///
/// `Ok` comes exactly where the text splits into tokens. Otherwise the error is the first fault of the whole text. `Memory`
/// alone may stand for either answer. The tokens take memory, and nothing else does.
pub fn tokens(alloc: Global, src: &[u8]) -> Result<Vec<Token>, LexError>
    requires { length src.now < 2 ^ 32 - 1 }
    ensures split { IfOk result (λ found. Splits src.now found.items) }
    ensures slices { IfOk result (λ found. All (IsTokenOf src.now) found.items) }
    ensures order { IfOk result (λ found. AreInOrder 0 found.items) }
    ensures first_fault { IfErr result (λ error. error ≢ Memory → HasFirstFault src.now error) }
    ensures only_split { (wanted : List Token) → Splits src.now wanted
        → MatchResult result (λ found. found.items ≡ wanted) (λ error. error ≡ Memory) }
    ensures only_fault { (fault : LexError) → HasFirstFault src.now fault
        → MatchResult result (λ found. ⊥) (λ error. error ≢ Memory → error ≡ fault) }
{
    let mut found = Vec::new(alloc);
    let mut at = 0;
    while at < src.len() {
        let rest = behind(src, at);
        let len = piece_len(rest);
        if len == 0 {
            return Err(LexError::BadByte { at: at as u32 });
        }
        let piece = verdict_of(at as u32, front(rest, len));
        if let Err(error) = add(&mut found, piece, at as u32, (at + len) as u32) {
            return Err(error);
        }
        at += len;
    }
    Ok(found)
}

/// Adds the token that the piece from `start` to `end` is, if it is one.
fn add(found: &mut Vec<Token>, piece: Verdict, start: u32, end: u32) -> Result<(), LexError>
    ensures added { OnOk result (found.new.items ≡ found.old.items ++ onto_tokens piece start end []) }
    ensures sound { OnOk result (IsSound piece) }
    ensures fault { IfErr result (λ error. error ≢ Memory → piece ≡ Fault error) }
{
    match piece {
        Verdict::Gap => Ok(()),
        Verdict::Kind(kind) => match found.push(Token { kind, start, end }) {
            Ok(()) => Ok(()),
            Err(_) => Err(LexError::Memory),
        },
        Verdict::Fault(error) => Err(error),
    }
}
