//! The tokens of a text, and places in it.

use crate::expressions::pieces::tokens_of;
use ada_lexer::{Token, TokenKind};
use ada_tree::Memory;
use case_form::Question;
use case_form::programs::{answer_fault, place_of};
use std::alloc::Global;

/// `tokens` and `token_places`: the kinds of the question's tokens, with their places where these are asked for, or the first fault.
pub fn tokens(
    alloc: Global,
    question: &Question<'_>,
    has_places: bool,
    out: &mut String,
) -> Result<(), Memory> {
    match tokens_of(alloc, question.text()) {
        Ok(found) => {
            question.ask(out)?;
            put_tokens(&found, has_places, out)
        }
        Err(fault) => answer_fault(question, fault, out),
    }
}

fn put_tokens(found: &[Token], has_places: bool, out: &mut String) -> Result<(), Memory> {
    if found.is_empty() {
        out.push_str("nothing")?;
    }
    let mut is_first = true;
    for token in found {
        if !is_first {
            out.push(' ')?;
        }
        is_first = false;
        put_token(*token, has_places, out)?;
    }
    Ok(())
}

fn put_token(token: Token, has_places: bool, out: &mut String) -> Result<(), Memory> {
    let Token { kind, start, end } = token;
    match kind {
        TokenKind::Symbol(symbol) => write!(out, "{symbol:?}")?,
        other => write!(out, "{other:?}")?,
    }
    if has_places {
        write!(out, " {start}-{end}")?;
    }
    Ok(())
}

/// `line_col`: the line and the column of the place that stands behind the question's last blank.
pub fn line_col(question: &Question<'_>, out: &mut String) -> Result<(), Memory> {
    question.ask(out)?;
    let (_, number) = question.written().rsplit_once(' ').unwrap_or(("", "0"));
    let behind = number.len().saturating_add(1);
    let len = question.text().len().saturating_sub(behind);
    let text = question.text().get(..len).unwrap_or(&[]);
    let place = place_of(text, number.parse().unwrap_or(0));
    let (line, col) = (place.line, place.col);
    write!(out, "{line}:{col}")?;
    Ok(())
}

/// `token_message`: what the first fault of the question's tokens says.
pub fn token_message(
    alloc: Global,
    question: &Question<'_>,
    out: &mut String,
) -> Result<(), Memory> {
    question.ask(out)?;
    match tokens_of(alloc, question.text()) {
        Ok(_) => out.push_str("no fault")?,
        Err(fault) => write!(out, "{fault}")?,
    }
    Ok(())
}
