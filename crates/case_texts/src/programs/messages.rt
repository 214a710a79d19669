//! What errors say: those of texts, and those that no other question can bring about.

use ada_lexer::LexError;
use ada_parser::ReadError;
use ada_tree::Memory;
use case_form::Question;
use case_form::programs::program_of;
use ded_io::{LoadError, SinkError};
use std::alloc::Global;

/// `text_message`: what the refusal of the question's text says.
pub fn text_message(
    alloc: Global,
    question: &Question<'_>,
    out: &mut String,
) -> Result<(), Memory> {
    question.ask(out)?;
    match program_of(alloc, question.text()) {
        Ok(_) => out.push_str("no fault")?,
        Err(error) => write!(out, "{error}")?,
    }
    Ok(())
}

/// `messages`: what an error says by its name.
pub fn message(question: &Question<'_>, out: &mut String) -> Result<(), Memory> {
    question.ask(out)?;
    match question.written() {
        "tokens Memory" => write!(out, "{}", LexError::Memory)?,
        "text Memory" => write!(out, "{}", ReadError::Memory)?,
        "tree Memory" => write!(out, "{}", Memory)?,
        "load Failed" => write!(out, "{}", LoadError::Failed)?,
        "load TooLong 16" => write!(out, "{}", LoadError::TooLong { limit: 16 })?,
        "load Memory" => write!(out, "{}", LoadError::Memory)?,
        "put Failed" => write!(out, "{}", SinkError::Failed)?,
        _ => out.push_str("no error")?,
    }
    Ok(())
}
