//! Questions of one line, each with its answer behind it, or with the answer's place marked in it.

use crate::escapes::expand;
use crate::texts::Text;
use crate::writing::put_escaped;
use std::alloc::{AllocError, Global};

/// A question as it is written, with the whole text that it stands for: its own bytes stand there from `from` up to `to`.
#[derive(Drop)]
pub struct Question<'r> {
    written: &'r str,
    text: Vec<u8>,
    from: usize,
    to: usize,
}

/// Writes a question up to its answer.
pub fn ask(written: &str, out: &mut String) -> Result<(), AllocError> {
    out.push_str(written)?;
    out.push_str(" --> ")
}

// Appends a text's bytes.
fn add(all: &mut Vec<u8>, bytes: &[u8]) -> Result<(), AllocError> {
    all.extend_from_slice(bytes)
}

// The bytes between two places, as far as there are any.
fn between(bytes: &[u8], from: usize, to: usize) -> &[u8] {
    let to = to.min(bytes.len());
    bytes.get(from.min(to)..to).unwrap_or(&[])
}

impl<'r> Question<'r> {
    /// A question in a frame, with what stands before it and behind it in the frame's place.
    pub fn new(
        alloc: Global,
        texts: &[Text],
        frame: Option<&Text>,
        around: (&str, &str),
        written: &'r str,
    ) -> Result<Question<'r>, AllocError> {
        let own = expand(alloc, texts, written)?.bytes;
        let mut text = Vec::new(alloc);
        if let Some(frame) = frame {
            add(&mut text, frame.front())?;
        }
        add(&mut text, around.0.as_bytes())?;
        let from = text.len();
        add(&mut text, &own)?;
        let to = text.len();
        add(&mut text, around.1.as_bytes())?;
        if let Some(frame) = frame {
            add(&mut text, frame.back())?;
        }
        Ok(Question {
            written,
            text,
            from,
            to,
        })
    }

    /// The whole text.
    pub fn text(&self) -> &[u8] {
        &self.text
    }

    /// The question as it is written.
    pub fn written(&self) -> &'r str {
        self.written
    }

    /// Writes the question, up to its answer.
    pub fn ask(&self, out: &mut String) -> Result<(), AllocError> {
        ask(self.written, out)
    }

    /// Writes the question and its answer.
    pub fn answer(&self, out: &mut String, answer: &str) -> Result<(), AllocError> {
        self.ask(out)?;
        out.push_str(answer)
    }

    // Whether a place of the whole text can be marked in the question.
    fn has(&self, start: u32, end: u32) -> bool {
        let is_short = self.written.find("%{").is_none() && self.written.find("%<").is_none();
        is_short && self.from <= start as usize && end as usize <= self.to && start <= end
    }

    // The question's own bytes from one place up to another.
    fn put_part(&self, out: &mut String, from: usize, to: usize) -> Result<(), AllocError> {
        put_escaped(out, between(&self.text, from, to))
    }

    /// Writes the question with a mark at a place, or the place behind the answer where it stands in no short question.
    pub fn answer_at(&self, out: &mut String, answer: &str, at: u32) -> Result<(), AllocError> {
        if !self.has(at, at) {
            self.answer(out, answer)?;
            return write!(out, " at {at}");
        }
        self.put_part(out, self.from, at as usize)?;
        out.push('@')?;
        self.put_part(out, at as usize, self.to)?;
        if self.from == self.to {
            out.push_str("%-")?;
        }
        out.push_str(" --> ")?;
        out.push_str(answer)
    }

    /// Writes the question with marks around a part, or the part's places behind the answer where it stands in no short question.
    pub fn answer_around(
        &self,
        out: &mut String,
        answer: &str,
        part: (u32, u32),
    ) -> Result<(), AllocError> {
        let (start, end) = part;
        if !self.has(start, end) {
            self.answer(out, answer)?;
            return write!(out, " at {start}-{end}");
        }
        self.put_part(out, self.from, start as usize)?;
        out.push('@')?;
        self.put_part(out, start as usize, end as usize)?;
        out.push('@')?;
        self.put_part(out, end as usize, self.to)?;
        out.push_str(" --> ")?;
        out.push_str(answer)
    }
}
