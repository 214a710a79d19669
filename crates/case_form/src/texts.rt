//! Texts that have a name: what later cases take in, and frames, whose `%?` is where a question stands.

use crate::escapes::{Expansion, expand};
use std::alloc::{AllocError, Global};

/// A text with its name: the bytes before the place of a question, and those behind it. A text without such a place is all front.
#[derive(Drop)]
pub struct Text {
    name: String,
    front: Vec<u8>,
    back: Vec<u8>,
}

impl Text {
    /// The text of that name, as it is written with escapes.
    pub fn new(
        alloc: Global,
        texts: &[Text],
        name: &str,
        written: &str,
    ) -> Result<Text, AllocError> {
        let Expansion { bytes, hole } = expand(alloc, texts, written)?;
        let (front, back) = bytes.split_at(hole.min(bytes.len()));
        Ok(Text {
            name: String::from_str(alloc, name)?,
            front: Vec::from_slice(alloc, front)?,
            back: Vec::from_slice(alloc, back)?,
        })
    }

    /// The bytes before the place of a question.
    pub fn front(&self) -> &[u8] {
        &self.front
    }

    /// The bytes behind the place of a question.
    pub fn back(&self) -> &[u8] {
        &self.back
    }
}

/// The latest text of that name.
pub fn text_named<'t>(texts: &'t [Text], name: &str) -> Option<&'t Text> {
    let mut found = None;
    for text in texts {
        if text.name.as_str() == name {
            found = Some(text);
        }
    }
    found
}
