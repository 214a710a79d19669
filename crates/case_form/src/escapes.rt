//! What stands for bytes in a file of cases: `%41` is a byte, `%-` no bytes and no end of line behind it, `%<NAME>` a text,
//! `%{3:ab%}` three times `ab` where `%#` is the number of the round, and `%?` the place of a question.

use crate::texts::{Text, text_named};
use std::alloc::{AllocError, Global};

/// The bytes that a text stands for, and the place of its `%?`, which is the end where there is none.
#[derive(Drop)]
pub struct Expansion {
    pub bytes: Vec<u8>,
    pub hole: usize,
}

/// The bytes that a text with escapes stands for. What is no escape stands for itself.
pub fn expand(alloc: Global, texts: &[Text], written: &str) -> Result<Expansion, AllocError> {
    let mut writer = Writer {
        alloc,
        texts,
        bytes: Vec::new(alloc),
        hole: usize::MAX,
        repeat: None,
    };
    let mut is_first = true;
    for piece in written.split('%') {
        if is_first {
            writer.put(piece.as_bytes())?;
        } else {
            writer.put_escape(piece)?;
        }
        is_first = false;
    }
    let Writer { bytes, hole, .. } = writer;
    Ok(Expansion { bytes, hole })
}

// What is to come so many times: the parts between the numbers of the round.
#[derive(Drop)]
struct Repeat {
    count: u32,
    parts: Vec<Vec<u8>>,
}

// The bytes so far.
#[derive(Drop)]
struct Writer<'t> {
    alloc: Global,
    texts: &'t [Text],
    bytes: Vec<u8>,
    hole: usize,
    repeat: Option<Repeat>,
}

impl Writer<'_> {
    // Appends bytes, in what is repeated where there is such a part.
    fn put(&mut self, bytes: &[u8]) -> Result<(), AllocError> {
        match &mut self.repeat {
            Some(repeat) => match repeat.parts.last_mut() {
                Some(part) => part.extend_from_slice(bytes),
                None => Ok(()),
            },
            None => self.bytes.extend_from_slice(bytes),
        }
    }

    // Appends what stands behind a `%`.
    fn put_escape(&mut self, piece: &str) -> Result<(), AllocError> {
        if let Some(rest) = piece.strip_prefix('-') {
            return self.put(rest.strip_prefix('\n').unwrap_or(rest).as_bytes());
        }
        if let Some(rest) = piece.strip_prefix('?') {
            self.hole = self.bytes.len();
            return self.put(rest.as_bytes());
        }
        if let Some(rest) = piece.strip_prefix('<') {
            return self.put_text(rest);
        }
        if let Some(rest) = piece.strip_prefix('{') {
            return self.begin_repeat(rest);
        }
        if let Some(rest) = piece.strip_prefix('}') {
            return self.end_repeat(rest);
        }
        if let Some(rest) = piece.strip_prefix('#') {
            return self.put_number(rest);
        }
        self.put_byte(piece)
    }

    // A text by its name, and what stands behind it.
    fn put_text(&mut self, piece: &str) -> Result<(), AllocError> {
        let (name, rest) = piece.split_once('>').unwrap_or((piece, ""));
        if let Some(text) = text_named(self.texts, name) {
            self.put(text.front())?;
            self.put(text.back())?;
        }
        self.put(rest.as_bytes())
    }

    // The count of a repeat, and what begins it.
    fn begin_repeat(&mut self, piece: &str) -> Result<(), AllocError> {
        let (count, rest) = piece.split_once(':').unwrap_or((piece, ""));
        let first = Vec::from_slice(self.alloc, rest.as_bytes())?;
        self.repeat = Some(Repeat {
            count: count.parse().unwrap_or(0),
            parts: vec![in self.alloc; first]?,
        });
        Ok(())
    }

    // The place of the number of the round, and what stands behind it.
    fn put_number(&mut self, piece: &str) -> Result<(), AllocError> {
        let part = Vec::from_slice(self.alloc, piece.as_bytes())?;
        if let Some(repeat) = &mut self.repeat {
            repeat.parts.push(part)?;
        }
        Ok(())
    }

    // All rounds of a repeat, and what stands behind it.
    fn end_repeat(&mut self, piece: &str) -> Result<(), AllocError> {
        if let Some(repeat) = self.repeat.take() {
            for round in 0..repeat.count {
                self.put_round(round, &repeat.parts)?;
            }
        }
        self.put(piece.as_bytes())
    }

    // One round, which is counted from 0 and written from 1.
    fn put_round(&mut self, round: u32, parts: &[Vec<u8>]) -> Result<(), AllocError> {
        let number = format!(in self.alloc; "{}", round.saturating_add(1))?;
        for (place, part) in parts.iter().enumerate() {
            if place > 0 {
                self.put(number.as_bytes())?;
            }
            self.put(part)?;
        }
        Ok(())
    }

    // A byte by two hexadecimal digits, and what stands behind it; a `%` without them is itself.
    fn put_byte(&mut self, piece: &str) -> Result<(), AllocError> {
        if let [high, low, rest @ ..] = piece.as_bytes() {
            if let (Some(high), Some(low)) = (hex_digit(*high), hex_digit(*low)) {
                self.put(&[high.wrapping_mul(16).wrapping_add(low)])?;
                return self.put(rest);
            }
        }
        self.put(b"%")?;
        self.put(piece.as_bytes())
    }
}

// The value of a hexadecimal digit.
fn hex_digit(digit: u8) -> Option<u8> {
    match digit {
        b'0'..=b'9' => Some(digit - b'0'),
        b'A'..=b'F' => Some(digit - b'A' + 10),
        _ => None,
    }
}
