//! How bytes are written in the transcript.

use std::alloc::AllocError;

// Whether a byte stands for itself.
fn is_plain(byte: u8) -> bool {
    byte >= 32 && byte <= 126 && byte != b'%' && byte != b'@'
}

// A byte by its two hexadecimal digits.
fn put_code(out: &mut String, byte: u8) -> Result<(), AllocError> {
    write!(out, "%{byte:02X}")
}

/// Bytes in one line.
pub fn put_escaped(out: &mut String, bytes: &[u8]) -> Result<(), AllocError> {
    for byte in bytes {
        if is_plain(*byte) {
            out.push(char::from(*byte))?;
        } else {
            put_code(out, *byte)?;
        }
    }
    Ok(())
}

/// Bytes in quotation marks in one line.
pub fn put_quoted(out: &mut String, bytes: &[u8]) -> Result<(), AllocError> {
    out.push('"')?;
    put_escaped(out, bytes)?;
    out.push('"')?;
    Ok(())
}

/// Bytes as lines; a last line without its end has `%-` there.
pub fn put_lines(out: &mut String, bytes: &[u8]) -> Result<(), AllocError> {
    for byte in bytes {
        if *byte == b'\n' || *byte == b'@' || is_plain(*byte) {
            out.push(char::from(*byte))?;
        } else {
            put_code(out, *byte)?;
        }
    }
    match bytes.last() {
        Some(b'\n') | None => Ok(()),
        Some(_) => out.push_str("%-\n"),
    }
}

/// Parts with a comma between.
pub fn put_comma(out: &mut String, is_first: bool) -> Result<(), AllocError> {
    if is_first { Ok(()) } else { out.push_str(", ") }
}
