//! How answers are written.

use crate::fault::Fault;
use dets_term::{Memory, Term, hash_bytes};
use std::alloc::Global;
use std::str;
use term_text::print;

/// Of more bytes than these a front is shown.
const MOST: usize = 100;
/// How many bytes or characters the front has.
const FRONT: usize = 20;

/// The text of an answer, or of the fault in its place.
pub fn answer_text(alloc: Global, answer: Result<String, Fault>) -> Result<String, Memory> {
    match answer {
        Ok(text) => Ok(text),
        Err(fault) => format!(in alloc; "{fault}"),
    }
}

/// Puts an answer behind others, and a mark between them.
pub fn join(answers: &mut String, mark: &str, answer: &str) -> Result<(), Memory> {
    if !answers.is_empty() {
        answers.push_str(mark)?;
    }
    answers.push_str(answer)
}

/// What is answered where nothing is there.
pub fn none(alloc: Global) -> Result<String, Memory> {
    String::from_str(alloc, "none")
}

/// The printed form of a term.
pub fn printed(alloc: Global, term: &Term) -> Result<String, Fault> {
    let bytes = print(alloc, term)?;
    let text = str::from_utf8(bytes.as_slice()).map_err(|_| Fault::BadLine)?;
    if text.len() <= MOST {
        return Ok(String::from_str(alloc, text)?);
    }
    let front: String = text.chars().take(FRONT).collect(alloc)?;
    Ok(front_of(alloc, &front, text.as_bytes())?)
}

/// Hexadecimal digits, and `-` for no bytes.
pub fn digits(alloc: Global, bytes: &[u8]) -> Result<String, Memory> {
    if bytes.is_empty() {
        String::from_str(alloc, "-")
    } else if bytes.len() <= MOST {
        hex::encode(alloc, bytes)
    } else {
        let front = hex::encode(alloc, &bytes[..FRONT])?;
        front_of(alloc, &front, bytes)
    }
}

/// A front, and what tells all bytes from others.
fn front_of(alloc: Global, front: &str, bytes: &[u8]) -> Result<String, Memory> {
    let count = bytes.len();
    let hash = hash_bytes(bytes);
    format!(in alloc; "{front}.. of {count} bytes with hash {hash}")
}

/// The text in backquotes where each byte is a printable one, else digits.
pub fn text_or_digits(alloc: Global, bytes: &[u8]) -> Result<String, Memory> {
    match str::from_utf8(bytes) {
        Ok(text) if !text.is_empty() && bytes.iter().all(is_printable) => {
            format!(in alloc; "`{text}`")
        }
        _ => digits(alloc, bytes),
    }
}

fn is_printable(byte: &u8) -> bool {
    matches!(*byte, b' '..=b'~') && *byte != b'`'
}
