//! The words of a line.

use crate::fault::Fault;
use dets_term::Memory;
use std::alloc::Global;
use std::collections::VecDeque;
use std::mem;

/// The words of a line that were not taken yet.
#[derive(Drop)]
pub struct Line {
    alloc: Global,
    words: VecDeque<String>,
}

impl Line {
    pub fn new(alloc: Global, text: &str) -> Result<Line, Memory> {
        Ok(Line {
            alloc,
            words: split(alloc, text, ' ')?,
        })
    }

    /// Whether no word is left.
    pub fn is_empty(&self) -> bool {
        self.words.is_empty()
    }

    /// All words that are left.
    pub fn rest(&mut self) -> VecDeque<String> {
        mem::replace(&mut self.words, VecDeque::new(self.alloc))
    }

    /// The next word, as it stands.
    pub fn word(&mut self) -> Result<String, Fault> {
        self.words.pop_front().ok_or(Fault::BadLine)
    }

    /// The number that the next word is.
    pub fn number(&mut self) -> Result<u64, Fault> {
        Ok(self.word()?.parse()?)
    }

    /// The numbers that all words are which are left.
    pub fn numbers(&mut self) -> Result<Vec<u64>, Fault> {
        let mut numbers = Vec::new(self.alloc);
        for word in self.rest() {
            numbers.push(word.parse()?)?;
        }
        Ok(numbers)
    }

    /// The sizes of pieces that the next word is: numbers with commas between them.
    pub fn sizes(&mut self) -> Result<VecDeque<u64>, Fault> {
        let mut sizes = VecDeque::new(self.alloc);
        for size in split(self.alloc, &self.word()?, ',')? {
            sizes.push_back(size.parse()?)?;
        }
        Ok(sizes)
    }

    /// The bytes that the next word stands for.
    pub fn bytes(&mut self) -> Result<Vec<u8>, Fault> {
        bytes_of(self.alloc, &self.word()?)
    }
}

/// The bytes of `PIECE+PIECE+..`, in which each piece may have `*COUNT` behind it; no bytes for `-`.
pub fn bytes_of(alloc: Global, word: &str) -> Result<Vec<u8>, Fault> {
    let mut bytes = Vec::new(alloc);
    if word != "-" {
        for piece in split(alloc, word, '+')? {
            let (piece, count) = counted(&piece, '*');
            let piece = piece_bytes(alloc, piece)?;
            for _ in 0..count {
                bytes.extend_from_slice(&piece)?;
            }
        }
    }
    Ok(bytes)
}

/// What stands before a mark and the count behind it, or all of it once.
pub fn counted(word: &str, mark: char) -> (&str, u64) {
    match word.rsplit_once(mark) {
        Some((front, count)) => match count.parse() {
            Ok(count) => (front, count),
            Err(_) => (word, 1),
        },
        None => (word, 1),
    }
}

/// The text between backquotes, or the bytes of hexadecimal digits.
fn piece_bytes(alloc: Global, piece: &str) -> Result<Vec<u8>, Fault> {
    match quoted_text(piece) {
        Some(text) => Ok(Vec::from_slice(alloc, text.as_bytes())?),
        None => Ok(hex::decode(alloc, piece)?),
    }
}

fn quoted_text(piece: &str) -> Option<&str> {
    piece.strip_prefix('`')?.strip_suffix('`')
}

/// The parts of a text round a mark, where the mark stands outside of backquotes.
fn split(alloc: Global, text: &str, mark: char) -> Result<VecDeque<String>, Memory> {
    let mut parts = VecDeque::new(alloc);
    let mut part = String::new(alloc);
    let mut is_quoted = false;
    for item in text.chars() {
        if item == mark && !is_quoted {
            parts.push_back(mem::replace(&mut part, String::new(alloc)))?;
        } else {
            is_quoted = is_quoted != (item == '`');
            part.push(item)?;
        }
    }
    parts.push_back(part)?;
    Ok(parts)
}
