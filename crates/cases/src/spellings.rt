//! Terms as bytes.

use crate::building::one_term;
use crate::fault::Fault;
use crate::line::Line;
use crate::shown::{answer_text, digits, join, printed};
use dets_term::{Memory, Term};
use std::alloc::Global;

/// What some bytes are read as.
#[derive(Clone, Copy)]
pub enum Reading {
    /// A whole term with the byte 131 in front.
    Decode,
    /// A term that is passed over, from its tag on.
    Skip,
}

impl Reading {
    fn named(word: &str) -> Result<Reading, Fault> {
        match word {
            "decode" => Ok(Reading::Decode),
            "skip" => Ok(Reading::Skip),
            _ => Err(Fault::BadLine),
        }
    }

    /// What the front of some bytes is, and how many bytes it has.
    fn answer(self, alloc: Global, bytes: &[u8]) -> Result<String, Fault> {
        match self {
            Reading::Decode => {
                let (term, count) = etf_codec::decode(alloc, bytes)?;
                let text = printed(alloc, &term)?;
                Ok(format!(in alloc; "{text} in {count} bytes")?)
            }
            Reading::Skip => {
                let count = etf_codec::skip(bytes)?;
                Ok(format!(in alloc; "{count} bytes")?)
            }
        }
    }
}

/// `decode BYTES`, `skip BYTES`
pub fn read(alloc: Global, reading: Reading, line: &mut Line) -> Result<String, Fault> {
    let bytes = line.bytes()?;
    reading.answer(alloc, &bytes)
}

/// `fronts decode BYTES`, `fronts skip BYTES`
pub fn fronts(alloc: Global, line: &mut Line) -> Result<String, Fault> {
    let reading = Reading::named(&line.word()?)?;
    let bytes = line.bytes()?;
    Ok(front_answers(alloc, reading, &bytes)?)
}

/// The answers to each front of some bytes, from none of them on, where they change.
fn front_answers(alloc: Global, reading: Reading, bytes: &[u8]) -> Result<String, Memory> {
    let mut answers = String::new(alloc);
    let mut last = String::new(alloc);
    for count in 0..=bytes.len() {
        let answer = answer_text(alloc, reading.answer(alloc, &bytes[..count]))?;
        if answer != last {
            join(&mut answers, "; ", &answer)?;
            write!(answers, " from {count}")?;
            last = answer;
        }
    }
    Ok(answers)
}

/// `encode TERM`
pub fn encode(alloc: Global, line: &mut Line) -> Result<String, Fault> {
    let spelled = etf_codec::encode(alloc, &one_term(alloc, line)?)?;
    Ok(digits(alloc, spelled.as_slice())?)
}

/// `recode BYTES`
pub fn recode(alloc: Global, line: &mut Line) -> Result<String, Fault> {
    let bytes = line.bytes()?;
    let (term, count) = etf_codec::decode(alloc, &bytes)?;
    canonical(alloc, &term, &bytes[..count])
}

/// The canonical spelling of a term, where these bytes are not it.
fn canonical(alloc: Global, term: &Term, bytes: &[u8]) -> Result<String, Fault> {
    let spelled = etf_codec::encode(alloc, term)?;
    if spelled.as_slice() == bytes {
        Ok(String::from_str(alloc, "canonical")?)
    } else {
        Ok(digits(alloc, spelled.as_slice())?)
    }
}
