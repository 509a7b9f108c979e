//! Reads of a source in memory.

use crate::fault::Fault;
use crate::line::Line;
use crate::shown::{answer_text, join, text_or_digits};
use host_model::{MemSource, Source};
use std::alloc::Global;

/// A buffer has so many bytes.
const ROOM: usize = 8;

/// `source READS MOST BYTES NUMBER ..`
pub fn reads(alloc: Global, line: &mut Line) -> Result<String, Fault> {
    let reads = line.number()?;
    let most = line.number()? as usize;
    let bytes = line.bytes()?;
    let fail = line.numbers()?;
    if most == 0 {
        return Err(Fault::BadLine);
    }
    let mut source = MemSource::new(alloc, &bytes, most, &fail)?;
    let mut answers = String::new(alloc);
    for _ in 0..reads {
        let answer = answer_text(alloc, one_read(alloc, &mut source))?;
        join(&mut answers, " ", &answer)?;
    }
    Ok(answers)
}

fn one_read(alloc: Global, source: &mut MemSource) -> Result<String, Fault> {
    let mut buffer = [0; ROOM];
    let count = source.read(&mut buffer)?;
    Ok(text_or_digits(alloc, &buffer[..count])?)
}
