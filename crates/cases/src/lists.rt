//! Lists of terms, pairs, texts and bytes.

use crate::building::one_term;
use crate::fault::Fault;
use crate::line::Line;
use crate::shown::{digits, none, printed};
use dets_term::{ByteList, Node, Term, Text};
use std::alloc::Global;
use std::str;

/// `byte PLACE BYTES`
pub fn byte(alloc: Global, line: &mut Line) -> Result<String, Fault> {
    let place = line.number()? as usize;
    let mut list = ByteList::new(alloc);
    for byte in line.bytes()? {
        list.push(byte)?;
    }
    let whole = digits(alloc, list.as_slice())?;
    let found = match list.get(place) {
        Some(byte) => digits(alloc, &[byte])?,
        None => none(alloc)?,
    };
    let count = list.len();
    Ok(format!(in alloc; "{found} of {count} in {whole}")?)
}

/// `character PLACE TEXT`
pub fn character(alloc: Global, line: &mut Line) -> Result<String, Fault> {
    let place = line.number()? as usize;
    let bytes = line.bytes()?;
    let mut text = Text::new(alloc);
    for item in str::from_utf8(&bytes).map_err(|_| Fault::BadLine)?.chars() {
        text.push(item)?;
    }
    let whole = text.as_str();
    let count = text.len();
    let found = match text.get(place) {
        Some(item) => format!(in alloc; "{item}")?,
        None => none(alloc)?,
    };
    Ok(format!(in alloc; "{found} of {count} in {whole}")?)
}

/// `part PLACE TERM`
pub fn part(alloc: Global, line: &mut Line) -> Result<String, Fault> {
    let place = line.number()? as usize;
    let term = one_term(alloc, line)?;
    match term.node() {
        Node::Tuple(parts) | Node::List(parts) | Node::Improper(parts, _) => {
            part_text(alloc, parts.get(place), parts.len())
        }
        Node::Map(pairs) => {
            let key = pairs.get(place).map(|pair| &pair.0);
            part_text(alloc, key, pairs.len())
        }
        _ => Err(Fault::BadLine),
    }
}

fn part_text(alloc: Global, part: Option<&Term>, count: usize) -> Result<String, Fault> {
    let found = match part {
        Some(part) => printed(alloc, part)?,
        None => none(alloc)?,
    };
    Ok(format!(in alloc; "{found} of {count}")?)
}
