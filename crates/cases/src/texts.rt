//! Terms that are printed on one line.

use crate::fault::Fault;
use dets_term::Term;
use std::alloc::Global;
use term_text::{Fed, TextFeed};

/// All terms of a text, each with a full stop behind it.
pub fn terms_of(alloc: Global, text: &[u8]) -> Result<Vec<Term>, Fault> {
    let mut feed = TextFeed::new(alloc);
    feed.feed(text)?;
    feed.finish();
    let mut terms = Vec::new(alloc);
    for _ in 0..u64::MAX {
        match feed.next()? {
            Fed::Term(term) => terms.push(term)?,
            _ => break,
        }
    }
    Ok(terms)
}

/// The term of a text, without its full stop.
pub fn term_of(alloc: Global, text: &str) -> Result<Term, Fault> {
    let text = format!(in alloc; "{text}.")?;
    only(terms_of(alloc, text.as_bytes())?)
}

/// The one term that there is.
pub fn only(mut terms: Vec<Term>) -> Result<Term, Fault> {
    match terms.pop() {
        Some(term) if terms.is_empty() => Ok(term),
        _ => Err(Fault::BadLine),
    }
}
