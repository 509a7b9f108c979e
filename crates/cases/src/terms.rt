//! Terms, and what is asked of them.

use crate::building::{one_term, two_terms};
use crate::fault::Fault;
use crate::line::Line;
use crate::shown::{none, printed};
use dets_term::{Term, TermList, cmp, eq, hash_bytes, key_of};
use std::alloc::Global;
use std::cmp::Ordering;

/// `build TERM`
pub fn build(alloc: Global, line: &mut Line) -> Result<String, Fault> {
    printed(alloc, &one_term(alloc, line)?)
}

/// `copy TERM`
pub fn copy(alloc: Global, line: &mut Line) -> Result<String, Fault> {
    let term = one_term(alloc, line)?;
    printed(alloc, &term.copy(alloc)?)
}

/// `depth TERM`
pub fn depth(alloc: Global, line: &mut Line) -> Result<String, Fault> {
    let depth = one_term(alloc, line)?.depth();
    Ok(format!(in alloc; "{depth}")?)
}

/// `key KEYPOS TERM`
pub fn key(alloc: Global, line: &mut Line) -> Result<String, Fault> {
    let keypos: u32 = line.word()?.parse()?;
    match key_of(&one_term(alloc, line)?, keypos) {
        Some(key) => printed(alloc, key),
        None => Ok(none(alloc)?),
    }
}

/// `hash BYTES`
pub fn hash(alloc: Global, line: &mut Line) -> Result<String, Fault> {
    let hash = hash_bytes(&line.bytes()?);
    Ok(format!(in alloc; "{hash}")?)
}

/// `order TERM TERM`
pub fn order(alloc: Global, line: &mut Line) -> Result<String, Fault> {
    let (first, second) = two_terms(alloc, line)?;
    let order = cmp(&first, &second);
    let equal = if eq(&first, &second) {
        "equal"
    } else {
        "different"
    };
    Ok(format!(in alloc; "{order:?}, {equal}")?)
}

/// `above TERM`: whether the term is greater than each of some others, which are less than it.
pub fn above(alloc: Global, others: &mut TermList, line: &mut Line) -> Result<String, Fault> {
    let term = one_term(alloc, line)?;
    let text = printed(alloc, &term)?;
    let below = (0..others.len())
        .filter(|place| others
            .get(*place)
            .is_some_and(|other| is_above(&term, other)))
        .count();
    others.push(term)?;
    Ok(format!(in alloc; "{text} is above {below}")?)
}

/// Whether a term is greater than another one, both ways round.
fn is_above(term: &Term, other: &Term) -> bool {
    cmp(term, other) == Ordering::Greater && cmp(other, term) == Ordering::Less && !eq(term, other)
}
