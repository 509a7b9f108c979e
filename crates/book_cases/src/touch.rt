//! What a line says of the keys of a command.
use crate::fault::Fault;
use dets_term::{Memory, Term};
use std::alloc::Global;

/// A touched key, and the exponent of its new block, none where no object is left.
#[derive(Drop)]
pub struct Touch {
    pub key: Term,
    pub exp: Option<u8>,
}

/// The keys that a command touches, each a word of `KEY:EXPONENT` or `KEY:-`.
pub fn touches_of(alloc: Global, words: &str) -> Result<Vec<Touch>, Fault> {
    let mut touches = Vec::new(alloc);
    for word in words.split_whitespace() {
        let (key, exp) = word.rsplit_once(':').ok_or(Fault::BadLine)?;
        touches.push(Touch {
            key: key_of(alloc, key)?,
            exp: exponent_of(exp)?,
        })?;
    }
    Ok(touches)
}

fn exponent_of(text: &str) -> Result<Option<u8>, Fault> {
    if text == "-" {
        return Ok(None);
    }
    Ok(Some(text.parse()?))
}

/// The key in front of a colon, or all of a word without one.
pub fn name_of(word: &str) -> &str {
    match word.rsplit_once(':') {
        Some((name, _)) => name,
        None => word,
    }
}

/// The integer that a text spells, or the atom of this name.
pub fn key_of(alloc: Global, name: &str) -> Result<Term, Fault> {
    match name.parse::<i64>() {
        Ok(number) => Ok(Term::int(i128::from(number))),
        Err(_) => Ok(Term::atom(alloc, name)?),
    }
}
