//! What a line answers of a key and of a book.
use crate::kept::Numbers;
use dets_term::Memory;
use file_model::Entry;
use std::alloc::Global;

/// A key, the exponent of its block and its first unit, and the mark behind it.
pub fn entry_text(alloc: Global, name: &str, entry: Option<Entry>) -> Result<String, Memory> {
    match entry {
        Some(Entry { exp, unit, .. }) => format!(in alloc; "{name}:{exp} at {unit}; "),
        None => format!(in alloc; "{name}:-; "),
    }
}

/// The numbers of a book.
pub fn numbers_text(alloc: Global, numbers: Numbers) -> Result<String, Memory> {
    let Numbers {
        segments,
        taken,
        deferred,
        waiting,
    } = numbers;
    format!(in alloc; "segments {segments}, taken {taken}, deferred {deferred}, waiting {waiting}")
}
