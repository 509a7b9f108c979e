//! The changes of a command.
ghost use Rattle.std.specs.Prelude.{◌≡◌, IsTrue, IfOk};
ghost use Rattle.space_model.specs.Apart.{In};
ghost use Rattle.book_model.specs.declared.change.Change.{Change};
ghost use Rattle.book_model.specs.Planning.{IsChange, OtherKey, OtherEntry, AreChanges};
ghost use Rattle.flush_engine.specs.Meaning.{book_of};
ghost use Rattle.book_cases.specs.Others.{IsOther};

use crate::block_for::block_for;
use crate::fault::Fault;
use crate::old::old_entry;
use crate::touch::Touch;
use dets_term::{Term, hash_bytes};
use etf_codec::encode;
use file_model::{Head, Packed};
use flush_engine::{Book, Change, Changes};
use std::alloc::Global;

/// The changes of these keys, in order. `BadLine` where a key or an entry comes twice, or a key has no such block.
pub fn changes_of(alloc: Global, book: &Book, touches: &[Touch]) -> Result<Changes, Fault>
    ensures { IfOk result (λ changes. AreChanges (book_of book.now) changes) }
{
    let mut changes = Changes::new(alloc);
    for touch in touches {
        let change = change_of(alloc, book, touch)?;
        if !is_other(&changes, &change) {
            return Err(Fault::BadLine);
        }
        changes.push(change)?;
    }
    Ok(changes)
}

fn change_of(alloc: Global, book: &Book, touch: &Touch) -> Result<Change, Fault>
    ensures { IfOk result (λ change. IsChange (book_of book.now) change) }
{
    let key = encode(alloc, &touch.key)?;
    let next = match touch.exp {
        Some(exp) => Some(block_for(alloc, &book.place.head, &touch.key, key.len(), exp)?),
        None => None,
    };
    Ok(Change {
        hash: hash_bytes(key.as_slice()),
        old: old_entry(book, key.as_slice()),
        next,
        key,
    })
}

/// Whether a change has another key and another entry than each of some others.
fn is_other(changes: &Changes, change: &Change) -> bool
    ensures { IsTrue result → (c : Change) → In c changes.now → IsOther c change.now }
{
    for place in 0..changes.len() {
        let Some(earlier) = changes.get(place) else {
            return false;
        };
        if !differs(earlier, change) {
            return false;
        }
    }
    true
}

/// Whether two changes have other keys and other entries.
fn differs(earlier: &Change, change: &Change) -> bool
    ensures { IsTrue result → IsOther earlier.now change.now }
{
    earlier.key.as_slice() != change.key.as_slice()
        && (change.old.is_none() || earlier.old != change.old)
}
