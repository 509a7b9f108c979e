//! The entry of a key before a command.
ghost use Rattle.std.specs.Prelude.{◌≡◌, false, Some, None, IsTrue, List};
ghost use Rattle.term_model.specs.Hash.{hash_of};
ghost use Rattle.space_model.specs.Apart.{In};
ghost use Rattle.file_model.specs.declared.entry.Entry.{Entry};
ghost use Rattle.write_cache.specs.declared.pending.Pending.{Pending};
ghost use Rattle.write_cache.specs.Waiting.{state_of};
ghost use Rattle.book_model.specs.Book.{pending_entry, pending_entries};
ghost use Rattle.book_model.specs.Planning.{IsStanding};
ghost use Rattle.flush_engine.specs.Meaning.{book_of};

use dets_term::hash_bytes;
use file_model::Entry;
use flush_engine::Book;
use slot_table::slot_of;
use write_cache::{Pending, WriteCache};

/// The entry of a key: that of its pending block, or else one with its hash that is no pending key's.
pub fn old_entry(book: &Book, key: &[u8]) -> Option<Entry>
    ensures pending { (s : Pending) → state_of book.now.cache key.now ≡ Some s → result ≡ pending_entry s }
    ensures standing { state_of book.now.cache key.now ≡ None → (e : Entry) → result ≡ Some e
        → IsStanding (book_of book.now) e × (e.hash ≡ hash_of key.now) }
{
    match book.cache.get(key) {
        Some(state) => pending_entry(state),
        None => standing_entry(book, hash_bytes(key)),
    }
}

/// The hash of a key, and the entries of its blocks in the file before the next flush and after it.
#[derive(Clone, Copy)]
pub struct Sides {
    pub hash: u32,
    pub before: Option<Entry>,
    pub after: Option<Entry>,
}

/// What a key has before the next flush and after it.
pub fn sides_of(book: &Book, key: &[u8]) -> Sides {
    let after = old_entry(book, key);
    let before = match book.cache.get(key) {
        Some(state) => state.old,
        None => after,
    };
    Sides {
        hash: hash_bytes(key),
        before,
        after,
    }
}

/// The entry of the pending block of a key, if it has one.
fn pending_entry(state: &Pending) -> Option<Entry>
    ensures { result ≡ pending_entry state.now }
{
    match &state.block {
        Some(packed) => Some(Entry {
            hash: state.hash,
            unit: state.unit,
            exp: packed.exp,
            count: packed.count,
        }),
        None => None,
    }
}

/// The first entry with this hash that is no pending key's.
fn standing_entry(book: &Book, hash: u32) -> Option<Entry>
    ensures { (e : Entry) → result ≡ Some e → IsStanding (book_of book.now) e × (e.hash ≡ hash) }
{
    let slot = slot_of(hash, book.directory.slots());
    for entry in book.directory.entries_of(slot) {
        if entry.hash == hash && !is_pending(&book.cache, entry.unit) {
            return Some(*entry);
        }
    }
    None
}

/// Whether the new block of a pending key begins at a unit.
fn is_pending(cache: &WriteCache, unit: u32) -> bool
    ensures { result ≡ false → (f : Entry) → In f (pending_entries cache.now) → f.unit ≡ unit → ⊥ }
{
    for place in 0..cache.len() {
        let Some(state) = cache.at(place) else {
            return true;
        };
        if begins_at(state, unit) {
            return true;
        }
    }
    false
}

/// Whether a new block begins at a unit.
fn begins_at(state: &Pending, unit: u32) -> bool
    ensures { result ≡ false → (f : Entry) → pending_entry state.now ≡ Some f → f.unit ≡ unit → ⊥ }
{
    state.block.is_some() && state.unit == unit
}
