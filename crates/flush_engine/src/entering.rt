//! A change comes into a book, once its new block has its place.
ghost use Rattle.std.specs.Prelude.{◌≡◌, ◌≤◌, List, length, None, IfSome, OnOk};
ghost use Rattle.std.specs.Option.{option_copied};
ghost use Rattle.space_model.specs.Apart.{In};
ghost use Rattle.file_model.specs.declared.entry.Entry.{Entry};
ghost use Rattle.write_cache.specs.Waiting.{state_of, with_state};
ghost use Rattle.slot_table.specs.BySlot.{by_slot, HasRoomFor};
ghost use Rattle.book_model.specs.Book.{entry_run};
ghost use Rattle.book_model.specs.Planning.{stands_for};
ghost use Rattle.flush_engine.specs.Entering.{left_runs, left_entries, next_entry, come_entries, in_front, MayCome, next_state, MayEnter};

use crate::{Book, Change, Memory};
use buddy_space::Space;
use file_model::{Entry, Packed};
use slot_table::Directory;
use write_cache::Pending;

/// What stands in the file for a key that waits in this state, or does not.
fn stands_for(earlier: Option<&Pending>, old: Option<Entry>) -> Option<Entry>
    ensures { result ≡ stands_for (option_copied earlier.entry) old }
{
    match earlier {
        Some(state) => state.old,
        None => old,
    }
}

/// Takes the old block of a key out of the directory, and defers one that stands in the file.
fn leave(
    space: &mut Space,
    directory: &mut Directory,
    earlier: Option<&Pending>,
    old: Option<Entry>,
)
    requires taken { option_copied earlier ≡ None → IfSome old (λ e. In (entry_run e) space.old.taken) }
    requires spare { 1 ≤ space.old.spare }
    ensures runs { space.new ≡ left_runs (option_copied earlier.entry) old space.old }
    ensures entries { by_slot directory.new ≡ left_entries old (by_slot directory.old) }
    ensures slots { length directory.new ≡ length directory.old }
    ensures room { (es : List Entry) → HasRoomFor directory.old es → HasRoomFor directory.new es }
{
    let Some(entry) = old else {
        return;
    };
    let _ = directory.remove(entry.hash, entry.unit);
    if earlier.is_none() {
        space.defer(entry.unit, entry.exp);
    }
}

/// Puts the entry of the new block of a key into the directory.
fn come(directory: &mut Directory, hash: u32, unit: u32, next: Option<&Packed>)
    requires { IfSome (next_entry hash unit (option_copied next)) (MayCome directory.old) }
    ensures entries { by_slot directory.new ≡ come_entries (next_entry hash unit (option_copied next.entry)) (by_slot directory.old) }
    ensures slots { length directory.new ≡ length directory.old }
    ensures room { (es : List Entry) → HasRoomFor directory.old (in_front (next_entry hash unit (option_copied next.entry)) es)
        → HasRoomFor directory.new es }
{
    if let Some(packed) = next {
        directory.add(Entry {
            hash,
            unit,
            exp: packed.exp,
            count: packed.count,
        });
    }
}

/// Enters a change whose new block begins at `unit`. After `Memory` the book is given up.
pub(crate) fn enter(book: &mut Book, change: Change, unit: u32) -> Result<(), Memory>
    requires { MayEnter book.old change unit }
    ensures place { book.new.place ≡ book.old.place }
    ensures runs { book.new.space ≡ left_runs (state_of book.old.cache change.key) change.old book.old.space }
    ensures entries { by_slot book.new.directory ≡ come_entries (next_entry change.hash unit change.next) (left_entries change.old (by_slot book.old.directory)) }
    ensures slots { length book.new.directory ≡ length book.old.directory }
    ensures room { (es : List Entry) → HasRoomFor book.old.directory (in_front (next_entry change.hash unit change.next) es)
        → HasRoomFor book.new.directory es }
    ensures state { OnOk result (book.new.cache
        ≡ with_state book.old.cache change.key (next_state change unit (state_of book.old.cache change.key))) }
{
    let earlier = book.cache.get(change.key.as_slice());
    let stands = stands_for(earlier, change.old);
    leave(&mut book.space, &mut book.directory, earlier, change.old);
    come(&mut book.directory, change.hash, unit, change.next.as_ref());
    let state = Pending {
        block: change.next,
        unit,
        hash: change.hash,
        old: stands,
    };
    book.cache.put(change.key, state)
}
