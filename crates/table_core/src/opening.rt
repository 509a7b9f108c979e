//! The book of a file that was just scanned.
ghost use Rattle.std.specs.Prelude.{◌≡◌, ◌≤◌, ◌<◌, ◌+◌, ◌-◌, ◌^◌, ℕ, true, max, List, [], length, take, Ok, IfOk, OnOk};
ghost use Rattle.space_model.specs.Apart.{In};
ghost use Rattle.file_model.specs.declared.entry.Entry.{Entry};
ghost use Rattle.file_model.specs.Header.{is_allowed, located};
ghost use Rattle.file_model.specs.View.{view_of};
ghost use Rattle.file_model.specs.Taken.{entries as taken_entries};
ghost use Rattle.file_model.specs.Fit.{has_segments, has_no_rejects};
ghost use Rattle.buddy_space.specs.SpaceState.{no_segments};
ghost use Rattle.slot_table.specs.BySlot.{by_slot, entries_in, IsDirectory};
ghost use Rattle.book_model.specs.Book.{entry_run, IsInOrder};
ghost use Rattle.book_model.specs.OfFile.{IsOf};
ghost use Rattle.flush_engine.specs.Meaning.{book_of};
ghost use Rattle.flush_engine.specs.Placing.{in_segments};
ghost use Rattle.table_core.specs.Opening.{entered_runs, entered_entries, HasEntered};

use crate::{Book, Entries, Located, Memory};
use book_model::file_laws::an_opened_book_is_that_of_its_file;
use buddy_space::Space;
use file_model::Entry;
use file_model::laws::{
    a_block_stands_as_it_is_read, a_header_is_located_where_it_is_read,
    gates_and_units_do_not_meet, open_gates_stand_at_taken_units_alone_where_nothing_is_rejected,
};
use slot_table::Directory;
use std::alloc::Global;
use write_cache::WriteCache;

/// A directory has at least so many slots.
const LEAST_SLOTS: usize = 256;

/// A block has at most 2 to the power of this many units.
const LARGEST_EXP: u8 = 12;

/// A space of so many segments whose units are free.
fn free_segments(alloc: Global, segments: u32) -> Result<Space, Memory>
    requires { segments ≤ 8000 }
    ensures { IfOk result (λ s. s ≡ in_segments segments no_segments) }
{
    let mut space = Space::new(alloc);
    for segment in 0..segments {
        space.add_segment()?;
    }
    Ok(space)
}

/// Enters a block: claims its run, and puts its entry into the directory. One whose run cannot be claimed is left out.
fn enter_block(space: &mut Space, directory: &mut Directory, entry: Entry) -> Result<(), Memory>
    requires taken { (e : Entry) → In e (entries_in (by_slot directory.old)) → In (entry_run e) space.old.taken }
    requires directory { IsDirectory (by_slot directory.old) }
    requires few { length (entries_in (by_slot directory.old)) < 2 ^ 32 - 1 }
    ensures runs { OnOk result (space.new ≡ entered_runs space.old entry) }
    ensures entries { OnOk result (by_slot directory.new ≡ entered_entries space.old entry (by_slot directory.old)) }
    ensures segments { space.new.segments ≡ space.old.segments }
    ensures slots { length directory.new ≡ length directory.old }
{
    if entry.exp <= LARGEST_EXP && space.claim(entry.unit, entry.exp) {
        directory.reserve(&[entry])?;
        directory.add(entry);
    }
    Ok(())
}

/// Enters the block at a place, behind those in front of it.
fn enter_at(
    space: &mut Space,
    directory: &mut Directory,
    entries: &Entries,
    place: usize,
) -> Result<(), Memory>
    requires place { place < length entries.now }
    requires entered { HasEntered space.old.segments (take place entries.now) space.old directory.old }
    ensures entered { OnOk result (HasEntered space.old.segments (take (place + 1) entries.now) space.new directory.new) }
    ensures segments { space.new.segments ≡ space.old.segments }
    ensures slots { length directory.new ≡ length directory.old }
{
    // their clauses say what the parts of a book keep
    let _segments = space.segments();
    let _slots = directory.slots();
    let Some(entry) = entries.get(place) else {
        return Ok(());
    };
    enter_block(space, directory, *entry)
}

/// Enters the blocks in order.
fn enter_blocks(
    space: &mut Space,
    directory: &mut Directory,
    entries: &Entries,
) -> Result<(), Memory>
    requires runs { space.old ≡ in_segments space.old.segments no_segments }
    requires entries { entries_in (by_slot directory.old) ≡ [] }
    ensures entered { OnOk result (HasEntered space.old.segments entries.now space.new directory.new) }
    ensures slots { length directory.new ≡ length directory.old }
{
    for place in 0..entries.len() {
        enter_at(space, directory, entries, place)?;
    }
    Ok(())
}

/// The book of a file whose header and taken blocks are these; nothing waits in it. It is in order, whatever the entries are:
/// one whose run is not free in the segments is left out.
pub fn opened_book(alloc: Global, place: Located, entries: &Entries) -> Result<Book, Memory>
    requires allowed { is_allowed place.head ≡ true }
    requires few { length entries.now < 2 ^ 32 }
    ensures order { IfOk result (λ b. IsInOrder (book_of b)) }
    ensures of_file { IfOk result (λ b. (f : List ℕ) → located f ≡ Ok place → has_segments place.head f ≡ true
        → has_no_rejects (view_of place.head f) ≡ true → entries.now ≡ taken_entries (view_of place.head f) → IsOf f (book_of b)) }
    ensures place { IfOk result (λ b. b.place ≡ place) }
    ensures segments { IfOk result (λ b. b.space.segments ≡ place.head.segments) }
    ensures waits { IfOk result (λ b. b.cache ≡ []) }
    ensures slots { IfOk result (λ b. length b.directory ≡ max 256 (length entries.now)) }
{
    an_opened_book_is_that_of_its_file();
    a_block_stands_as_it_is_read();
    open_gates_stand_at_taken_units_alone_where_nothing_is_rejected();
    a_header_is_located_where_it_is_read();
    gates_and_units_do_not_meet();
    let slots = entries.len().max(LEAST_SLOTS) as u32;
    let mut book = Book {
        place,
        space: free_segments(alloc, place.head.segments)?,
        directory: Directory::new(alloc, slots)?,
        cache: WriteCache::new(alloc),
    };
    enter_blocks(&mut book.space, &mut book.directory, entries)?;
    // their clauses say what the parts of a book keep
    let _segments = book.space.segments();
    let _slots = book.directory.slots();
    Ok(book)
}
