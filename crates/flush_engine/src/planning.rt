//! The plan of a command: all that it changes in memory.
ghost use Rattle.std.specs.Prelude.{◌≡◌, ◌≢◌, ℕ, List, length, max, Err, IfOk, OnOk, IsErrOf};
ghost use Rattle.space_model.specs.Sizes.{segment_units};
ghost use Rattle.space_model.specs.Ledger.{Standing, serve_all as serve_all_of_ledger, after_command};
ghost use Rattle.file_model.specs.View.{view_of};
ghost use Rattle.write_cache.specs.Waiting.{Waiting};
ghost use Rattle.buddy_space.specs.SpaceState.{with_spare};
ghost use Rattle.slot_table.specs.BySlot.{by_slot, HasRoomFor};
ghost use Rattle.book_model.specs.Book.{Book as BookValue, IsInOrder, IsWellFormed, IsAlike};
ghost use Rattle.book_model.specs.Planning.{AreChanges, serve_all, planned};
ghost use Rattle.book_model.specs.LedgerOf.{AreStanding, ledger_of, touches_of};
ghost use Rattle.book_model.specs.OfFile.{IsOf, AreChangesOf};
ghost use Rattle.flush_engine.specs.Meaning.{book_of, IsAnswer, IsAsBefore, IsPlanned};
ghost use Rattle.flush_engine.specs.Coming.{new_entries, Coming};

use crate::all::place_all;
use crate::entering::enter;
use crate::{Book, Changes, Memory, PlanFault};
use file_model::Entry;
use std::alloc::Global;

/// The entries of the new blocks of changes, which begin at these units.
fn new_entries(alloc: Global, changes: &Changes, units: &[u32]) -> Result<Vec<Entry>, Memory>
    requires { length units.now ≡ length changes.now }
    ensures { IfOk result (λ entries. entries.items ≡ new_entries changes.now units.now) }
{
    let mut entries = Vec::new(alloc);
    let mut place = 0;
    for change in changes.as_slice() {
        if let Some(packed) = &change.next {
            entries.push(Entry {
                hash: change.hash,
                unit: units[place],
                exp: packed.exp,
                count: packed.count,
            })?;
        }
        place += 1;
    }
    Ok(entries)
}

/// Makes room for the new entries of changes and for the runs that they defer. After `Memory` the book says what it said.
fn make_room(alloc: Global, book: &mut Book, changes: &Changes, units: &[u32]) -> Result<(), Memory>
    requires { length units.now ≡ length changes.now }
    ensures place { book.new.place ≡ book.old.place }
    ensures cache { book.new.cache ≡ book.old.cache }
    ensures slots { length book.new.directory ≡ length book.old.directory }
    ensures entries { by_slot book.new.directory ≡ by_slot book.old.directory }
    ensures spare { OnOk result (book.new.space ≡ with_spare (max book.old.space.spare (length changes.now)) book.old.space) }
    ensures room { OnOk result (HasRoomFor book.new.directory (new_entries changes.now units.now)) }
{
    let entries = new_entries(alloc, changes, units)?;
    book.directory.reserve(&entries)?;
    book.space.reserve_deferred(changes.len())
}

/// Enters the changes, whose new blocks begin at these units. After `Memory` the book is given up.
fn enter_all(book: &mut Book, changes: Changes, units: &[u32]) -> Result<(), Memory>
    requires { (before : Waiting) × (new : BookValue) × (mid : BookValue) × Coming before new mid changes units.now book.old }
    ensures alike { OnOk result ((before : Waiting) (new mid : BookValue) → Coming before new mid changes units.now book.old
        → IsAlike new (book_of book.new)) }
    ensures formed { OnOk result (IsWellFormed segment_units (book_of book.new)) }
    ensures slots { length book.new.directory ≡ length book.old.directory }
{
    let mut place = 0;
    for change in changes.into_vec() {
        enter(book, change, units[place])?;
        place += 1;
    }
    Ok(())
}

/// Places the new blocks of all changes, and enters the changes then.
fn place_and_enter(alloc: Global, book: &mut Book, changes: Changes) -> Result<(), PlanFault>
    requires order { IsInOrder (book_of book.old) }
    requires changes { AreChanges (book_of book.old) changes }
    ensures planned { result ≢ Err PlanFault.Memory → IsPlanned book.old book.new changes result }
    ensures full { (exp : ℕ) → IsErrOf result (PlanFault.Full exp) → IsAsBefore book.old book.new }
    ensures slots { length book.new.directory ≡ length book.old.directory }
{
    // their clauses say what the parts of a book keep
    let _segments = book.space.segments();
    let _keys = book.cache.len();
    let _slots = book.directory.slots();
    let most = book.place.head.max_segments;
    let units = place_all(alloc, &mut book.space, most, &book.cache, &changes)?;
    make_room(alloc, book, &changes, &units)?;
    let _placed = book.space.segments();
    enter_all(book, changes, &units)?;
    Ok(())
}

/// Plans the changes of a command: all that it takes, puts and gives back in memory, so that a flush takes no memory. `Full`
/// where a new block has no place with all segments, which then are there, and nothing else has changed. After `Memory` the
/// book is given up.
pub fn plan(alloc: Global, book: &mut Book, changes: Changes) -> Result<(), PlanFault>
    requires order { IsInOrder (book_of book.old) }
    requires changes { AreChanges (book_of book.old) changes }
    ensures answer { result ≢ Err PlanFault.Memory → IsAnswer (serve_all segment_units (book_of book.old) changes) result }
    ensures planned { result ≢ Err PlanFault.Memory → IsAlike (planned segment_units (book_of book.old) changes) (book_of book.new) }
    ensures order { result ≢ Err PlanFault.Memory → IsInOrder (book_of book.new) }
    ensures slots { length book.new.directory ≡ length book.old.directory }
    ensures full { (exp : ℕ) → IsErrOf result (PlanFault.Full exp) → IsAsBefore book.old book.new }
    ensures ledger_answer { result ≢ Err PlanFault.Memory → (standing : List Standing) → AreStanding standing (book_of book.old)
        → IsAnswer (serve_all_of_ledger segment_units (ledger_of standing (book_of book.old)) (touches_of changes)) result }
    ensures ledger { result ≢ Err PlanFault.Memory → (standing : List Standing) → AreStanding standing (book_of book.old)
        → ledger_of standing (book_of book.new) ≡ after_command segment_units (ledger_of standing (book_of book.old)) (touches_of changes) }
    ensures of_file { result ≢ Err PlanFault.Memory → (file : List ℕ) → IsOf file (book_of book.old)
        → AreChangesOf (view_of book.old.place.head file) (book_of book.old) changes → IsOf file (book_of book.new) }
{
    place_and_enter(alloc, book, changes)
}
