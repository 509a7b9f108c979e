//! Laws of a flush that is stopped at any moment, as contracts of functions that do nothing.
ghost use Rattle.std.specs.Prelude.{◌≡◌, ℕ, List};
ghost use Rattle.table_model.specs.Table.{Table};
ghost use Rattle.space_model.specs.Ledger.{Ledger};
ghost use Rattle.file_model.specs.declared.head.Located.{Located};
ghost use Rattle.file_model.specs.declared.head.FileState.TheVariants.{Dirty};
ghost use Rattle.file_model.specs.Header.{units_per_segment};
ghost use Rattle.file_model.specs.View.{view_of};
ghost use Rattle.book_model.specs.Book.{Book};
ghost use Rattle.book_model.specs.OfFile.{IsOf, placed_at, standing_of};
ghost use Rattle.book_model.specs.LedgerOfFile.{HasLedger, all_filed};
ghost use Rattle.book_model.specs.Flushing.{bodies_of, old_units, flushed_file, table_with_head, HaveNew};
ghost use Rattle.book_model.specs.Stopped.{IsPreparing, IsPrepared, IsWriting, IsStopped};

use crate::below::{blocks_below, new_blocks_below, stops_below, writes_below};

/// While segments are added and the header is changed each key has what it had.
pub fn while_a_file_is_prepared_nothing_is_lost()
    ensures { (old now : List ℕ) (b : Book) → IsOf old b → IsPreparing b.place.head b.space.segments old now
        → IsStopped b old now }
{
    blocks_below();
    stops_below();
}

/// Once a file is prepared the book, with the new header, is that of the file as it is then, the table and the blocks that
/// stand are the same, and the ledger's file has all segments.
pub fn a_prepared_file_has_its_book()
    ensures book { (old now : List ℕ) (b : Book) (place : Located) → IsOf old b
        → IsPrepared b.place.head b.space.segments place old now → IsOf now (placed_at b place) }
    ensures table { (old now : List ℕ) (b : Book) (place : Located) → IsOf old b
        → IsPrepared b.place.head b.space.segments place old now
        → table_with_head place.head now ≡ table_with_head b.place.head old }
    ensures standing { (old now : List ℕ) (b : Book) (place : Located) → IsOf old b
        → IsPrepared b.place.head b.space.segments place old now
        → standing_of (view_of place.head now) ≡ standing_of (view_of b.place.head old) }
    ensures ledger { (old now : List ℕ) (b : Book) (place : Located) (l : Ledger) → IsOf old b
        → IsPrepared b.place.head b.space.segments place old now
        → HasLedger old b l → HasLedger now (placed_at b place) (all_filed l) }
{
    blocks_below();
    stops_below();
}

/// While the new blocks of a dirty file are written, their gates are opened and those of the blocks that go are closed,
/// each key that waits has its old or its new objects, and the others have what they had.
pub fn while_blocks_are_written_each_key_has_its_old_or_its_new_objects()
    ensures { (old now : List ℕ) (b : Book) → IsOf old b → b.place.head.segments ≡ b.space.segments
        → b.place.head.state ≡ Dirty
        → IsWriting (units_per_segment b.place.head) (bodies_of b.cache) (old_units b.cache) old now
        → IsStopped b old now }
{
    blocks_below();
    new_blocks_below();
    writes_below();
    stops_below();
}

/// What a stop may leave of a file once it is prepared it may leave of the file as it was before; and so it is with what
/// each key has when all is written.
pub fn a_flush_of_a_prepared_file_is_one_of_the_file()
    ensures stopped { (old mid now : List ℕ) (b : Book) (place : Located) → IsOf old b
        → IsPrepared b.place.head b.space.segments place old mid → IsStopped (placed_at b place) mid now
        → IsStopped b old now }
    ensures new { (old mid : List ℕ) (new : Table) (b : Book) (place : Located) → IsOf old b
        → IsPrepared b.place.head b.space.segments place old mid
        → HaveNew (placed_at b place) (table_with_head place.head mid) new
        → HaveNew b (table_with_head b.place.head old) new }
{
    blocks_below();
    stops_below();
}

/// A stop may leave a file as it is, and, where it is dirty, as it is when all is written.
pub fn a_file_may_be_left_as_it_is_or_flushed()
    ensures as_it_is { (old : List ℕ) (b : Book) → IsOf old b → IsStopped b old old }
    ensures flushed { (old : List ℕ) (b : Book) → IsOf old b → b.place.head.segments ≡ b.space.segments
        → b.place.head.state ≡ Dirty → IsStopped b old (flushed_file b old) }
{
    blocks_below();
    new_blocks_below();
    writes_below();
    stops_below();
}
