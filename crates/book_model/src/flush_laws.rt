//! Laws of a book that is flushed, as contracts of functions that do nothing.
ghost use Rattle.std.specs.Prelude.{◌≡◌, ℕ, List, []};
ghost use Rattle.space_model.specs.Apart.{SameMembers};
ghost use Rattle.space_model.specs.Ledger.{Ledger, Standing, flush};
ghost use Rattle.file_model.specs.Header.{units_per_segment};
ghost use Rattle.file_model.specs.View.{view_of};
ghost use Rattle.file_model.specs.Flush.{IsFlushable};
ghost use Rattle.book_model.specs.Book.{Book};
ghost use Rattle.book_model.specs.LedgerOf.{ledger_of};
ghost use Rattle.book_model.specs.OfFile.{IsOf, standing_of};
ghost use Rattle.book_model.specs.LedgerOfFile.{HasLedger};
ghost use Rattle.book_model.specs.Flushing.{bodies_of, old_units, settled, flushed_file, table_with_head, HaveNew};

use crate::below::{blocks_below, new_blocks_below, writes_below};

/// Once the file has the segments of the space, what waits in a book that is that of the file may be flushed.
pub fn a_book_of_a_file_may_be_flushed()
    ensures { (file : List ℕ) (b : Book) → IsOf file b → b.place.head.segments ≡ b.space.segments
        → IsFlushable (units_per_segment b.place.head) b.place.head (bodies_of b.cache) (old_units b.cache) file }
{
    blocks_below();
    new_blocks_below();
}

/// When all is written the book, with nothing that waits, is that of the file as it is then.
pub fn after_a_flush_the_book_is_that_of_the_new_file()
    ensures { (file : List ℕ) (b : Book) → IsOf file b → b.place.head.segments ≡ b.space.segments
        → IsOf (flushed_file b file) (settled b) }
{
    blocks_below();
    new_blocks_below();
    writes_below();
}

/// When all is written each key that waited has the objects of its new block, or none where it has no block, and the other
/// keys have what they had.
pub fn after_a_flush_each_key_that_waited_has_its_new_objects()
    ensures { (file : List ℕ) (b : Book) → IsOf file b → b.place.head.segments ≡ b.space.segments
        → HaveNew b (table_with_head b.place.head file) (table_with_head b.place.head (flushed_file b file)) }
{
    blocks_below();
    new_blocks_below();
    writes_below();
}

/// When all is written the ledger of the book is the flushed one, but for the order of the keys that stand.
pub fn after_a_flush_the_ledger_is_the_flushed_one()
    ensures standing { (file : List ℕ) (b : Book) → IsOf file b → b.place.head.segments ≡ b.space.segments
        → SameMembers (flush (ledger_of (standing_of (view_of b.place.head file)) b)).standing
        (standing_of (view_of b.place.head (flushed_file b file))) }
    ensures rest { (b : Book) (before standing : List Standing) → b.place.head.segments ≡ b.space.segments
        → record (flush (ledger_of before b)) { standing = standing } ≡ ledger_of standing (settled b) }
{
    blocks_below();
    new_blocks_below();
    writes_below();
}

/// When all is written the book has the flushed ledger over the file as it is then, and so it has where nothing was to be
/// written.
pub fn after_a_flush_the_book_has_the_flushed_ledger()
    ensures written { (file : List ℕ) (b : Book) (l : Ledger) → IsOf file b → b.place.head.segments ≡ b.space.segments
        → HasLedger file b l → HasLedger (flushed_file b file) (settled b) (flush l) }
    ensures nothing { (file : List ℕ) (b : Book) (l : Ledger) → b.cache ≡ [] → b.space.segments ≡ b.place.head.segments
        → HasLedger file b l → HasLedger file b (flush l) }
{
    blocks_below();
    new_blocks_below();
    writes_below();
}
