//! Laws of the table that a file and its book hold, where nothing waits, and under a flush, as contracts of functions that do
//! nothing.
ghost use Rattle.std.specs.Prelude.{◌≡◌, ℕ, List, []};
ghost use Rattle.term_model.specs.TermValue.{TermValue};
ghost use Rattle.dets_term.specs.IsTerm.{IsTerm};
ghost use Rattle.table_model.specs.Table.{Table, objects_of};
ghost use Rattle.table_model.specs.Operations.{IsSameTable};
ghost use Rattle.book_model.specs.Book.{Book};
ghost use Rattle.book_model.specs.OfFile.{IsOf};
ghost use Rattle.book_model.specs.Flushing.{HaveNew};
ghost use Rattle.book_model.specs.Stopped.{IsStopped};
ghost use Rattle.store_model.specs.Stores.{table_with, Stores, IsBetween};

use table_model::walk_laws::keys_are_told_apart_by_their_bytes;

/// Where nothing waits a file and its book hold the table of the file.
pub fn where_nothing_waits_the_table_is_that_of_the_file()
    ensures holds { (file : List ℕ) (b : Book) → IsOf file b → b.cache ≡ [] → Stores file b (table_with b.place.head file) }
    ensures alone { (file : List ℕ) (b : Book) (t : Table) → Stores file b t → b.cache ≡ []
        → (k : TermValue) → IsTerm k → objects_of (table_with b.place.head file) k ≡ objects_of t k }
{}

/// They hold one table, but for the order of its objects.
pub fn a_file_and_its_book_hold_one_table()
    ensures { (file : List ℕ) (b : Book) (t u : Table) → Stores file b t → Stores file b u
        → (k : TermValue) → IsTerm k → objects_of t k ≡ objects_of u k }
{}

/// When all is written the new file and its book hold the table that the old ones held.
pub fn a_flush_leaves_the_table_of_a_book()
    ensures { (old new : List ℕ) (b after : Book) (t : Table) → Stores old b t → IsOf new after → after.cache ≡ []
        → after.place.head.kind ≡ b.place.head.kind → after.place.head.keypos ≡ b.place.head.keypos
        → HaveNew b (table_with b.place.head old) (table_with after.place.head new) → Stores new after t }
{
    keys_are_told_apart_by_their_bytes();
}

/// What a stop within a flush leaves is between the file and the table.
pub fn a_stop_leaves_the_file_or_the_table()
    ensures { (file image : List ℕ) (b : Book) (t : Table) → Stores file b t → IsStopped b file image
        → IsBetween file (table_with b.place.head file) t image }
{
    keys_are_told_apart_by_their_bytes();
}
