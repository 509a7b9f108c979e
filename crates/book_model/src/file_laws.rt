//! Laws of a book that is that of a file, as contracts of functions that do nothing.
ghost use Rattle.std.specs.Prelude.{◌≡◌, ℕ, true, List};
ghost use Rattle.file_model.specs.declared.head.Head.{Head};
ghost use Rattle.file_model.specs.declared.head.Located.{Located};
ghost use Rattle.file_model.specs.Header.{units_per_segment};
ghost use Rattle.file_model.specs.View.{Units, view, view_of};
ghost use Rattle.file_model.specs.Fit.{has_segments, has_no_rejects};
ghost use Rattle.book_model.specs.declared.change.Change.{Change};
ghost use Rattle.book_model.specs.Book.{Book, IsParted};
ghost use Rattle.book_model.specs.Planning.{planned};
ghost use Rattle.book_model.specs.LedgerOf.{AreStanding};
ghost use Rattle.book_model.specs.OfFile.{IsOf, Follows, AreChangesOf, ShowsSame, AddsClosed, MayBeOf, placed_at, IsOpened, standing_of};

use crate::below::{blocks_below, places_and_states};

/// What is kept of a book that is that of a file implies the rest: pending runs meet neither a block of the file nor each
/// other and have no open gate, and so it is with free runs.
pub fn the_runs_of_a_book_meet_no_block_of_its_file()
    ensures { (file : List ℕ) (b : Book) → IsOf file b → Follows file b }
{
    blocks_below();
}

/// A command leaves a book that of its file.
pub fn a_command_leaves_a_book_of_its_file()
    ensures { (file : List ℕ) (changes : List Change) (b : Book) → IsOf file b → AreChangesOf (view_of b.place.head file) b changes
        → IsOf file (planned (units_per_segment b.place.head) b changes) }
{
    places_and_states();
}

/// A book is that of each file that shows the same, with its header.
pub fn a_file_that_shows_the_same_has_the_same_book()
    ensures { (old new : List ℕ) (b : Book) (place : Located) → IsOf old b → MayBeOf old new b place → IsOf new (placed_at b place) }
{}

/// More units with closed gates, behind those that were there, show nothing.
pub fn added_units_with_closed_gates_show_nothing()
    ensures { (old_head new_head : Head) (old new : Units) → new_head.kind ≡ old_head.kind → new_head.keypos ≡ old_head.keypos → AddsClosed old new
        → ShowsSame (view old_head old) (view new_head new) }
{}

/// The blocks of the file stand for the keys of its book.
pub fn the_blocks_of_a_file_stand()
    ensures { (file : List ℕ) (b : Book) → IsOf file b → AreStanding (standing_of (view_of b.place.head file)) b }
{}

/// A book that was just opened over a file in order is that of the file.
pub fn an_opened_book_is_that_of_its_file()
    ensures { (file : List ℕ) (b : Book) → IsOpened file b → has_segments b.place.head file ≡ true → has_no_rejects (view_of b.place.head file) ≡ true
        → IsParted (units_per_segment b.place.head) b.space → IsOf file b }
{
    blocks_below();
}
