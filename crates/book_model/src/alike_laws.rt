//! Laws of books that differ in the order of runs and entries alone, as contracts of functions that do nothing.
ghost use Rattle.std.specs.Prelude.{◌≡◌, ℕ, List};
ghost use Rattle.space_model.specs.Apart.{Pairs};
ghost use Rattle.space_model.specs.Ledger.{Standing};
ghost use Rattle.book_model.specs.declared.change.Change.{Change};
ghost use Rattle.book_model.specs.Book.{Book, IsParted, OtherUnit, IsWellFormed, IsAlike, AreAlike};
ghost use Rattle.book_model.specs.Planning.{serve, serve_all, planned};
ghost use Rattle.book_model.specs.LedgerOf.{AreStanding, ledger_of};
ghost use Rattle.file_model.specs.Header.{units_per_segment};
ghost use Rattle.book_model.specs.OfFile.{IsOf};

use crate::below::the_ledger_below;

/// Each book is alike itself, and two that are alike a third one are alike each other.
pub fn books_are_alike_both_ways()
    ensures self_alike { (a : Book) → IsAlike a a }
    ensures back { (a b : Book) → IsAlike a b → IsAlike b a }
    ensures through { (a b c : Book) → IsAlike a b → IsAlike b c → IsAlike a c }
{}

/// Alike books do alike under the same changes.
pub fn alike_books_are_served_alike()
    ensures key { (segment_units : ℕ) (a b : Book) (c : Change) → IsAlike a b → AreAlike (serve segment_units a c) (serve segment_units b c) }
    ensures keys { (segment_units : ℕ) (changes : List Change) (a b : Book) → IsAlike a b
        → AreAlike (serve_all segment_units a changes) (serve_all segment_units b changes) }
    ensures command { (segment_units : ℕ) (changes : List Change) (a b : Book) → IsAlike a b
        → IsAlike (planned segment_units a changes) (planned segment_units b changes) }
{
    the_ledger_below();
}

/// Of alike books one is in order where the other one is, if its runs part its space and its entries have a unit each. Both
/// have the same ledger, and are those of the same files.
pub fn alike_books_say_the_same()
    ensures order { (segment_units : ℕ) (a b : Book) → IsAlike a b → IsWellFormed segment_units a → IsParted segment_units b.space → Pairs OtherUnit b.directory
        → IsWellFormed segment_units b }
    ensures ledger { (standing : List Standing) (a b : Book) → IsAlike a b → ledger_of standing b ≡ ledger_of standing a }
    ensures stands { (standing : List Standing) (a b : Book) → IsAlike a b → AreStanding standing a → AreStanding standing b }
    ensures of_file { (file : List ℕ) (a b : Book) → IsAlike a b → IsOf file a → IsParted (units_per_segment b.place.head) b.space
        → Pairs OtherUnit b.directory → IsOf file b }
{}
