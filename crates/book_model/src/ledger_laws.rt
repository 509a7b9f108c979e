//! Laws of a book and its ledger, as contracts of functions that do nothing.
ghost use Rattle.std.specs.Prelude.{◌≡◌, ℕ, List};
ghost use Rattle.space_model.specs.Apart.{SameMembers};
ghost use Rattle.space_model.specs.Ledger.{Ledger, Standing, held as held_of_ledger, serve as serve_ledger, serve_all as serve_all_ledger, after_command};
ghost use Rattle.book_model.specs.declared.change.Change.{Change};
ghost use Rattle.file_model.specs.Header.{units_per_segment};
ghost use Rattle.file_model.specs.View.{view_of};
ghost use Rattle.book_model.specs.Book.{Book, held, IsWellFormed, IsAlike};
ghost use Rattle.book_model.specs.Planning.{IsChange, AreChanges, serve, serve_all, planned};
ghost use Rattle.book_model.specs.LedgerOf.{AreStanding, ledger_of, touch_of, touches_of, ledger_result};
ghost use Rattle.book_model.specs.OfFile.{IsOf, AreChangesOf, standing_of};
ghost use Rattle.book_model.specs.LedgerOfFile.{HasLedger};

use crate::below::{places_and_states, the_ledger_below};

/// A touched key, all of a command, and a command do to the ledger of a book what the ledger's definition says; so a command
/// is full exactly where the ledger is, and with the same exponent.
pub fn a_command_moves_the_ledger()
    ensures key { (segment_units : ℕ) (standing : List Standing) (b : Book) (c : Change) → IsWellFormed segment_units b → AreStanding standing b → IsChange b c
        → ledger_result standing (serve segment_units b c) ≡ serve_ledger segment_units (ledger_of standing b) (touch_of c) }
    ensures keys { (segment_units : ℕ) (standing : List Standing) (changes : List Change) (b : Book) → IsWellFormed segment_units b → AreStanding standing b
        → AreChanges b changes
        → ledger_result standing (serve_all segment_units b changes) ≡ serve_all_ledger segment_units (ledger_of standing b) (touches_of changes) }
    ensures command { (segment_units : ℕ) (standing : List Standing) (changes : List Change) (b : Book) → IsWellFormed segment_units b → AreStanding standing b
        → AreChanges b changes
        → ledger_of standing (planned segment_units b changes) ≡ after_command segment_units (ledger_of standing b) (touches_of changes) }
{
    places_and_states();
    the_ledger_below();
}

/// The blocks that stand in the file are the same ones under a command.
pub fn a_command_leaves_what_stands()
    ensures { (segment_units : ℕ) (standing : List Standing) (changes : List Change) (b : Book) → IsWellFormed segment_units b → AreStanding standing b
        → AreChanges b changes → AreStanding standing (planned segment_units b changes) }
{
    places_and_states();
}

/// The taken and the deferred runs are those that the ledger holds.
pub fn the_held_runs_are_those_of_the_ledger()
    ensures { (segment_units : ℕ) (standing : List Standing) (b : Book) → IsWellFormed segment_units b → AreStanding standing b
        → SameMembers (held b.space) (held_of_ledger (ledger_of standing b)) }
{}

/// A book has the ledger with the blocks of its file. What stands in each ledger that it has is what stands for the book, and
/// alike books have the same ledgers.
pub fn a_book_of_a_file_has_its_ledger()
    ensures own { (file : List ℕ) (b : Book) → HasLedger file b (ledger_of (standing_of (view_of b.place.head file)) b) }
    ensures stands { (file : List ℕ) (b : Book) (l : Ledger) → IsOf file b → HasLedger file b l → AreStanding l.standing b }
    ensures alike { (file : List ℕ) (a b : Book) (l : Ledger) → IsAlike a b → HasLedger file a l → HasLedger file b l }
{}

/// A command over a book that is that of a file moves the ledger as the ledger's definition says, and answers what the ledger
/// answers.
pub fn a_command_moves_the_ledger_of_a_file()
    ensures answer { (file : List ℕ) (changes : List Change) (b : Book) (l : Ledger) → IsOf file b
        → AreChangesOf (view_of b.place.head file) b changes → HasLedger file b l
        → ledger_result l.standing (serve_all (units_per_segment b.place.head) b changes)
        ≡ serve_all_ledger (units_per_segment b.place.head) l (touches_of changes) }
    ensures command { (file : List ℕ) (changes : List Change) (b : Book) (l : Ledger) → IsOf file b
        → AreChangesOf (view_of b.place.head file) b changes → HasLedger file b l
        → HasLedger file (planned (units_per_segment b.place.head) b changes)
        (after_command (units_per_segment b.place.head) l (touches_of changes)) }
    ensures alike { (file : List ℕ) (changes : List Change) (b new : Book) (l : Ledger) → IsOf file b
        → AreChangesOf (view_of b.place.head file) b changes → HasLedger file b l
        → IsAlike (planned (units_per_segment b.place.head) b changes) new
        → HasLedger file new (after_command (units_per_segment b.place.head) l (touches_of changes)) }
{
    places_and_states();
    the_ledger_below();
}
