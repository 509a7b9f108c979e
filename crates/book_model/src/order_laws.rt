//! Laws of books in order, as contracts of functions that do nothing.
ghost use Rattle.std.specs.Prelude.{◌≡◌, ℕ, List, Some, None, Ok, Err};
ghost use Rattle.space_model.specs.Runs.{place};
ghost use Rattle.file_model.specs.declared.block.Packed.{Packed};
ghost use Rattle.write_cache.specs.declared.pending.Pending.{Pending};
ghost use Rattle.write_cache.specs.Waiting.{Waiting, state_of, with_state};
ghost use Rattle.book_model.specs.declared.change.Change.{Change};
ghost use Rattle.book_model.specs.Book.{Book, held, IsWellFormed};
ghost use Rattle.book_model.specs.Planning.{IsChange, OtherKey, OtherEntry, AreChanges, stands_for, moved, IsFull, serve, planned};

use crate::below::places_and_states;

/// Serving a touched key leaves a book in order, and what is known of the changes of other keys is known of them behind it.
pub fn a_served_key_leaves_a_book_in_order()
    ensures order { (segment_units : ℕ) (b new : Book) (c : Change) → IsWellFormed segment_units b → IsChange b c → serve segment_units b c ≡ Ok new
        → IsWellFormed segment_units new }
    ensures others { (segment_units : ℕ) (b new : Book) (c d : Change) → IsWellFormed segment_units b → IsChange b c → IsChange b d → OtherKey c d
        → OtherEntry c d → serve segment_units b c ≡ Ok new → IsChange new d }
{
    places_and_states();
}

/// A command leaves a book in order, also where it is full.
pub fn a_command_leaves_a_book_in_order()
    ensures { (segment_units : ℕ) (changes : List Change) (b : Book) → IsWellFormed segment_units b → AreChanges b changes
        → IsWellFormed segment_units (planned segment_units b changes) }
{
    places_and_states();
}

/// A touched key is full only where its block has no place with all segments.
pub fn a_key_is_full_without_a_place()
    ensures { (segment_units : ℕ) (b : Book) (c : Change) (exp : ℕ) → IsWellFormed segment_units b → IsChange b c → serve segment_units b c ≡ Err exp
        → IsFull segment_units b c exp }
{
    places_and_states();
}

/// A key that gives up its block and gets one in the same command has one new state.
pub fn a_served_key_has_one_new_state()
    ensures twice { (w : Waiting) (key : List ℕ) (s t : Pending) → with_state (with_state w key s) key t ≡ with_state w key t }
    ensures moved { (b : Book) (c : Change) (p : Packed) (segments unit : ℕ) → (moved b c p segments unit).cache
        ≡ with_state b.cache c.key (record { block = Some p; unit = unit; hash = c.hash; old = stands_for (state_of b.cache c.key) c.old }) }
{}
