//! Laws of the ledger, as contracts of functions that do nothing.
ghost use Rattle.std.specs.Prelude.{◌≡◌, ◌≤◌, ◌<◌, ℕ, ◌+◌, ◌*◌, ◌^◌, List, [], ◌∷◌, ◌++◌, cond, map, bytes_eq, option_map, Option, Some, None, Ok};
ghost use Rattle.std.specs.Prelude.{Err, true, false};
ghost use Rattle.space_model.specs.Least.{log2};
ghost use Rattle.space_model.specs.Runs.{Run, place};
ghost use Rattle.space_model.specs.Sizes.{unit_size, head_size};
ghost use Rattle.space_model.specs.Ledger.{exponent, is_too_large, Pending, Packed, Ledger, Placed, Touch, held, made};
ghost use Rattle.space_model.specs.Ledger.{is_pending, packed_of, with_pending, place_growing, serve, serve_all, after_command, flush, flush_at_limit};
ghost use Rattle.space_model.specs.LedgerOrder.{IsInOrder, IsFirstPlace, IsFull, IsFullAt, Serves, HasBlock, pending_keys, standing_run};

/// A payload has room in the block of its exponent and in no smaller one, and one that is not too large needs a segment at
/// most.
#[tactic(auto, using(crate::proofs::Rooms::has_room, crate::proofs::Rooms::no_room_below, crate::proofs::Rooms::fits_segment, crate::proofs::Rooms::too_large))]
pub fn a_payload_has_room_in_the_least_block()
    ensures room { (bytes : ℕ) → head_size + bytes ≤ unit_size * 2 ^ exponent bytes }
    ensures no_smaller_one { (bytes exp : ℕ) → exp < exponent bytes → unit_size * 2 ^ exp < head_size + bytes }
    ensures in_a_segment { (largest bytes : ℕ) → is_too_large (2 ^ largest) bytes ≡ false → exponent bytes ≤ largest }
    ensures in_no_segment { (largest bytes : ℕ) → is_too_large (2 ^ largest) bytes ≡ true → largest < exponent bytes }
{}

/// Segments are added only as long as there is no place, and none is left to be added where there is none at all.
pub fn segments_are_added_as_long_as_there_is_no_place()
    ensures first { (segment_units : ℕ) (runs : List Run) (exp segments more : ℕ) (at : Placed)
        → place_growing segment_units runs exp segments more ≡ Some at → IsFirstPlace segment_units runs exp segments more at }
    ensures none { (segment_units : ℕ) (runs : List Run) (exp segments more : ℕ)
        → place_growing segment_units runs exp segments more ≡ None → place segment_units (segments + more) runs exp ≡ None }
{}

/// A ledger stays in order: held runs lie in the segments and do not meet, whatever is served.
pub fn a_ledger_stays_in_order()
    ensures made { (segment_units max : ℕ) → IsInOrder segment_units (made max) }
    ensures touch { (segment_units : ℕ) (l new : Ledger) (touch : Touch) → serve segment_units l touch ≡ Ok new
        → IsInOrder segment_units l → IsInOrder segment_units new }
    ensures command { (segment_units : ℕ) (touches : List Touch) (l : Ledger) → IsInOrder segment_units l
        → IsInOrder segment_units (after_command segment_units l touches) }
    ensures flushed { (segment_units : ℕ) (l : Ledger) → IsInOrder segment_units l → IsInOrder segment_units (flush l) }
    ensures flushed_at_limit { (segment_units : ℕ) (l : Ledger) → IsInOrder segment_units l → IsInOrder segment_units (flush_at_limit l) }
{}

/// Serving changes the pending keys, and adds segments or none.
pub fn serving_leaves_standing_keys()
    ensures touch { (segment_units : ℕ) (l new : Ledger) (touch : Touch) → serve segment_units l touch ≡ Ok new → Serves l new }
    ensures command { (segment_units : ℕ) (touches : List Touch) (l new : Ledger) → serve_all segment_units l touches ≡ Ok new → Serves l new }
{}

/// A touched key is full only where its block has no place with all segments, and a command where one of its keys is.
pub fn a_key_is_full_without_a_place()
    ensures touch { (segment_units : ℕ) (l : Ledger) (touch : Touch) (exp : ℕ) → l.segments ≤ l.max → serve segment_units l touch ≡ Err exp
        → IsFull segment_units l touch.bytes exp }
    ensures command { (segment_units : ℕ) (touches : List Touch) (l : Ledger) (exp : ℕ) → IsInOrder segment_units l
        → serve_all segment_units l touches ≡ Err exp → IsFullAt segment_units l touches exp }
{}

/// A served key is pending with its new payload in a run of its exponent, or without a block; other keys stay as they were.
pub fn a_served_key_has_its_new_block()
    ensures block { (segment_units : ℕ) (l new : Ledger) (touch : Touch) (bytes : ℕ) → touch.bytes ≡ Some bytes → serve segment_units l touch ≡ Ok new
        → HasBlock new.pending touch.key bytes }
    ensures removed { (segment_units : ℕ) (l new : Ledger) (touch : Touch) → touch.bytes ≡ None → serve segment_units l touch ≡ Ok new
        → packed_of new.pending touch.key ≡ None }
    ensures others { (segment_units : ℕ) (l new : Ledger) (touch : Touch) (key : List ℕ) → bytes_eq touch.key key ≡ false
        → serve segment_units l touch ≡ Ok new → packed_of new.pending key ≡ packed_of l.pending key }
    ensures order { (segment_units : ℕ) (l new : Ledger) (touch : Touch) → serve segment_units l touch ≡ Ok new
        → pending_keys new.pending ≡ cond (is_pending l.pending touch.key) (pending_keys l.pending) (pending_keys l.pending ++ touch.key ∷ []) }
{}

/// Behind a flush the run of each key that was pending is its standing one, or it has none; other keys keep theirs.
pub fn pending_keys_stand_behind_a_flush()
    ensures pending { (segment_units : ℕ) (l : Ledger) (key : List ℕ) → IsInOrder segment_units l → is_pending l.pending key ≡ true
        → standing_run (flush l).standing key ≡ option_map (λ (q : Packed). q.run) (packed_of l.pending key) }
    ensures others { (l : Ledger) (key : List ℕ) → is_pending l.pending key ≡ false → standing_run (flush l).standing key ≡ standing_run l.standing key }
    ensures nothing_waits { (l : Ledger) → (flush l).pending ≡ [] }
    ensures filed { (l : Ledger) → (flush l).filed ≡ l.segments }
{}
