//! Laws of the states of a space, as contracts of functions that do nothing.
ghost use Rattle.std.specs.Prelude.{◌≡◌, ◌≤◌, ◌<◌, ◌≢◌, ◌⊎◌, ◌↔◌, ℕ, not, ◌&&◌, true, false, Some, None};
ghost use Rattle.space_model.specs.Sizes.{segment_units};
ghost use Rattle.space_model.specs.Runs.{Run, run, end_of, meets, place};
ghost use Rattle.space_model.specs.Apart.{In, SameMembers, Apart, IsRun};
ghost use Rattle.buddy_space.specs.SpaceState.{SpaceState, most_segments, largest_exp, units, held, is_free_run, IsParted, no_segments};
ghost use Rattle.buddy_space.specs.SpaceState.{with_segment, taking, giving, deferring, settling};

/// Free, deferred and taken runs part the units after each change.
pub fn the_runs_part_the_units()
    ensures none { IsParted no_segments }
    ensures segment { (s : SpaceState) → IsParted s → s.segments < most_segments → IsParted (with_segment s) }
    ensures take { (s : SpaceState) (r : Run) → IsParted s → r.exp ≤ largest_exp → is_free_run s r ≡ true → IsParted (taking s r) }
    ensures give { (s : SpaceState) (r : Run) → IsParted s → IsParted (giving s r) }
    ensures defer { (s : SpaceState) (r : Run) → IsParted s → In r s.taken → IsParted (deferring s r) }
    ensures settle { (s : SpaceState) → IsParted s → IsParted (settling s) }
{}

/// Each unit is free, or in just one of the taken and deferred runs.
pub fn each_unit_is_free_or_in_one_held_run()
    ensures covered { (s : SpaceState) (unit : ℕ) → unit < units s
        → (is_free_run s (run unit 0) ≡ true) ⊎ ((r : Run) × In r (held s) × (r.unit ≤ unit) × (unit < end_of r)) }
    ensures not_both { (s : SpaceState) (unit : ℕ) (r : Run) → is_free_run s (run unit 0) ≡ true → In r (held s) → r.unit ≤ unit → unit < end_of r → ⊥ }
    ensures once { (s : SpaceState) (unit : ℕ) (r q : Run) → IsParted s → In r (held s) → In q (held s) → r.unit ≤ unit → unit < end_of r → q.unit ≤ unit
        → unit < end_of q → r ≡ q }
{}

/// A run is free where it is aligned, lies in the segments and is apart from each held one.
pub fn a_free_run_is_apart_from_each_held_one()
    ensures is_run { (s : SpaceState) (r : Run) → r.exp ≤ largest_exp → is_free_run s r ≡ true → IsRun largest_exp (units s) r }
    ensures apart { (s : SpaceState) (r q : Run) → is_free_run s r ≡ true → In q (held s) → Apart r q }
    ensures free { (s : SpaceState) (r : Run) → IsRun largest_exp (units s) r → ((q : Run) → In q (held s) → Apart r q) → is_free_run s r ≡ true }
{}

/// A place is a free run, and there is none only where no run of this size is free.
pub fn a_place_is_free()
    ensures some { (s : SpaceState) (exp unit : ℕ) → place segment_units s.segments (held s) exp ≡ Some unit
        → (exp ≤ largest_exp) × (is_free_run s (run unit exp) ≡ true) }
    ensures none { (s : SpaceState) (r : Run) → r.exp ≤ largest_exp → place segment_units s.segments (held s) r.exp ≡ None → is_free_run s r ≡ false }
{}

/// After a run is taken, those are free that were free and do not meet it.
pub fn a_take_leaves_the_other_runs_free()
    ensures free { (s : SpaceState) (r q : Run) → is_free_run (taking s r) q ≡ (is_free_run s q && not (meets q r)) }
    ensures taken { (s : SpaceState) (r q : Run) → In q (taking s r).taken ↔ ((r ≡ q) ⊎ In q s.taken) }
{}

/// A run that was given back is free, so it can be claimed or taken again. What does not meet it is free as before.
pub fn a_run_that_was_given_back_is_free()
    ensures free { (s : SpaceState) (r : Run) → IsParted s → In r s.taken → is_free_run (giving s r) r ≡ true }
    ensures others { (s : SpaceState) (r q : Run) → IsParted s → In r s.taken → is_free_run s q ≡ (is_free_run (giving s r) q && not (meets q r)) }
    ensures taken { (s : SpaceState) (r q : Run) → In q (giving s r).taken ↔ ((r ≢ q) × In q s.taken) }
{}

/// A take and a give of one run undo each other.
pub fn take_and_give_undo_each_other()
    ensures give { (s : SpaceState) (r : Run) → is_free_run s r ≡ true → giving (taking s r) r ≡ s }
    ensures take { (s : SpaceState) (r : Run) → IsParted s → In r s.taken → taking (giving s r) r ≡ s }
{}

/// A deferred run is held as before, so the same runs are free and places stay.
pub fn a_deferred_run_is_still_held()
    ensures held { (s : SpaceState) (r : Run) → In r s.taken → SameMembers (held (deferring s r)) (held s) }
    ensures free { (s : SpaceState) (r q : Run) → In r s.taken → is_free_run (deferring s r) q ≡ is_free_run s q }
    ensures places { (s : SpaceState) (r : Run) (exp : ℕ) → In r s.taken
        → place segment_units s.segments (held (deferring s r)) exp ≡ place segment_units s.segments (held s) exp }
{}

/// After `settle` each deferred run is free, and so is what was.
pub fn all_deferred_runs_are_freed_at_once()
    ensures deferred { (s : SpaceState) (r : Run) → IsParted s → In r s.deferred → is_free_run (settling s) r ≡ true }
    ensures others { (s : SpaceState) (q : Run) → is_free_run s q ≡ true → is_free_run (settling s) q ≡ true }
{}

/// The units of an added segment are free, and so is what was.
pub fn an_added_segment_is_free()
    ensures added { (s : SpaceState) (r : Run) → IsParted s → IsRun largest_exp (units (with_segment s)) r → units s ≤ r.unit → is_free_run (with_segment s) r ≡ true }
    ensures others { (s : SpaceState) (q : Run) → is_free_run s q ≡ true → is_free_run (with_segment s) q ≡ true }
{}
