//! Worked rows of walks, as contracts of functions that do nothing.
ghost use Rattle.std.specs.Prelude.{◌≡◌, [], ◌∷◌, replicate, pos, true, false, Some, None};
ghost use Rattle.term_model.specs.TermValue.{nil};
ghost use Rattle.term_model.specs.Written.{word, number, pair, bytes, list_of};
ghost use Rattle.term_model.specs.declared.kind.Kind.TheVariants.{Set, Bag};
ghost use Rattle.space_model.specs.Runs.{run};
ghost use Rattle.space_model.specs.Ledger.{made, held, after_command};
ghost use Rattle.space_model.specs.LedgerOrder.{pending_keys};
ghost use Rattle.table_model.specs.Table.{empty_table};
ghost use Rattle.table_model.specs.Touched.{touched_by_insert};
ghost use Rattle.table_model.specs.Operations.{delete_key, delete_all_objects, delete_object};
ghost use Rattle.etf_model.specs.Canonical.{spelled};
ghost use Rattle.table_model.specs.Walk.{slot_of_key, slots_at_opening, slots_after, walked_keys, walked, touched_in_walk, list_bytes, touches_of};
ghost use Rattle.table_model.specs.Filled.{filled, small_set, small_bag, two_numbers, one_counter, incremented};

/// The slots of the keys 1, 2 and 3 among 256, and of 1 among 400.
pub fn slots_of_small_keys()
    ensures one { slot_of_key 256 (number 1) ≡ 120 }
    ensures two { slot_of_key 256 (number 2) ≡ 49 }
    ensures three { slot_of_key 256 (number 3) ≡ 158 }
    ensures more_slots { slot_of_key 400 (number 1) ≡ 376 }
{}

/// A set with `{1,x}`, `{2,x}` and `{3,x}`: with 256 slots the key 2 comes first, then 1 and 3. In one slot keys go by the
/// order of terms.
pub fn a_walk_goes_by_slots()
    ensures keys { walked_keys 256 small_set ≡ number 2 ∷ number 1 ∷ number 3 ∷ [] }
    ensures objects { walked 256 small_set ≡ pair (number 2) (word "x") ∷ pair (number 1) (word "x") ∷ pair (number 3) (word "x") ∷ [] }
    ensures one_slot { walked_keys 1 small_set ≡ number 1 ∷ number 2 ∷ number 3 ∷ [] }
    ensures other_kinds { walked_keys 1 (filled Set 1 (pair (list_of []) nil ∷ pair (word "a") nil ∷ pair (number 7) nil ∷ []))
        ≡ number 7 ∷ word "a" ∷ nil ∷ [] }
    ensures without_a_key { walked_keys 256 (delete_key small_set (number 1)) ≡ number 2 ∷ number 3 ∷ [] }
    ensures nothing { walked 256 (empty_table Set 1) ≡ [] }
{}

/// A bag with `{1,b}`, `{2,a}` and `{1,a}`: all objects of a key are met together, ascending.
pub fn a_walk_meets_the_objects_of_a_key_together()
    ensures { walked 256 (filled Bag 1 (pair (number 1) (word "b") ∷ pair (number 2) (word "a") ∷ pair (number 1) (word "a") ∷ []))
        ≡ pair (number 2) (word "a") ∷ pair (number 1) (word "a") ∷ pair (number 1) (word "b") ∷ [] }
{}

/// At least 256 slots, and as many as keys, unless the table is fixed.
pub fn the_number_of_slots_grows_with_the_keys()
    ensures opening { slots_at_opening small_set ≡ 256 }
    ensures grows { slots_after false 2 small_set ≡ 3 }
    ensures fixed { slots_after true 2 small_set ≡ 2 }
    ensures never_falls { slots_after false 400 small_set ≡ 400 }
    ensures counts_keys { slots_after false 1 small_bag ≡ 1 }
{}

/// Deletions touch keys in walk order, and a counter its key, unless the increment is 0.
pub fn deletions_and_counters_touch_keys_in_walk_order()
    ensures all { touched_in_walk 256 small_set (delete_all_objects small_set) ≡ number 2 ∷ number 1 ∷ number 3 ∷ [] }
    ensures one_key { touched_in_walk 256 small_set (delete_key small_set (number 1)) ≡ number 1 ∷ [] }
    ensures absent { touched_in_walk 256 small_set (delete_key small_set (number 4)) ≡ [] }
    ensures one_object { touched_in_walk 256 small_bag (delete_object small_bag (pair (word "a") (number 2))) ≡ word "a" ∷ [] }
    ensures counter { touched_in_walk 256 one_counter (incremented one_counter (word "n") (pos 3)) ≡ word "n" ∷ [] }
    ensures increment_of_0 { touched_in_walk 256 one_counter (incremented one_counter (word "n") (pos 0)) ≡ [] }
{}

/// What the ledger is told: a key in its canonical spelling, and the bytes of its list.
pub fn touched_keys_are_told_to_the_ledger()
    ensures spelled { spelled (number 1) ≡ 131 ∷ 97 ∷ 1 ∷ [] }
    ensures nothing { list_bytes [] ≡ None }
    ensures one_object { list_bytes (pair (word "k") (number 1) ∷ []) ≡ Some 14 }
    ensures bytes { list_bytes (pair (word "k") (bytes (replicate 39 0)) ∷ []) ≡ Some 56 }
    ensures touches { touches_of (delete_key small_set (number 1)) (number 2 ∷ number 1 ∷ [])
        ≡ record { key = 131 ∷ 97 ∷ 2 ∷ []; bytes = Some 14 } ∷ record { key = 131 ∷ 97 ∷ 1 ∷ []; bytes = None } ∷ [] }
{}

/// `{7,0}` and `{3,0}` inserted by one command into an empty set, and then all objects deleted.
pub fn a_command_is_served_in_the_order_of_its_touches()
    ensures insert { pending_keys
        (after_command 16 (made 1) (touches_of two_numbers (touched_by_insert two_numbers.objects (empty_table Set 1) two_numbers))).pending
        ≡ spelled (number 7) ∷ spelled (number 3) ∷ [] }
    ensures runs { held (after_command 16 (made 1) (touches_of two_numbers (touched_by_insert two_numbers.objects (empty_table Set 1) two_numbers)))
        ≡ run 0 0 ∷ run 1 0 ∷ [] }
    ensures delete { let gone = delete_all_objects small_set in
        pending_keys (after_command 16 (made 1) (touches_of gone (touched_in_walk 256 small_set gone))).pending
        ≡ spelled (number 2) ∷ spelled (number 1) ∷ spelled (number 3) ∷ [] }
    ensures nothing_touched { after_command 16 (made 1) (touches_of small_set (touched_by_insert small_set.objects small_set small_set)) ≡ made 1 }
{}
