//! Worked rows of commands over books in memory, as contracts of functions that do nothing.
ghost use Rattle.std.specs.Prelude.{◌≡◌, [], ◌∷◌, codes, Some, Err};
ghost use Rattle.term_model.specs.Hash.{hash_of};
ghost use Rattle.space_model.specs.Runs.{run};
ghost use Rattle.write_cache.specs.Waiting.{keys_of};
ghost use Rattle.book_model.specs.Flushing.{old_units};
ghost use Rattle.book_model.specs.Book.{held};
ghost use Rattle.book_model.specs.Planning.{grown, serve, serve_all};
ghost use Rattle.book_model.specs.Scripts.{made, entry_for, gets, loses, change, changes, command, after_each, flushed};

/// At most one segment of 4,096 units: `a` takes all of it, and `b` is full, also once `a` is deleted, until the flush.
pub fn a_segment_is_full_until_the_flush()
    ensures taken { (command 4096 (made 1) (gets "a" 12 ∷ [])).space.taken ≡ run 0 12 ∷ [] }
    ensures full { serve 4096 (flushed (command 4096 (made 1) (gets "a" 12 ∷ []))) (change (flushed (command 4096 (made 1) (gets "a" 12 ∷ []))) (gets "b" 0)) ≡ Err 0 }
    ensures deleted { (command 4096 (flushed (command 4096 (made 1) (gets "a" 12 ∷ []))) (loses "a" ∷ [])).space.deferred ≡ run 0 12 ∷ [] }
    ensures still_full { serve 4096 (command 4096 (flushed (command 4096 (made 1) (gets "a" 12 ∷ []))) (loses "a" ∷ []))
        (change (command 4096 (flushed (command 4096 (made 1) (gets "a" 12 ∷ []))) (loses "a" ∷ [])) (gets "b" 0)) ≡ Err 0 }
    ensures free_again { (command 4096 (flushed (command 4096 (flushed (command 4096 (made 1) (gets "a" 12 ∷ []))) (loses "a" ∷ []))) (gets "b" 0 ∷ [])).space.taken
        ≡ run 0 0 ∷ [] }
{}

/// Of all maximal free runs with room the smallest is taken, of these the lowest, and of this one the front.
pub fn the_smallest_and_lowest_run_is_taken()
    ensures front { (command 16 (made 1) (gets "a" 0 ∷ [])).space.taken ≡ run 0 0 ∷ [] }
    ensures smallest { (after_each 16 (made 1) (gets "a" 0 ∷ gets "b" 2 ∷ [])).space.taken ≡ run 4 2 ∷ run 0 0 ∷ [] }
    ensures lowest { (after_each 16 (made 1) (gets "a" 0 ∷ gets "b" 2 ∷ gets "c" 0 ∷ [])).space.taken ≡ run 1 0 ∷ run 4 2 ∷ run 0 0 ∷ [] }
{}

/// A pending block of the exponent keeps its run. Else the new block is placed while the old one still has its run, which is
/// given back at once.
pub fn a_pending_block_stays_or_moves()
    ensures stays { (after_each 16 (made 1) (gets "a" 1 ∷ gets "a" 1 ∷ [])).space.taken ≡ run 0 1 ∷ [] }
    ensures moves { (after_each 16 (made 1) (gets "a" 0 ∷ gets "a" 1 ∷ [])).space.taken ≡ run 2 1 ∷ [] }
    ensures entry { entry_for (after_each 16 (made 1) (gets "a" 0 ∷ gets "a" 1 ∷ [])) (codes "a")
        ≡ Some (record { hash = hash_of (codes "a"); unit = 2; exp = 1; count = 1 }) }
    ensures given_back { (command 16 (after_each 16 (made 1) (gets "a" 0 ∷ [])) (gets "a" 1 ∷ gets "b" 0 ∷ [])).space.taken ≡ run 0 0 ∷ run 2 1 ∷ [] }
    ensures removed { held (after_each 16 (made 1) (gets "a" 0 ∷ loses "a" ∷ [])).space ≡ [] }
    ensures without_an_entry { (after_each 16 (made 1) (gets "a" 0 ∷ loses "a" ∷ [])).directory ≡ [] }
    ensures full_beside_itself { serve 16 (after_each 16 (made 1) (gets "a" 3 ∷ [])) (change (after_each 16 (made 1) (gets "a" 3 ∷ [])) (gets "a" 4)) ≡ Err 4 }
{}

/// A block that stands in the file is deferred, and its units are free behind the flush.
pub fn a_standing_block_is_deferred()
    ensures beside { (command 16 (flushed (command 16 (made 1) (gets "a" 0 ∷ []))) (gets "a" 0 ∷ [])).space
        ≡ record { segments = 1; taken = run 1 0 ∷ []; deferred = run 0 0 ∷ [] } }
    ensures once { (after_each 16 (flushed (command 16 (made 1) (gets "a" 0 ∷ []))) (gets "a" 0 ∷ gets "a" 1 ∷ [])).space
        ≡ record { segments = 1; taken = run 2 1 ∷ []; deferred = run 0 0 ∷ [] } }
    ensures removed { (command 16 (flushed (command 16 (made 1) (gets "a" 0 ∷ []))) (loses "a" ∷ [])).space
        ≡ record { segments = 1; taken = []; deferred = run 0 0 ∷ [] } }
    ensures goes { old_units (command 16 (flushed (command 16 (made 1) (gets "a" 0 ∷ []))) (loses "a" ∷ [])).cache ≡ 0 ∷ [] }
    ensures flushed { (after_each 16 (flushed (command 16 (flushed (command 16 (made 1) (gets "a" 0 ∷ []))) (gets "a" 0 ∷ []))) (gets "b" 0 ∷ [])).space
        ≡ record { segments = 1; taken = run 0 0 ∷ run 1 0 ∷ []; deferred = [] } }
{}

/// Where no run is free a segment is added, as long as there are fewer than max_segments.
pub fn segments_are_added_where_no_run_is_free()
    ensures none_yet { (made 2).space.segments ≡ 0 }
    ensures one { (command 16 (made 2) (gets "a" 0 ∷ gets "b" 3 ∷ [])).space.segments ≡ 1 }
    ensures two { (command 16 (made 2) (gets "a" 0 ∷ gets "b" 4 ∷ [])).space ≡ record { segments = 2; taken = run 16 4 ∷ run 0 0 ∷ []; deferred = [] } }
    ensures removed_without_any { (command 16 (made 2) (loses "a" ∷ [])).space.segments ≡ 0 }
    ensures in_the_front_again { (after_each 16 (made 2) (gets "a" 0 ∷ gets "b" 4 ∷ gets "c" 3 ∷ [])).space.taken ≡ run 8 3 ∷ run 16 4 ∷ run 0 0 ∷ [] }
{}

/// A command is full where all segments are there and, beside its own earlier blocks, no run is free. Then it has taken
/// nothing, and the added segments stay.
pub fn a_command_that_is_full_has_taken_nothing()
    ensures alone { (command 16 (made 1) (gets "b" 0 ∷ [])).space.taken ≡ run 0 0 ∷ [] }
    ensures full { serve_all 16 (made 1) (changes (made 1) (gets "a" 4 ∷ gets "b" 0 ∷ [])) ≡ Err 0 }
    ensures with_its_exponent { serve_all 16 (made 2) (changes (made 2) (gets "a" 4 ∷ gets "b" 0 ∷ gets "c" 4 ∷ [])) ≡ Err 4 }
    ensures as_before { command 16 (made 2) (gets "a" 4 ∷ gets "b" 0 ∷ gets "c" 4 ∷ []) ≡ grown (made 2) 2 }
    ensures deferred_as_before { command 16 (flushed (command 16 (made 1) (gets "a" 3 ∷ []))) (gets "a" 0 ∷ gets "b" 4 ∷ [])
        ≡ flushed (command 16 (made 1) (gets "a" 3 ∷ [])) }
    ensures without_segments { serve 16 (made 0) (change (made 0) (gets "a" 0)) ≡ Err 0 }
{}

/// The keys of a command are served in its order, and keep the place of their first touch.
pub fn keys_are_served_in_the_order_of_first_touch()
    ensures places { (command 16 (made 1) (gets "b" 0 ∷ gets "a" 1 ∷ [])).space.taken ≡ run 2 1 ∷ run 0 0 ∷ [] }
    ensures other_way_round { (command 16 (made 1) (gets "a" 1 ∷ gets "b" 0 ∷ [])).space.taken ≡ run 2 0 ∷ run 0 1 ∷ [] }
    ensures order { keys_of (after_each 16 (made 1) (gets "b" 0 ∷ gets "a" 0 ∷ gets "b" 1 ∷ [])).cache ≡ codes "b" ∷ codes "a" ∷ [] }
    ensures also_removed { keys_of (after_each 16 (made 1) (gets "b" 0 ∷ gets "a" 0 ∷ loses "b" ∷ [])).cache ≡ codes "b" ∷ codes "a" ∷ [] }
    ensures nothing_touched { command 16 (made 1) [] ≡ made 1 }
{}
