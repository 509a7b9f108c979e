//! Worked rows of the ledger, as contracts of functions that do nothing.
ghost use Rattle.std.specs.Prelude.{◌≡◌, [], ◌∷◌, replicate, codes, true, false, Some, None, Ok, Err};
ghost use Rattle.space_model.specs.Runs.{run};
ghost use Rattle.space_model.specs.Ledger.{exponent, is_too_large, opened, made, held, packed_of, serve, serve_all, after_command, is_at_limit};
ghost use Rattle.space_model.specs.Ledger.{flush, flush_at_limit};
ghost use Rattle.space_model.specs.LedgerOrder.{pending_keys};
ghost use Rattle.space_model.specs.Scripts.{gets, loses, after_each, flushed_after, waits};

/// A block of one unit has room for 56 bytes behind its head, and one of 4,096 units for 262,136.
pub fn a_payload_gets_the_least_block_with_room()
    ensures nothing { exponent 0 ≡ 0 }
    ensures one_unit { exponent 56 ≡ 0 }
    ensures two_units { exponent 57 ≡ 1 }
    ensures two_units_full { exponent 120 ≡ 1 }
    ensures a_segment { exponent 262136 ≡ 12 }
    ensures half_a_segment { exponent 131064 ≡ 11 }
    ensures at_most_a_segment { is_too_large 4096 262136 ≡ false }
    ensures more_than_a_segment { is_too_large 4096 262137 ≡ true }
{}

/// At most one segment of 4,096 units: `a` takes all of it, and `b` finds no place until a flush behind the deletion of `a`.
pub fn a_segment_is_full_until_the_flush()
    ensures taken { held (after_command 4096 (made 1) (gets "a" 262136 ∷ [])) ≡ run 0 12 ∷ [] }
    ensures full { serve 4096 (flush (after_command 4096 (made 1) (gets "a" 262136 ∷ []))) (gets "b" 14) ≡ Err 0 }
    ensures still_full { serve 4096 (after_command 4096 (flush (after_command 4096 (made 1) (gets "a" 262136 ∷ []))) (loses "a" ∷ [])) (gets "b" 14) ≡ Err 0 }
    ensures free_again { held (after_command 4096 (flush (after_command 4096 (flush (after_command 4096 (made 1) (gets "a" 262136 ∷ []))) (loses "a" ∷ [])))
        (gets "b" 14 ∷ [])) ≡ run 0 0 ∷ [] }
{}

/// Segments of 16 units, which have room for 1,016 bytes. A command is full only where all segments were added, and then
/// the keys that it touched keep what they had.
pub fn segments_are_added_before_a_command_is_full()
    ensures added { (after_command 16 (made 2) (gets "a" 1016 ∷ [])).segments ≡ 1 }
    ensures added_again { held (after_command 16 (made 2) (gets "a" 1016 ∷ gets "b" 1016 ∷ [])) ≡ run 0 4 ∷ run 16 4 ∷ [] }
    ensures full { serve_all 16 (made 2) (gets "a" 1016 ∷ gets "b" 1016 ∷ gets "d" 10 ∷ []) ≡ Err 0 }
    ensures with_its_exponent { serve_all 16 (made 2) (gets "a" 1016 ∷ gets "b" 1016 ∷ gets "d" 1016 ∷ []) ≡ Err 4 }
    ensures as_before { after_command 16 (made 2) (gets "a" 1016 ∷ gets "b" 1016 ∷ gets "d" 1016 ∷ []) ≡ record (made 2) { segments = 2 } }
    ensures without_any { serve 16 (made 0) (gets "a" 10) ≡ Err 0 }
    ensures removed_without_room { serve 16 (made 0) (loses "a") ≡ Ok (after_command 16 (made 0) (loses "a" ∷ [])) }
{}

/// A block that stands in the file holds its run until the flush, and then its units are free again.
pub fn a_replaced_block_moves()
    ensures beside { held (after_each (flushed_after (made 1) (gets "a" 14 ∷ [])) (gets "a" 14 ∷ [])) ≡ run 0 0 ∷ run 1 0 ∷ [] }
    ensures flushed { held (flushed_after (flushed_after (made 1) (gets "a" 14 ∷ [])) (gets "a" 14 ∷ [])) ≡ run 1 0 ∷ [] }
    ensures back { held (after_each (flushed_after (flushed_after (made 1) (gets "a" 14 ∷ [])) (gets "a" 14 ∷ [])) (gets "a" 14 ∷ []))
        ≡ run 1 0 ∷ run 0 0 ∷ [] }
{}

/// A pending block keeps its run where the exponent stays. Else the new run is placed while the old one is still held,
/// and that one is free for the next key.
pub fn a_pending_block_moves_where_its_exponent_changes()
    ensures stays { held (after_each (made 1) (gets "a" 14 ∷ gets "a" 40 ∷ [])) ≡ run 0 0 ∷ [] }
    ensures with_its_new_length { packed_of (after_each (made 1) (gets "a" 14 ∷ gets "a" 40 ∷ [])).pending (codes "a")
        ≡ Some (record { bytes = 40; run = run 0 0 }) }
    ensures larger { held (after_each (made 1) (gets "a" 14 ∷ gets "a" 60 ∷ [])) ≡ run 2 1 ∷ [] }
    ensures smaller { held (after_each (made 1) (gets "a" 60 ∷ gets "a" 14 ∷ [])) ≡ run 2 0 ∷ [] }
    ensures given_back { held (after_command 16 (after_each (made 1) (gets "a" 14 ∷ [])) (gets "a" 60 ∷ gets "b" 14 ∷ [])) ≡ run 2 1 ∷ run 0 0 ∷ [] }
    ensures removed { held (after_each (made 1) (gets "a" 14 ∷ loses "a" ∷ [])) ≡ [] }
    ensures full_beside_itself { serve 16 (after_each (made 1) (gets "a" 500 ∷ [])) (gets "a" 1016) ≡ Err 4 }
{}

/// A key is pending once, in the place of its first touch, also without a block.
pub fn a_key_is_pending_once()
    ensures first_touch { pending_keys (after_each (made 1) (gets "a" 14 ∷ gets "b" 14 ∷ gets "a" 60 ∷ [])).pending ≡ codes "a" ∷ codes "b" ∷ [] }
    ensures in_one_command { pending_keys (after_command 16 (made 1) (gets "a" 14 ∷ gets "b" 14 ∷ gets "a" 14 ∷ [])).pending ≡ codes "a" ∷ codes "b" ∷ [] }
    ensures removed { pending_keys (after_each (made 1) (gets "a" 14 ∷ gets "b" 14 ∷ loses "a" ∷ [])).pending ≡ codes "a" ∷ codes "b" ∷ [] }
    ensures flushed { pending_keys (flushed_after (made 1) (gets "a" 14 ∷ loses "b" ∷ [])).pending ≡ [] }
{}

/// The ledger after a flush: only keys with a block stand, and the segments are filed.
pub fn a_flush_files_segments_and_blocks()
    ensures stands { flushed_after (made 3) (gets "a" 14 ∷ gets "b" 14 ∷ loses "b" ∷ []) ≡ opened 3 1 (record { key = codes "a"; run = run 0 0 } ∷ []) }
    ensures not_filed_before { (after_each (made 3) (gets "a" 14 ∷ [])).filed ≡ 0 }
    ensures keeps_others { flushed_after (flushed_after (made 3) (gets "a" 14 ∷ gets "b" 14 ∷ [])) (gets "b" 60 ∷ [])
        ≡ opened 3 1 (record { key = codes "a"; run = run 0 0 } ∷ record { key = codes "b"; run = run 2 1 } ∷ []) }
    ensures nothing_pending { flush (opened 3 1 (record { key = codes "a"; run = run 0 0 } ∷ []))
        ≡ opened 3 1 (record { key = codes "a"; run = run 0 0 } ∷ []) }
{}

/// At least 4,096 pending keys, or 1,048,576 bytes of pending blocks with their heads.
pub fn the_limit_of_pending_keys_and_bytes()
    ensures below { is_at_limit (waits (replicate 4 (Some 262135))) ≡ false }
    ensures reached { is_at_limit (waits (replicate 4 (Some 262136))) ≡ true }
    ensures removed { is_at_limit (waits (None ∷ replicate 4 (Some 262135))) ≡ false }
    ensures keys { is_at_limit (waits (replicate 4095 None)) ≡ false }
    ensures many_keys { is_at_limit (waits (replicate 4096 None)) ≡ true }
    ensures flushed { (flush_at_limit (waits (replicate 4096 None))).pending ≡ [] }
    ensures not_flushed { flush_at_limit (waits (None ∷ [])) ≡ waits (None ∷ []) }
{}
