//! Worked rows of the definitions, as contracts of functions that do nothing.
ghost use Rattle.std.specs.Prelude.{◌≡◌, ◌+◌, ◌==◌, ◌&&◌, nat_lt, true, false, [], ◌∷◌, ◌++◌, Some, None, Ok, Err, take, drop, replicate};
ghost use Rattle.term_model.specs.Written.{word, number, pair, list_of, tuple_of};
ghost use Rattle.term_model.specs.declared.kind.Kind.TheVariants.{Set, Bag, DuplicateBag};
ghost use Rattle.table_model.specs.Table.{objects_of};
ghost use Rattle.file_model.specs.declared.head.Unreadable.TheVariants.{NotDets, Version};
ghost use Rattle.file_model.specs.declared.reject.Reason.TheVariants.{BadHead, NotAligned, BadPayload, Overlaps, KeyTaken};
ghost use Rattle.file_model.specs.Layout.{segment_size, segment_at, gate_at, unit_at, segment_end, run_size, whole_segments};
ghost use Rattle.file_model.specs.Header.{body_of, head_in, head_of, head_of_page, segments_in, located_at};
ghost use Rattle.file_model.specs.Block.{standing, one_key};
ghost use Rattle.file_model.specs.View.{view, units_in};
ghost use Rattle.file_model.specs.Taken.{taken, rejects, table_of, entries};
ghost use Rattle.file_model.specs.Rows.{closed_head, dirty_head, closed_body, dirty_body, page_with, set_block, block_bytes, small_view, replaced};
ghost use Rattle.file_model.specs.Rows.{hostile, small_file};

/// Gates and units in segments of 4,096 units: the first and the last of the first segment, and some of the second.
pub fn units_and_their_gates_stand_in_segments()
    ensures size { segment_size 4096 ≡ 266240 }
    ensures first_gate { gate_at 4096 0 ≡ 4096 }
    ensures first_unit { unit_at 4096 0 ≡ 8192 }
    ensures unit_64 { unit_at 4096 64 ≡ 12288 }
    ensures last_gate { gate_at 4096 4095 ≡ 8191 }
    ensures last_unit { unit_at 4096 4095 + 64 ≡ 270336 }
    ensures end { segment_end 4096 0 ≡ 270336 }
    ensures second_segment { segment_at 4096 1 ≡ 270336 }
    ensures gate_in_the_second { gate_at 4096 4096 ≡ 270336 }
    ensures unit_in_the_second { unit_at 4096 4097 ≡ 274496 }
    ensures last_end { segment_at 4096 8000 ≡ 2129924096 }
    ensures largest_run { run_size 12 ≡ 262144 }
{}

/// The same in segments of 8 units.
pub fn units_and_their_gates_stand_in_small_segments()
    ensures gate { gate_at 8 9 ≡ 4617 }
    ensures unit { unit_at 8 9 ≡ 4688 }
    ensures end { segment_end 8 9 ≡ 5136 }
{}

/// The header of a closed set of one segment with its index at unit 64, and of the same set while it is changed.
pub fn a_header_has_its_fields_in_a_body()
    ensures closed { head_in closed_body ≡ Ok closed_head }
    ensures dirty { head_in dirty_body ≡ Ok dirty_head }
    ensures closed_written { body_of closed_head ≡ closed_body }
    ensures dirty_written { body_of dirty_head ≡ dirty_body }
{}

/// The first copy is current where its gate is open, whatever the other one's is, and else the second where its gate is
/// open. A gate is open by the byte 165 alone.
pub fn the_current_copy_is_the_first_with_an_open_gate()
    ensures first { head_of_page (page_with 165 closed_body 0 dirty_body) ≡ Ok closed_head }
    ensures both { head_of_page (page_with 165 closed_body 165 dirty_body) ≡ Ok closed_head }
    ensures second { head_of_page (page_with 0 closed_body 165 dirty_body) ≡ Ok dirty_head }
    ensures other_byte { head_of_page (page_with 164 closed_body 165 dirty_body) ≡ Ok dirty_head }
    ensures none { head_of_page (page_with 0 closed_body 0 dirty_body) ≡ Err NotDets }
{}

/// Where a header was found, in a file that has its segment and in one that lacks a byte of it.
pub fn a_header_is_located_with_its_copy_and_its_whole_segments()
    ensures first { located_at (page_with 165 closed_body 0 dirty_body) 270336 (Some false) (Ok closed_head)
        ≡ Ok (record { head = closed_head; second = false; other_gate = false; whole = 1 }) }
    ensures second { located_at (page_with 0 closed_body 165 dirty_body) 270336 (Some true) (Ok dirty_head)
        ≡ Ok (record { head = dirty_head; second = true; other_gate = false; whole = 1 }) }
    ensures both { located_at (page_with 165 closed_body 165 dirty_body) 270335 (Some false) (Ok closed_head)
        ≡ Ok (record { head = closed_head; second = false; other_gate = true; whole = 0 }) }
{}

/// A body that does not begin as one is of no table's file, and one of another version is told by it, whatever its other
/// fields are. A field out of range, and a byte that is to be zero and is not, come last.
pub fn other_bodies_are_not_read()
    ensures other_front { head_in (0x45 ∷ drop 1 closed_body) ≡ Err NotDets }
    ensures version_2 { head_in (take 4 closed_body ++ 0x02 ∷ drop 5 closed_body) ≡ Err (Version 2) }
    ensures version_and_kind { head_in (take 4 closed_body ++ 0x09 ∷ 0x07 ∷ 0x07 ∷ drop 7 closed_body) ≡ Err (Version 9) }
    ensures state { head_in (take 5 closed_body ++ 0x02 ∷ drop 6 closed_body) ≡ Err NotDets }
    ensures kind { head_in (take 6 closed_body ++ 0x03 ∷ drop 7 closed_body) ≡ Err NotDets }
    ensures zero { head_in (take 7 closed_body ++ 0x01 ∷ drop 8 closed_body) ≡ Err NotDets }
    ensures last_zero { head_in (take 31 closed_body ++ 0x01 ∷ []) ≡ Err NotDets }
    ensures keypos { head_in (take 11 closed_body ++ 0x00 ∷ drop 12 closed_body) ≡ Err NotDets }
    ensures segments { head_in (take 12 closed_body ++ 0x00 ∷ 0x00 ∷ 0x1f ∷ 0x41 ∷ drop 16 closed_body) ≡ Err NotDets }
    ensures max_segments { head_in (take 16 closed_body ++ 0x00 ∷ 0x00 ∷ 0x1f ∷ 0x41 ∷ drop 20 closed_body) ≡ Err NotDets }
    ensures last_unit { head_in (take 20 closed_body ++ 0x00 ∷ 0x00 ∷ 0x0f ∷ 0xff ∷ drop 24 closed_body)
        ≡ Ok (record closed_head { index = Some 4095 }) }
    ensures index_past_its_segments { head_in (take 20 closed_body ++ 0x00 ∷ 0x00 ∷ 0x10 ∷ 0x00 ∷ drop 24 closed_body) ≡ Err NotDets }
    ensures dirty_with_index { head_in (take 5 closed_body ++ 0x01 ∷ drop 6 closed_body) ≡ Err NotDets }
{}

/// An image of fewer than 4,096 bytes has no header.
#[tactic(auto, unfolding(crate::specs::Header::head_of))]
pub fn a_short_image_has_no_header()
    ensures empty { head_of [] ≡ Err NotDets }
    ensures short { head_of (page_with 165 closed_body 0 dirty_body) ≡ Err NotDets }
    ensures zeros { head_of (replicate 4096 0) ≡ Err NotDets }
{}

/// Which objects a kind allows for one key, and their key.
pub fn a_kind_allows_lists_of_one_key()
    ensures set { one_key Set 1 (pair (word "a") (number 1) ∷ []) ≡ Some (word "a") }
    ensures two_in_a_set { one_key Set 1 (pair (word "a") (number 1) ∷ pair (word "a") (number 2) ∷ []) ≡ None }
    ensures bag { one_key Bag 1 (pair (word "a") (number 1) ∷ pair (word "a") (number 2) ∷ []) ≡ Some (word "a") }
    ensures descending { one_key Bag 1 (pair (word "a") (number 2) ∷ pair (word "a") (number 1) ∷ []) ≡ None }
    ensures twice_in_a_bag { one_key Bag 1 (pair (word "a") (number 1) ∷ pair (word "a") (number 1) ∷ []) ≡ None }
    ensures duplicate_bag { one_key DuplicateBag 1 (pair (word "a") (number 1) ∷ pair (word "a") (number 1) ∷ []) ≡ Some (word "a") }
    ensures other_key { one_key DuplicateBag 1 (pair (word "a") (number 1) ∷ pair (word "b") (number 1) ∷ []) ≡ None }
    ensures second_element { one_key Bag 2 (pair (word "a") (number 1) ∷ pair (word "b") (number 1) ∷ []) ≡ Some (number 1) }
    ensures no_object { one_key Set 1 (list_of (number 1 ∷ []) ∷ []) ≡ None }
    ensures too_short { one_key Set 2 (tuple_of (word "a" ∷ []) ∷ []) ≡ None }
    ensures none { one_key Bag 1 [] ≡ None }
{}

/// Segments that lie wholly in a file: the bytes of one that is cut do not count. Those that the header does not count
/// do not count either.
pub fn a_segment_that_is_cut_does_not_count()
    ensures two { whole_segments 8 (small_file 0) ≡ 2 }
    ensures cut_by_one_byte { whole_segments 8 (small_file 1) ≡ 1 }
    ensures page_alone { whole_segments 8 (replicate 4096 0) ≡ 0 }
    ensures no_page { whole_segments 8 [] ≡ 0 }
    ensures counted { segments_in 8 (record dirty_head { segments = 3 }) (small_file 0) ≡ 2 }
    ensures counted_without_the_cut_one { segments_in 8 (record dirty_head { segments = 2 }) (small_file 1) ≡ 1 }
    ensures counted_by_the_header { segments_in 8 dirty_head (small_file 0) ≡ 1 }
{}

/// Segments of eight units, of which the header counts one: a block, and an open gate behind which all bytes are zero, as a
/// head of one unit without payload is.
#[tactic(auto, unfolding(crate::proofs::Computing::reading_blocks))]
pub fn a_file_is_seen_by_its_open_gates()
    ensures one_segment { (view dirty_head (units_in 8 dirty_head (small_file 0))).open_units
        ≡ record { unit = 0; stands = Ok (set_block 0 0 (word "k") (number 1)) } ∷ record { unit = 2; stands = Err BadPayload } ∷ [] }
{}

/// The block of `{k,1}` at unit 0 and at unit 3, with another byte behind it; and where the first reason stands in it.
#[tactic(auto, unfolding(crate::proofs::Computing::reading_blocks))]
pub fn a_block_of_one_object_stands()
    ensures at_the_front { standing 4096 Set 1 0 block_bytes ≡ Ok (set_block 0 0 (word "k") (number 1)) }
    ensures elsewhere { standing 4096 Set 1 3 block_bytes ≡ Ok (set_block 3 0 (word "k") (number 1)) }
    ensures two_units { standing 4096 Set 1 4 (0x01 ∷ drop 1 block_bytes) ≡ Ok (set_block 4 1 (word "k") (number 1)) }
    ensures no_exponent { standing 4096 Set 1 0 (0x0d ∷ drop 1 block_bytes) ≡ Err BadHead }
    ensures no_zero { standing 4096 Set 1 0 (0x00 ∷ 0x00 ∷ 0x01 ∷ drop 3 block_bytes) ≡ Err BadHead }
    ensures too_long { standing 4096 Set 1 0 (take 7 block_bytes ++ 0x39 ∷ drop 8 block_bytes) ≡ Err BadHead }
    ensures not_aligned { standing 4096 Set 1 3 (0x01 ∷ drop 1 block_bytes) ≡ Err NotAligned }
    ensures cut { standing 4096 Set 1 0 (take 7 block_bytes ++ 0x0d ∷ drop 8 block_bytes) ≡ Err BadPayload }
    ensures a_byte_more { standing 4096 Set 1 0 (take 7 block_bytes ++ 0x0f ∷ drop 8 block_bytes) ≡ Err BadPayload }
    ensures other_keypos { standing 4096 Set 3 0 block_bytes ≡ Err BadPayload }
{}

/// `{a,1}` stands in unit 0 and `{a,2}` in unit 1: while both gates are open the lower block is taken.
pub fn of_two_blocks_of_a_key_the_lower_one_is_taken()
    ensures taken { taken (small_view replaced (λ u. nat_lt u 2)) ≡ set_block 0 0 (word "a") (number 1) ∷ [] }
    ensures rejects { rejects (small_view replaced (λ u. nat_lt u 2)) ≡ record { unit = 1; reason = KeyTaken 0 } ∷ [] }
    ensures before { objects_of (table_of (small_view replaced (λ u. u == 0))) (word "a") ≡ pair (word "a") (number 1) ∷ [] }
    ensures both { objects_of (table_of (small_view replaced (λ u. nat_lt u 2))) (word "a") ≡ pair (word "a") (number 1) ∷ [] }
    ensures after { objects_of (table_of (small_view replaced (λ u. u == 1))) (word "a") ≡ pair (word "a") (number 2) ∷ [] }
    ensures neither { objects_of (table_of (small_view replaced (λ u. u == 7))) (word "a") ≡ [] }
{}

/// A block of two units covers the next one, and its key is taken above it.
pub fn blocks_that_overlap_or_repeat_a_key_are_rejected()
    ensures taken { taken (small_view hostile (λ u. nat_lt u 3)) ≡ set_block 0 1 (number 1) (number 1) ∷ [] }
    ensures rejects { rejects (small_view hostile (λ u. nat_lt u 3))
        ≡ record { unit = 1; reason = Overlaps 0 } ∷ record { unit = 2; reason = KeyTaken 0 } ∷ [] }
    ensures without_the_first { taken (small_view hostile (λ u. nat_lt 0 u && nat_lt u 3))
        ≡ set_block 1 0 (number 2) (number 1) ∷ set_block 2 0 (number 1) (number 2) ∷ [] }
    ensures nothing_there { rejects (small_view hostile (λ u. u == 5)) ≡ record { unit = 5; reason = BadHead } ∷ [] }
{}

/// The entry of the block of `{k,1}`.
#[tactic(auto, unfolding(crate::proofs::Computing::reading_blocks))]
pub fn an_entry_has_the_hash_of_the_key()
    ensures { entries (small_view (set_block 0 0 (word "k") (number 1) ∷ []) (λ u. u == 0))
        ≡ record { hash = 566207491; unit = 0; exp = 0; count = 1 } ∷ [] }
{}
