//! Worked rows of the definitions, as contracts of functions that do nothing.
ghost use Rattle.std.specs.Prelude.{ℕ, ◌-◌, ◌*◌, ◌^◌, true, false, List, [], ◌∷◌, ◌++◌, negsuc, replicate};
ghost use Rattle.std.specs.List.{concat};
ghost use Rattle.dets_term.specs.TermValue.{TermValue, integer, atom, tuple, nil, chain, map_of, bits};
ghost use Rattle.dets_term.specs.Written.{word, number, tuple_of, list_of, pair, boxed};
ghost use Rattle.etf_model.specs.declared.fault.EtfFault.TheVariants.{NotVersion, Unsupported, Compressed, IntegerRange, BadAtom, BadBits, RepeatedKey, Depth};
ghost use Rattle.etf_model.specs.Spelling.{Spells, IsPart, IsBreak};

/// Integers of one byte, and of four bytes in two's complement; small ones may have four bytes too.
pub fn small_integers_are_spelled()
    ensures zero { Spells (number 0) (0x83 ∷ 0x61 ∷ 0x00 ∷ []) }
    ensures greatest_byte { Spells (number 255) (0x83 ∷ 0x61 ∷ 0xff ∷ []) }
    ensures past_a_byte { Spells (number 256) (0x83 ∷ 0x62 ∷ 0x00 ∷ 0x00 ∷ 0x01 ∷ 0x00 ∷ []) }
    ensures minus_one { Spells (integer (negsuc 0)) (0x83 ∷ 0x62 ∷ 0xff ∷ 0xff ∷ 0xff ∷ 0xff ∷ []) }
    ensures greatest { Spells (number (2 ^ 31 - 1)) (0x83 ∷ 0x62 ∷ 0x7f ∷ 0xff ∷ 0xff ∷ 0xff ∷ []) }
    ensures least { Spells (integer (negsuc (2 ^ 31 - 1))) (0x83 ∷ 0x62 ∷ 0x80 ∷ 0x00 ∷ 0x00 ∷ 0x00 ∷ []) }
    ensures longer { Spells (number 255) (0x83 ∷ 0x62 ∷ 0x00 ∷ 0x00 ∷ 0x00 ∷ 0xff ∷ []) }
{}

/// Integers by sign and magnitude, the least byte first. Every sign byte but 0 is a minus, zero bytes at the high end
/// are accepted, and no byte at all is 0.
pub fn big_integers_are_spelled()
    ensures past_32_bits { Spells (number (2 ^ 31)) (0x83 ∷ 0x6e ∷ 0x04 ∷ 0x00 ∷ 0x00 ∷ 0x00 ∷ 0x00 ∷ 0x80 ∷ []) }
    ensures below_32_bits { Spells (integer (negsuc (2 ^ 31))) (0x83 ∷ 0x6e ∷ 0x04 ∷ 0x01 ∷ 0x01 ∷ 0x00 ∷ 0x00 ∷ 0x80 ∷ []) }
    ensures greatest { Spells (number (2 ^ 127 - 1)) (0x83 ∷ 0x6e ∷ 0x10 ∷ 0x00 ∷ (replicate 15 0xff ++ 0x7f ∷ [])) }
    ensures least { Spells (integer (negsuc (2 ^ 127 - 1))) (0x83 ∷ 0x6e ∷ 0x10 ∷ 0x01 ∷ (replicate 15 0x00 ++ 0x80 ∷ [])) }
    ensures small { Spells (number 5) (0x83 ∷ 0x6e ∷ 0x01 ∷ 0x00 ∷ 0x05 ∷ []) }
    ensures high_zeros { Spells (number 5) (0x83 ∷ 0x6e ∷ 0x14 ∷ 0x00 ∷ 0x05 ∷ replicate 19 0x00) }
    ensures four_bytes_of_length { Spells (number 5) (0x83 ∷ 0x6f ∷ 0x00 ∷ 0x00 ∷ 0x00 ∷ 0x01 ∷ 0x00 ∷ 0x05 ∷ []) }
    ensures other_sign { Spells (integer (negsuc 4)) (0x83 ∷ 0x6e ∷ 0x01 ∷ 0x02 ∷ 0x05 ∷ []) }
    ensures no_byte { Spells (number 0) (0x83 ∷ 0x6e ∷ 0x00 ∷ 0x01 ∷ []) }
    ensures minus_zero { Spells (number 0) (0x83 ∷ 0x6e ∷ 0x01 ∷ 0x01 ∷ 0x00 ∷ []) }
{}

/// Atoms in UTF-8 and in Latin-1.
#[tactic(auto, unfolding(crate::proofs::Computing::reading_text))]
pub fn atoms_are_spelled()
    ensures short_utf8 { Spells (word "k") (0x83 ∷ 0x77 ∷ 0x01 ∷ 0x6b ∷ []) }
    ensures long_utf8 { Spells (word "k") (0x83 ∷ 0x76 ∷ 0x00 ∷ 0x01 ∷ 0x6b ∷ []) }
    ensures short_latin { Spells (word "k") (0x83 ∷ 0x73 ∷ 0x01 ∷ 0x6b ∷ []) }
    ensures long_latin { Spells (word "k") (0x83 ∷ 0x64 ∷ 0x00 ∷ 0x01 ∷ 0x6b ∷ []) }
    ensures two_bytes { Spells (atom (0xe4 ∷ [])) (0x83 ∷ 0x77 ∷ 0x02 ∷ 0xc3 ∷ 0xa4 ∷ []) }
    ensures one_byte { Spells (atom (0xe4 ∷ [])) (0x83 ∷ 0x73 ∷ 0x01 ∷ 0xe4 ∷ []) }
    ensures bytes_of_latin { Spells (atom (0xc3 ∷ 0xa4 ∷ [])) (0x83 ∷ 0x73 ∷ 0x02 ∷ 0xc3 ∷ 0xa4 ∷ []) }
    ensures empty { Spells (atom []) (0x83 ∷ 0x77 ∷ 0x00 ∷ []) }
    ensures longest { Spells (atom (replicate 255 0x61)) (0x83 ∷ 0x64 ∷ 0x00 ∷ 0xff ∷ replicate 255 0x61) }
    ensures longest_utf8 { Spells (atom (replicate 255 0xe4))
        (0x83 ∷ 0x76 ∷ 0x01 ∷ 0xfe ∷ concat (replicate 255 (0xc3 ∷ 0xa4 ∷ []))) }
{}

/// Tuples and lists. A list of bytes may be spelled by its bytes; an improper list has its tail in place of 106.
#[tactic(auto, unfolding(crate::proofs::Computing::reading_text))]
pub fn tuples_and_lists_are_spelled()
    ensures object { Spells (pair (word "k") (number 1)) (0x83 ∷ 0x68 ∷ 0x02 ∷ 0x77 ∷ 0x01 ∷ 0x6b ∷ 0x61 ∷ 0x01 ∷ []) }
    ensures four_bytes_of_arity { Spells (tuple_of (number 1 ∷ [])) (0x83 ∷ 0x69 ∷ 0x00 ∷ 0x00 ∷ 0x00 ∷ 0x01 ∷ 0x61 ∷ 0x01 ∷ []) }
    ensures no_element { Spells (tuple_of []) (0x83 ∷ 0x68 ∷ 0x00 ∷ []) }
    ensures empty { Spells nil (0x83 ∷ 0x6a ∷ []) }
    ensures empty_by_bytes { Spells nil (0x83 ∷ 0x6b ∷ 0x00 ∷ 0x00 ∷ []) }
    ensures empty_by_elements { Spells nil (0x83 ∷ 0x6c ∷ 0x00 ∷ 0x00 ∷ 0x00 ∷ 0x00 ∷ 0x6a ∷ []) }
    ensures by_bytes { Spells (list_of (number 1 ∷ number 2 ∷ [])) (0x83 ∷ 0x6b ∷ 0x00 ∷ 0x02 ∷ 0x01 ∷ 0x02 ∷ []) }
    ensures by_elements { Spells (list_of (number 1 ∷ number 2 ∷ []))
        (0x83 ∷ 0x6c ∷ 0x00 ∷ 0x00 ∷ 0x00 ∷ 0x02 ∷ 0x61 ∷ 0x01 ∷ 0x61 ∷ 0x02 ∷ 0x6a ∷ []) }
    ensures improper { Spells (chain (number 1 ∷ []) (number 2)) (0x83 ∷ 0x6c ∷ 0x00 ∷ 0x00 ∷ 0x00 ∷ 0x01 ∷ 0x61 ∷ 0x01 ∷ 0x61 ∷ 0x02 ∷ []) }
{}

/// Bit strings, whose unused bits are passed over, and maps, whose pairs may come in any order.
#[tactic(auto, unfolding(crate::proofs::Computing::reading_text))]
pub fn bit_strings_and_maps_are_spelled()
    ensures no_bits { Spells (bits []) (0x83 ∷ 0x6d ∷ 0x00 ∷ 0x00 ∷ 0x00 ∷ 0x00 ∷ []) }
    ensures whole_bytes { Spells (bits (true ∷ false ∷ false ∷ false ∷ false ∷ false ∷ true ∷ true ∷ []))
        (0x83 ∷ 0x6d ∷ 0x00 ∷ 0x00 ∷ 0x00 ∷ 0x01 ∷ 0x83 ∷ []) }
    ensures four_bits { Spells (bits (replicate 4 true)) (0x83 ∷ 0x4d ∷ 0x00 ∷ 0x00 ∷ 0x00 ∷ 0x01 ∷ 0x04 ∷ 0xf0 ∷ []) }
    ensures unused_bits { Spells (bits (replicate 4 true)) (0x83 ∷ 0x4d ∷ 0x00 ∷ 0x00 ∷ 0x00 ∷ 0x01 ∷ 0x04 ∷ 0xff ∷ []) }
    ensures eight_bits { Spells (bits (replicate 8 true)) (0x83 ∷ 0x4d ∷ 0x00 ∷ 0x00 ∷ 0x00 ∷ 0x01 ∷ 0x08 ∷ 0xff ∷ []) }
    ensures empty_map { Spells (map_of []) (0x83 ∷ 0x74 ∷ 0x00 ∷ 0x00 ∷ 0x00 ∷ 0x00 ∷ []) }
    ensures ascending { Spells (map_of ((number 1, word "a") ∷ (number 2, nil) ∷ []))
        (0x83 ∷ 0x74 ∷ 0x00 ∷ 0x00 ∷ 0x00 ∷ 0x02 ∷ 0x61 ∷ 0x01 ∷ 0x77 ∷ 0x01 ∷ 0x61 ∷ 0x61 ∷ 0x02 ∷ 0x6a ∷ []) }
    ensures descending { Spells (map_of ((number 1, word "a") ∷ (number 2, nil) ∷ []))
        (0x83 ∷ 0x74 ∷ 0x00 ∷ 0x00 ∷ 0x00 ∷ 0x02 ∷ 0x61 ∷ 0x02 ∷ 0x6a ∷ 0x61 ∷ 0x01 ∷ 0x77 ∷ 0x01 ∷ 0x61 ∷ []) }
{}

/// Bytes that end before their term does, whatever a length says.
#[tactic(auto, unfolding(crate::proofs::Computing::reading_text))]
pub fn bytes_may_end_too_early()
    ensures nothing { IsPart [] }
    ensures version { IsPart (0x83 ∷ []) }
    ensures one_element { IsPart (0x83 ∷ 0x68 ∷ 0x02 ∷ 0x61 ∷ []) }
    ensures no_tail { IsPart (0x83 ∷ 0x6c ∷ 0x00 ∷ 0x00 ∷ 0x00 ∷ 0x01 ∷ 0x61 ∷ 0x01 ∷ []) }
    ensures great_length { IsPart (0x83 ∷ 0x6c ∷ 0xff ∷ 0xff ∷ 0xff ∷ 0xff ∷ 0x61 ∷ 0x01 ∷ []) }
    ensures half_a_character { IsPart (0x83 ∷ 0x77 ∷ 0x02 ∷ 0xc3 ∷ []) }
{}

/// First bytes and tags that cannot stand in their place, with the tag's offset.
pub fn tags_may_break_a_rule()
    ensures other_version { IsBreak 0 (0x82 ∷ []) (NotVersion 0) }
    ensures compressed { IsBreak 0 (0x83 ∷ 0x50 ∷ []) (Compressed 1) }
    ensures float { IsBreak 0 (0x83 ∷ 0x46 ∷ []) (Unsupported 1 70) }
    ensures compressed_inside { IsBreak 0 (0x83 ∷ 0x68 ∷ 0x01 ∷ 0x50 ∷ []) (Unsupported 3 80) }
    ensures tail_of_bytes { IsBreak 0 (0x83 ∷ 0x6c ∷ 0x00 ∷ 0x00 ∷ 0x00 ∷ 0x01 ∷ 0x61 ∷ 0x01 ∷ 0x6b ∷ []) (Unsupported 8 107) }
    ensures tail_that_is_a_list { IsBreak 0 (0x83 ∷ 0x6c ∷ 0x00 ∷ 0x00 ∷ 0x00 ∷ 0x01 ∷ 0x61 ∷ 0x01 ∷ 0x6c ∷ []) (Unsupported 8 108) }
    ensures tail_of_nothing { IsBreak 0 (0x83 ∷ 0x6c ∷ 0x00 ∷ 0x00 ∷ 0x00 ∷ 0x00 ∷ 0x61 ∷ []) (Unsupported 6 97) }
{}

/// Values that no term may have, with the offset of the tag of the term or key that has them.
#[tactic(auto, unfolding(crate::proofs::Computing::reading_text))]
pub fn values_may_break_a_rule()
    ensures large_integer { IsBreak 0 (0x83 ∷ 0x6e ∷ 0x10 ∷ 0x00 ∷ (replicate 15 0x00 ++ 0x80 ∷ [])) (IntegerRange 1) }
    ensures small_integer { IsBreak 0 (0x83 ∷ 0x6e ∷ 0x10 ∷ 0x01 ∷ 0x01 ∷ (replicate 14 0x00 ++ 0x80 ∷ [])) (IntegerRange 1) }
    ensures seventeenth_byte { IsBreak 0 (0x83 ∷ 0x6e ∷ 0x14 ∷ 0x00 ∷ (replicate 16 0x00 ++ 0x01 ∷ [])) (IntegerRange 1) }
    ensures no_utf8 { IsBreak 0 (0x83 ∷ 0x77 ∷ 0x01 ∷ 0xff ∷ []) (BadAtom 1) }
    ensures long_atom { IsBreak 0 (0x83 ∷ 0x64 ∷ 0x01 ∷ 0x00 ∷ replicate 256 0x61) (BadAtom 1) }
    ensures long_utf8 { IsBreak 0 (0x83 ∷ 0x76 ∷ 0x02 ∷ 0x00 ∷ concat (replicate 256 (0xc3 ∷ 0xa4 ∷ []))) (BadAtom 1) }
    ensures bits_of_nothing { IsBreak 0 (0x83 ∷ 0x4d ∷ 0x00 ∷ 0x00 ∷ 0x00 ∷ 0x00 ∷ 0x03 ∷ []) (BadBits 1) }
    ensures no_used_bits { IsBreak 0 (0x83 ∷ 0x4d ∷ 0x00 ∷ 0x00 ∷ 0x00 ∷ 0x01 ∷ 0x00 ∷ []) (BadBits 1) }
    ensures nine_bits { IsBreak 0 (0x83 ∷ 0x4d ∷ 0x00 ∷ 0x00 ∷ 0x00 ∷ 0x01 ∷ 0x09 ∷ []) (BadBits 1) }
    ensures repeated_key { IsBreak 0 (0x83 ∷ 0x74 ∷ 0x00 ∷ 0x00 ∷ 0x00 ∷ 0x02 ∷ 0x61 ∷ 0x01 ∷ 0x61 ∷ 0x01 ∷ 0x61 ∷ 0x01 ∷ []) (RepeatedKey 10) }
{}

/// A term at level 256 has no parts. The length byte that gives it one breaks the rule.
pub fn terms_go_down_to_level_256()
    ensures no_part_at_the_last { IsPart (0x83 ∷ (concat (replicate 255 (0x68 ∷ 0x01 ∷ [])) ++ 0x6c ∷ 0x00 ∷ 0x00 ∷ 0x00 ∷ 0x00 ∷ [])) }
    ensures deepest { Spells (boxed 255) (0x83 ∷ (concat (replicate 255 (0x6c ∷ 0x00 ∷ 0x00 ∷ 0x00 ∷ 0x01 ∷ [])) ++ 0x61 ∷ 0x00 ∷ replicate 255 0x6a)) }
    ensures tuple { IsBreak 0 (0x83 ∷ concat (replicate 256 (0x68 ∷ 0x01 ∷ []))) (Depth 511) }
    ensures list { IsBreak 0 (0x83 ∷ (concat (replicate 255 (0x68 ∷ 0x01 ∷ [])) ++ 0x6c ∷ 0x00 ∷ 0x00 ∷ 0x00 ∷ 0x01 ∷ [])) (Depth 511) }
    ensures string { IsBreak 0 (0x83 ∷ (concat (replicate 255 (0x68 ∷ 0x01 ∷ [])) ++ 0x6b ∷ 0x01 ∷ [])) (Depth 511) }
{}
