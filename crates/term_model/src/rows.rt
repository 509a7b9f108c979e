//! Worked rows of the definitions, as contracts of functions that do nothing.
ghost use Rattle.std.specs.Prelude.{◌≡◌, ◌-◌, ◌^◌, [], ◌∷◌, replicate, pos, negsuc, true, false, Some, None, Ok, Err};
ghost use Rattle.std.specs.declared.cmp.Ordering.TheVariants.{Less, Equal, Greater};
ghost use Rattle.term_model.specs.TermValue.{integer, atom, tuple, mapping, nil, cons, chain, map_of, depth, key};
ghost use Rattle.term_model.specs.Order.{order, is_same};
ghost use Rattle.term_model.specs.Pairs.{map_built};
ghost use Rattle.term_model.specs.BitString.{bits_of, IsPadded};
ghost use Rattle.term_model.specs.IsTerm.{IsTerm, limited, built, bits_built};
ghost use Rattle.term_model.specs.Written.{word, number, tuple_of, list_of, pair, bytes, bit_string, boxed};
ghost use Rattle.term_model.specs.declared.term_fault.TermFault.TheVariants.{Depth, ManyParts, RepeatedKey};

/// A term without parts has one level.
pub fn a_term_without_parts_has_depth_1()
    ensures integer { depth (number 7) ≡ 1 }
    ensures atom { depth (word "k") ≡ 1 }
    ensures empty_list { depth nil ≡ 1 }
    ensures empty_tuple { depth (tuple_of []) ≡ 1 }
    ensures empty_map { depth (map_of []) ≡ 1 }
    ensures bit_string { depth (bytes (1 ∷ 2 ∷ [])) ≡ 1 }
{}

/// A term has one level more than the deepest of its parts, however many these are and wherever that one stands.
pub fn a_term_is_one_level_deeper_than_its_parts()
    ensures list { depth (list_of (number 1 ∷ number 2 ∷ number 3 ∷ [])) ≡ 2 }
    ensures pair { depth (pair (word "k") (number 1)) ≡ 2 }
    ensures empty_list_in_a_list { depth (list_of (nil ∷ [])) ≡ 2 }
    ensures empty_tuple_in_a_tuple { depth (tuple_of (tuple_of [] ∷ [])) ≡ 2 }
    ensures deepest_in_front { depth (list_of (boxed 2 ∷ number 1 ∷ [])) ≡ 4 }
    ensures deepest_at_the_end { depth (pair (number 1) (boxed 2)) ≡ 4 }
    ensures lists_in_lists { depth (boxed 256) ≡ 257 }
{}

/// The keys and the values of a map are its parts.
pub fn a_map_is_one_level_deeper_than_its_keys_and_values()
    ensures shallow { depth (map_of ((number 1, number 2) ∷ [])) ≡ 2 }
    ensures deepest_is_a_key { depth (map_of ((number 1, number 2) ∷ (boxed 2, number 3) ∷ [])) ≡ 4 }
    ensures deepest_is_a_value { depth (map_of ((number 1, boxed 2) ∷ (number 2, number 3) ∷ [])) ≡ 4 }
    ensures map_in_a_map { depth (map_of ((number 1, map_of []) ∷ [])) ≡ 2 }
{}

/// The tail of an improper list is one of its parts.
pub fn an_improper_list_is_one_level_deeper_than_its_tail()
    ensures shallow { depth (chain (number 1 ∷ []) (number 2)) ≡ 2 }
    ensures deepest_is_the_tail { depth (chain (number 1 ∷ []) (tuple_of (pair nil nil ∷ []))) ≡ 4 }
    ensures deepest_is_an_element { depth (chain (number 1 ∷ boxed 2 ∷ []) (number 2)) ≡ 4 }
    ensures list_for_a_tail_is_joined { chain (number 1 ∷ []) (list_of (number 2 ∷ [])) ≡ list_of (number 1 ∷ number 2 ∷ []) }
{}

/// The key is the element at keypos, counted from 1.
pub fn the_key_of_an_object_is_its_element_at_keypos()
    ensures first { key (pair (word "k") (number 1)) 1 ≡ Some (word "k") }
    ensures second { key (pair (word "k") (number 1)) 2 ≡ Some (number 1) }
    ensures tuple_for_a_key { key (pair (pair (word "user") (number 7)) (word "active")) 1 ≡ Some (pair (word "user") (number 7)) }
{}

/// A term that is no tuple of at least keypos elements has no key, and none has one at keypos 0.
pub fn a_term_that_is_no_object_has_no_key()
    ensures past_its_end { key (pair (word "k") (number 1)) 3 ≡ None }
    ensures keypos_0 { key (pair (word "k") (number 1)) 0 ≡ None }
    ensures empty_tuple { key (tuple_of []) 1 ≡ None }
    ensures map { key (map_of ((number 1, word "k") ∷ [])) 1 ≡ None }
    ensures list { key (list_of (word "k" ∷ number 1 ∷ [])) 1 ≡ None }
    ensures improper_list { key (chain (word "k" ∷ []) (number 1)) 1 ≡ None }
    ensures bit_string { key (bytes (1 ∷ [])) 1 ≡ None }
    ensures atom { key (word "k") 1 ≡ None }
    ensures integer { key (number 1) 1 ≡ None }
{}

/// Integers come first.
pub fn an_integer_is_less_than_any_other_term()
    ensures atom { order (number 9) (word "a") ≡ Less }
    ensures tuple { order (number 9) (tuple_of []) ≡ Less }
    ensures map { order (number 9) (map_of []) ≡ Less }
    ensures empty_list { order (number 9) nil ≡ Less }
    ensures list { order (number 9) (list_of (number 1 ∷ [])) ≡ Less }
    ensures bit_string { order (number 9) (bytes []) ≡ Less }
{}

/// Atoms come second, also those that look like a number or like nothing.
pub fn an_atom_is_less_than_all_but_integers()
    ensures integer { order (word "") (number 9) ≡ Greater }
    ensures digit { order (word "1") (number 9) ≡ Greater }
    ensures tuple { order (word "z") (tuple_of []) ≡ Less }
    ensures map { order (word "z") (map_of []) ≡ Less }
    ensures empty_list { order (word "z") nil ≡ Less }
    ensures list { order (word "z") (list_of (word "a" ∷ [])) ≡ Less }
    ensures bit_string { order (word "z") (bytes []) ≡ Less }
{}

/// Then tuples, maps, the empty list, all other lists, and bit strings.
pub fn the_other_kinds_follow_atoms()
    ensures tuple_and_map { order (pair (number 9) (number 9)) (map_of []) ≡ Less }
    ensures tuple_and_empty_list { order (pair (number 9) (number 9)) nil ≡ Less }
    ensures tuple_and_list { order (pair (number 9) (number 9)) (list_of (number 1 ∷ [])) ≡ Less }
    ensures tuple_and_bit_string { order (pair (number 9) (number 9)) (bytes []) ≡ Less }
    ensures map_and_empty_list { order (map_of ((number 9, number 9) ∷ [])) nil ≡ Less }
    ensures map_and_list { order (map_of ((number 9, number 9) ∷ [])) (list_of (number 1 ∷ [])) ≡ Less }
    ensures map_and_bit_string { order (map_of ((number 9, number 9) ∷ [])) (bytes []) ≡ Less }
    ensures empty_list_and_list { order nil (list_of (number 1 ∷ [])) ≡ Less }
    ensures empty_list_and_improper_list { order nil (chain (number 1 ∷ []) (number 2)) ≡ Less }
    ensures empty_list_and_bit_string { order nil (bytes []) ≡ Less }
    ensures list_and_bit_string { order (list_of (number 9 ∷ [])) (bytes []) ≡ Less }
    ensures improper_list_and_bit_string { order (chain (number 9 ∷ []) (bytes (9 ∷ []))) (bytes []) ≡ Less }
{}

/// Integers go by value.
pub fn the_lesser_integer_comes_first()
    ensures positive { order (number 9) (number 10) ≡ Less }
    ensures negative { order (integer (negsuc 1)) (integer (negsuc 0)) ≡ Less }
    ensures both_signs { order (integer (negsuc 9)) (number 1) ≡ Less }
    ensures farthest { order (integer (pos (2 ^ 127 - 1))) (integer (negsuc (2 ^ 127 - 1))) ≡ Greater }
{}

/// Atoms go code point by code point, whatever their lengths; a front of an atom is less.
pub fn atoms_go_by_their_characters()
    ensures first_letter { order (word "aa") (word "b") ≡ Less }
    ensures last_letter { order (word "ab") (word "aa") ≡ Greater }
    ensures front { order (word "a") (word "aa") ≡ Less }
    ensures empty { order (word "") (word "a") ≡ Less }
    ensures capital { order (word "B") (word "a") ≡ Less }
    ensures more_bytes_of_utf8 { order (atom (0xE4 ∷ [])) (word "zz") ≡ Greater }
    ensures above_16_bits { order (atom (0xFFFD ∷ [])) (atom (0x10000 ∷ [])) ≡ Less }
{}

/// Tuples go by size, and tuples of one size by their first elements that differ.
pub fn tuples_go_by_size_and_then_by_elements()
    ensures size { order (tuple_of (word "z" ∷ [])) (pair (number 1) (number 1)) ≡ Less }
    ensures empty { order (tuple_of []) (tuple_of (number 1 ∷ [])) ≡ Less }
    ensures first_element { order (pair (number 1) (number 9)) (pair (number 2) (number 1)) ≡ Less }
    ensures last_element { order (pair (number 1) (number 9)) (pair (number 1) (number 8)) ≡ Greater }
    ensures kind_of_an_element { order (pair (number 1) (word "a")) (pair (number 1) (number 9)) ≡ Greater }
{}

/// Maps go by size, then by all of their keys, and last by their values.
pub fn maps_go_by_size_then_keys_then_values()
    ensures size { order (map_of ((number 9, number 9) ∷ [])) (map_of ((number 1, number 1) ∷ (number 2, number 1) ∷ [])) ≡ Less }
    ensures keys { order (map_of ((number 1, number 9) ∷ [])) (map_of ((number 2, number 1) ∷ [])) ≡ Less }
    ensures last_key_before_first_value { order (map_of ((number 1, number 9) ∷ (number 2, number 1) ∷ []))
        (map_of ((number 1, number 1) ∷ (number 3, number 1) ∷ [])) ≡ Less }
    ensures values { order (map_of ((number 1, number 2) ∷ [])) (map_of ((number 1, number 1) ∷ [])) ≡ Greater }
    ensures values_by_ascending_key { order (map_of ((number 1, number 1) ∷ (number 2, number 9) ∷ []))
        (map_of ((number 1, number 2) ∷ (number 2, number 1) ∷ [])) ≡ Less }
{}

/// Lists go by their first element, then by what follows it; their lengths do not count.
pub fn lists_go_by_their_elements()
    ensures first_element { order (list_of (number 1 ∷ number 9 ∷ [])) (list_of (number 2 ∷ [])) ≡ Less }
    ensures second_element { order (list_of (number 1 ∷ number 3 ∷ [])) (list_of (number 1 ∷ number 2 ∷ number 9 ∷ [])) ≡ Greater }
    ensures front { order (list_of (number 1 ∷ [])) (list_of (number 1 ∷ number 0 ∷ [])) ≡ Less }
    ensures list_in_a_list { order (list_of (nil ∷ [])) (list_of (list_of (number 0 ∷ []) ∷ [])) ≡ Less }
{}

/// What follows the last element of an improper list is its tail, which goes by its kind before a list or behind it.
pub fn improper_lists_go_by_their_tail_where_a_list_ends_or_goes_on()
    ensures tail_and_end { order (chain (number 1 ∷ []) (number 2)) (list_of (number 1 ∷ [])) ≡ Less }
    ensures map_and_end { order (chain (number 1 ∷ []) (map_of [])) (list_of (number 1 ∷ [])) ≡ Less }
    ensures bit_string_and_end { order (chain (number 1 ∷ []) (bytes [])) (list_of (number 1 ∷ [])) ≡ Greater }
    ensures tail_and_more { order (chain (number 1 ∷ []) (word "z")) (list_of (number 1 ∷ number 0 ∷ [])) ≡ Less }
    ensures bit_string_and_more { order (chain (number 1 ∷ []) (bytes [])) (list_of (number 1 ∷ number 0 ∷ [])) ≡ Greater }
    ensures more_and_tail { order (chain (number 1 ∷ number 0 ∷ []) (number 2)) (chain (number 1 ∷ []) (number 9)) ≡ Greater }
    ensures two_tails { order (chain (number 1 ∷ []) (number 2)) (chain (number 1 ∷ []) (number 3)) ≡ Less }
    ensures first_element { order (chain (number 2 ∷ []) (number 1)) (list_of (number 1 ∷ number 2 ∷ [])) ≡ Greater }
{}

/// Bit strings go bit by bit, whatever their lengths; a front of a bit string is less.
pub fn bit_strings_go_bit_by_bit()
    ensures bytes { order (bytes (2 ∷ [])) (bytes (1 ∷ 255 ∷ [])) ≡ Greater }
    ensures front_of_bytes { order (bytes (255 ∷ [])) (bytes (255 ∷ 0 ∷ [])) ≡ Less }
    ensures empty { order (bytes []) (bit_string (0 ∷ []) 1) ≡ Less }
    ensures bit { order (bit_string (0 ∷ []) 1) (bit_string (128 ∷ []) 1) ≡ Less }
    ensures bit_and_byte { order (bit_string (128 ∷ []) 1) (bytes (127 ∷ [])) ≡ Greater }
    ensures bit_and_byte_that_begins_with_it { order (bit_string (128 ∷ []) 1) (bytes (128 ∷ [])) ≡ Less }
    ensures fewer_bits_behind_equal_bytes { order (bit_string (7 ∷ 64 ∷ []) 2) (bit_string (7 ∷ 64 ∷ []) 3) ≡ Less }
{}

/// Terms that are written alike are equal.
pub fn like_terms_are_equal()
    ensures integers { order (integer (negsuc 0)) (integer (negsuc 0)) ≡ Equal }
    ensures atoms { is_same (word "Hello World") (word "Hello World") ≡ true }
    ensures objects { is_same (pair (word "k") (list_of (number 1 ∷ nil ∷ []))) (pair (word "k") (list_of (number 1 ∷ nil ∷ []))) ≡ true }
    ensures maps { is_same (map_of ((number 1, nil) ∷ (word "a", nil) ∷ [])) (map_of ((number 1, nil) ∷ (word "a", nil) ∷ [])) ≡ true }
    ensures improper_lists { is_same (chain (number 1 ∷ []) (number 2)) (chain (number 1 ∷ []) (number 2)) ≡ true }
    ensures bit_strings { is_same (bit_string (1 ∷ 64 ∷ []) 2) (bit_string (1 ∷ 64 ∷ []) 2) ≡ true }
{}

/// Terms that look alike, but of two kinds, differ.
pub fn terms_of_two_kinds_differ()
    ensures empty_tuple_and_empty_list { is_same (tuple_of []) nil ≡ false }
    ensures empty_atom_and_empty_list { is_same (word "") nil ≡ false }
    ensures empty_map_and_empty_tuple { is_same (map_of []) (tuple_of []) ≡ false }
    ensures empty_bit_string_and_empty_list { is_same (bytes []) nil ≡ false }
    ensures tuple_and_list { is_same (tuple_of (number 1 ∷ [])) (list_of (number 1 ∷ [])) ≡ false }
    ensures bytes_and_list { is_same (bytes (1 ∷ [])) (list_of (number 1 ∷ [])) ≡ false }
    ensures element_and_its_list { is_same (number 1) (list_of (number 1 ∷ [])) ≡ false }
    ensures proper_and_improper { is_same (list_of (number 1 ∷ number 2 ∷ [])) (chain (number 1 ∷ []) (number 2)) ≡ false }
{}

/// The bits of a byte go from its highest one, and of the last byte only the used ones count.
pub fn bytes_are_bits_from_the_highest()
    ensures byte { bits_of (5 ∷ []) 8 ≡ false ∷ false ∷ false ∷ false ∷ false ∷ true ∷ false ∷ true ∷ [] }
    ensures one_bit { bits_of (128 ∷ []) 1 ≡ true ∷ [] }
    ensures nine_bits { bits_of (255 ∷ 0 ∷ []) 1 ≡ true ∷ true ∷ true ∷ true ∷ true ∷ true ∷ true ∷ true ∷ false ∷ [] }
    ensures no_byte { bits_of [] 8 ≡ [] }
    ensures padded { IsPadded (7 ∷ 128 ∷ []) 1 }
    ensures whole { IsPadded (7 ∷ 129 ∷ []) 8 }
    ensures unused_bit_that_is_set { IsPadded (7 ∷ 129 ∷ []) 1 → ⊥ }
    ensures no_bit_of_a_byte { IsPadded (0 ∷ []) 0 → ⊥ }
    ensures no_byte_and_less_than_8_bits { IsPadded [] 1 → ⊥ }
{}

/// A term is built up to 2^32 - 1 parts and up to 256 levels.
pub fn a_term_within_its_limits_is_built()
    ensures object { built 2 (pair (word "k") (number 1)) ≡ Ok (pair (word "k") (number 1)) }
    ensures most_parts { limited (2 ^ 32 - 1) 2 nil ≡ Ok nil }
    ensures most_levels { built 1 (boxed 255) ≡ Ok (boxed 255) }
{}

/// One part or one level more is refused, and too many parts are told before too many levels.
pub fn a_term_past_its_limits_is_refused()
    ensures parts { limited (2 ^ 32) 2 nil ≡ Err ManyParts }
    ensures levels { built 1 (boxed 256) ≡ Err Depth }
    ensures both { limited (2 ^ 32) 257 nil ≡ Err ManyParts }
{}

/// A map is built of its pairs in any order.
pub fn a_map_is_built_of_pairs_in_any_order()
    ensures ascending { map_built ((number 1, nil) ∷ (word "a", number 2) ∷ []) ≡ Ok (map_of ((number 1, nil) ∷ (word "a", number 2) ∷ [])) }
    ensures descending { map_built ((word "a", number 2) ∷ (number 1, nil) ∷ []) ≡ Ok (map_of ((number 1, nil) ∷ (word "a", number 2) ∷ [])) }
    ensures no_pairs { map_built [] ≡ Ok (map_of []) }
{}

/// A key that stands in two pairs is refused, whatever their values, and before too many levels.
pub fn a_repeated_key_is_refused()
    ensures two_values { map_built ((number 1, nil) ∷ (number 1, word "a") ∷ []) ≡ Err RepeatedKey }
    ensures one_value { map_built ((number 1, nil) ∷ (number 1, nil) ∷ []) ≡ Err RepeatedKey }
    ensures far_apart { map_built ((word "a", nil) ∷ (number 1, nil) ∷ (number 2, nil) ∷ (word "a", nil) ∷ []) ≡ Err RepeatedKey }
    ensures too_deep { map_built ((number 1, boxed 256) ∷ (number 1, nil) ∷ []) ≡ Err RepeatedKey }
    ensures too_deep_alone { map_built ((number 1, boxed 255) ∷ []) ≡ Err Depth }
{}

/// Unused bits do not count when a bit string is built.
pub fn a_bit_string_is_built_without_its_unused_bits()
    ensures one_bit { bits_built (255 ∷ []) 1 ≡ Ok (bit_string (128 ∷ []) 1) }
    ensures nine_bits { bits_built (1 ∷ 127 ∷ []) 1 ≡ Ok (bit_string (1 ∷ 0 ∷ []) 1) }
    ensures whole_bytes { bits_built (1 ∷ 127 ∷ []) 8 ≡ Ok (bytes (1 ∷ 127 ∷ [])) }
    ensures no_bytes { bits_built [] 8 ≡ Ok (bytes []) }
{}

/// Integers of 128 bits and atoms of 255 characters are within the limits.
pub fn the_largest_values_are_terms()
    ensures largest_integer { IsTerm (integer (pos (2 ^ 127 - 1))) }
    ensures least_integer { IsTerm (integer (negsuc (2 ^ 127 - 1))) }
    ensures longest_atom { IsTerm (atom (replicate 255 228)) }
    ensures most_levels { IsTerm (boxed 255) }
{}

/// The keys of a map ascend, and each has one value.
pub fn a_map_has_ascending_keys_with_a_value_each()
    ensures ascending { IsTerm (map_of ((number 1, nil) ∷ (number 2, nil) ∷ (word "a", nil) ∷ [])) }
    ensures descending { IsTerm (map_of ((number 2, nil) ∷ (number 1, nil) ∷ [])) → ⊥ }
    ensures repeated { IsTerm (map_of ((number 1, nil) ∷ (number 1, word "a") ∷ [])) → ⊥ }
    ensures key_without_value { IsTerm (mapping (list_of (number 1 ∷ [])) nil) → ⊥ }
    ensures improper_keys { IsTerm (mapping (chain (number 1 ∷ []) (number 2)) (list_of (nil ∷ []))) → ⊥ }
{}

/// What is past a limit is no term, nor is a tuple whose elements end in anything but the empty list.
pub fn values_past_a_limit_are_no_terms()
    ensures large_integer { IsTerm (number (2 ^ 127)) → ⊥ }
    ensures small_integer { IsTerm (integer (negsuc (2 ^ 127))) → ⊥ }
    ensures long_atom { IsTerm (atom (replicate 256 107)) → ⊥ }
    ensures half_a_character { IsTerm (atom (0xD800 ∷ [])) → ⊥ }
    ensures many_levels { IsTerm (boxed 256) → ⊥ }
    ensures improper_tuple { IsTerm (tuple (cons (number 1) (number 2))) → ⊥ }
{}
