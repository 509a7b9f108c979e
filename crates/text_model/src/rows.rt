//! Worked rows of the definitions, as contracts of functions that do nothing.
ghost use Rattle.std.specs.Prelude.{ℕ, true, List, [], ◌∷◌, ◌++◌, replicate, codes};
ghost use Rattle.dets_term.specs.BitString.{bits_of};
ghost use Rattle.dets_term.specs.TermValue.{bits};
ghost use Rattle.dets_term.specs.Written.{word, number, list_of, pair};
ghost use Rattle.text_model.specs.declared.fault.TextWhy.TheVariants.{BadToken, BadUtf8, Depth, IntegerRange, RepeatedKey, Unfinished};
ghost use Rattle.text_model.specs.Script.{fault, a_term, no_term, IsAnswer};

/// A token that cannot stand there is at fault at the first byte that tells which it is, whatever comes inside it.
pub fn tokens_are_judged_where_they_begin()
    ensures stray { IsAnswer true (codes "{a 99999999999999999999999999999999999999999999999999") (no_term (fault 3 BadToken)) }
    ensures stray_quote { IsAnswer true (codes "{a 'x" ++ 255 ∷ []) (no_term (fault 3 BadToken)) }
    ensures stray_open { IsAnswer true (codes "{a 'x") (no_term (fault 3 BadToken)) }
    ensures stray_minus { IsAnswer true (codes "{a -") (no_term (fault 3 BadToken)) }
    ensures stray_less { IsAnswer true (codes "{a <") (no_term (fault 3 BadToken)) }
    ensures minus_apart { IsAnswer true (codes "- 1") (no_term (fault 0 BadToken)) }
    ensures stop_inside { IsAnswer true (codes "[1.") (no_term (fault 2 BadToken)) }
    ensures stop_no_end { IsAnswer true (codes "a.b") (no_term (fault 1 BadToken)) }
{}

/// A term at level 257 is told where it is clear that a term begins; a string at level 256 at its first character.
pub fn a_term_too_deep_is_told_at_its_first_token()
    ensures deep_quote { IsAnswer true (replicate 256 91 ++ codes "'") (no_term (fault 256 Depth)) }
    ensures deep_less { IsAnswer true (replicate 256 91 ++ codes "<x") (no_term (fault 256 BadToken)) }
    ensures deep_less_end { IsAnswer true (replicate 256 91 ++ codes "<") (no_term (fault 257 Unfinished)) }
    ensures deep_comma { IsAnswer true (replicate 256 91 ++ codes ",") (no_term (fault 256 BadToken)) }
    ensures deep_string { IsAnswer true (replicate 255 91 ++ codes "\"\\1") (no_term (fault 255 Depth)) }
    ensures deep_string_bad { IsAnswer true (replicate 255 91 ++ codes "\"\\q") (no_term (fault 255 BadToken)) }
{}

/// A segment is judged by its value, its colon and its number of bits, and the value is at fault.
pub fn segments_are_in_range()
    ensures segment { IsAnswer true (codes "<<256") (no_term (fault 2 BadToken)) }
    ensures segment_open { IsAnswer true (codes "<<25") (no_term (fault 4 Unfinished)) }
    ensures size { IsAnswer true (codes "<<5:2") (no_term (fault 2 BadToken)) }
    ensures size_open { IsAnswer true (codes "<<5:3") (no_term (fault 5 Unfinished)) }
    ensures size_zero { IsAnswer true (codes "<<5:0") (no_term (fault 5 Unfinished)) }
    ensures size_minus { IsAnswer true (codes "<<1:-") (no_term (fault 5 Unfinished)) }
    ensures code_point { IsAnswer true (codes "<<\"" ++ 196 ∷ 128 ∷ 255 ∷ []) (no_term (fault 5 BadUtf8)) }
    ensures code_point_end { IsAnswer true (codes "<<\"" ++ 196 ∷ 128 ∷ []) (no_term (fault 5 Unfinished)) }
    ensures code_point_closed { IsAnswer true (codes "<<\"" ++ 196 ∷ 128 ∷ 34 ∷ []) (no_term (fault 2 BadToken)) }
    ensures colon { IsAnswer true (codes "<<128:") (no_term (fault 2 BadToken)) }
    ensures colon_string { IsAnswer true (codes "<<\"a\":") (no_term (fault 5 BadToken)) }
{}

/// Integers of 128 bits and atoms of 255 characters.
pub fn integers_and_atoms_are_within_their_limits()
    ensures range { IsAnswer true (codes "170141183460469231731687303715884105728.") (no_term (fault 0 IntegerRange)) }
    ensures nines { IsAnswer true (replicate 50 57) (no_term (fault 0 IntegerRange)) }
    ensures long { IsAnswer true (codes "'" ++ replicate 256 97 ++ 255 ∷ []) (no_term (fault 0 BadToken)) }
    ensures long_escape { IsAnswer true (codes "'" ++ replicate 255 97 ++ 92 ∷ []) (no_term (fault 0 BadToken)) }
    ensures long_cut { IsAnswer true (codes "'" ++ replicate 255 97 ++ 196 ∷ []) (no_term (fault 257 Unfinished)) }
{}

/// An escape is judged as soon as it is settled.
pub fn escapes_are_of_unicode_scalar_values()
    ensures escape { IsAnswer true (codes "'\\" ++ 255 ∷ []) (no_term (fault 0 BadToken)) }
    ensures surrogate { IsAnswer true (codes "'\\x{110000") (no_term (fault 0 BadToken)) }
    ensures surrogate_open { IsAnswer true (codes "'\\x{D800") (no_term (fault 8 Unfinished)) }
    ensures surrogate_closed { IsAnswer true (codes "'\\x{D800}") (no_term (fault 0 BadToken)) }
    ensures empty_braces { IsAnswer true (codes "'\\x{}") (no_term (fault 0 BadToken)) }
{}

/// A repeated key is told with its last token, unless that may go on.
pub fn a_key_stands_once_in_its_map()
    ensures map { IsAnswer true (codes "#{a=>1,a=>2}.") (no_term (fault 7 RepeatedKey)) }
    ensures key { IsAnswer true (codes "#{a=>1,a") (no_term (fault 8 Unfinished)) }
{}

/// An input that ends inside a token.
pub fn an_input_ends_behind_a_full_stop()
    ensures { IsAnswer true (codes "'a") (no_term (fault 2 Unfinished)) }
{}

/// Terms, with what is taken of the bytes.
pub fn terms_are_read()
    ensures one { IsAnswer true (codes "{k,1}. b") (a_term (pair (word "k") (number 1)) 6) }
    ensures joined { IsAnswer true (codes "[a|[b]].") (a_term (list_of (word "a" ∷ word "b" ∷ [])) 8) }
    ensures comment { IsAnswer true (codes "%c\na%d\n.%") (a_term (word "a") 8) }
    ensures octal { IsAnswer true (codes "\"\\1018\".") (a_term (list_of (number 65 ∷ number 56 ∷ [])) 8) }
    ensures binary { IsAnswer true (codes "<<1,\"a\",5:3>>.") (a_term (bits (bits_of (1 ∷ 97 ∷ 160 ∷ []) 3)) 14) }
{}
