//! Worked rows of runs, as contracts of functions that do nothing.
ghost use Rattle.std.specs.Prelude.{◌≡◌, [], ◌∷◌, Some, None, true, false};
ghost use Rattle.space_model.specs.Least.{log2};
ghost use Rattle.space_model.specs.Runs.{run, meets, is_free, is_maximal, place};

/// The exponent of the greatest power of two in a number.
pub fn powers_of_two()
    ensures one { log2 1 ≡ 0 }
    ensures two { log2 2 ≡ 1 }
    ensures three { log2 3 ≡ 1 }
    ensures slots { log2 400 ≡ 8 }
    ensures segment { log2 4096 ≡ 12 }
    ensures below { log2 4095 ≡ 11 }
{}

/// One segment of 4,096 units: runs of 1, 64, 2 and 4,096 units, and after all are given back one of 4,096.
pub fn runs_are_taken_from_one_segment()
    ensures first { place 4096 1 [] 0 ≡ Some 0 }
    ensures larger { place 4096 1 (run 0 0 ∷ []) 6 ≡ Some 64 }
    ensures smaller { place 4096 1 (run 64 6 ∷ run 0 0 ∷ []) 1 ≡ Some 2 }
    ensures none { place 4096 1 (run 2 1 ∷ run 64 6 ∷ run 0 0 ∷ []) 12 ≡ None }
    ensures all_again { place 4096 1 [] 12 ≡ Some 0 }
    ensures no_segment { place 4096 0 [] 0 ≡ None }
{}

/// Segments of 16 units: the smallest free run with room is taken, and of equal ones the lowest.
pub fn the_smallest_run_and_then_the_lowest_is_taken()
    ensures smallest { place 16 2 (run 0 3 ∷ run 10 1 ∷ run 12 2 ∷ []) 1 ≡ Some 8 }
    ensures smaller_behind_a_larger { place 16 1 (run 8 1 ∷ run 12 2 ∷ []) 0 ≡ Some 10 }
    ensures lowest_of_equals { place 16 1 (run 2 1 ∷ run 6 1 ∷ run 8 3 ∷ []) 1 ≡ Some 0 }
    ensures front_of_a_larger { place 16 1 (run 0 3 ∷ []) 0 ≡ Some 8 }
    ensures two_halves_make_one { place 16 1 (run 0 2 ∷ []) 3 ≡ Some 8 }
    ensures none_is_aligned { place 16 1 (run 0 2 ∷ run 12 2 ∷ []) 3 ≡ None }
{}

/// Two segments of 16 units: no run crosses from one to the other.
pub fn a_run_never_crosses_segments()
    ensures first { place 16 2 (run 17 0 ∷ []) 4 ≡ Some 0 }
    ensures none { place 16 2 (run 0 4 ∷ run 17 0 ∷ []) 4 ≡ None }
    ensures upper_half { place 16 2 (run 0 4 ∷ run 17 0 ∷ []) 3 ≡ Some 24 }
    ensures across { place 16 2 (run 0 3 ∷ run 24 3 ∷ []) 4 ≡ None }
    ensures larger_than_a_segment { place 16 2 [] 5 ≡ None }
{}

/// Sixteen units of which the units 4 and 5 are held.
pub fn a_free_run_meets_no_held_one()
    ensures beside { is_free 16 (run 4 1 ∷ []) (run 6 1) ≡ true }
    ensures around { is_free 16 (run 4 1 ∷ []) (run 4 2) ≡ false }
    ensures inside { is_free 16 (run 4 1 ∷ []) (run 5 0) ≡ false }
    ensures behind_the_end { is_free 16 (run 4 1 ∷ []) (run 16 0) ≡ false }
    ensures maximal { is_maximal 4 16 (run 4 1 ∷ []) (run 6 1) ≡ true }
    ensures in_a_larger_one { is_maximal 4 16 (run 4 1 ∷ []) (run 8 1) ≡ false }
    ensures one_unit_in_common { meets (run 4 1) (run 5 0) ≡ true }
    ensures none_in_common { meets (run 4 1) (run 6 0) ≡ false }
{}
