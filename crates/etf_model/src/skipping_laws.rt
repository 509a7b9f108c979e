//! Laws of spellings that are passed over, as contracts of functions that do nothing.
ghost use Rattle.std.specs.Prelude.{◌≡◌, ℕ, ◌⊎◌, List, [], ◌++◌};
ghost use Rattle.etf_model.specs.declared.fault.EtfFault.{EtfFault};
ghost use Rattle.etf_model.specs.Fronts.{Begins, OneMore};
ghost use Rattle.etf_model.specs.Skipping.{SkipSpelled, SkipPart, SkipBreak, BeginsWithSkipBreak};

/// At least one of three holds of any bytes: a front is a spelling that is passed over, a front breaks a rule of it
/// with its last byte, or they end before such a spelling does.
pub fn bytes_begin_with_a_skipped_spelling_or_break_or_are_a_part()
    ensures { (bytes : List ℕ) → Begins SkipSpelled bytes ⊎ (BeginsWithSkipBreak bytes ⊎ SkipPart bytes) }
{}

/// At most one of the three holds.
pub fn skipped_bytes_are_no_two_of_these()
    ensures spelling_or_break { (bytes : List ℕ) → Begins SkipSpelled bytes → BeginsWithSkipBreak bytes → ⊥ }
    ensures spelling_or_part { (bytes : List ℕ) → Begins SkipSpelled bytes → SkipPart bytes → ⊥ }
    ensures break_or_part { (bytes : List ℕ) → BeginsWithSkipBreak bytes → SkipPart bytes → ⊥ }
{}

/// No spelling that is passed over is a proper prefix of another.
pub fn no_skipped_spelling_is_a_proper_prefix_of_another()
    ensures { (bytes rest : List ℕ) → SkipSpelled bytes → SkipSpelled (bytes ++ rest) → rest ≡ [] }
{}

/// The last byte of a break is the first to break a rule: without it the bytes end before a spelling does.
pub fn the_last_byte_of_a_skip_break_is_the_first_to_break_a_rule()
    ensures { (bytes : List ℕ) (fault : EtfFault) → SkipBreak bytes fault → OneMore SkipPart bytes }
{}

/// Bytes have at most one break, of one fault.
pub fn bytes_have_at_most_one_skip_break()
    ensures { (front rest other more : List ℕ) (f g : EtfFault) → SkipBreak front f → SkipBreak other g
        → front ++ rest ≡ other ++ more → (front ≡ other) × (f ≡ g) }
{}
