//! Laws of spellings, parts and breaks, as contracts of functions that do nothing.
ghost use Rattle.std.specs.Prelude.{◌≡◌, ℕ, ◌+◌, ◌⊎◌, List, [], ◌++◌};
ghost use Rattle.dets_term.specs.TermValue.{TermValue};
ghost use Rattle.etf_model.specs.declared.fault.EtfFault.{EtfFault};
ghost use Rattle.etf_model.specs.Moved.{moved};
ghost use Rattle.etf_model.specs.Spelling.{Spells, IsPart, IsBreak, BeginsWithTerm, BeginsWithBreak};
ghost use Rattle.etf_model.specs.Fronts.{OneMore};

/// Bytes spell at most one term.
pub fn bytes_spell_at_most_one_term()
    ensures { (t u : TermValue) (bytes : List ℕ) → Spells t bytes → Spells u bytes → t ≡ u }
{}

/// No spelling is a proper prefix of another.
pub fn no_spelling_is_a_proper_prefix_of_another()
    ensures { (t u : TermValue) (bytes rest : List ℕ) → Spells t bytes → Spells u (bytes ++ rest) → rest ≡ [] }
{}

/// At least one of three holds of any bytes, at whatever offset they begin: a front spells a term, a front is a
/// break, or they are a part.
pub fn bytes_begin_with_a_spelling_or_break_or_are_a_part()
    ensures { (start : ℕ) (bytes : List ℕ) → BeginsWithTerm bytes ⊎ (BeginsWithBreak start bytes ⊎ IsPart bytes) }
{}

/// At most one of the three holds.
pub fn bytes_are_no_two_of_these()
    ensures spelling_or_break { (start : ℕ) (bytes : List ℕ) → BeginsWithTerm bytes → BeginsWithBreak start bytes → ⊥ }
    ensures spelling_or_part { (bytes : List ℕ) → BeginsWithTerm bytes → IsPart bytes → ⊥ }
    ensures break_or_part { (start : ℕ) (bytes : List ℕ) → BeginsWithBreak start bytes → IsPart bytes → ⊥ }
{}

/// Bytes have at most one break, of one fault.
pub fn bytes_have_at_most_one_break()
    ensures { (start : ℕ) (front rest other more : List ℕ) (f g : EtfFault) → IsBreak start front f → IsBreak start other g
        → front ++ rest ≡ other ++ more → (front ≡ other) × (f ≡ g) }
{}

/// The last byte of a break is the first to break a rule: without it the bytes are a part.
pub fn the_last_byte_of_a_break_is_the_first_to_break_a_rule()
    ensures { (start : ℕ) (bytes : List ℕ) (fault : EtfFault) → IsBreak start bytes fault → OneMore IsPart bytes }
{}

/// A break stays one where the bytes begin at a greater offset, with its fault's offset greater by as much, and there
/// are no others.
pub fn breaks_move_with_the_offset_at_which_bytes_begin()
    ensures kept { (start n : ℕ) (bytes : List ℕ) (fault : EtfFault) → IsBreak start bytes fault
        → IsBreak (start + n) bytes (moved n fault) }
    ensures no_others { (start n : ℕ) (bytes : List ℕ) (fault : EtfFault) → IsBreak (start + n) bytes fault
        → (f : EtfFault) × (fault ≡ moved n f) × IsBreak start bytes f }
{}
