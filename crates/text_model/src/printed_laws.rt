//! Laws of the printed form, as contracts of functions that do nothing.
ghost use Rattle.std.specs.Prelude.{◌≡◌, ℕ, ◌≤◌, List, ◌∷◌, ◌++◌};
ghost use Rattle.std.specs.List.{All};
ghost use Rattle.dets_term.specs.TermValue.{TermValue};
ghost use Rattle.dets_term.specs.IsTerm.{IsTerm};
ghost use Rattle.text_model.specs.Printed.{printed};
ghost use Rattle.text_model.specs.Sentence.{IsSentence};

/// A printed form is in the grammar: with a full stop it is a sentence of its term, whatever follows.
pub fn printed_form_is_a_sentence()
    ensures { (t : TermValue) (rest : List ℕ) → IsTerm t → IsSentence t (printed t ++ 46 ∷ rest) rest }
{}

/// Terms with one printed form are equal.
pub fn printed_form_is_of_one_term()
    ensures { (t u : TermValue) → IsTerm t → IsTerm u → printed t ≡ printed u → t ≡ u }
{}

/// No byte of a printed form is below 32.
pub fn printed_form_has_no_byte_below_32()
    ensures { (t : TermValue) → All (λ x. 32 ≤ x) (printed t) }
{}
