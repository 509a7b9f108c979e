//! Laws of texts and scripts, as contracts of functions that do nothing.
ghost use Rattle.std.specs.Prelude.{◌≡◌, ℕ, Bool, false, List, ◌∷◌, ◌++◌, drop};
ghost use Rattle.dets_term.specs.TermValue.{TermValue};
ghost use Rattle.text_model.specs.declared.fault.TextWhy.{TextWhy};
ghost use Rattle.text_model.specs.Sentence.{IsSentence};
ghost use Rattle.text_model.specs.Script.{Rest, fault, Answer, a_term, no_term, IsAnswer, Placed, moved, IsScript};

/// Bytes begin with the text of at most one term and its full stop.
pub fn bytes_begin_with_one_term()
    ensures { (t u : TermValue) (bytes rest other : List ℕ) → IsSentence t bytes rest → IsSentence u bytes other
        → (t ≡ u) × (rest ≡ other) }
{}

/// In front of all bytes stands a term, or else it is told what there is: blanks, what may go on, or the rule that is broken with
/// its offset.
pub fn bytes_have_an_answer()
    ensures { (finished : Bool) (bytes : List ℕ) → (answer : Answer) × IsAnswer finished bytes answer }
{}

/// And no two of these hold.
pub fn bytes_have_one_answer()
    ensures { (finished : Bool) (bytes : List ℕ) (answer other : Answer) → IsAnswer finished bytes answer → IsAnswer finished bytes other
        → answer ≡ other }
{}

/// A term in front stays whatever follows, unless the input ended before.
pub fn a_term_stays_whatever_follows()
    ensures { (finished : Bool) (bytes more : List ℕ) (t : TermValue) (taken : ℕ) → IsAnswer false bytes (a_term t taken)
        → IsAnswer finished (bytes ++ more) (a_term t taken) }
{}

/// A fault stays whatever follows, with the same offset and the same rule.
pub fn a_fault_stays_whatever_follows()
    ensures { (finished : Bool) (bytes more : List ℕ) (at : ℕ) (why : TextWhy) → IsAnswer false bytes (no_term (fault at why))
        → IsAnswer finished (bytes ++ more) (no_term (fault at why)) }
{}

/// All bytes have a script.
pub fn bytes_have_a_script()
    ensures { (finished : Bool) (bytes : List ℕ) → (terms : List Placed) × (rest : Rest) × IsScript finished bytes terms rest }
{}

/// Bytes have at most one script.
pub fn bytes_have_one_script()
    ensures { (finished : Bool) (bytes : List ℕ) (terms others : List Placed) (rest other : Rest) → IsScript finished bytes terms rest
        → IsScript finished bytes others other → (terms ≡ others) × (rest ≡ other) }
{}

/// Without its first term and full stop a script has the other terms, and the same rest with its offset moved.
pub fn a_script_goes_on_behind_its_first_term()
    ensures { (finished : Bool) (bytes : List ℕ) (t : TermValue) (taken : ℕ) (terms : List Placed) (rest : Rest)
        → IsAnswer finished bytes (a_term t taken) → IsScript finished bytes terms rest
        → (others : List Placed) × (behind : Rest) × (terms ≡ record { term = t; bytes = taken } ∷ others) × (rest ≡ moved taken behind)
        × IsScript finished (drop taken bytes) others behind }
{}
