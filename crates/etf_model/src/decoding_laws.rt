//! Laws of decoding, as contracts of functions that do nothing.
ghost use Rattle.std.specs.Prelude.{◌≡◌, ◌≢◌, ℕ, Result, List, ◌∷◌, ◌++◌, length};
ghost use Rattle.dets_term.specs.IsTerm.{IsTerm};
ghost use Rattle.dets_term.specs.TermValue.{TermValue};
ghost use Rattle.etf_model.specs.Canonical.{canonical};
ghost use Rattle.etf_model.specs.Decoding.{IsDecoding};
ghost use Rattle.etf_model.specs.Spelling.{Spells};
ghost use Rattle.etf_model.specs.declared.fault.EtfFault.{EtfFault};
ghost use Rattle.etf_model.specs.declared.fault.EtfFault.TheVariants.{Memory};
ghost use Rattle.etf_model.specs.declared.tags.TheConstants.{VERSION};

/// Bytes have one decoding, want of memory aside.
pub fn bytes_have_one_decoding()
    ensures { (bytes : List ℕ) (r s : Result (TermValue × ℕ) EtfFault) → IsDecoding bytes r → IsDecoding bytes s
        → r ≢ Err Memory → s ≢ Err Memory → r ≡ s }
{}

/// A spelling decodes to its term and its length, whatever follows.
pub fn a_spelling_decodes_to_its_term_whatever_follows()
    ensures { (t : TermValue) (spelled rest : List ℕ) (r : Result (TermValue × ℕ) EtfFault)
        → Spells t spelled → IsDecoding (spelled ++ rest) r → r ≢ Err Memory → r ≡ Ok (t, length spelled) }
{}

/// So does the canonical spelling, which encoding gives.
pub fn an_encoding_decodes_to_its_term_whatever_follows()
    ensures { (t : TermValue) (rest : List ℕ) (r : Result (TermValue × ℕ) EtfFault)
        → IsTerm t → IsDecoding ((VERSION ∷ canonical t) ++ rest) r → r ≢ Err Memory → r ≡ Ok (t, length (VERSION ∷ canonical t)) }
{}
