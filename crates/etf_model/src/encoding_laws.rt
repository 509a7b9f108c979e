//! Laws of the canonical spelling, as contracts of functions that do nothing.
ghost use Rattle.std.specs.Prelude.{◌∷◌};
ghost use Rattle.dets_term.specs.IsTerm.{IsTerm};
ghost use Rattle.dets_term.specs.TermValue.{TermValue};
ghost use Rattle.etf_model.specs.Canonical.{canonical};
ghost use Rattle.etf_model.specs.Spelling.{Spells};
ghost use Rattle.etf_model.specs.declared.tags.TheConstants.{VERSION};

/// The canonical spelling of a term spells it.
pub fn the_canonical_spelling_spells_its_term()
    ensures { (t : TermValue) → IsTerm t → Spells t (VERSION ∷ canonical t) }
{}
