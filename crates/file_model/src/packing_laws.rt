//! Laws of objects as a block that is to be written, as contracts of functions that do nothing.
ghost use Rattle.std.specs.Prelude.{◌≡◌, ◌<◌, ℕ, ◌%◌, ◌^◌, false, List, length, Some};
ghost use Rattle.term_model.specs.TermValue.{TermValue, nil, chain};
ghost use Rattle.space_model.specs.Ledger.{is_too_large};
ghost use Rattle.file_model.specs.declared.block.Packed.{Packed};
ghost use Rattle.file_model.specs.declared.head.Head.{Head};
ghost use Rattle.file_model.specs.Header.{units_per_segment};
ghost use Rattle.file_model.specs.Block.{term_in, one_key};
ghost use Rattle.file_model.specs.BodyWrites.{IsPacked};
ghost use Rattle.file_model.specs.Packing.{payload_of, MayPack, IsBlockOf};

use etf_model::encoding_laws::the_canonical_spelling_spells_its_term;
use space_model::ledger_laws::a_payload_has_room_in_the_least_block;

/// The payload that writers make of objects is read as the list of these objects.
pub fn a_payload_has_its_objects()
    ensures { (objects : List TermValue) → MayPack objects → length objects < 2 ^ 32 → term_in (payload_of objects) ≡ Some (chain objects nil) }
{
    the_canonical_spelling_spells_its_term();
}

/// The block of objects that a kind allows for one key stands with them at each unit that it is aligned for, whatever
/// follows it.
pub fn the_block_of_objects_stands()
    ensures { (h : Head) (unit : ℕ) (objects : List TermValue) (k : TermValue) (p : Packed) → MayPack objects → IsBlockOf objects p
        → one_key h.kind h.keypos objects ≡ Some k → is_too_large (units_per_segment h) (length (payload_of objects)) ≡ false → unit % 2 ^ p.exp ≡ 0
        → IsPacked (units_per_segment h) h (record { unit = unit; exp = p.exp; bytes = p.block })
        (record { unit = unit; exp = p.exp; key = k; objects = objects }) }
{
    the_canonical_spelling_spells_its_term();
    a_payload_has_room_in_the_least_block();
}
