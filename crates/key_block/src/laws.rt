//! Laws of packing and unpacking, as contracts of functions that do nothing.
ghost use Rattle.std.specs.Prelude.{◌≡◌, ◌≢◌, ◌≤◌, ℕ, List, Result, Ok, Err, Some, None, length};
ghost use Rattle.dets_term.specs.TermValue.{TermValue};
ghost use Rattle.dets_term.specs.declared.Kind.{Kind};
ghost use Rattle.file_model.specs.Block.{term_in, proper_elements, one_key};
ghost use Rattle.file_model.specs.Packing.{payload_of, MayPack};
ghost use Rattle.key_block.specs.declared.fault.BlockFault.{BlockFault};
ghost use Rattle.key_block.specs.declared.fault.BlockFault.TheVariants.{Memory};
ghost use Rattle.key_block.specs.declared.unpacking.KeyBlock.{KeyBlock};
ghost use Rattle.key_block.specs.Single.{IsSingleKey, HasOneObject};
ghost use Rattle.key_block.specs.Unpacking.{IsUnpacking};

use file_model::packing_laws::a_payload_has_its_objects;

/// What was packed is unpacked: the same objects in the same order.
pub fn what_was_packed_is_unpacked()
    ensures { (kind : Kind) (keypos : ℕ) (objects : List TermValue) (k : TermValue) (r : Result KeyBlock BlockFault) → MayPack objects
        → length (payload_of objects) ≤ 262136 → one_key kind keypos objects ≡ Some k → IsUnpacking kind keypos (payload_of objects) r
        → r ≢ Err Memory → r ≡ Ok (record { objects = objects }) }
{
    a_payload_has_its_objects();
}

/// The objects are answered exactly where the payload is that of a block: where they are, they are what a file has there,
/// and where a fault is, the kind allows nothing of it for one key.
pub fn what_is_refused_is_no_block()
    ensures objects { (kind : Kind) (keypos : ℕ) (payload : List ℕ) (b : KeyBlock) → IsUnpacking kind keypos payload (Ok b)
        → proper_elements (term_in payload) ≡ b.objects }
    ensures refused { (kind : Kind) (keypos : ℕ) (payload : List ℕ) (fault : BlockFault) → fault ≢ Memory → IsUnpacking kind keypos payload (Err fault)
        → one_key kind keypos (proper_elements (term_in payload)) ≡ None }
{}

/// A payload whose key is found without unpacking is that of a block of one object, which each kind allows for that key.
pub fn a_single_key_is_that_of_one_object()
    ensures { (kind : Kind) (keypos : ℕ) (payload bytes : List ℕ) → IsSingleKey keypos payload bytes → HasOneObject kind keypos payload bytes }
{
    a_payload_has_its_objects();
}
