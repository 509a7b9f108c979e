//! Laws of the definitions, as contracts of functions that do nothing.
ghost use Rattle.std.specs.Prelude.{◌≡◌, [], ◌∷◌, Some, filter};
ghost use Rattle.std.specs.List.Sorted.{IsPermutation, IsSorted};
ghost use Rattle.term_model.specs.TermValue.{TermValue, key};
ghost use Rattle.term_model.specs.Order.{order};
ghost use Rattle.term_model.specs.declared.kind.Kind.TheVariants.{Set};
ghost use Rattle.table_model.specs.Table.{Table, has_key, objects_of, insert_object};

/// The objects of a key are the table's objects with that key, each as often as it is there, and none is less than the
/// one in front of it.
pub fn the_objects_of_a_key_ascend()
    ensures same { (table : Table) (k : TermValue) → IsPermutation (filter (has_key table.keypos k) table.objects) (objects_of table k) }
    ensures in_order { (table : Table) (k : TermValue) → IsSorted order (objects_of table k) }
{}

/// After an object is inserted, a set has that object alone of the object's key.
#[tactic(auto, using(crate::specs::Sets::in_a_set))]
pub fn a_set_has_one_object_of_a_key()
    ensures { (table : Table) (object k : TermValue) → table.kind ≡ Set → key object table.keypos ≡ Some k
        → objects_of (insert_object table object) k ≡ object ∷ [] }
{}
