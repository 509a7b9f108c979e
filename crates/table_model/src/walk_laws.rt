//! Laws of walks, as contracts of functions that do nothing.
ghost use Rattle.std.specs.Prelude.{◌≡◌, ℕ, ℤ, Bool, cond, List, [], ◌∷◌, length, Some, Ok, true, false};
ghost use Rattle.std.specs.List.{list_any, list_all};
ghost use Rattle.std.specs.List.Sorted.{IsPermutation, IsSortedByKey};
ghost use Rattle.std.specs.Ordering.{nat_cmp, ordering_then};
ghost use Rattle.term_model.specs.TermValue.{TermValue, key};
ghost use Rattle.term_model.specs.IsTerm.{IsTerm};
ghost use Rattle.term_model.specs.Order.{order, is_same};
ghost use Rattle.term_model.specs.Pairs.{repeats};
ghost use Rattle.term_model.specs.declared.kind.Kind.TheVariants.{Set};
ghost use Rattle.table_model.specs.Table.{Table};
ghost use Rattle.table_model.specs.Operations.{is_member, delete_where, delete_key, delete_object, IsSameTable};
ghost use Rattle.table_model.specs.Counter.{Counted, update_counter};
ghost use Rattle.table_model.specs.Allowed.{is_object};
ghost use Rattle.table_model.specs.Touched.{is_touched};
ghost use Rattle.etf_model.specs.Canonical.{spelled};
ghost use Rattle.table_model.specs.Walk.{keys_in, slot_of_key, walk_place, walked_keys, walked, touched_in_walk};

/// Keys are walked by their slots, and in a slot by the order of terms.
#[tactic(auto, using(crate::proofs::Walks::place_order))]
pub fn keys_are_walked_by_slot_and_then_by_term()
    ensures order { (slots : ℕ) (j k : TermValue)
        → order (walk_place slots j) (walk_place slots k) ≡ ordering_then (nat_cmp (slot_of_key slots j) (slot_of_key slots k)) (order j k) }
    ensures in_order { (slots : ℕ) (table : Table) → IsSortedByKey (walk_place slots) order (walked_keys slots table) }
{}

/// Each key that has objects is walked once, and no other.
#[tactic(auto, using(crate::proofs::Walks::key_walked, crate::proofs::Walks::keys_once))]
pub fn each_member_is_walked_once()
    ensures members { (slots : ℕ) (table : Table) (k : TermValue) → list_any (is_same k) (walked_keys slots table) ≡ is_member table k }
    ensures once { (slots : ℕ) (table : Table) → repeats (walked_keys slots table) ≡ false }
{}

/// A walk meets the objects of a table, each as often as it is there.
pub fn a_walk_meets_the_objects_of_the_table()
    ensures { (slots : ℕ) (table : Table) → list_all (is_object table.keypos) table.objects ≡ true → IsPermutation table.objects (walked slots table) }
{}

/// Tables that are the same have the same walk, and as many keys.
pub fn the_same_tables_are_walked_alike()
    ensures keys { (slots : ℕ) (a b : Table) → IsSameTable a b → walked_keys slots a ≡ walked_keys slots b }
    ensures objects { (slots : ℕ) (a b : Table) → IsSameTable a b → walked slots a ≡ walked slots b }
    ensures number { (a b : Table) → IsSameTable a b → length (keys_in a) ≡ length (keys_in b) }
{}

/// Among the keys that a deletion touches each key is just where it is touched, and once.
#[tactic(auto, using(crate::proofs::Walks::touched_in_walk_is, crate::proofs::Walks::touched_in_walk_once))]
pub fn a_deletion_touches_each_key_once()
    ensures exactly { (slots : ℕ) (test : TermValue → Bool) (table : Table) (k : TermValue)
        → list_any (is_same k) (touched_in_walk slots table (delete_where test table)) ≡ is_touched table (delete_where test table) k }
    ensures once { (slots : ℕ) (old new : Table) → repeats (touched_in_walk slots old new) ≡ false }
{}

/// A deletion of a key or of an object, and an update of a counter, touch that key or none.
#[tactic(auto, using(crate::proofs::OneKey::delete_key_alone, crate::proofs::OneKey::delete_object_alone, crate::proofs::OneKey::counter_alone))]
pub fn an_operation_on_a_key_touches_it_alone()
    ensures key { (slots : ℕ) (table : Table) (k : TermValue)
        → touched_in_walk slots table (delete_key table k) ≡ cond (is_touched table (delete_key table k) k) (k ∷ []) [] }
    ensures object { (slots : ℕ) (table : Table) (object k : TermValue) → key object table.keypos ≡ Some k
        → touched_in_walk slots table (delete_object table object) ≡ cond (is_touched table (delete_object table object) k) (k ∷ []) [] }
    ensures counter { (slots : ℕ) (table : Table) (k : TermValue) (place increment : ℤ) (new : Counted) → table.kind ≡ Set
        → update_counter table k place increment ≡ Ok new
        → touched_in_walk slots table new.table ≡ cond (is_touched table new.table k) (k ∷ []) [] }
{}

/// Two terms that are spelled alike in a file are equal, so the ledger holds the bytes of keys in their place.
pub fn keys_are_told_apart_by_their_bytes()
    ensures { (j k : TermValue) → IsTerm j → IsTerm k → spelled j ≡ spelled k → j ≡ k }
{}
