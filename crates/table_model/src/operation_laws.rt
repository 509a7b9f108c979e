//! Laws of the operations, as contracts of functions that do nothing.
ghost use Rattle.std.specs.Prelude.{◌≡◌, ℤ, Bool, cond, not, [], ◌∷◌, ◌++◌, List, filter, Some, Ok, true, false};
ghost use Rattle.std.specs.List.{list_any};
ghost use Rattle.term_model.specs.TermValue.{TermValue, key};
ghost use Rattle.term_model.specs.Order.{is_same};
ghost use Rattle.term_model.specs.declared.kind.Kind.TheVariants.{Set, Bag, DuplicateBag};
ghost use Rattle.term_model.specs.Pairs.{repeats};
ghost use Rattle.term_model.specs.Sorted.{ascending};
ghost use Rattle.table_model.specs.Table.{Table, has_key, objects_of, insert_object};
ghost use Rattle.table_model.specs.Operations.{insert_objects, is_member, are_new, KnownKey, insert_new_objects, delete_where, delete_key};
ghost use Rattle.table_model.specs.Operations.{delete_object, delete_all_objects, IsSameTable};
ghost use Rattle.table_model.specs.Counter.{Counted, update_counter, Increments};
ghost use Rattle.table_model.specs.Touched.{is_touched, touched_by_insert};

/// A key that no inserted object has keeps its objects.
#[tactic(auto, using(crate::proofs::Inserted::other_keys_kept, crate::proofs::Inserted::other_keys_kept_by_all))]
pub fn inserts_leave_other_keys()
    ensures one_object { (table : Table) (object k : TermValue) → has_key table.keypos k object ≡ false
        → objects_of (insert_object table object) k ≡ objects_of table k }
    ensures list { (objects : List TermValue) (table : Table) (k : TermValue) → list_any (has_key table.keypos k) objects ≡ false
        → objects_of (insert_objects table objects) k ≡ objects_of table k }
{}

/// An object joins the others of its key in a bag, unless it is among them: then nothing changes.
#[tactic(auto, using(crate::proofs::Inserted::there_in_a_bag))]
pub fn a_bag_gets_an_object_that_is_not_there()
    ensures key { (table : Table) (object k : TermValue) → table.kind ≡ Bag → key object table.keypos ≡ Some k → objects_of (insert_object table object) k
        ≡ cond (list_any (is_same object) (objects_of table k)) (objects_of table k) (ascending (objects_of table k ++ object ∷ [])) }
    ensures there { (table : Table) (object : TermValue) → table.kind ≡ Bag → list_any (is_same object) table.objects ≡ true
        → insert_object table object ≡ table }
{}

/// Each object joins the others of its key in a duplicate bag.
#[tactic(auto, using(crate::proofs::Inserted::in_a_duplicate_bag))]
pub fn a_duplicate_bag_gets_each_object()
    ensures { (table : Table) (object k : TermValue) → table.kind ≡ DuplicateBag → key object table.keypos ≡ Some k
        → objects_of (insert_object table object) k ≡ ascending (objects_of table k ++ object ∷ []) }
{}

/// What an operation leaves of a key depends on the objects of that key alone, so tables that are the same stay so.
pub fn the_same_tables_stay_the_same()
    ensures insert { (objects : List TermValue) (a b : Table) → IsSameTable a b → IsSameTable (insert_objects a objects) (insert_objects b objects) }
    ensures are_new { (objects : List TermValue) (a b : Table) → IsSameTable a b → are_new a objects ≡ are_new b objects }
    ensures insert_new { (objects : List TermValue) (a b : Table) → IsSameTable a b
        → IsSameTable (insert_new_objects a objects) (insert_new_objects b objects) }
    ensures delete { (test : TermValue → Bool) (a b : Table) → IsSameTable a b → IsSameTable (delete_where test a) (delete_where test b) }
    ensures member { (a b : Table) (k : TermValue) → objects_of a k ≡ objects_of b k → is_member a k ≡ is_member b k }
{}

/// A key is a member of a table just where it has objects.
#[tactic(auto, using(crate::proofs::Deleted::absent_has_none, crate::proofs::Deleted::member_has_some))]
pub fn a_member_has_objects()
    ensures absent { (table : Table) (k : TermValue) → is_member table k ≡ false → objects_of table k ≡ [] }
    ensures no_objects { (table : Table) (k : TermValue) → objects_of table k ≡ [] → is_member table k ≡ false }
{}

/// Where all objects of a list are new, the table has none with their keys; else one of their keys is a member, and
/// nothing changes.
#[tactic(auto, using(crate::proofs::Deleted::new_keys, crate::proofs::Deleted::known_key))]
pub fn new_objects_have_keys_that_are_absent()
    ensures absent { (table : Table) (objects : List TermValue) (k : TermValue) → are_new table objects ≡ true
        → list_any (has_key table.keypos k) objects ≡ true → is_member table k ≡ false }
    ensures there { (table : Table) (objects : List TermValue) → are_new table objects ≡ false → KnownKey table objects }
    ensures nothing { (table : Table) (objects : List TermValue) → are_new table objects ≡ false → insert_new_objects table objects ≡ table }
    ensures all { (table : Table) (objects : List TermValue) → are_new table objects ≡ true
        → insert_new_objects table objects ≡ insert_objects table objects }
{}

/// A deletion leaves no object that passes its test, and of the others each as often and in the order in which they were.
#[tactic(auto, using(crate::proofs::Deleted::deleted, crate::proofs::Deleted::not_deleted, crate::proofs::SameTables::left_of_key))]
pub fn a_deletion_leaves_what_fails_its_test()
    ensures gone { (test : TermValue → Bool) (table : Table) → filter test (delete_where test table).objects ≡ [] }
    ensures others { (test p : TermValue → Bool) (table : Table) → ((object : TermValue) → test object ≡ true → p object ≡ false)
        → filter p (delete_where test table).objects ≡ filter p table.objects }
    ensures key { (test : TermValue → Bool) (table : Table) (k : TermValue)
        → objects_of (delete_where test table) k ≡ filter (λ object. not (test object)) (objects_of table k) }
{}

/// A deleted key has no objects, and other keys keep theirs.
#[tactic(auto, using(crate::proofs::Deleted::deleted_key, crate::proofs::Deleted::other_keys_not_deleted))]
pub fn a_deleted_key_has_no_objects()
    ensures gone { (table : Table) (k : TermValue) → objects_of (delete_key table k) k ≡ [] }
    ensures other_keys { (table : Table) (j k : TermValue) → is_same j k ≡ false → objects_of (delete_key table j) k ≡ objects_of table k }
    ensures all { (table : Table) (k : TermValue) → objects_of (delete_all_objects table) k ≡ [] }
{}

/// Keys that a deleted object does not have keep their objects.
#[tactic(auto, using(crate::proofs::Deleted::other_objects_not_deleted))]
pub fn a_deleted_object_leaves_other_keys()
    ensures { (table : Table) (object k : TermValue) → has_key table.keypos k object ≡ false → objects_of (delete_object table object) k ≡ objects_of table k }
{}

/// A key is touched just where its objects change.
#[tactic(auto, using(crate::proofs::TouchedKeys::untouched, crate::proofs::TouchedKeys::touched))]
pub fn a_key_is_touched_where_its_objects_change()
    ensures same { (old new : Table) (k : TermValue) → is_touched old new k ≡ false → objects_of new k ≡ objects_of old k }
    ensures other { (old new : Table) (k : TermValue) → is_touched old new k ≡ true → objects_of new k ≡ objects_of old k → ⊥ }
{}

/// Among the keys that an insert touches each key is just where it is touched, and once.
#[tactic(auto, using(crate::proofs::TouchedKeys::touched_by_insert_is, crate::proofs::TouchedKeys::touched_once))]
pub fn an_insert_touches_each_key_once()
    ensures exactly { (objects : List TermValue) (table : Table) (k : TermValue)
        → list_any (is_same k) (touched_by_insert objects table (insert_objects table objects)) ≡ is_touched table (insert_objects table objects) k }
    ensures once { (objects : List TermValue) (old new : Table) → repeats (touched_by_insert objects old new) ≡ false }
{}

/// Where the counter of a key in a set is updated, its object has the new integer in that place, and is the one of the key.
#[tactic(auto, using(crate::proofs::Counters::increments))]
pub fn a_counter_is_the_old_one_and_the_increment()
    ensures { (table : Table) (k : TermValue) (place increment : ℤ) (new : Counted) → table.kind ≡ Set
        → update_counter table k place increment ≡ Ok new → Increments table k place increment new }
{}
