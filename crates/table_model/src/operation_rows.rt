//! Worked rows of the operations, as contracts of functions that do nothing.
ghost use Rattle.std.specs.Prelude.{◌≡◌, ◌^◌, ◌-◌, [], ◌∷◌, pos, negsuc, true, false, Ok, Err};
ghost use Rattle.term_model.specs.TermValue.{integer, nil};
ghost use Rattle.term_model.specs.Written.{word, number, tuple_of, pair};
ghost use Rattle.term_model.specs.declared.kind.Kind.TheVariants.{Set, Bag, DuplicateBag};
ghost use Rattle.table_model.specs.Table.{empty_table, has_key};
ghost use Rattle.table_model.specs.Operations.{insert_objects, is_member, are_new, insert_new_objects, delete_where, delete_key, delete_object};
ghost use Rattle.table_model.specs.Operations.{delete_all_objects};
ghost use Rattle.table_model.specs.Counter.{update_counter, usual_place, is_in_range, NoCounter, OutOfRange};
ghost use Rattle.table_model.specs.Touched.{keys_of, touched_by_insert, touched_among};
ghost use Rattle.table_model.specs.Filled.{filled, four_objects, numbered_set, one_counter, second_place_set, small_bag};

/// The list `{a,1}`, `{a,1}`, `{b,1}` and `{a,2}`, inserted into an empty table of each kind.
pub fn the_same_inserts_into_tables_of_each_kind()
    ensures set { (filled Set 1 four_objects).objects
        ≡ pair (word "b") (number 1) ∷ pair (word "a") (number 2) ∷ [] }
    ensures bag { (filled Bag 1 four_objects).objects
        ≡ pair (word "a") (number 1) ∷ pair (word "b") (number 1) ∷ pair (word "a") (number 2) ∷ [] }
    ensures duplicate_bag { (filled DuplicateBag 1 four_objects).objects ≡ four_objects }
    ensures empty_list { insert_objects numbered_set [] ≡ numbered_set }
{}

/// A set with `{1,x}`: `insert_new` of `{1,y}` and `{4,y}` changes nothing, of `{4,y}` alone inserts it.
pub fn new_objects_are_inserted_where_all_keys_are_new()
    ensures not_new { are_new (filled Set 1 (pair (number 1) (word "x") ∷ [])) (pair (number 1) (word "y") ∷ pair (number 4) (word "y") ∷ []) ≡ false }
    ensures nothing { insert_new_objects (filled Set 1 (pair (number 1) (word "x") ∷ [])) (pair (number 1) (word "y") ∷ pair (number 4) (word "y") ∷ [])
        ≡ filled Set 1 (pair (number 1) (word "x") ∷ []) }
    ensures last_is_there { are_new (filled Set 1 (pair (number 1) (word "x") ∷ [])) (pair (number 4) (word "y") ∷ pair (number 1) (word "y") ∷ []) ≡ false }
    ensures is_new { are_new (filled Set 1 (pair (number 1) (word "x") ∷ [])) (pair (number 4) (word "y") ∷ []) ≡ true }
    ensures all { insert_new_objects (filled Set 1 (pair (number 1) (word "x") ∷ [])) (pair (number 4) (word "y") ∷ [])
        ≡ filled Set 1 (pair (number 1) (word "x") ∷ pair (number 4) (word "y") ∷ []) }
    ensures empty_list { are_new numbered_set [] ≡ true }
    ensures one_key_twice { insert_new_objects (empty_table Bag 1) (pair (word "a") (number 1) ∷ pair (word "a") (number 2) ∷ [])
        ≡ filled Bag 1 (pair (word "a") (number 1) ∷ pair (word "a") (number 2) ∷ []) }
{}

/// A key, an object and all objects are deleted, and what is not there.
pub fn deletions_leave_the_other_objects()
    ensures key { delete_key numbered_set (number 1) ≡ filled Set 1 (pair (number 2) (word "x") ∷ []) }
    ensures key_in_the_second_place { delete_key second_place_set (word "b") ≡ filled Set 2 (pair (number 2) (word "a") ∷ []) }
    ensures absent_key { delete_key numbered_set (number 4) ≡ numbered_set }
    ensures all_of_a_bag { delete_key small_bag (word "a") ≡ empty_table Bag 1 }
    ensures one_object { delete_object small_bag (pair (word "a") (number 1)) ≡ filled Bag 1 (pair (word "a") (number 2) ∷ []) }
    ensures each_instance { delete_object (filled DuplicateBag 1 (pair (word "a") (number 1) ∷ pair (word "a") (number 2) ∷ pair (word "a") (number 1) ∷ []))
        (pair (word "a") (number 1)) ≡ filled DuplicateBag 1 (pair (word "a") (number 2) ∷ []) }
    ensures absent_object { delete_object small_bag (pair (word "a") (number 3)) ≡ small_bag }
    ensures all_objects { delete_all_objects numbered_set ≡ empty_table Set 1 }
    ensures by_a_test { delete_where (has_key 2 (number 1)) small_bag ≡ filled Bag 1 (pair (word "a") (number 2) ∷ []) }
{}

/// A key is a member of a table with an object of it.
pub fn a_member_is_a_key_with_an_object()
    ensures member { is_member numbered_set (number 2) ≡ true }
    ensures absent { is_member numbered_set (number 4) ≡ false }
    ensures other_element { is_member numbered_set (word "x") ≡ false }
    ensures deleted { is_member (delete_key numbered_set (number 2)) (number 2) ≡ false }
{}

/// A set with `{n,5}`, in which the counter of `n` stands behind the key.
pub fn a_counter_is_incremented_in_its_place()
    ensures usual { update_counter one_counter (word "n") (pos 2) (pos 3)
        ≡ Ok (record { value = pos 8; table = filled Set 1 (pair (word "n") (number 8) ∷ []) }) }
    ensures usual_place { usual_place one_counter ≡ pos 2 }
    ensures below_zero { update_counter (filled Set 1 (pair (word "n") (number 8) ∷ [])) (word "n") (pos 2) (negsuc 9)
        ≡ Ok (record { value = negsuc 1; table = filled Set 1 (pair (word "n") (integer (negsuc 1)) ∷ []) }) }
    ensures other_place { update_counter (filled Set 2 (tuple_of (number 1 ∷ word "n" ∷ number 2 ∷ []) ∷ [])) (word "n") (pos 1) (pos 4)
        ≡ Ok (record { value = pos 5; table = filled Set 2 (tuple_of (number 5 ∷ word "n" ∷ number 2 ∷ []) ∷ []) }) }
{}

/// The same set: what is no counter, and sums at the ends of the range.
pub fn what_is_no_counter_is_not_incremented()
    ensures absent { update_counter one_counter (word "z") (pos 2) (pos 1) ≡ Err NoCounter }
    ensures place_of_the_key { update_counter (filled Set 1 (pair (number 7) (number 5) ∷ [])) (number 7) (pos 1) (pos 1) ≡ Err NoCounter }
    ensures outside { update_counter one_counter (word "n") (pos 3) (pos 1) ≡ Err NoCounter }
    ensures place_0 { update_counter one_counter (word "n") (pos 0) (pos 1) ≡ Err NoCounter }
    ensures negative_place { update_counter one_counter (word "n") (negsuc 1) (pos 1) ≡ Err NoCounter }
    ensures no_integer { update_counter (filled Set 1 (pair (word "n") (word "x") ∷ [])) (word "n") (pos 2) (pos 1) ≡ Err NoCounter }
    ensures greatest { update_counter (filled Set 1 (pair (word "n") (number (2 ^ 127 - 1)) ∷ [])) (word "n") (pos 2) (pos 1) ≡ Err OutOfRange }
    ensures least { update_counter (filled Set 1 (pair (word "n") (integer (negsuc (2 ^ 127 - 1))) ∷ [])) (word "n") (pos 2) (negsuc 0) ≡ Err OutOfRange }
    ensures greatest_is_in_range { is_in_range (pos (2 ^ 127 - 1)) ≡ true }
    ensures least_is_in_range { is_in_range (negsuc (2 ^ 127 - 1)) ≡ true }
{}

/// A key is touched where its objects change, once, in the place of the first object of the list with it.
pub fn keys_are_touched_in_the_order_of_the_inserted_list()
    ensures keys { keys_of 1 (pair (word "b") (number 1) ∷ pair (word "a") (number 1) ∷ pair (word "b") (number 2) ∷ []) ≡ word "b" ∷ word "a" ∷ [] }
    ensures once { let objects = pair (word "b") (number 1) ∷ pair (word "a") (number 1) ∷ pair (word "b") (number 2) ∷ [] in
        touched_by_insert objects (empty_table Set 1) (filled Set 1 objects) ≡ word "b" ∷ word "a" ∷ [] }
    // The first object of `a` changes nothing, and its place counts.
    ensures place_of_the_first { let objects = pair (word "a") (number 1) ∷ pair (word "b") (number 1) ∷ pair (word "a") (number 2) ∷ [] in
        let old = filled Bag 1 (pair (word "a") (number 1) ∷ []) in touched_by_insert objects old (insert_objects old objects) ≡ word "a" ∷ word "b" ∷ [] }
    ensures there_already { let objects = pair (number 2) (word "x") ∷ [] in touched_by_insert objects numbered_set (insert_objects numbered_set objects) ≡ [] }
    ensures equal_in_a_bag { let objects = pair (word "a") (number 2) ∷ [] in touched_by_insert objects small_bag (insert_objects small_bag objects) ≡ [] }
    ensures back_again { let objects = pair (number 2) (word "z") ∷ pair (number 2) (word "x") ∷ [] in
        touched_by_insert objects numbered_set (insert_objects numbered_set objects) ≡ [] }
    ensures absent_key { touched_among (number 4 ∷ []) numbered_set (delete_key numbered_set (number 4)) ≡ [] }
    ensures deleted_key { touched_among (number 1 ∷ []) numbered_set (delete_key numbered_set (number 1)) ≡ number 1 ∷ [] }
{}
