//! Worked rows of the definitions, as contracts of functions that do nothing.
ghost use Rattle.std.specs.Prelude.{◌≡◌, [], ◌∷◌, true, false};
ghost use Rattle.term_model.specs.TermValue.{nil};
ghost use Rattle.term_model.specs.Written.{word, number, tuple_of, list_of, pair};
ghost use Rattle.term_model.specs.declared.kind.Kind.TheVariants.{Set, Bag, DuplicateBag};
ghost use Rattle.table_model.specs.Table.{empty_table, has_key, objects_of};
ghost use Rattle.table_model.specs.Filled.{filled, numbered_set, second_place_set, small_bag, small_duplicate_bag};

/// `{1,x}`, `{2,x}` and then `{1,y}`: an object takes the place of the one with its key.
pub fn a_set_keeps_the_last_object_of_each_key()
    ensures replaced { objects_of numbered_set (number 1) ≡ pair (number 1) (word "y") ∷ [] }
    ensures other_key { objects_of numbered_set (number 2) ≡ pair (number 2) (word "x") ∷ [] }
    ensures all { numbered_set.objects ≡ pair (number 2) (word "x") ∷ pair (number 1) (word "y") ∷ [] }
{}

/// `{a,1}`, `{a,1}` and then `{a,2}`: an object that is there already is not added.
pub fn a_bag_keeps_each_object_once()
    ensures { objects_of small_bag (word "a") ≡ pair (word "a") (number 1) ∷ pair (word "a") (number 2) ∷ [] }
{}

/// `{a,1}` and `{a,1}` again: each object is added.
pub fn a_duplicate_bag_keeps_equal_objects()
    ensures { objects_of small_duplicate_bag (word "a") ≡ pair (word "a") (number 1) ∷ pair (word "a") (number 1) ∷ [] }
{}

/// `{a,2}` and then `{a,1}`: the objects of a key ascend, in whatever order they were inserted.
pub fn the_objects_of_a_key_ascend_in_a_bag()
    ensures bag { objects_of (filled Bag 1 (pair (word "a") (number 2) ∷ pair (word "a") (number 1) ∷ [])) (word "a")
        ≡ pair (word "a") (number 1) ∷ pair (word "a") (number 2) ∷ [] }
    ensures other_key_between { objects_of
        (filled Bag 1 (pair (word "a") (number 2) ∷ pair (word "b") (number 3) ∷ pair (word "a") (number 1) ∷ [])) (word "a")
        ≡ pair (word "a") (number 1) ∷ pair (word "a") (number 2) ∷ [] }
    ensures smaller_tuple_first { objects_of (filled Bag 1 (tuple_of (word "a" ∷ number 1 ∷ number 1 ∷ []) ∷ pair (word "a") (word "z") ∷ [])) (word "a")
        ≡ pair (word "a") (word "z") ∷ tuple_of (word "a" ∷ number 1 ∷ number 1 ∷ []) ∷ [] }
{}

/// `{a,2}`, `{a,1}` and `{a,2}` again: equal objects stand next to each other.
pub fn the_objects_of_a_key_ascend_in_a_duplicate_bag()
    ensures { objects_of (filled DuplicateBag 1 (pair (word "a") (number 2) ∷ pair (word "a") (number 1) ∷ pair (word "a") (number 2) ∷ [])) (word "a")
        ≡ pair (word "a") (number 1) ∷ pair (word "a") (number 2) ∷ pair (word "a") (number 2) ∷ [] }
{}

/// `{1,a}`, `{1,b}` and then `{2,a}` in a set whose key is the second element.
pub fn the_key_may_stand_in_the_second_place()
    ensures replaced { objects_of second_place_set (word "a") ≡ pair (number 2) (word "a") ∷ [] }
    ensures other_key { objects_of second_place_set (word "b") ≡ pair (number 1) (word "b") ∷ [] }
    ensures first_element { objects_of second_place_set (number 1) ≡ [] }
{}

/// In a table of any kind a key that is absent has no objects, and an element that is no key is none.
pub fn a_key_that_is_absent_has_no_objects()
    ensures empty { objects_of (empty_table Set 1) (word "k") ≡ [] }
    ensures set { objects_of numbered_set (number 4) ≡ [] }
    ensures bag { objects_of small_bag (number 1) ≡ [] }
    ensures duplicate_bag { objects_of small_duplicate_bag (word "b") ≡ [] }
{}

/// An object has the key at keypos and no other.
pub fn an_object_has_the_key_at_keypos_alone()
    ensures first { has_key 1 (word "k") (pair (word "k") (number 1)) ≡ true }
    ensures second { has_key 2 (number 1) (pair (word "k") (number 1)) ≡ true }
    ensures other_key { has_key 1 (word "z") (pair (word "k") (number 1)) ≡ false }
    ensures unlike_key { has_key 1 (tuple_of []) (pair nil (number 1)) ≡ false }
    ensures too_short { has_key 2 (word "k") (tuple_of (word "k" ∷ [])) ≡ false }
    ensures list { has_key 1 (word "k") (list_of (word "k" ∷ [])) ≡ false }
{}

/// `{a,2}` and then `{a,1}`, and the other way round: the last one stays.
pub fn the_order_of_inserts_counts_in_a_set()
    ensures ascending { (filled Set 1 (pair (word "a") (number 1) ∷ pair (word "a") (number 2) ∷ [])).objects ≡ pair (word "a") (number 2) ∷ [] }
    ensures descending { (filled Set 1 (pair (word "a") (number 2) ∷ pair (word "a") (number 1) ∷ [])).objects ≡ pair (word "a") (number 1) ∷ [] }
{}
