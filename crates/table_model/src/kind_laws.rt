//! Laws of the objects that a kind allows, as contracts of functions that do nothing.
ghost use Rattle.std.specs.Prelude.{◌≡◌, ◌≤◌, ℕ, ℤ, Bool, List, length, Ok, true, false};
ghost use Rattle.std.specs.List.{list_all};
ghost use Rattle.term_model.specs.TermValue.{TermValue};
ghost use Rattle.term_model.specs.Pairs.{repeats};
ghost use Rattle.term_model.specs.declared.kind.Kind.{Kind};
ghost use Rattle.term_model.specs.declared.kind.Kind.TheVariants.{Set, Bag};
ghost use Rattle.table_model.specs.Table.{Table, empty_table, objects_of};
ghost use Rattle.table_model.specs.Operations.{insert_objects, insert_new_objects, delete_where};
ghost use Rattle.table_model.specs.Counter.{Counted, update_counter};
ghost use Rattle.table_model.specs.Allowed.{is_object, IsTable};

/// Each operation leaves objects that the table's kind allows.
pub fn a_table_keeps_what_its_kind_allows()
    ensures empty { (kind : Kind) (keypos : ℕ) → IsTable (empty_table kind keypos) }
    ensures insert { (objects : List TermValue) (table : Table) → IsTable table → list_all (is_object table.keypos) objects ≡ true
        → IsTable (insert_objects table objects) }
    ensures insert_new { (objects : List TermValue) (table : Table) → IsTable table → list_all (is_object table.keypos) objects ≡ true
        → IsTable (insert_new_objects table objects) }
    ensures delete { (test : TermValue → Bool) (table : Table) → IsTable table → IsTable (delete_where test table) }
    ensures counter { (table : Table) (k : TermValue) (place increment : ℤ) (new : Counted) → update_counter table k place increment ≡ Ok new
        → IsTable table → IsTable new.table }
{}

/// A set has one object of a key at most, and a bag no two equal ones.
#[tactic(auto, using(crate::proofs::AllowedKept::one_in_a_set, crate::proofs::AllowedKept::once_in_a_bag))]
pub fn a_kind_limits_the_objects_of_a_key()
    ensures set { (table : Table) (k : TermValue) → table.kind ≡ Set → IsTable table → length (objects_of table k) ≤ 1 }
    ensures bag { (table : Table) (k : TermValue) → table.kind ≡ Bag → IsTable table → repeats (objects_of table k) ≡ false }
{}
