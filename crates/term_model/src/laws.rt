//! Laws of the definitions, as contracts of functions that do nothing.
ghost use Rattle.std.specs.Prelude.{◌≡◌, ◌↔◌, IsTrue, List};
ghost use Rattle.std.specs.Cmp.{IsTotalOrder};
ghost use Rattle.std.specs.List.Sorted.{IsPermutation, IsSortedByKey};
ghost use Rattle.std.specs.declared.cmp.Ordering.TheVariants.{Equal};
ghost use Rattle.term_model.specs.TermValue.{TermValue};
ghost use Rattle.term_model.specs.Order.{order, is_same};
ghost use Rattle.term_model.specs.Pairs.{by_key};

/// Of two terms one is less or they are equal, and what is less than a lesser one is less.
#[tactic(auto, using(crate::specs::OrderCode::order_total))]
pub fn terms_are_in_a_total_order()
    ensures { IsTotalOrder order }
{}

/// No two different terms compare equal, and no term differs from itself.
#[tactic(auto, using(crate::specs::Same::order_decides))]
pub fn terms_that_compare_equal_are_equal()
    ensures { (a b : TermValue) → (order a b ≡ Equal) ↔ (a ≡ b) }
{}

/// The test on two values is equality.
#[tactic(auto, using(crate::specs::Same::same_decides))]
pub fn same_decides()
    ensures { (a b : TermValue) → IsTrue (is_same a b) ↔ (a ≡ b) }
{}

/// Pairs by key are the same pairs, none with a lesser key than the one in front of it.
pub fn pairs_by_key_are_the_same_pairs_in_order()
    ensures same { (pairs : List (TermValue × TermValue)) → IsPermutation pairs (by_key pairs) }
    ensures in_order { (pairs : List (TermValue × TermValue)) → IsSortedByKey (λ p. p.0) order (by_key pairs) }
{}
