//! Terms in std's traits of equality and order, so that they can be the keys of maps.
ghost use Rattle.std.specs.Cmp.{partial_equiv_from_equiv, partial_order_from_own_ties};
ghost use Rattle.std.specs.Ordering.{as_partial_cmp};
ghost use Rattle.std.proofs.Common.{rules};
ghost use Rattle.std.proofs.lemmas.Cmp.{eq_by_cmp_equiv};
ghost use Rattle.std.specs.Cmp.Rules.{comparing};
ghost use Rattle.term_model.specs.Order.{order, is_same};
ghost use Rattle.term_model.specs.OrderCode.{order_total};

use crate::order;
use crate::term::Term;
use std::cmp::Ordering;

impl PartialEq for Term {
    ghost eq = { is_same };

    ghost laws = { partial_equiv_from_equiv (eq_by_cmp_equiv order_total) };

    fn eq(&self, other: &Term) -> bool {
        order::eq(self, other)
    }
}

impl Eq for Term {
    ghost laws = { eq_by_cmp_equiv order_total };
}

impl PartialOrd for Term {
    ghost partial_cmp = { as_partial_cmp order };

    ghost laws = { partial_order_from_own_ties (Prim.search (comparing, rules, order_total)) (Prim.search (comparing, rules)) };

    fn partial_cmp(&self, other: &Term) -> Option<Ordering> {
        Some(order::cmp(self, other))
    }
}

impl Ord for Term {
    ghost cmp = { order };

    ghost total = { order_total };

    ghost matches_partial_cmp = { Prim.search (comparing, rules) };

    ghost matches_eq = { Prim.search (comparing, rules) };

    fn cmp(&self, other: &Term) -> Ordering {
        order::cmp(self, other)
    }
}
