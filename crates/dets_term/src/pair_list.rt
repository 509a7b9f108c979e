ghost use Rattle.std.specs.Prelude.{◌≡◌, List, [], ◌∷◌, ◌++◌, length, ◌↔◌, IsTrue, OnOk, OnErr, IfOk, slice_get};
ghost use Rattle.std.specs.Option.{option_copied};
ghost use Rattle.std.specs.List.Sorted.{IsPermutation, IsSortedByKey};
ghost use Rattle.term_model.specs.Order.{order};
ghost use Rattle.term_model.specs.IsTerm.{AreAscending};
ghost use Rattle.term_model.specs.Pairs.{keys};
ghost use Rattle.dets_term.specs.Parts.{deepest_of_pairs, ArePairs};

use crate::Memory;
use crate::order::cmp;
use crate::term::Term;
use std::alloc::Global;
use std::marker::Model;

/// A list of pairs of a key and a value, in any order.
#[cycle(term)]
#[derive(Drop)]
pub struct PairList {
    pub(crate) items: Vec<(Term, Term)>,
    // the greatest depth among the keys and values, 0 where there is none
    levels: u32,
}

impl Model for PairList {
    ghost use Rattle.std.specs.Prelude.{◌≡◌, ◌+◌, ◌*◌, List};
    ghost use Rattle.std.specs.Coded.{coded_list, coded×};
    ghost use Rattle.term_model.specs.TermValue.{TermValue};
    ghost use Rattle.dets_term.specs.TermCode.{coded_term};

    ghost Value = { List (TermValue × TermValue) };

    ghost coded = { coded_list (coded× coded_term coded_term) };

    ghost use Rattle.dets_term.specs.Parts.{deepest_of_pairs, ArePairs};

    ghost view = { λ a. a.items.items };

    ghost invariant = { λ a. (a.levels ≡ deepest_of_pairs a.items.items) × ArePairs a.items.items };

    ghost size = { λ ps. 2 * deepest_of_pairs ps + 1 };

    ghost use Rattle.std.proofs.Common.{arith};
    ghost use Rattle.dets_term.specs.PairFalls.{most_le-deepest_of_pairs};

    ghost size_decreases = { λ a h. Prim.omega (arith, most_le-deepest_of_pairs a.items.items) };
}

impl PairList {
    /// The empty list. It takes no memory yet.
    pub fn new(alloc: Global) -> PairList
        ensures { result ≡ [] }
    {
        PairList {
            items: Vec::new(alloc),
            levels: 0,
        }
    }

    /// Puts a pair last. After `Memory` the list is as it was.
    pub fn push(&mut self, item: (Term, Term)) -> Result<(), Memory>
        ensures ok { OnOk result (self.new ≡ self.old ++ item ∷ []) }
        ensures err { OnErr result (self.new ≡ self.old) }
    {
        let levels = self.levels.max(item.0.depth()).max(item.1.depth());
        self.items.push(item)?;
        self.levels = levels;
        Ok(())
    }

    /// How many pairs there are.
    pub fn len(&self) -> usize
        ensures { result ≡ length self.now }
    {
        self.items.len()
    }

    /// The pair at a place, counted from 0.
    pub fn get(&self, place: usize) -> Option<&(Term, Term)>
        ensures { option_copied result ≡ slice_get self.now place }
    {
        self.items.get(place)
    }

    /// The greatest depth among the keys and values, 0 where there is none.
    pub(crate) fn levels(&self) -> u32
        ensures value { result ≡ deepest_of_pairs self.now }
        ensures pairs { ArePairs self.now }
    {
        self.levels
    }

    /// Puts the pairs in order by their keys. It takes no memory.
    pub(crate) fn sort_by_key(&mut self)
        ensures permutation { IsPermutation self.old self.new }
        ensures sorted { IsSortedByKey (λ p. p.0) order self.new }
    {
        self.items.sort_unstable_by(|p, q| cmp(&p.0, &q.0));
    }

    /// Whether each key is less than the next one.
    pub(crate) fn keys_ascend(&self) -> bool
        ensures { IsTrue result ↔ AreAscending (keys self.now) }
    {
        self.items
            .as_slice()
            .is_sorted_by(|p, q| cmp(&p.0, &q.0).is_lt())
    }

    /// The same pairs once more.
    #[cycle(copy)]
    pub(crate) fn copy(&self, alloc: Global) -> Result<PairList, Memory>
        ensures { IfOk result (λ made. made ≡ self.now) }
    {
        let mut made = PairList::new(alloc);
        for item in &self.items {
            made.push((item.0.copy(alloc)?, item.1.copy(alloc)?))?;
        }
        Ok(made)
    }
}
