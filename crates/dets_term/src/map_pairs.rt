ghost use Rattle.std.specs.Prelude.{◌≡◌, List, [], false, OnOk, OnErr, IfOk};
ghost use Rattle.std.specs.List.{list_any};
ghost use Rattle.term_model.specs.IsTerm.{AreAscending};
ghost use Rattle.term_model.specs.Order.{is_same};
ghost use Rattle.term_model.specs.Pairs.{keys, placed};

use crate::{Memory, PairList, Term};
use std::alloc::Global;
use std::collections::BTreeMap;
use std::marker::Model;

/// The pairs of a map that were read so far, by ascending key.
#[derive(Drop)]
pub struct MapPairs {
    sorted: BTreeMap<Term, Term>,
}

impl Model for MapPairs {
    ghost use Rattle.std.specs.Prelude.{List};
    ghost use Rattle.std.specs.Coded.{coded_list, coded×};
    ghost use Rattle.term_model.specs.TermValue.{TermValue};
    ghost use Rattle.dets_term.specs.TermCode.{coded_term};

    ghost Value = { List (TermValue × TermValue) };

    ghost coded = { coded_list (coded× coded_term coded_term) };

    ghost view = { λ a. a.sorted.entries };
}

impl MapPairs {
    /// No pair. It takes no memory yet.
    pub fn new(alloc: Global) -> MapPairs
        ensures { result ≡ [] }
    {
        MapPairs {
            sorted: BTreeMap::new(alloc),
        }
    }

    /// Whether one of the keys is this one.
    pub fn has_key(&self, key: &Term) -> bool
        ensures { result ≡ list_any (is_same key.now) (keys self.now) }
    {
        self.sorted.contains_key(key)
    }

    /// Puts a pair among these by its key. After `Memory` they are as they were.
    pub fn insert(&mut self, key: Term, value: Term) -> Result<(), Memory>
        requires { list_any (is_same key) (keys self.old) ≡ false }
        ensures ok { OnOk result (self.new ≡ placed (key, value) self.old) }
        ensures err { OnErr result (self.new ≡ self.old) }
    {
        self.sorted.insert(key, value)?;
        Ok(())
    }

    /// All pairs by ascending key.
    pub fn into_pairs(self, alloc: Global) -> Result<PairList, Memory>
        ensures pairs { IfOk result (λ pairs. pairs ≡ self) }
        ensures ascending { AreAscending (keys self) }
    {
        let _count = self.sorted.len();
        let mut pairs = PairList::new(alloc);
        for pair in self.sorted {
            pairs.push(pair)?;
        }
        Ok(pairs)
    }
}
