ghost use Rattle.std.specs.Prelude.{◌≡◌, List, [], ◌∷◌, ◌++◌, length, OnOk, OnErr, IfOk, slice_get};
ghost use Rattle.std.specs.Option.{option_copied};
ghost use Rattle.dets_term.specs.Parts.{deepest, AreTerms};

use crate::Memory;
use crate::term::Term;
use std::alloc::Global;
use std::marker::Model;

/// A list of terms.
#[cycle(term)]
#[derive(Drop)]
pub struct TermList {
    pub(crate) items: Vec<Term>,
    // the greatest depth among them, 0 where there is none
    levels: u32,
}

impl Model for TermList {
    ghost use Rattle.std.specs.Prelude.{◌≡◌, ◌+◌, ◌*◌, List};
    ghost use Rattle.std.specs.Coded.{coded_list};
    ghost use Rattle.term_model.specs.TermValue.{TermValue};
    ghost use Rattle.dets_term.specs.TermCode.{coded_term};

    ghost Value = { List TermValue };

    ghost coded = { coded_list coded_term };

    ghost use Rattle.dets_term.specs.Parts.{deepest, AreTerms, most_le-deepest};

    ghost view = { λ a. a.items.items };

    ghost invariant = { λ a. (a.levels ≡ deepest a.items.items) × AreTerms a.items.items };

    ghost size = { λ ts. 2 * deepest ts + 1 };

    ghost use Rattle.std.proofs.Common.{arith};

    ghost size_decreases = { λ a h. Prim.omega (arith, most_le-deepest a.items.items) };
}

impl TermList {
    /// The empty list. It takes no memory yet.
    pub fn new(alloc: Global) -> TermList
        ensures { result ≡ [] }
    {
        TermList {
            items: Vec::new(alloc),
            levels: 0,
        }
    }

    /// Puts a term last. After `Memory` the list is as it was.
    pub fn push(&mut self, item: Term) -> Result<(), Memory>
        ensures ok { OnOk result (self.new ≡ self.old ++ item ∷ []) }
        ensures err { OnErr result (self.new ≡ self.old) }
    {
        let levels = self.levels.max(item.depth());
        take_first_room(&mut self.items)?;
        self.items.push(item)?;
        self.levels = levels;
        Ok(())
    }

    /// Puts the terms of another list last, in order. After `Memory` the list is as it was.
    pub(crate) fn append(&mut self, other: TermList) -> Result<(), Memory>
        ensures ok { OnOk result (self.new ≡ self.old ++ other) }
        ensures err { OnErr result (self.new ≡ self.old) }
    {
        let levels = self.levels.max(other.levels);
        let mut items = other.items;
        self.items.append(&mut items)?;
        self.levels = levels;
        Ok(())
    }

    /// How many terms there are.
    pub fn len(&self) -> usize
        ensures { result ≡ length self.now }
    {
        self.items.len()
    }

    /// The term at a place, counted from 0.
    pub fn get(&self, place: usize) -> Option<&Term>
        ensures { option_copied result ≡ slice_get self.now place }
    {
        self.items.get(place)
    }

    /// Gives back room for terms that are not there.
    pub(crate) fn shrink_to_fit(&mut self)
        ensures { self.new ≡ self.old }
    {
        self.items.shrink_to_fit();
    }

    /// The greatest depth among the terms, 0 where there is none.
    pub fn levels(&self) -> u32
        ensures value { result ≡ deepest self.now }
        ensures terms { AreTerms self.now }
    {
        self.levels
    }

    /// The same terms once more.
    #[cycle(copy)]
    pub(crate) fn copy(&self, alloc: Global) -> Result<TermList, Memory>
        ensures { IfOk result (λ made. made ≡ self.now) }
    {
        let mut made = TermList::new(alloc);
        for item in &self.items {
            made.push(item.copy(alloc)?)?;
        }
        Ok(made)
    }
}

/// Takes room for two terms where there is none yet: most tuples have few parts.
fn take_first_room(items: &mut Vec<Term>) -> Result<(), Memory>
    ensures { items.new.items ≡ items.old.items }
{
    if items.is_empty() {
        items.reserve_exact(2)?;
    }
    Ok(())
}
