ghost use Rattle.std.specs.Prelude.{◌≡◌, [], ◌∷◌, ◌++◌, length, OnOk, OnErr, slice_get};
ghost use Rattle.std.specs.Option.{option_copied};

use crate::{Change, Memory};
use std::alloc::Global;
use std::marker::Model;

/// The changes of one command, in order.
#[derive(Drop)]
pub struct Changes {
    items: Vec<Change>,
}

impl Model for Changes {
    ghost use Rattle.std.specs.Prelude.{List};
    ghost use Rattle.book_model.specs.declared.change.Change.{Change};

    ghost Value = { List Change };

    ghost view = { λ a. a.items.items };
}

impl Changes {
    /// The empty list. It takes no memory yet.
    pub fn new(alloc: Global) -> Changes
        ensures { result ≡ [] }
    {
        Changes {
            items: Vec::new(alloc),
        }
    }

    /// Puts a change last. After `Memory` the list is as it was.
    pub fn push(&mut self, item: Change) -> Result<(), Memory>
        ensures ok { OnOk result (self.new ≡ self.old ++ item ∷ []) }
        ensures err { OnErr result (self.new ≡ self.old) }
    {
        self.items.push(item)?;
        Ok(())
    }

    /// How many changes there are.
    pub fn len(&self) -> usize
        ensures { result ≡ length self.now }
    {
        self.items.len()
    }

    /// The change at a place, counted from 0.
    pub fn get(&self, place: usize) -> Option<&Change>
        ensures { option_copied result ≡ slice_get self.now place }
    {
        self.items.get(place)
    }

    /// All changes in order.
    pub(crate) fn as_slice(&self) -> &[Change]
        ensures { result.now ≡ self.now }
    {
        self.items.as_slice()
    }

    /// The changes themselves.
    pub(crate) fn into_vec(self) -> Vec<Change>
        ensures { result.items ≡ self }
    {
        self.items
    }
}
