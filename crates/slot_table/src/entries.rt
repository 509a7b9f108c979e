ghost use Rattle.std.specs.Prelude.{◌≡◌, [], ◌∷◌, ◌++◌, length, OnOk, OnErr, slice_get};
ghost use Rattle.std.specs.Option.{option_copied};

use crate::{Entry, Memory};
use std::alloc::Global;
use std::marker::Model;

/// A list of entries.
#[derive(Drop)]
pub struct Entries {
    items: Vec<Entry>,
}

impl Model for Entries {
    ghost use Rattle.std.specs.Prelude.{List};
    ghost use Rattle.file_model.specs.declared.entry.Entry.{Entry};

    ghost Value = { List Entry };

    ghost view = { λ a. a.items.items };
}

impl Entries {
    /// The empty list. It takes no memory yet.
    pub fn new(alloc: Global) -> Entries
        ensures { result ≡ [] }
    {
        Entries {
            items: Vec::new(alloc),
        }
    }

    /// Puts an entry last. After `Memory` the list is as it was.
    pub fn push(&mut self, item: Entry) -> Result<(), Memory>
        ensures ok { OnOk result (self.new ≡ self.old ++ item ∷ []) }
        ensures err { OnErr result (self.new ≡ self.old) }
    {
        self.items.push(item)?;
        Ok(())
    }

    /// How many entries there are.
    pub fn len(&self) -> usize
        ensures { result ≡ length self.now }
    {
        self.items.len()
    }

    /// The entry at a place, counted from 0.
    pub fn get(&self, place: usize) -> Option<&Entry>
        ensures { option_copied result ≡ slice_get self.now place }
    {
        self.items.get(place)
    }
}
