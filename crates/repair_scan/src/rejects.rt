ghost use Rattle.std.specs.Prelude.{◌≡◌, [], ◌∷◌, ◌++◌, length, OnOk, OnErr, slice_get};
ghost use Rattle.std.specs.Option.{option_copied};

use crate::{Memory, Reject};
use std::alloc::Global;
use std::marker::Model;

/// A list of rejects.
#[derive(Drop)]
pub struct Rejects {
    items: Vec<Reject>,
}

impl Model for Rejects {
    ghost use Rattle.std.specs.Prelude.{List};
    ghost use Rattle.file_model.specs.declared.reject.Reject.{Reject};

    ghost Value = { List Reject };

    ghost view = { λ a. a.items.items };
}

impl Rejects {
    /// The empty list. It takes no memory yet.
    pub fn new(alloc: Global) -> Rejects
        ensures { result ≡ [] }
    {
        Rejects {
            items: Vec::new(alloc),
        }
    }

    /// Puts a reject last. After `Memory` the list is as it was.
    pub fn push(&mut self, item: Reject) -> Result<(), Memory>
        ensures ok { OnOk result (self.new ≡ self.old ++ item ∷ []) }
        ensures err { OnErr result (self.new ≡ self.old) }
    {
        self.items.push(item)?;
        Ok(())
    }

    /// How many rejects there are.
    pub fn len(&self) -> usize
        ensures { result ≡ length self.now }
    {
        self.items.len()
    }

    /// The reject at a place, counted from 0.
    pub fn get(&self, place: usize) -> Option<&Reject>
        ensures { option_copied result ≡ slice_get self.now place }
    {
        self.items.get(place)
    }

    /// All rejects in order.
    pub fn as_slice(&self) -> &[Reject]
        ensures { result.now ≡ self.now }
    {
        self.items.as_slice()
    }
}
