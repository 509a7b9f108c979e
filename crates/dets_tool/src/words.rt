// The words that the program is called with.
ghost use Rattle.std.specs.Prelude.{◌≡◌, ◌<◌, [], ◌∷◌, ◌++◌, length, Some, OnOk, OnErr, slice_get};

use crate::Memory;
use std::alloc::Global;
use std::marker::Model;

/// The words that the program is called with, without its own name.
#[derive(Drop)]
pub struct Words {
    alloc: Global,
    words: Vec<String>,
}

impl Model for Words {
    ghost use Rattle.std.specs.Prelude.{ℕ, List, map, string_bytes};

    ghost Value = { List (List ℕ) };

    ghost view = { λ a. map (λ word. string_bytes word) a.words.items };
}

impl Words {
    /// No words. It takes no memory yet.
    pub fn new(alloc: Global) -> Words
        ensures { result ≡ [] }
    {
        Words {
            alloc,
            words: Vec::new(alloc),
        }
    }

    /// Puts a word last. After `Memory` the words are as they were.
    pub fn push(&mut self, word: &str) -> Result<(), Memory>
        ensures ok { OnOk result (self.new ≡ self.old ++ word.now ∷ []) }
        ensures err { OnErr result (self.new ≡ self.old) }
    {
        self.words.push(String::from_str(self.alloc, word)?)?;
        Ok(())
    }

    /// How many words there are.
    pub(crate) fn len(&self) -> usize
        ensures { result ≡ length self.now }
    {
        self.words.len()
    }

    /// The word at a place, counted from 0.
    pub(crate) fn at(&self, place: usize) -> &str
        requires { place < length self.now }
        ensures { slice_get self.now place ≡ Some result.now }
    {
        self.words[place].as_str()
    }
}
