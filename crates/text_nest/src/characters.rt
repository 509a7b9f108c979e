ghost use Rattle.std.specs.Prelude.{◌≡◌, ◌<◌, ◌^◌, [], ◌∷◌, ◌++◌, length, OnOk};

use crate::Memory;
use dets_term::Text;
use std::alloc::Global;

/// The characters of an atom or of a string so far.
#[derive(Drop)]
pub struct Characters {
    pub text: Text,
    /// How many there are.
    pub count: u64,
    ghost counted: { count ≡ length text },
}

impl Characters {
    /// No character.
    pub fn new(alloc: Global) -> Characters
        ensures { result.text ≡ [] }
    {
        Characters {
            text: Text::new(alloc),
            count: 0,
        }
    }

    /// Puts a character last. After `Memory` nothing is said of them.
    pub fn push(&mut self, character: char) -> Result<(), Memory>
        requires { self.old.count < 2 ^ 63 }
        ensures { OnOk result (self.new.text ≡ self.old.text ++ character ∷ []) }
    {
        self.text.push(character)?;
        self.count += 1;
        Ok(())
    }
}
