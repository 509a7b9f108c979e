ghost use Rattle.std.specs.Prelude.{◌≡◌, List, [], ◌∷◌, ◌++◌, length, OnOk, OnErr, IfOk, slice_get};
ghost use Rattle.std.specs.Ordering.{nat_cmp};
ghost use Rattle.std.specs.Cmp.Lexicographic.{slice_cmp};
ghost use Rattle.std.specs.Str.{chars};

use crate::Memory;
use std::alloc::Global;
use std::cmp::Ordering;
use std::marker::Model;

/// A list of characters, kept in UTF-8.
#[derive(Drop)]
pub struct Text {
    utf8: String,
}

impl Model for Text {
    ghost use Rattle.std.specs.Prelude.{ℕ, List, string_bytes};
    ghost use Rattle.std.specs.Str.{chars};

    ghost Value = { List ℕ };

    ghost view = { λ a. chars (string_bytes a.utf8) };
}

impl Text {
    /// The empty text. It takes no memory yet.
    pub fn new(alloc: Global) -> Text
        ensures { result ≡ [] }
    {
        Text {
            utf8: String::new(alloc),
        }
    }

    /// The characters of a `str`.
    pub(crate) fn from_str(alloc: Global, text: &str) -> Result<Text, Memory>
        ensures { IfOk result (λ made. made ≡ chars text.now) }
    {
        Ok(Text {
            utf8: String::from_str(alloc, text)?,
        })
    }

    /// The same characters once more.
    pub(crate) fn copy(&self, alloc: Global) -> Result<Text, Memory>
        ensures { IfOk result (λ made. made ≡ self.now) }
    {
        Text::from_str(alloc, self.utf8.as_str())
    }

    /// Puts a character last. After `Memory` the text is as it was.
    pub fn push(&mut self, item: char) -> Result<(), Memory>
        ensures ok { OnOk result (self.new ≡ self.old ++ item ∷ []) }
        ensures err { OnErr result (self.new ≡ self.old) }
    {
        self.utf8.push(item)?;
        Ok(())
    }

    /// How many characters there are. It goes through all of them.
    pub fn len(&self) -> usize
        ensures { result ≡ length self.now }
    {
        char_count(self.utf8.as_str())
    }

    /// The character at a place, counted from 0. It goes through all characters before that place.
    pub fn get(&self, place: usize) -> Option<char>
        ensures { result ≡ slice_get self.now place }
    {
        self.utf8.as_str().chars().nth(place)
    }

    /// All characters in order.
    pub fn as_str(&self) -> &str
        ensures { chars result.now ≡ self.now }
    {
        self.utf8.as_str()
    }

    /// The order of two texts, character by character.
    pub(crate) fn compare(&self, other: &Text) -> Ordering
        ensures { result ≡ slice_cmp nat_cmp self.now other.now }
    {
        self.utf8.as_str().chars().cmp(other.utf8.as_str().chars())
    }
}

/// How many characters a `str` has.
pub(crate) fn char_count(text: &str) -> usize
    ensures { result ≡ length (chars text.now) }
{
    text.chars().count()
}
