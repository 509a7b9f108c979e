ghost use Rattle.std.specs.Prelude.{◌≡◌, ◌-◌, ◌%◌, ◌^◌, ◌≤◌, List, [], ◌∷◌, ◌++◌, take, drop, length, IfOk, OnOk, OnErr, slice_get};
ghost use Rattle.term_model.specs.BitString.{byte_bits, bits_of, MayUse, IsPadded};

use crate::Memory;
use std::alloc::Global;
use std::marker::Model;

/// A list of bytes.
#[derive(Drop)]
pub struct ByteList {
    bytes: Vec<u8>,
}

impl Model for ByteList {
    ghost use Rattle.std.specs.Prelude.{ℕ, List};

    ghost Value = { List ℕ };

    ghost view = { λ a. a.bytes.items };
}

impl ByteList {
    /// The empty list. It takes no memory yet.
    pub fn new(alloc: Global) -> ByteList
        ensures { result ≡ [] }
    {
        ByteList {
            bytes: Vec::new(alloc),
        }
    }

    /// The same bytes once more.
    pub(crate) fn copy(&self, alloc: Global) -> Result<ByteList, Memory>
        ensures { IfOk result (λ made. made ≡ self.now) }
    {
        Ok(ByteList {
            bytes: self.bytes.as_slice().to_vec(alloc)?,
        })
    }

    /// Puts a byte last. After `Memory` the list is as it was.
    pub fn push(&mut self, item: u8) -> Result<(), Memory>
        ensures ok { OnOk result (self.new ≡ self.old ++ item ∷ []) }
        ensures err { OnErr result (self.new ≡ self.old) }
    {
        self.bytes.push(item)?;
        Ok(())
    }

    /// Puts bytes last, in order. After `Memory` the list is as it was.
    pub fn extend_from_slice(&mut self, items: &[u8]) -> Result<(), Memory>
        ensures ok { OnOk result (self.new ≡ self.old ++ items.now) }
        ensures err { OnErr result (self.new ≡ self.old) }
    {
        self.bytes.extend_from_slice(items)
    }

    /// Writes bytes over the first ones.
    pub fn overwrite_front(&mut self, items: &[u8])
        requires { length items.now ≤ length self.old }
        ensures { self.new ≡ items.now ++ drop (length items.now) self.old }
    {
        overwrite(self.bytes.as_mut_slice(), items);
    }

    /// Clears the bits of the last byte that are not used.
    pub(crate) fn clear_unused(&mut self, used: u8)
        requires { MayUse self.old used }
        ensures bits { bits_of self.new used ≡ bits_of self.old used }
        ensures padded { IsPadded self.new used }
        ensures len { length self.new ≡ length self.old }
    {
        if let Some(last) = self.bytes.last_mut() {
            *last = front_bits(*last, used);
        }
    }

    /// How many bytes there are.
    pub fn len(&self) -> usize
        ensures { result ≡ length self.now }
    {
        self.bytes.len()
    }

    /// The byte at a place, counted from 0.
    pub fn get(&self, place: usize) -> Option<u8>
        ensures { result ≡ slice_get self.now place }
    {
        self.bytes.get(place).copied()
    }

    /// The bytes in order, taken out of the list.
    pub fn into_vec(self) -> Vec<u8>
        ensures { result.items ≡ self }
    {
        self.bytes
    }

    /// All bytes in order.
    pub fn as_slice(&self) -> &[u8]
        ensures { result.now ≡ self.now }
    {
        self.bytes.as_slice()
    }
}

/// Writes bytes over the first ones of others.
fn overwrite(bytes: &mut [u8], items: &[u8])
    requires { length items.now ≤ length bytes.old }
    ensures { bytes.new ≡ items.now ++ drop (length items.now) bytes.old }
{
    bytes[..items.len()].copy_from_slice(items);
}

/// A byte with its lower bits cleared: so many from the highest on stay.
fn front_bits(byte: u8, count: u8) -> u8
    requires some { 1 ≤ count }
    requires all { count ≤ 8 }
    ensures kept { take count (byte_bits result) ≡ take count (byte_bits byte) }
    ensures cleared { result % 2 ^ (8 - count) ≡ 0 }
{
    let unused = 8 - count;
    byte >> unused << unused
}
