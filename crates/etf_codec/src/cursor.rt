ghost use Rattle.std.specs.Prelude.{◌≡◌, ℕ, ◌<◌, ◌≤◌, ◌+◌, ◌^◌, length, IfOk, IfErr, OnErr};
ghost use Rattle.etf_model.specs.Format.{byte, times};
ghost use Rattle.etf_model.specs.Spelling.{number, sized, count};
ghost use Rattle.etf_codec.specs.Reads.{Reads};

use crate::EtfFault;
use std::marker::Model;

/// A position in some bytes that begin at an offset: its own offset and what is left.
#[derive(Drop)]
pub struct Cursor<'a> {
    start: u64,
    bytes: &'a [u8],
    at: usize,
}

impl<'a> Model for Cursor<'a> {
    ghost use Rattle.std.specs.Prelude.{◌≤◌, ◌<◌, ◌+◌, ◌^◌, length};
    ghost use Rattle.etf_model.specs.Format.{Position};
    ghost use Rattle.etf_codec.specs.Reads.{position_at};

    ghost Value = { Position };

    ghost view = { λ a. position_at a.start a.bytes.now a.at };

    ghost invariant = { λ a. (a.at ≤ length a.bytes.now) × (a.start + length a.bytes.now < 2 ^ 64) };
}

impl<'a> Cursor<'a> {
    /// At the front of some bytes that begin at an offset.
    pub fn new(start: u64, bytes: &'a [u8]) -> Cursor<'a>
        requires { start + length bytes.now < 2 ^ 64 }
        ensures { result ≡ record { offset = start; left = bytes.now } }
    {
        Cursor {
            start,
            bytes,
            at: 0,
        }
    }

    /// The offset of this position.
    pub fn offset(&self) -> u64
        ensures { result ≡ self.now.offset }
    {
        self.start + self.at as u64
    }

    /// Another one at this position.
    pub fn copied(&self) -> Cursor<'a>
        ensures { result ≡ self.now }
    {
        Cursor {
            start: self.start,
            bytes: self.bytes,
            at: self.at,
        }
    }

    /// The next byte. Where there is none the position stays.
    pub fn byte(&mut self) -> Result<u8, EtfFault>
        ensures reads { (term : ℕ) → Reads byte term self.old self.new result }
        ensures shorter { IfOk result (λ x. length self.new.left < length self.old.left) }
        ensures stays { OnErr result (self.new ≡ self.old) }
    {
        let value = *self.bytes.get(self.at).ok_or(EtfFault::Short)?;
        self.at += 1;
        Ok(value)
    }

    /// So many bytes.
    pub fn take(&mut self, count: usize) -> Result<&'a [u8], EtfFault>
        ensures ok { IfOk result (λ front. (term : ℕ) → (times count byte).read term self.old ≡ Ok (front.now, self.new)) }
        ensures err { IfErr result (λ fault. (term : ℕ) → (times count byte).read term self.old ≡ Err fault) }
        ensures len { IfOk result (λ front. length front.now ≡ count) }
    {
        let left = &self.bytes[self.at..];
        if left.len() < count {
            return Err(EtfFault::Short);
        }
        self.at += count;
        Ok(&left[..count])
    }

    /// A big-endian number of so many bytes, at most four.
    pub fn number(&mut self, size: u32) -> Result<u32, EtfFault>
        requires { size ≤ 4 }
        ensures { (term : ℕ) → Reads (number size) term self.old self.new result }
    {
        let mut value = 0;
        for _ in 0..size {
            value = 256 * value + u32::from(self.byte()?);
        }
        Ok(value)
    }

    /// As many bytes as a number in front of them says, which has so many bytes, at most four.
    pub fn sized(&mut self, size: u32) -> Result<&'a [u8], EtfFault>
        requires { size ≤ 4 }
        ensures ok { IfOk result (λ bytes. (term : ℕ) → (sized size).read term self.old ≡ Ok (bytes.now, self.new)) }
        ensures err { IfErr result (λ fault. (term : ℕ) → (sized size).read term self.old ≡ Err fault) }
        ensures len { IfOk result (λ bytes. length bytes.now < 2 ^ 32) }
    {
        let length = self.number(size)?;
        self.take(length as usize)
    }

    /// The number of parts of the term that begins at an offset, as a number of so many bytes, at most four. Where
    /// no level is left below the term, `Depth` at the first byte that is not 0.
    pub fn count(&mut self, size: u32, levels: u32, term: u64) -> Result<u32, EtfFault>
        requires { size ≤ 4 }
        ensures reads { Reads (count levels size) term self.old self.new result }
        ensures none { levels ≡ 0 → IfOk result (λ n. n ≡ 0) }
    {
        if levels > 0 {
            return self.number(size);
        }
        for _ in 0..size {
            if self.byte()? != 0 {
                return Err(EtfFault::Depth(term));
            }
        }
        Ok(0)
    }
}
