ghost use Rattle.std.specs.Prelude.{◌≡◌, ◌≤◌, ◌<◌, ◌+◌, ◌*◌, ◌^◌, IfOk, MatchOption};
ghost use Rattle.etf_model.specs.Layout.{signed, limit};
ghost use Rattle.etf_codec.specs.BigIntegers.{IsBig, IntegerReads};
ghost use Rattle.etf_codec.specs.ReadTerms.{IsLeaf};

use crate::EtfFault;
use crate::cursor::Cursor;
use dets_term::Term;

/// An integer with a magnitude of so many bytes, of which some were read.
#[derive(Drop)]
pub(crate) struct BigInteger {
    /// The offset of its tag.
    pub(crate) start: u64,
    /// 0 where it is not negative.
    pub(crate) sign: u8,
    /// How many bytes its magnitude has.
    pub(crate) length: u32,
    /// The index of the next byte, counted from 0 and from the lowest.
    pub(crate) index: u32,
    /// The magnitude of the bytes before it.
    pub(crate) magnitude: u128,
}

impl BigInteger {
    /// Reads the bytes of its magnitude, as many as are there. `IntegerRange` at the first one with which it is out of
    /// range.
    pub(crate) fn read(&mut self, cursor: &mut Cursor<'_>) -> Result<Term, EtfFault>
        requires { IsBig self.old }
        ensures reads { IntegerReads self.old self.new cursor.old cursor.new result }
        ensures leaf { IfOk result IsLeaf }
    {
        let most = limit_of(self.sign);
        let length = self.length;
        while self.index < length {
            let digit = cursor.byte()?;
            let magnitude = raised(self.magnitude, digit, self.index, most).ok_or(
                EtfFault::IntegerRange(self.start),
            )?;
            self.magnitude = magnitude;
            self.index += 1;
        }
        Ok(Term::int(with_sign(self.sign, self.magnitude)))
    }
}

/// The greatest magnitude of an integer of this sign.
fn limit_of(sign: u8) -> u128
    ensures { result ≡ limit sign }
{
    if sign == 0 { (1 << 127) - 1 } else { 1 << 127 }
}

/// A magnitude with its sign: 0 is not negative, and any other sign is.
fn with_sign(sign: u8, magnitude: u128) -> i128
    requires { magnitude ≤ limit sign }
    ensures { result ≡ signed sign magnitude }
{
    if sign == 0 {
        magnitude as i128
    } else if magnitude == 0 {
        0
    } else {
        -((magnitude - 1) as i128) - 1
    }
}

/// A magnitude with one more byte, which stands at a index, counted from 0 and from the lowest; `None` where that is
/// more than `most`.
fn raised(magnitude: u128, digit: u8, index: u32, most: u128) -> Option<u128>
    requires { magnitude ≤ most }
    ensures { MatchOption result (most < magnitude + 256 ^ index * digit) (λ m. (m ≡ magnitude + 256 ^ index * digit)
        × (m ≤ most)) }
{
    if digit == 0 {
        return Some(magnitude);
    }
    if index >= 16 {
        return None;
    }
    let part = 256u128.pow(index) * u128::from(digit);
    if part <= most - magnitude {
        Some(magnitude + part)
    } else {
        None
    }
}
