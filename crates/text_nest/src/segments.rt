//! The last segment of a bit string.
ghost use Rattle.std.specs.Prelude.{◌≡◌, ◌<◌, ◌≤◌, ◌^◌, pos, take, true, IsSome, IfSome, ◌↔◌, IsTrue};
ghost use Rattle.dets_term.specs.BitString.{byte_bits};
ghost use Rattle.text_model.specs.Grammar.{last_bits, is_byte, is_sized};

/// A number in fewer bits than a byte has.
#[derive(Clone, Copy, Drop)]
pub(crate) struct LastBits {
    pub(crate) value: u8,
    /// 1 to 7
    pub(crate) count: u8,
    ghost some: { 1 ≤ count },
    ghost few: { count ≤ 7 },
    ghost held: { value < 2 ^ count },
}

impl LastBits {
    /// A number in so many bits, where these hold it.
    pub(crate) fn new(value: u8, count: i128) -> Option<LastBits>
        ensures sized { IsSome result ↔ (is_sized (pos value) count ≡ true) }
        ensures value { IfSome result (λ bits. (bits.value ≡ value) × (pos bits.count ≡ count)) }
    {
        let count = u8::try_from(count).ok()?;
        if 1 <= count && count <= 7 && value >> count == 0 {
            Some(LastBits { value, count })
        } else {
            None
        }
    }

    /// The byte whose first bits these are.
    pub(crate) fn byte(self) -> u8
        ensures { take self.count (byte_bits result) ≡ last_bits self.count (pos self.value) }
    {
        self.value << (8 - self.count)
    }
}

/// A number of one byte.
pub(crate) fn byte_of(value: i128) -> Option<u8>
    ensures byte { IsSome result ↔ (is_byte value ≡ true) }
    ensures value { IfSome result (λ byte. pos byte ≡ value) }
{
    u8::try_from(value).ok()
}
