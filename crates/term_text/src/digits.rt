ghost use Rattle.std.specs.Prelude.{◌≡◌, ◌<◌, ◌≤◌, ◌+◌, ◌*◌, ◌^◌, [], ◌∷◌, nat_lt, ◌||◌, ◌&&◌, ◌==◌};
ghost use Rattle.std.specs.Str.{all_scalars};

/// Hexadecimal digits of an escape, by their value and their number.
#[derive(Clone, Copy, Drop)]
pub(crate) struct Digits {
    pub(crate) value: u32,
    pub(crate) count: u8,
    ghost few: { count ≤ 6 },
    ghost small: { value < 16 ^ count },
}

impl Digits {
    /// No digit.
    pub(crate) fn new() -> Digits
        ensures value { result.value ≡ 0 }
        ensures count { result.count ≡ 0 }
    {
        Digits { value: 0, count: 0 }
    }

    /// Whether one more digit may come: five at most, and a sixth that makes a Unicode scalar value.
    pub(crate) fn may_go_on(self, digit: u8) -> bool
        requires count { self.count < 6 }
        requires digit { digit < 16 }
        ensures { result ≡ (nat_lt self.count 5 || ((self.count == 5) && all_scalars ((16 * self.value + digit) ∷ []))) }
    {
        self.count < 5 || char::from_u32(self.with_digit(digit).value).is_some()
    }

    /// The same with one more digit.
    pub(crate) fn with_digit(self, digit: u8) -> Digits
        requires count { self.count < 6 }
        requires digit { digit < 16 }
        ensures value { result.value ≡ 16 * self.value + digit }
        ensures count { result.count ≡ self.count + 1 }
    {
        Digits {
            value: 16 * self.value + u32::from(digit),
            count: self.count + 1,
        }
    }
}
