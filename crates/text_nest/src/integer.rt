ghost use Rattle.std.specs.Prelude.{◌≡◌, ◌-◌, ◌<◌, ◌≤◌, pos, ◌≤ℤ◌, true, false, is_some, IfSome};
ghost use Rattle.text_model.specs.Token.{fits};
ghost use Rattle.text_model.specs.Reader.{digit};

/// The digits of an integer so far, by their value.
#[derive(Clone, Copy, Drop)]
pub struct Integer {
    /// With the sign.
    pub value: i128,
    /// Whether a minus sign stands in front of the digits, of 0 too.
    pub is_negative: bool,
    ghost below: { is_negative ≡ true → value ≤ℤ pos 0 },
    ghost above: { is_negative ≡ false → pos 0 ≤ℤ value },
}

impl Integer {
    /// The integer of a first digit, an ASCII byte, behind a minus sign or not.
    pub fn new(is_negative: bool, byte: u8) -> Integer
        requires { (48 ≤ byte) × (byte < 58) }
        ensures sign { result.is_negative ≡ is_negative }
        ensures value { result.value ≡ digit is_negative (pos 0) byte }
    {
        let digit = digit_value(byte);
        let value = if is_negative { -digit } else { digit };
        Integer { value, is_negative }
    }

    /// The integer with one more digit, an ASCII byte; `None` where it is not within the range of `i128`.
    pub fn with_digit(self, byte: u8) -> Option<Integer>
        requires { (48 ≤ byte) × (byte < 58) }
        ensures sign { IfSome result (λ next. next.is_negative ≡ self.is_negative) }
        ensures value { IfSome result (λ next. next.value ≡ digit self.is_negative self.value byte) }
        ensures fits { is_some result ≡ fits (digit self.is_negative self.value byte) }
    {
        let tenfold = self.value.checked_mul(10)?;
        let value = if self.is_negative {
            tenfold.checked_sub(digit_value(byte))?
        } else {
            tenfold.checked_add(digit_value(byte))?
        };
        Some(Integer {
            value,
            is_negative: self.is_negative,
        })
    }
}

/// The value of an ASCII digit.
fn digit_value(digit: u8) -> i128
    requires { (48 ≤ digit) × (digit < 58) }
    ensures { result ≡ pos (digit - 48) }
{
    i128::from(digit - b'0')
}
