//! Characters in quotes, byte by byte.
ghost use Rattle.std.specs.Prelude.{◌≡◌, ◌<◌, ◌≤◌, ◌+◌, ◌*◌, ◌-◌, ◌^◌, ℕ, ◌∷◌, ◌++◌, [], true, false, length, Option, Some, None, Ok, Err};
ghost use Rattle.std.specs.Char.{is_ascii_hexdigit};
ghost use Rattle.text_model.specs.Characters.{escape_of, digit_value, is_octal};
ghost use Rattle.text_model.specs.Reader.{may_have, quotes_led, push, in_character, in_quotes, sequence_led, begin_character, begin_escape};
ghost use Rattle.text_model.specs.Reader.{in_lexeme, quote_of, octal_led, braced_led, sequence, nothing, backslash, hexadecimal, cut, octal, half, braced};
ghost use Rattle.text_model.specs.declared.fault.TextWhy.{TextWhy};
ghost use Rattle.text_nest.specs.NestView.{nest_of};
ghost use Rattle.term_text.specs.LexemeView.{partial_of, quotes_of, quoted_of};
ghost use Rattle.term_text.specs.StateFits.{LexemeFits, pending};
ghost use Rattle.term_text.specs.Quoting.{Reads};
ghost use Rattle.term_text.specs.declared.lexeme.Partial.TheVariants.{Nothing};

use crate::Memory;
use crate::digits::Digits;
use crate::lexeme::{Cut, Partial, Quoted, Quotes};
use crate::sequence::{Bytes, sequence};
use std::alloc::Global;
use std::mem;
use text_model::{TextFault, TextWhy};
use text_nest::{Characters, MAX_CHARACTERS, Nest};

impl Quoted {
    /// Behind the quote that opens, at an offset.
    pub(crate) fn new(alloc: Global, start: u64, quotes: Quotes) -> Quoted
        ensures { quoted_of result ≡ in_quotes start (quotes_of quotes) [] nothing }
    {
        Quoted {
            start,
            quotes,
            characters: Characters::new(alloc),
            partial: Partial::Nothing,
        }
    }

    /// Takes the token out.
    pub(crate) fn take(&mut self, alloc: Global) -> Quoted
        ensures { result ≡ self.old }
    {
        mem::replace(self, Quoted::new(alloc, 0, Quotes::Atom))
    }

    /// Reads a byte that stands at an offset, and answers whether it is the closing quote.
    pub(crate) fn read(&mut self, nest: &Nest, at: u64, byte: u8) -> Result<bool, TextFault>
        requires fits { LexemeFits (quoted_of self.old) }
        requires few { self.old.characters.count < 2 ^ 62 }
        ensures reads { Reads (nest_of nest.now) self.old.start (quotes_of self.old.quotes) result self.new
            (quotes_led (nest_of nest.now) self.old.start at (quotes_of self.old.quotes) self.old.characters.text (partial_of self.old.partial) byte) }
        ensures closed { result ≡ Ok true
            → length self.new.characters.text ≤ length self.old.characters.text + pending (partial_of self.old.partial) }
        ensures same { (self.new.start ≡ self.old.start) × (self.new.quotes ≡ self.old.quotes) }
    {
        if matches!(self.partial, Partial::Nothing) {
            return self.begin_character(nest, at, byte);
        }
        match mem::replace(&mut self.partial, Partial::Nothing) {
            Partial::Nothing => self.begin_character(nest, at, byte),
            Partial::Cut(cut) => self.go_on(nest, at, cut, byte),
            Partial::Backslash => self.begin_escape(nest, byte),
            Partial::Octal(value, count) => self.octal(nest, at, value, count, byte),
            Partial::Hexadecimal => self.hexadecimal(nest, byte),
            Partial::Half(value) => self.half(nest, value, byte),
            Partial::Braced(digits) => self.braced(nest, digits, byte),
        }
    }

    /// Goes on with a byte that is a character by itself: `false` changes nothing. After `Memory` nothing is said.
    pub(crate) fn goes_on(&mut self, nest: &Nest, byte: u8) -> Result<bool, Memory>
        requires few { self.old.characters.count < 2 ^ 62 }
        ensures on { (at : ℕ) → result ≡ Ok true → quotes_led (nest_of nest.now) self.old.start at (quotes_of self.old.quotes) self.old.characters.text
            (partial_of self.old.partial) byte ≡ in_lexeme (nest_of nest.now) (quoted_of self.new) }
        ensures off { result ≡ Ok false → self.new ≡ self.old }
    {
        if byte < 128
            && byte != b'\\'
            && byte != self.quote()
            && matches!(self.partial, Partial::Nothing)
            && self.may_have(nest).is_none()
        {
            self.characters.push(char::from(byte))?;
            Ok(true)
        } else {
            Ok(false)
        }
    }

    /// The quote that closes.
    fn quote(&self) -> u8
        ensures { result ≡ quote_of (quotes_of self.now.quotes) }
    {
        match self.quotes {
            Quotes::Atom => b'\'',
            Quotes::String => b'"',
        }
    }

    /// Why one more character may not stand there.
    fn may_have(&self, nest: &Nest) -> Option<TextWhy>
        ensures { result ≡ may_have (nest_of nest.now) (quotes_of self.now.quotes) self.now.characters.text }
    {
        match self.quotes {
            Quotes::Atom if self.characters.count < MAX_CHARACTERS => None,
            Quotes::Atom => Some(TextWhy::BadToken),
            Quotes::String if nest.may_hold() => None,
            Quotes::String => Some(TextWhy::Depth),
        }
    }

    /// The fault of the token.
    fn bad(&self) -> Result<bool, TextFault>
        ensures { result ≡ Err (TextFault.Syntax self.now.start TextWhy.BadToken) }
    {
        Err(TextFault::Syntax(self.start, TextWhy::BadToken))
    }

    /// Puts a whole character last.
    fn push(&mut self, nest: &Nest, character: char) -> Result<bool, TextFault>
        requires few { self.old.characters.count < 2 ^ 63 }
        requires nothing { self.old.partial ≡ Nothing }
        ensures reads { Reads (nest_of nest.now) self.old.start (quotes_of self.old.quotes) result self.new
            (push (nest_of nest.now) self.old.start (quotes_of self.old.quotes) self.old.characters.text character) }
        ensures going { result ≡ Ok true → ⊥ }
        ensures same { (self.new.start ≡ self.old.start) × (self.new.quotes ≡ self.old.quotes) }
    {
        match self.may_have(nest) {
            Some(why) => Err(TextFault::Syntax(self.start, why)),
            None => {
                self.characters.push(character)?;
                Ok(false)
            }
        }
    }

    /// Goes on with a character that is begun.
    fn keep(&mut self, partial: Partial) -> Result<bool, TextFault>
        ensures partial { self.new ≡ record self.old { partial = partial } }
        ensures on { result ≡ Ok false }
    {
        self.partial = partial;
        Ok(false)
    }

    /// Reads a byte that begins a character, or closes.
    fn begin_character(&mut self, nest: &Nest, at: u64, byte: u8) -> Result<bool, TextFault>
        requires few { self.old.characters.count < 2 ^ 63 }
        requires nothing { self.old.partial ≡ Nothing }
        ensures reads { Reads (nest_of nest.now) self.old.start (quotes_of self.old.quotes) result self.new
            (begin_character (nest_of nest.now) self.old.start at (quotes_of self.old.quotes) self.old.characters.text byte) }
        ensures closed { result ≡ Ok true → self.new.characters ≡ self.old.characters }
        ensures same { (self.new.start ≡ self.old.start) × (self.new.quotes ≡ self.old.quotes) }
    {
        let (quote, may_escape) = match self.quotes {
            Quotes::Atom => (b'\'', self.characters.count < MAX_CHARACTERS),
            Quotes::String => (b'"', true),
        };
        if byte == quote {
            Ok(true)
        } else if byte == b'\\' {
            if may_escape {
                self.keep(Partial::Backslash)
            } else {
                self.bad()
            }
        } else if byte < 128 {
            self.push(nest, char::from(byte))
        } else {
            self.go_on(nest, at, Cut::new(), byte)
        }
    }

    /// Reads a byte behind the first ones of a character, or its first one.
    fn go_on(&mut self, nest: &Nest, at: u64, cut: Cut, byte: u8) -> Result<bool, TextFault>
        requires few { self.old.characters.count < 2 ^ 63 }
        requires nothing { self.old.partial ≡ Nothing }
        requires cut { length cut.items ≤ 3 }
        ensures reads { Reads (nest_of nest.now) self.old.start (quotes_of self.old.quotes) result self.new
            (sequence_led (nest_of nest.now) self.old.start (quotes_of self.old.quotes) self.old.characters.text (cut.items ++ byte ∷ [])
            (at - length cut.items) (sequence (cut.items ++ byte ∷ []))) }
        ensures going { result ≡ Ok true → ⊥ }
        ensures same { (self.new.start ≡ self.old.start) × (self.new.quotes ≡ self.old.quotes) }
    {
        let start = at.saturating_sub(cut.len() as u64);
        let mut bytes = cut;
        bytes.push(byte);
        match sequence(bytes.as_slice()) {
            Bytes::Whole(character) => self.push(nest, character),
            Bytes::Part => self.keep(Partial::Cut(bytes)),
            Bytes::Wrong => Err(TextFault::Syntax(start, TextWhy::BadUtf8)),
        }
    }

    /// Reads a byte behind a backslash.
    fn begin_escape(&mut self, nest: &Nest, byte: u8) -> Result<bool, TextFault>
        requires few { self.old.characters.count < 2 ^ 63 }
        requires nothing { self.old.partial ≡ Nothing }
        ensures reads { Reads (nest_of nest.now) self.old.start (quotes_of self.old.quotes) result self.new
            (begin_escape (nest_of nest.now) self.old.start (quotes_of self.old.quotes) self.old.characters.text byte) }
        ensures going { result ≡ Ok true → ⊥ }
        ensures same { (self.new.start ≡ self.old.start) × (self.new.quotes ≡ self.old.quotes) }
    {
        match byte {
            b'0'..=b'7' => match self.may_have(nest) {
                Some(why) => Err(TextFault::Syntax(self.start, why)),
                None => self.keep(Partial::Octal(byte - b'0', 1)),
            },
            b'x' => self.keep(Partial::Hexadecimal),
            _ => match escape_of(byte) {
                Some(character) => self.push(nest, character),
                None => self.bad(),
            },
        }
    }

    /// Reads a byte behind octal digits.
    fn octal(
        &mut self,
        nest: &Nest,
        at: u64,
        value: u8,
        count: u8,
        byte: u8,
    ) -> Result<bool, TextFault>
        requires few { self.old.characters.count < 2 ^ 62 }
        requires nothing { self.old.partial ≡ Nothing }
        requires digits { (1 ≤ count) × (count ≤ 2) × (value < 8 ^ count) }
        ensures reads { Reads (nest_of nest.now) self.old.start (quotes_of self.old.quotes) result self.new
            (octal_led (nest_of nest.now) self.old.start at (quotes_of self.old.quotes) self.old.characters.text value count byte) }
        ensures closed { result ≡ Ok true → length self.new.characters.text ≤ length self.old.characters.text + 1 }
        ensures same { (self.new.start ≡ self.old.start) × (self.new.quotes ≡ self.old.quotes) }
    {
        if !is_octal(byte) {
            self.characters.push(char::from(value))?;
            self.begin_character(nest, at, byte)
        } else if count == 1 {
            self.keep(Partial::Octal(8 * value + (byte - b'0'), 2))
        } else {
            self.push(nest, scalar(8 * u32::from(value) + u32::from(byte - b'0')))
        }
    }

    /// Reads a byte behind `\x`.
    fn hexadecimal(&mut self, nest: &Nest, byte: u8) -> Result<bool, TextFault>
        requires { self.old.partial ≡ Nothing }
        ensures reads { (at : ℕ) → Reads (nest_of nest.now) self.old.start (quotes_of self.old.quotes) result self.new
            (quotes_led (nest_of nest.now) self.old.start at (quotes_of self.old.quotes) self.old.characters.text hexadecimal byte) }
        ensures going { result ≡ Ok true → ⊥ }
        ensures same { (self.new.start ≡ self.old.start) × (self.new.quotes ≡ self.old.quotes) }
    {
        match digit_of(byte) {
            Some(digit) => self.keep(Partial::Half(digit)),
            None if byte == b'{' => self.keep(Partial::Braced(Digits::new())),
            None => self.bad(),
        }
    }

    /// Reads a byte behind `\x` and a digit.
    fn half(&mut self, nest: &Nest, value: u8, byte: u8) -> Result<bool, TextFault>
        requires few { self.old.characters.count < 2 ^ 63 }
        requires nothing { self.old.partial ≡ Nothing }
        requires digit { value < 16 }
        ensures reads { (at : ℕ) → Reads (nest_of nest.now) self.old.start (quotes_of self.old.quotes) result self.new
            (quotes_led (nest_of nest.now) self.old.start at (quotes_of self.old.quotes) self.old.characters.text (half value) byte) }
        ensures going { result ≡ Ok true → ⊥ }
        ensures same { (self.new.start ≡ self.old.start) × (self.new.quotes ≡ self.old.quotes) }
    {
        match digit_of(byte) {
            Some(digit) => self.push(nest, char::from(16 * value + digit)),
            None => self.bad(),
        }
    }

    /// Reads a byte behind `\x{` and digits.
    fn braced(&mut self, nest: &Nest, digits: Digits, byte: u8) -> Result<bool, TextFault>
        requires few { self.old.characters.count < 2 ^ 63 }
        requires nothing { self.old.partial ≡ Nothing }
        ensures reads { Reads (nest_of nest.now) self.old.start (quotes_of self.old.quotes) result self.new
            (braced_led (nest_of nest.now) self.old.start (quotes_of self.old.quotes) self.old.characters.text digits.value digits.count byte) }
        ensures going { result ≡ Ok true → ⊥ }
        ensures same { (self.new.start ≡ self.old.start) × (self.new.quotes ≡ self.old.quotes) }
    {
        if byte == b'}' {
            return match char::from_u32(digits.value) {
                Some(character) if digits.count > 0 => self.push(nest, character),
                _ => self.bad(),
            };
        }
        match digit_of(byte) {
            Some(digit) if digits.count < 6 && digits.may_go_on(digit) => {
                self.keep(Partial::Braced(digits.with_digit(digit)))
            }
            _ => self.bad(),
        }
    }
}

/// The character of a code point.
fn scalar(code: u32) -> char
    requires { code < 512 }
    ensures { result ≡ code }
{
    match char::from_u32(code) {
        Some(character) => character,
        None => unreachable!(),
    }
}

fn is_octal(byte: u8) -> bool
    ensures { result ≡ is_octal byte }
{
    matches!(byte, b'0'..=b'7')
}

/// The value of a hexadecimal digit.
fn digit_of(byte: u8) -> Option<u8>
    ensures none { result ≡ None → is_ascii_hexdigit byte ≡ false }
    ensures some { (d : ℕ) → result ≡ Some d → (is_ascii_hexdigit byte ≡ true) × (d ≡ digit_value byte) × (d < 16) }
{
    match byte {
        b'0'..=b'9' => Some(byte - b'0'),
        b'a'..=b'f' => Some(byte - b'a' + 10),
        b'A'..=b'F' => Some(byte - b'A' + 10),
        _ => None,
    }
}

/// The character of an escape of one letter or sign.
fn escape_of(byte: u8) -> Option<char>
    ensures { result ≡ escape_of byte }
{
    match byte {
        b'\\' | b'\'' | b'"' => Some(char::from(byte)),
        b'n' => Some('\n'),
        b't' => Some('\t'),
        b'r' => Some('\r'),
        b'b' => Some('\x08'),
        b'd' => Some('\x7F'),
        b'e' => Some('\x1B'),
        b'f' => Some('\x0C'),
        b's' => Some(' '),
        b'v' => Some('\x0B'),
        _ => None,
    }
}
