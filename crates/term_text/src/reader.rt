//! What the bytes behind the last term's full stop have come to.
ghost use Rattle.std.specs.Prelude.{◌≡◌, ◌<◌, ◌≤◌, ◌+◌, ◌-◌, ◌^◌, ℕ, ◌∷◌, ◌++◌, [], true, false, List, length, take as first, Option, Some, None, Ok};
ghost use Rattle.std.specs.Prelude.{Err, IfOk, OnOk, ◌&&◌, ◌==◌, not, nat_le};
ghost use Rattle.dets_term.specs.TermValue.{TermValue};
ghost use Rattle.text_model.specs.Sentence.{longest};
ghost use Rattle.std.specs.Char.{is_ascii_digit};
ghost use Rattle.text_model.specs.Token.{mark, number as a_number_token, plain, is_name_character, a_number, a_plain, a_quoted, a_string};
ghost use Rattle.text_model.specs.Spelling.{is_white};
ghost use Rattle.text_model.specs.Grammar.{strict};
ghost use Rattle.text_model.specs.Nest.{Nest as OpenTerms, take, refusal_of, stopped};
ghost use Rattle.text_model.specs.Reader.{of_atom, between, in_comment, in_minus, in_number, in_name, in_lexeme, begin, begin_mark, begin_other};
ghost use Rattle.text_model.specs.Reader.{begin_behind, led_to, token_of, single, double, second_byte, first_of, comment_led, sequence, led, step};
ghost use Rattle.text_model.specs.Reader.{is_blank, last_fault};
ghost use Rattle.text_model.specs.Script.{no_term, fault as a_fault};
ghost use Rattle.text_model.specs.Progress.{no_progress, counted, reach, failing, answer_at_end};
ghost use Rattle.text_model.specs.declared.fault.TextFault.TheVariants.{Syntax};
ghost use Rattle.text_model.specs.declared.fault.TextWhy.{TextWhy};
ghost use Rattle.text_model.specs.declared.fault.TextWhy.TheVariants.{TooLong};
ghost use Rattle.term_text.specs.declared.lexeme.Lexeme.TheVariants.{Between};
ghost use Rattle.text_nest.specs.NestView.{nest_of};
ghost use Rattle.term_text.specs.LexemeView.{lexeme_of, quotes_of, quoted_of};
ghost use Rattle.text_nest.specs.Fits.{IsFit};
ghost use Rattle.term_text.specs.StateFits.{IsFitState, LexemeFits};
ghost use Rattle.text_nest.specs.Strays.{is_stopped};
ghost use Rattle.term_text.specs.ReaderView.{state_of, progress_of, IsReady};

use crate::Memory;
use crate::lexeme::{Cut, Lexeme, Quoted, Quotes};
use crate::sequence::{Bytes, sequence};
use dets_term::{Term, Text};
use std::alloc::Global;
use std::mem;
use text_model::{Mark, TextFault, TextWhy};
use text_nest::{Characters, Integer, MAX_CHARACTERS, Nest};

/// The full stop of a term stands among this many bytes from the term's first token on.
const MAX_BYTES: u64 = 16_777_216;

/// What the bytes behind the last term's full stop have come to.
#[derive(Drop)]
pub(crate) struct Reader {
    nest: Nest,
    lexeme: Lexeme,
    /// How many bytes were read.
    read: u64,
    /// How many of them stand in front of the first token.
    blank: u64,
}

impl Reader {
    pub(crate) fn new(alloc: Global) -> Reader
        ensures { progress_of result ≡ no_progress }
    {
        Reader {
            nest: Nest::new(alloc),
            lexeme: Lexeme::Between,
            read: 0,
            blank: 0,
        }
    }

    /// Goes on with a lexeme.
    fn keep(&mut self, lexeme: Lexeme) -> Result<(), TextFault>
        ensures kept { self.new ≡ record self.old { lexeme = lexeme } }
        ensures ok { result ≡ Ok tt }
    {
        self.lexeme = lexeme;
        Ok(())
    }

    /// Reads a byte between two tokens.
    fn begin(&mut self, alloc: Global, at: u64, byte: u8) -> Result<(), TextFault>
        requires between { self.old.lexeme ≡ Between }
        requires fits { IsFit (2 ^ 24) (nest_of self.old.nest) }
        ensures ok { OnOk result (begin (nest_of self.old.nest) at byte ≡ Ok (state_of self.new)) }
        ensures syntax { (o : ℕ) (why : TextWhy) → result ≡ Err (Syntax o why) → begin (nest_of self.old.nest) at byte ≡ Err (o, why) }
        ensures counts { (self.new.read ≡ self.old.read) × (self.new.blank ≡ self.old.blank) }
    {
        if is_white(byte) {
            Ok(())
        } else if byte == b'%' {
            self.keep(Lexeme::Comment(Cut::new()))
        } else if let Some(mark) = single(byte) {
            self.nest.take_mark(alloc, at, mark)
        } else if let Some(mark) = double(byte) {
            self.begin_mark(at, mark)
        } else {
            self.begin_other(alloc, at, byte)
        }
    }

    /// Reads the first byte of a mark of two.
    fn begin_mark(&mut self, at: u64, mark: Mark) -> Result<(), TextFault>
        requires between { self.old.lexeme ≡ Between }
        requires double { (x : ℕ) × (double x ≡ Some mark) }
        ensures ok { OnOk result (begin_mark (nest_of self.old.nest) at mark ≡ Ok (state_of self.new)) }
        ensures syntax { (o : ℕ) (why : TextWhy) → result ≡ Err (Syntax o why) → begin_mark (nest_of self.old.nest) at mark ≡ Err (o, why) }
        ensures counts { (self.new.read ≡ self.old.read) × (self.new.blank ≡ self.old.blank) }
    {
        if self.nest.is_stray(mark) {
            Err(TextFault::Syntax(at, TextWhy::BadToken))
        } else {
            self.keep(Lexeme::First(at, mark))
        }
    }

    /// Reads the first byte of a token that is no mark.
    fn begin_other(&mut self, alloc: Global, at: u64, byte: u8) -> Result<(), TextFault>
        requires between { self.old.lexeme ≡ Between }
        ensures ok { OnOk result (begin_other (nest_of self.old.nest) at byte ≡ Ok (state_of self.new)) }
        ensures syntax { (o : ℕ) (why : TextWhy) → result ≡ Err (Syntax o why) → begin_other (nest_of self.old.nest) at byte ≡ Err (o, why) }
        ensures counts { (self.new.read ≡ self.old.read) × (self.new.blank ≡ self.old.blank) }
    {
        if byte == b'-' {
            match self.nest.number_refusal() {
                Some(TextWhy::BadToken) => Err(TextFault::Syntax(at, TextWhy::BadToken)),
                _ => self.keep(Lexeme::Minus(at)),
            }
        } else if byte.is_ascii_digit() {
            match self.nest.number_refusal() {
                Some(why) => Err(TextFault::Syntax(at, why)),
                None => self.keep(Lexeme::Number(at, Integer::new(false, byte))),
            }
        } else if byte.is_ascii_lowercase() {
            match self.nest.refusal() {
                Some(why) => Err(TextFault::Syntax(at, why)),
                None => self.begin_name(alloc, at, byte),
            }
        } else if byte == b'\'' {
            match self.nest.refusal() {
                Some(why) => Err(TextFault::Syntax(at, why)),
                None => self.keep(Lexeme::InQuotes(Quoted::new(alloc, at, Quotes::Atom))),
            }
        } else if byte == b'"' {
            match self.nest.string_refusal() {
                Some(why) => Err(TextFault::Syntax(at, why)),
                None => self.keep(Lexeme::InQuotes(Quoted::new(alloc, at, Quotes::String))),
            }
        } else {
            Err(TextFault::Syntax(at, TextWhy::BadToken))
        }
    }

    /// Reads the first letter of an atom without quotes.
    fn begin_name(&mut self, alloc: Global, at: u64, byte: u8) -> Result<(), TextFault>
        requires { byte < 128 }
        ensures ok { OnOk result (in_lexeme (nest_of self.old.nest) (in_name at (byte ∷ [])) ≡ Ok (state_of self.new)) }
        ensures syntax { (o : ℕ) (why : TextWhy) → result ≡ Err (Syntax o why) → ⊥ }
        ensures counts { (self.new.read ≡ self.old.read) × (self.new.blank ≡ self.old.blank) }
    {
        let mut name = Characters::new(alloc);
        name.push(char::from(byte))?;
        self.keep(Lexeme::Name(at, name))
    }

    /// Reads a byte of a comment, behind the first ones of a character.
    fn comment(&mut self, at: u64, cut: Cut, byte: u8) -> Result<(), TextFault>
        requires cut { length cut.items ≤ 3 }
        ensures ok { OnOk result (comment_led (nest_of self.old.nest) (at - length cut.items) (cut.items ++ byte ∷ [])
            (sequence (cut.items ++ byte ∷ [])) ≡ Ok (state_of self.new)) }
        ensures syntax { (o : ℕ) (why : TextWhy) → result ≡ Err (Syntax o why) → comment_led (nest_of self.old.nest) (at - length cut.items)
            (cut.items ++ byte ∷ []) (sequence (cut.items ++ byte ∷ [])) ≡ Err (o, why) }
        ensures counts { (self.new.read ≡ self.old.read) × (self.new.blank ≡ self.old.blank) }
    {
        let start = at.saturating_sub(cut.len() as u64);
        let mut bytes = cut;
        bytes.push(byte);
        match sequence(bytes.as_slice()) {
            Bytes::Whole('\n') => self.keep(Lexeme::Between),
            Bytes::Whole(_) => self.keep(Lexeme::Comment(Cut::new())),
            Bytes::Part => self.keep(Lexeme::Comment(bytes)),
            Bytes::Wrong => Err(TextFault::Syntax(start, TextWhy::BadUtf8)),
        }
    }

    /// Reads a byte behind the first one of a mark of two.
    fn second(&mut self, alloc: Global, start: u64, mark: Mark, byte: u8) -> Result<(), TextFault>
        requires fits { IsFit (2 ^ 24) (nest_of self.old.nest) }
        ensures ok { (at : ℕ) → OnOk result (led (nest_of self.old.nest) at byte (first_of start mark) ≡ Ok (state_of self.new)) }
        ensures syntax { (at o : ℕ) (why : TextWhy) → result ≡ Err (Syntax o why) → led (nest_of self.old.nest) at byte (first_of start mark) ≡ Err (o, why) }
        ensures counts { (self.new.read ≡ self.old.read) × (self.new.blank ≡ self.old.blank) }
    {
        if byte != second_byte(mark) {
            return Err(TextFault::Syntax(start, TextWhy::BadToken));
        }
        self.lexeme = Lexeme::Between;
        self.nest.take_mark(alloc, start, mark)
    }

    /// Reads a byte behind a minus sign.
    fn minus(&mut self, start: u64, byte: u8) -> Result<(), TextFault>
        ensures ok { (at : ℕ) → OnOk result (led (nest_of self.old.nest) at byte (in_minus start) ≡ Ok (state_of self.new)) }
        ensures syntax { (at o : ℕ) (why : TextWhy) → result ≡ Err (Syntax o why) → led (nest_of self.old.nest) at byte (in_minus start) ≡ Err (o, why) }
        ensures counts { (self.new.read ≡ self.old.read) × (self.new.blank ≡ self.old.blank) }
    {
        if !byte.is_ascii_digit() {
            return Err(TextFault::Syntax(start, TextWhy::BadToken));
        }
        match self.nest.number_refusal() {
            Some(why) => Err(TextFault::Syntax(start, why)),
            None => self.keep(Lexeme::Number(start, Integer::new(true, byte))),
        }
    }

    /// Ends a number, and reads the byte behind it.
    fn end_number(
        &mut self,
        alloc: Global,
        start: u64,
        number: Integer,
        at: u64,
        byte: u8,
    ) -> Result<(), TextFault>
        requires fits { IsFitState (2 ^ 24) (record { nest = nest_of self.old.nest; lexeme = in_number start number.is_negative number.value }) }
        ensures ok { OnOk result (begin_behind (take strict (nest_of self.old.nest) start (a_number_token number.value)) at byte ≡ Ok (state_of self.new)) }
        ensures syntax { (o : ℕ) (why : TextWhy) → result ≡ Err (Syntax o why)
            → begin_behind (take strict (nest_of self.old.nest) start (a_number_token number.value)) at byte ≡ Err (o, why) }
        ensures counts { (self.new.read ≡ self.old.read) × (self.new.blank ≡ self.old.blank) }
    {
        self.lexeme = Lexeme::Between;
        match self.nest.take_number(start, number.value) {
            Ok(()) => self.begin(alloc, at, byte),
            Err(fault) => Err(fault),
        }
    }

    /// Ends an atom without quotes, and reads the byte behind it.
    fn end_name(
        &mut self,
        alloc: Global,
        start: u64,
        name: Text,
        at: u64,
        byte: u8,
    ) -> Result<(), TextFault>
        requires fits { IsFitState (2 ^ 24) (record { nest = nest_of self.old.nest; lexeme = in_name start name }) }
        ensures ok { OnOk result (begin_behind (take strict (nest_of self.old.nest) start (plain name)) at byte ≡ Ok (state_of self.new)) }
        ensures syntax { (o : ℕ) (why : TextWhy) → result ≡ Err (Syntax o why)
            → begin_behind (take strict (nest_of self.old.nest) start (plain name)) at byte ≡ Err (o, why) }
        ensures counts { (self.new.read ≡ self.old.read) × (self.new.blank ≡ self.old.blank) }
    {
        self.lexeme = Lexeme::Between;
        match self.nest.take_atom(start, name) {
            Ok(()) => self.begin(alloc, at, byte),
            Err(fault) => Err(fault),
        }
    }

    /// Ends a token in quotes.
    fn end_quoted(&mut self, alloc: Global, quoted: Quoted) -> Result<(), TextFault>
        requires name { quotes_of quoted.quotes ≡ of_atom → length quoted.characters.text ≤ 255 }
        requires few { length quoted.characters.text < 2 ^ 31 }
        ensures ok { OnOk result (led_to (take strict (nest_of self.old.nest) quoted.start (token_of (quotes_of quoted.quotes) quoted.characters.text))
            ≡ Ok (state_of self.new)) }
        ensures syntax { (o : ℕ) (why : TextWhy) → result ≡ Err (Syntax o why)
            → led_to (take strict (nest_of self.old.nest) quoted.start (token_of (quotes_of quoted.quotes) quoted.characters.text)) ≡ Err (o, why) }
        ensures counts { (self.new.read ≡ self.old.read) × (self.new.blank ≡ self.old.blank) }
    {
        self.lexeme = Lexeme::Between;
        match quoted.quotes {
            Quotes::Atom => self.nest.take_atom(quoted.start, quoted.characters.text),
            Quotes::String => self.nest.take_string(
                alloc,
                quoted.start,
                &quoted.characters.text,
                quoted.characters.count,
            ),
        }
    }

    /// Goes on with a number, a name or a character in quotes where a byte needs nothing else: `false` changes nothing. After `Memory`
    /// nothing is said.
    fn goes_on(&mut self, byte: u8) -> Result<bool, Memory>
        requires fits { IsFitState (2 ^ 24 - 1) (state_of self.old) }
        ensures on { (at : ℕ) → result ≡ Ok true → step (state_of self.old) at byte ≡ Ok (state_of self.new) }
        ensures off { result ≡ Ok false → self.new ≡ self.old }
        ensures counts { (self.new.read ≡ self.old.read) × (self.new.blank ≡ self.old.blank) }
    {
        match &mut self.lexeme {
            Lexeme::InQuotes(quoted) => quoted.goes_on(&self.nest, byte),
            Lexeme::Name(_, name) => {
                if !is_name_byte(byte) || name.count >= MAX_CHARACTERS {
                    return Ok(false);
                }
                name.push(char::from(byte))?;
                Ok(true)
            }
            Lexeme::Number(_, number) => {
                if !byte.is_ascii_digit() {
                    return Ok(false);
                }
                match number.with_digit(byte) {
                    Some(next) => {
                        *number = next;
                        Ok(true)
                    }
                    None => Ok(false),
                }
            }
            _ => Ok(false),
        }
    }

    /// Reads a byte that stands at an offset.
    fn step(&mut self, alloc: Global, at: u64, byte: u8) -> Result<(), TextFault>
        requires fits { IsFitState (2 ^ 24 - 1) (state_of self.old) }
        ensures ok { OnOk result (step (state_of self.old) at byte ≡ Ok (state_of self.new)) }
        ensures syntax { (o : ℕ) (why : TextWhy) → result ≡ Err (Syntax o why) → step (state_of self.old) at byte ≡ Err (o, why) }
        ensures counts { (self.new.read ≡ self.old.read) × (self.new.blank ≡ self.old.blank) }
    {
        match self.goes_on(byte) {
            Ok(true) => Ok(()),
            Ok(false) => self.turn(alloc, at, byte),
            Err(Memory) => Err(TextFault::Memory),
        }
    }

    /// Reads a byte that stands at an offset, whatever is begun.
    fn turn(&mut self, alloc: Global, at: u64, byte: u8) -> Result<(), TextFault>
        requires fits { IsFitState (2 ^ 24 - 1) (state_of self.old) }
        ensures ok { OnOk result (step (state_of self.old) at byte ≡ Ok (state_of self.new)) }
        ensures syntax { (o : ℕ) (why : TextWhy) → result ≡ Err (Syntax o why) → step (state_of self.old) at byte ≡ Err (o, why) }
        ensures counts { (self.new.read ≡ self.old.read) × (self.new.blank ≡ self.old.blank) }
    {
        match &mut self.lexeme {
            Lexeme::Between => self.begin(alloc, at, byte),
            Lexeme::Comment(cut) => {
                let cut = mem::replace(cut, Cut::new());
                self.comment(at, cut, byte)
            }
            Lexeme::First(start, mark) => {
                let (start, mark) = (*start, *mark);
                self.second(alloc, start, mark, byte)
            }
            Lexeme::Minus(start) => {
                let start = *start;
                self.minus(start, byte)
            }
            Lexeme::Number(start, number) => {
                if byte.is_ascii_digit() {
                    grow_number(*start, number, byte)
                } else {
                    let (start, number) = (*start, *number);
                    self.end_number(alloc, start, number, at, byte)
                }
            }
            Lexeme::Name(start, name) => {
                if is_name_byte(byte) {
                    grow_name(*start, name, byte)
                } else {
                    let start = *start;
                    let name = mem::replace(name, Characters::new(alloc));
                    self.end_name(alloc, start, name.text, at, byte)
                }
            }
            Lexeme::InQuotes(quoted) => match quoted.read(&self.nest, at, byte) {
                Ok(false) => Ok(()),
                Ok(true) => {
                    let quoted = quoted.take(alloc);
                    self.end_quoted(alloc, quoted)
                }
                Err(fault) => Err(fault),
            },
        }
    }

    /// Whether no token is begun.
    pub(crate) fn is_blank(&self) -> bool
        ensures { result ≡ is_blank (state_of self.now) }
    {
        self.nest.is_fresh() && matches!(self.lexeme, Lexeme::Between | Lexeme::Comment(_))
    }

    /// Whether the last byte was the full stop of a term.
    pub(crate) fn is_stopped(&self) -> bool
        ensures { result ≡ is_stopped (nest_of self.now.nest).place }
    {
        self.nest.is_stopped()
    }

    /// Reads one byte, and counts it.
    fn advance(&mut self, alloc: Global, byte: u8) -> Result<(), TextFault>
        requires ready { IsReady (progress_of self.old) }
        requires moving { is_stopped (nest_of self.old.nest).place ≡ false }
        requires room { self.old.read < 2 ^ 63 }
        ensures ok { OnOk result ((step (state_of self.old) self.old.read byte ≡ Ok (state_of self.new))
            × (progress_of self.new ≡ counted (progress_of self.old) (state_of self.new))) }
        ensures syntax { (o : ℕ) (why : TextWhy) → result ≡ Err (Syntax o why) → step (state_of self.old) self.old.read byte ≡ Err (o, why) }
    {
        let was_blank = self.blank == self.read;
        match self.step(alloc, self.read, byte) {
            Ok(()) => {
                self.read += 1;
                if was_blank && self.is_blank() {
                    self.blank = self.read;
                }
                Ok(())
            }
            Err(fault) => Err(fault),
        }
    }

    /// Whether as many bytes as a text may have were read from its first token on, and no full stop.
    fn is_too_long(&self) -> bool
        requires { self.now.blank ≤ self.now.read }
        ensures { result ≡ ((not (is_stopped (nest_of self.now.nest).place)) && nat_le (self.now.blank + longest) self.now.read) }
    {
        !self.is_stopped() && self.read - self.blank >= MAX_BYTES
    }

    /// Reads bytes up to a full stop behind a whole term, and says how many.
    pub(crate) fn run(&mut self, alloc: Global, bytes: &[u8]) -> Result<usize, TextFault>
        requires ready { IsReady (progress_of self.old) }
        requires room { self.old.read + length bytes.now < 2 ^ 63 }
        ensures within { IfOk result (λ taken. taken ≤ length bytes.now) }
        ensures reached { IfOk result (λ taken. (more : List ℕ)
            → reach (progress_of self.old) (first taken bytes.now ++ more) ≡ reach (progress_of self.new) more) }
        ensures read { IfOk result (λ taken. self.new.read ≡ self.old.read + taken) }
        ensures stop { IfOk result (λ taken. taken < length bytes.now → is_stopped (nest_of self.new.nest).place ≡ true) }
        ensures ready { OnOk result (IsReady (progress_of self.new)) }
        ensures syntax { (o : ℕ) (why : TextWhy) → result ≡ Err (Syntax o why) → reach (progress_of self.old) bytes.now ≡ failing o why }
    {
        for (taken, byte) in bytes.iter().enumerate() {
            if self.is_stopped() {
                return Ok(taken);
            }
            match self.advance(alloc, *byte) {
                Ok(()) => {}
                Err(fault) => return Err(fault),
            }
            if self.is_too_long() {
                return Err(TextFault::Syntax(self.blank, TextWhy::TooLong));
            }
        }
        Ok(bytes.len())
    }

    /// The term whose full stop was the last byte.
    pub(crate) fn into_term(self) -> Option<Term>
        ensures some { (t : TermValue) → result ≡ Some t → (nest_of self.nest).place ≡ stopped t }
        ensures none { result ≡ None → is_stopped (nest_of self.nest).place ≡ false }
    {
        self.nest.into_term()
    }

    /// The fault that the end of the input is, but for one where all that was read is blank.
    fn last_fault(self) -> Result<Option<(u64, TextWhy)>, TextFault>
        requires { LexemeFits (lexeme_of self.lexeme) }
        ensures none { result ≡ Ok None → last_fault (nest_of self.nest) self.read (lexeme_of self.lexeme) ≡ None }
        ensures some { (o : ℕ) (why : TextWhy) → result ≡ Ok (Some (o, why))
            → last_fault (nest_of self.nest) self.read (lexeme_of self.lexeme) ≡ Some (o, why) }
        ensures memory { (o : ℕ) (why : TextWhy) → result ≡ Err (Syntax o why) → ⊥ }
    {
        let Reader {
            nest,
            lexeme,
            read,
            ..
        } = self;
        match lexeme {
            Lexeme::Number(start, number) => nest.last_number(start, number),
            Lexeme::Name(start, name) => nest.last_name(start, name),
            Lexeme::Comment(cut) => Ok(last_comment(read, &cut)),
            Lexeme::Between => Ok(None),
            Lexeme::First(_, _) => Ok(None),
            Lexeme::Minus(_) => Ok(None),
            Lexeme::InQuotes(_) => Ok(None),
        }
    }

    /// What the end of the input is told as, where something is begun.
    pub(crate) fn ended(self) -> TextFault
        requires fits { LexemeFits (lexeme_of self.lexeme) }
        requires begun { is_blank (state_of self) ≡ false }
        ensures { (o : ℕ) (why : TextWhy) → result ≡ Syntax o why
            → answer_at_end (progress_of self) (last_fault (nest_of self.nest) self.read (lexeme_of self.lexeme)) ≡ no_term (a_fault o why) }
    {
        let read = self.read;
        match self.last_fault() {
            Ok(None) => TextFault::Syntax(read, TextWhy::Unfinished),
            Ok(Some((at, why))) => TextFault::Syntax(at, why),
            Err(fault) => fault,
        }
    }

    /// The fault that the end of the input is, where all that was read is blank.
    pub(crate) fn blank_fault(&self) -> Option<(u64, TextWhy)>
        requires { is_blank (state_of self.now) ≡ true }
        ensures none { result ≡ None → last_fault (nest_of self.now.nest) self.now.read (lexeme_of self.now.lexeme) ≡ None }
        ensures some { (o : ℕ) (why : TextWhy) → result ≡ Some (o, why)
            → last_fault (nest_of self.now.nest) self.now.read (lexeme_of self.now.lexeme) ≡ Some (o, why) }
    {
        match &self.lexeme {
            Lexeme::Comment(cut) => last_comment(self.read, cut),
            _ => None,
        }
    }
}

/// The fault of a comment whose last character the end of the input cuts.
fn last_comment(end: u64, cut: &Cut) -> Option<(u64, TextWhy)>
    ensures none { (n : OpenTerms) → result ≡ None → last_fault n end (in_comment cut.now.items) ≡ None }
    ensures some { (n : OpenTerms) (o : ℕ) (why : TextWhy) → result ≡ Some (o, why) → last_fault n end (in_comment cut.now.items) ≡ Some (o, why) }
{
    if cut.is_empty() {
        None
    } else {
        Some((end.saturating_sub(cut.len() as u64), TextWhy::BadUtf8))
    }
}

/// One more digit of a number that began at an offset.
fn grow_number(start: u64, number: &mut Integer, byte: u8) -> Result<(), TextFault>
    requires { (48 ≤ byte) × (byte < 58) }
    ensures ok { (n : OpenTerms) (at : ℕ) → OnOk result (led n at byte (in_number start number.old.is_negative number.old.value)
        ≡ in_lexeme n (in_number start number.new.is_negative number.new.value)) }
    ensures syntax { (n : OpenTerms) (at o : ℕ) (why : TextWhy) → result ≡ Err (Syntax o why)
        → led n at byte (in_number start number.old.is_negative number.old.value) ≡ Err (o, why) }
{
    match number.with_digit(byte) {
        Some(next) => {
            *number = next;
            Ok(())
        }
        None => Err(TextFault::Syntax(start, TextWhy::IntegerRange)),
    }
}

/// One more character of an atom without quotes that began at an offset.
fn grow_name(start: u64, name: &mut Characters, byte: u8) -> Result<(), TextFault>
    requires { is_name_character byte ≡ true }
    ensures ok { (n : OpenTerms) (at : ℕ) → OnOk result (led n at byte (in_name start name.old.text) ≡ in_lexeme n (in_name start name.new.text)) }
    ensures syntax { (n : OpenTerms) (at o : ℕ) (why : TextWhy) → result ≡ Err (Syntax o why)
        → led n at byte (in_name start name.old.text) ≡ Err (o, why) }
{
    if name.count >= MAX_CHARACTERS {
        return Err(TextFault::Syntax(start, TextWhy::BadToken));
    }
    name.push(char::from(byte))?;
    Ok(())
}

/// White space.
pub(crate) fn is_white(byte: u8) -> bool
    ensures { result ≡ is_white byte }
{
    matches!(byte, 9..=13 | b' ')
}

/// The mark of one byte.
fn single(byte: u8) -> Option<Mark>
    ensures { result ≡ single byte }
{
    match byte {
        b'{' => Some(Mark::OpenTuple),
        b'}' => Some(Mark::CloseBrace),
        b'[' => Some(Mark::OpenList),
        b']' => Some(Mark::CloseList),
        b'|' => Some(Mark::Bar),
        b',' => Some(Mark::Comma),
        b':' => Some(Mark::Colon),
        b'.' => Some(Mark::FullStop),
        _ => None,
    }
}

/// The mark of two bytes of which this is the first one.
fn double(byte: u8) -> Option<Mark>
    ensures { result ≡ double byte }
{
    match byte {
        b'#' => Some(Mark::OpenMap),
        b'<' => Some(Mark::OpenBits),
        b'>' => Some(Mark::CloseBits),
        b'=' => Some(Mark::Arrow),
        _ => None,
    }
}

/// The second byte of a mark of two.
fn second_byte(mark: Mark) -> u8
    ensures { result ≡ second_byte mark }
{
    match mark {
        Mark::OpenMap => b'{',
        Mark::OpenBits => b'<',
        _ => b'>',
    }
}

/// Whether an atom without quotes may go on with a byte.
fn is_name_byte(byte: u8) -> bool
    ensures { result ≡ is_name_character byte }
{
    byte.is_ascii_alphanumeric() || byte == b'_' || byte == b'@'
}
