//! What is open behind some tokens of a text, and what one more token does.
ghost use Rattle.std.specs.Prelude.{◌≡◌, ◌<◌, ◌≤◌, ◌^◌, ℕ, [], ◌∷◌, true, false, List, length, pos, ◌&&◌, ◌==◌, Option, Some, None, Ok, Err, IfOk};
ghost use Rattle.std.specs.Prelude.{IfErr, OnOk};
ghost use Rattle.dets_term.specs.TermValue.{TermValue, atom};
ghost use Rattle.text_model.specs.Grammar.{strict};
ghost use Rattle.text_model.specs.Nest.{want, stopped, closed, change, at_segment, wants, repeats_in, refusal, refusal_of};
ghost use Rattle.text_model.specs.Nest.{may_hold, wants_segment, is_colon, completed, leaf, open_term, brace_term, list_term, bits_term};
ghost use Rattle.text_model.specs.Nest.{frame_after_comma, frame_after_bar, frame_after_arrow, take_segment, take_size, take_bytes, string_refusal};
ghost use Rattle.text_model.specs.Nest.{take};
ghost use Rattle.text_model.specs.Token.{a_number, a_string, mark, mark as mark_token, number, string};
ghost use Rattle.text_model.specs.declared.mark.Mark.TheVariants.{OpenTuple, OpenMap, CloseBrace, OpenList, CloseList, OpenBits, CloseBits, Bar};
ghost use Rattle.text_model.specs.declared.mark.Mark.TheVariants.{Comma, Arrow, Colon as ColonMark, FullStop};
ghost use Rattle.text_model.specs.declared.fault.TextWhy.TheVariants.{BadToken};
ghost use Rattle.text_nest.specs.declared.nest.NestPlace.TheVariants.{Want};
ghost use Rattle.text_nest.specs.Fits.{IsFit};
ghost use Rattle.text_nest.specs.Strays.{is_stray, ends_segments, is_after, at_key, is_stopped};
ghost use Rattle.text_model.specs.Reader.{double, why_of, is_want, in_number, in_name, number_may_grow, last_fault};
ghost use Rattle.text_model.specs.declared.fault.TextFault.TheVariants.{Syntax};
ghost use Rattle.text_model.specs.declared.fault.TextWhy.{TextWhy};
ghost use Rattle.text_nest.specs.NestView.{frame_of, place_of, begun_terms, nest_of, divided};

use crate::characters::Characters;
use crate::closing::{bits_term, brace_term, list_term};
use crate::integer::Integer;
use crate::segments::{LastBits, byte_of};
use crate::strings::{bytes_with_all, code_points};
use dets_term::{ByteList, MapPairs, Term, TermList, Text, within_limits};
use std::alloc::Global;
use std::mem;
use text_model::{Mark, TextFault, TextWhy};

/// The greatest number of levels of a term.
const MAX_LEVELS: usize = 256;

/// The greatest number of characters of an atom.
pub const MAX_CHARACTERS: u64 = 255;

/// A term that is open, by its parts so far.
#[derive(Drop)]
pub(crate) enum Open {
    Tuple(TermList),
    /// The elements of a list, and whether its bar is behind them.
    List(TermList, bool),
    /// The pairs of a map, and a key in front of its value.
    Map(MapPairs, Option<Term>),
    /// A bit string by the bytes of its segments.
    Bits(ByteList),
}

/// An open term, with the offset of its opening mark.
#[derive(Drop)]
pub(crate) struct Start {
    at: u64,
    term: Open,
}

/// Where the next token stands. Offsets are those of the token that something began with.
#[derive(Drop)]
pub(crate) enum NestPlace {
    /// Where a term or a segment must begin.
    Want,
    /// Behind an opening mark.
    Opened,
    /// Behind a whole part of the innermost term, or behind the whole term.
    After(u64, Term),
    /// Behind a number that is a segment, or its value.
    Number(u64, u8),
    /// Behind the colon of such a value.
    Colon(u64, u8),
    /// Behind a string that is a segment.
    Segment,
    /// Behind the last segment, of fewer bits than eight.
    Sized(LastBits),
    /// Behind the full stop of a term.
    Stopped(Term),
}

/// The terms that are open, outermost first, and where the next token stands.
///
/// It takes the tokens of one text in order, each with its offset in bytes, from wherever the caller counts. After an error nothing
/// is said of it.
#[derive(Drop)]
pub struct Nest {
    begun: Vec<Start>,
    place: NestPlace,
}

impl Nest {
    /// Where the first token of a text stands.
    pub fn new(alloc: Global) -> Nest
        ensures { nest_of result ≡ record { begun = []; place = want } }
    {
        Nest {
            begun: Vec::new(alloc),
            place: NestPlace::Want,
        }
    }

    /// Whether the innermost term is a bit string.
    fn at_segment(&self) -> bool
        ensures { result ≡ at_segment (nest_of self.now).begun }
    {
        match self.begun.last() {
            None => false,
            Some(innermost) => matches!(innermost.term, Open::Bits(_)),
        }
    }

    fn wants(&self) -> bool
        ensures { result ≡ wants (nest_of self.now).place }
    {
        matches!(self.place, NestPlace::Want | NestPlace::Opened)
    }

    /// Whether a segment may begin here.
    fn wants_segment(&self) -> bool
        ensures { result ≡ wants_segment (nest_of self.now) }
    {
        self.wants() && self.at_segment()
    }

    /// Why no term may begin here, as `BadToken` or `Depth`; `None` where one may.
    pub fn refusal(&self) -> Option<TextWhy>
        ensures { result ≡ refusal strict (nest_of self.now) }
    {
        if !self.wants() || self.at_segment() {
            Some(TextWhy::BadToken)
        } else if self.begun.len() < MAX_LEVELS {
            None
        } else {
            Some(TextWhy::Depth)
        }
    }

    /// Why no number may stand here, whatever its value is; `None` where some number may.
    pub fn number_refusal(&self) -> Option<TextWhy>
        ensures { result ≡ refusal_of strict (nest_of self.now) a_number }
    {
        if self.wants_segment() || matches!(self.place, NestPlace::Colon(_, _)) {
            None
        } else {
            self.refusal()
        }
    }

    /// Why no string may stand here, whatever its characters are; `None` where some string may.
    pub fn string_refusal(&self) -> Option<TextWhy>
        ensures { result ≡ refusal_of strict (nest_of self.now) a_string }
    {
        if self.wants_segment() {
            None
        } else {
            self.refusal()
        }
    }

    /// Whether a string that begins here may have characters: as a term it has one level with none, and two with some.
    pub fn may_hold(&self) -> bool
        ensures { result ≡ may_hold strict (nest_of self.now) }
    {
        self.at_segment() || self.begun.len() + 1 < MAX_LEVELS
    }

    /// Takes a whole part that began at an offset.
    fn complete(&mut self, start: u64, term: Term) -> Result<(), TextFault>
        ensures ok { OnOk result (completed strict (nest_of self.old).begun start term ≡ Ok (nest_of self.new)) }
        ensures syntax { (at : ℕ) (why : TextWhy) → result ≡ Err (Syntax at why) → completed strict (nest_of self.old).begun start term ≡ Err (at, why) }
    {
        if self.repeats_key(&term) {
            return Err(TextFault::Syntax(start, TextWhy::RepeatedKey));
        }
        self.place = NestPlace::After(start, term);
        Ok(())
    }

    /// Whether a term is a key that stands in its map already.
    fn repeats_key(&self, term: &Term) -> bool
        ensures { result ≡ repeats_in (nest_of self.now).begun term.now }
    {
        match self.begun.last() {
            None => false,
            Some(innermost) => match &innermost.term {
                Open::Map(pairs, None) => pairs.has_key(term),
                _ => false,
            },
        }
    }

    /// Takes an opening mark.
    fn begin(&mut self, at: u64, term: Open) -> Result<(), TextFault>
        ensures ok { OnOk result (open_term strict (nest_of self.old) at (frame_of term) (refusal strict (nest_of self.old)) ≡ Ok (nest_of self.new)) }
        ensures syntax { (o : ℕ) (why : TextWhy) → result ≡ Err (Syntax o why)
            → open_term strict (nest_of self.old) at (frame_of term) (refusal strict (nest_of self.old)) ≡ Err (o, why) }
    {
        match self.refusal() {
            Some(why) => Err(TextFault::Syntax(at, why)),
            None => {
                self.begun.push(Start { at, term })?;
                self.place = NestPlace::Opened;
                Ok(())
            }
        }
    }

    /// Takes the term that a closing mark made, and which began at an offset.
    fn close(&mut self, start: u64, term: Option<Term>, at: u64) -> Result<(), TextFault>
        ensures ok { OnOk result (closed strict (nest_of self.old).begun start term at ≡ Ok (nest_of self.new)) }
        ensures syntax { (o : ℕ) (why : TextWhy) → result ≡ Err (Syntax o why) → closed strict (nest_of self.old).begun start term at ≡ Err (o, why) }
    {
        match term {
            None => Err(TextFault::Syntax(at, TextWhy::BadToken)),
            Some(term) => self.complete(start, term),
        }
    }

    /// Takes the brace that closes a tuple or a map.
    fn close_brace(&mut self, alloc: Global, at: u64) -> Result<(), TextFault>
        requires { IsFit (2 ^ 24) (nest_of self.old) }
        ensures ok { OnOk result (take strict (nest_of self.old) at (mark CloseBrace) ≡ Ok (nest_of self.new)) }
        ensures syntax { (o : ℕ) (why : TextWhy) → result ≡ Err (Syntax o why) → take strict (nest_of self.old) at (mark CloseBrace) ≡ Err (o, why) }
    {
        let place = mem::replace(&mut self.place, NestPlace::Want);
        match self.begun.pop() {
            None => Err(TextFault::Syntax(at, TextWhy::BadToken)),
            Some(start) => {
                let term = brace_term(alloc, start.term, place)?;
                self.close(start.at, term, at)
            }
        }
    }

    /// Takes the bracket that closes a list.
    fn close_list(&mut self, alloc: Global, at: u64) -> Result<(), TextFault>
        requires { IsFit (2 ^ 24) (nest_of self.old) }
        ensures ok { OnOk result (take strict (nest_of self.old) at (mark CloseList) ≡ Ok (nest_of self.new)) }
        ensures syntax { (o : ℕ) (why : TextWhy) → result ≡ Err (Syntax o why) → take strict (nest_of self.old) at (mark CloseList) ≡ Err (o, why) }
    {
        let place = mem::replace(&mut self.place, NestPlace::Want);
        match self.begun.pop() {
            None => Err(TextFault::Syntax(at, TextWhy::BadToken)),
            Some(start) => {
                let term = list_term(alloc, start.term, place)?;
                self.close(start.at, term, at)
            }
        }
    }

    /// Takes the mark that closes a bit string.
    fn close_bits(&mut self, at: u64) -> Result<(), TextFault>
        requires { IsFit (2 ^ 24) (nest_of self.old) }
        ensures ok { OnOk result (take strict (nest_of self.old) at (mark CloseBits) ≡ Ok (nest_of self.new)) }
        ensures syntax { (o : ℕ) (why : TextWhy) → result ≡ Err (Syntax o why) → take strict (nest_of self.old) at (mark CloseBits) ≡ Err (o, why) }
    {
        let place = mem::replace(&mut self.place, NestPlace::Want);
        match self.begun.pop() {
            None => Err(TextFault::Syntax(at, TextWhy::BadToken)),
            Some(start) => {
                let term = bits_term(start.term, place)?;
                self.close(start.at, term, at)
            }
        }
    }

    /// Takes a comma, a bar or an arrow.
    fn divide(&mut self, at: u64, mark: Mark) -> Result<(), TextFault>
        requires { IsFit (2 ^ 24) (nest_of self.old) }
        ensures ok { OnOk result (change (divided mark) (nest_of self.old) at (nest_of self.old).begun ≡ Ok (nest_of self.new)) }
        ensures syntax { (o : ℕ) (why : TextWhy) → result ≡ Err (Syntax o why)
            → change (divided mark) (nest_of self.old) at (nest_of self.old).begun ≡ Err (o, why) }
    {
        let place = mem::replace(&mut self.place, NestPlace::Want);
        match self.begun.last_mut() {
            None => Err(TextFault::Syntax(at, TextWhy::BadToken)),
            Some(innermost) => {
                let is_taken = innermost.term.divide(mark, place)?;
                if is_taken {
                    Ok(())
                } else {
                    Err(TextFault::Syntax(at, TextWhy::BadToken))
                }
            }
        }
    }

    /// Takes a colon.
    fn colon(&mut self, at: u64) -> Result<(), TextFault>
        ensures ok { OnOk result (take strict (nest_of self.old) at (mark ColonMark) ≡ Ok (nest_of self.new)) }
        ensures syntax { (o : ℕ) (why : TextWhy) → result ≡ Err (Syntax o why) → take strict (nest_of self.old) at (mark ColonMark) ≡ Err (o, why) }
    {
        match self.place {
            NestPlace::Number(start, value) => {
                if value >= 128 {
                    return Err(TextFault::Syntax(start, TextWhy::BadToken));
                }
                self.place = NestPlace::Colon(start, value);
                Ok(())
            }
            _ => Err(TextFault::Syntax(at, TextWhy::BadToken)),
        }
    }

    /// Takes a full stop.
    fn stop(&mut self, at: u64) -> Result<(), TextFault>
        ensures ok { OnOk result (take strict (nest_of self.old) at (mark FullStop) ≡ Ok (nest_of self.new)) }
        ensures syntax { (o : ℕ) (why : TextWhy) → result ≡ Err (Syntax o why) → take strict (nest_of self.old) at (mark FullStop) ≡ Err (o, why) }
    {
        if !self.begun.is_empty() {
            return Err(TextFault::Syntax(at, TextWhy::BadToken));
        }
        match mem::replace(&mut self.place, NestPlace::Want) {
            NestPlace::After(_, term) => {
                self.place = NestPlace::Stopped(term);
                Ok(())
            }
            _ => Err(TextFault::Syntax(at, TextWhy::BadToken)),
        }
    }

    /// Takes a punctuation mark that begins at an offset. `Syntax` says at which offset and why it may not stand there, `Memory`
    /// that there is no room.
    pub fn take_mark(&mut self, alloc: Global, at: u64, mark: Mark) -> Result<(), TextFault>
        requires { IsFit (2 ^ 24) (nest_of self.old) }
        ensures ok { OnOk result (take strict (nest_of self.old) at (mark_token mark) ≡ Ok (nest_of self.new)) }
        ensures syntax { (o : ℕ) (why : TextWhy) → result ≡ Err (Syntax o why) → take strict (nest_of self.old) at (mark_token mark) ≡ Err (o, why) }
    {
        match mark {
            Mark::OpenTuple => self.begin(at, Open::Tuple(TermList::new(alloc))),
            Mark::OpenMap => self.begin(at, Open::Map(MapPairs::new(alloc), None)),
            Mark::OpenList => self.begin(at, Open::List(TermList::new(alloc), false)),
            Mark::OpenBits => self.begin(at, Open::Bits(ByteList::new(alloc))),
            Mark::CloseBrace => self.close_brace(alloc, at),
            Mark::CloseList => self.close_list(alloc, at),
            Mark::CloseBits => self.close_bits(at),
            Mark::Bar => self.divide(at, Mark::Bar),
            Mark::Comma => self.divide(at, Mark::Comma),
            Mark::Arrow => self.divide(at, Mark::Arrow),
            Mark::Colon => self.colon(at),
            Mark::FullStop => self.stop(at),
        }
    }

    /// Takes a number that begins at an offset. `Syntax` says at which offset and why it may not stand there, `Memory` that there is
    /// no room.
    pub fn take_number(&mut self, at: u64, value: i128) -> Result<(), TextFault>
        ensures ok { OnOk result (take strict (nest_of self.old) at (number value) ≡ Ok (nest_of self.new)) }
        ensures syntax { (o : ℕ) (why : TextWhy) → result ≡ Err (Syntax o why) → take strict (nest_of self.old) at (number value) ≡ Err (o, why) }
    {
        if self.wants_segment() {
            return self.take_segment(at, value);
        }
        match self.place {
            NestPlace::Colon(start, segment) => self.take_size(start, segment, value),
            _ => match self.refusal() {
                Some(why) => Err(TextFault::Syntax(at, why)),
                None => self.complete(at, Term::int(value)),
            },
        }
    }

    /// Takes a number that is a segment, or its value.
    fn take_segment(&mut self, at: u64, value: i128) -> Result<(), TextFault>
        ensures ok { OnOk result (take_segment strict (nest_of self.old) at value ≡ Ok (nest_of self.new)) }
        ensures syntax { (o : ℕ) (why : TextWhy) → result ≡ Err (Syntax o why) → take_segment strict (nest_of self.old) at value ≡ Err (o, why) }
    {
        match byte_of(value) {
            None => Err(TextFault::Syntax(at, TextWhy::BadToken)),
            Some(byte) => {
                self.place = NestPlace::Number(at, byte);
                Ok(())
            }
        }
    }

    /// Takes how many bits a segment has, whose value began at an offset.
    fn take_size(&mut self, start: u64, value: u8, size: i128) -> Result<(), TextFault>
        ensures ok { OnOk result (take_size strict (nest_of self.old) start (pos value) size ≡ Ok (nest_of self.new)) }
        ensures syntax { (o : ℕ) (why : TextWhy) → result ≡ Err (Syntax o why)
            → take_size strict (nest_of self.old) start (pos value) size ≡ Err (o, why) }
    {
        match LastBits::new(value, size) {
            None => Err(TextFault::Syntax(start, TextWhy::BadToken)),
            Some(bits) => {
                self.place = NestPlace::Sized(bits);
                Ok(())
            }
        }
    }

    /// Takes an atom that begins at an offset, by its characters. `Syntax` says at which offset and why it may not stand there,
    /// `Memory` that there is no room.
    pub fn take_atom(&mut self, at: u64, name: Text) -> Result<(), TextFault>
        requires { length name ≤ 255 }
        ensures ok { OnOk result (leaf strict (nest_of self.old) at (atom name) (refusal strict (nest_of self.old)) ≡ Ok (nest_of self.new)) }
        ensures syntax { (o : ℕ) (why : TextWhy) → result ≡ Err (Syntax o why)
            → leaf strict (nest_of self.old) at (atom name) (refusal strict (nest_of self.old)) ≡ Err (o, why) }
    {
        match self.refusal() {
            Some(why) => Err(TextFault::Syntax(at, why)),
            None => {
                let term = within_limits(Term::atom_of(name))?;
                self.complete(at, term)
            }
        }
    }

    /// Takes a string of so many characters that begins at an offset. `Syntax` says at which offset and why it may not stand there,
    /// `Memory` that there is no room.
    pub fn take_string(
        &mut self,
        alloc: Global,
        at: u64,
        text: &Text,
        count: u64,
    ) -> Result<(), TextFault>
        requires count { count ≡ length text.now }
        requires few { length text.now < 2 ^ 31 }
        ensures ok { OnOk result (take strict (nest_of self.old) at (string text.now) ≡ Ok (nest_of self.new)) }
        ensures syntax { (o : ℕ) (why : TextWhy) → result ≡ Err (Syntax o why) → take strict (nest_of self.old) at (string text.now) ≡ Err (o, why) }
    {
        if self.wants_segment() {
            return self.take_bytes(at, text);
        }
        match self.characters_refusal(count) {
            Some(why) => Err(TextFault::Syntax(at, why)),
            None => {
                let term = code_points(alloc, text)?;
                self.complete(at, term)
            }
        }
    }

    /// Why no string of so many characters may stand where a term begins.
    fn characters_refusal(&self, count: u64) -> Option<TextWhy>
        ensures { (cs : List ℕ) → count ≡ length cs → result ≡ string_refusal strict (nest_of self.now) cs }
    {
        match self.refusal() {
            None if count > 0 && !self.may_hold() => Some(TextWhy::Depth),
            refusal => refusal,
        }
    }

    /// Takes a string that is a segment.
    fn take_bytes(&mut self, at: u64, text: &Text) -> Result<(), TextFault>
        requires { at_segment (nest_of self.old).begun ≡ true }
        ensures ok { OnOk result (take_bytes strict (nest_of self.old) at text.now ≡ Ok (nest_of self.new)) }
        ensures syntax { (o : ℕ) (why : TextWhy) → result ≡ Err (Syntax o why) → take_bytes strict (nest_of self.old) at text.now ≡ Err (o, why) }
    {
        match self.begun.pop() {
            Some(
                Start {
                    at: start,
                    term: Open::Bits(bytes),
                },
            ) => match bytes_with_all(bytes, text.as_str())? {
                None => Err(TextFault::Syntax(at, TextWhy::BadToken)),
                Some(bytes) => {
                    self.begun.push(Start {
                        at: start,
                        term: Open::Bits(bytes),
                    })?;
                    self.place = NestPlace::Segment;
                    Ok(())
                }
            },
            _ => unreachable!(),
        }
    }

    /// Whether a mark of two bytes may not stand here, whatever its place was; else it is taken, or refused for another reason.
    pub fn is_stray(&self, mark: Mark) -> bool
        requires { (x : ℕ) × (double x ≡ Some mark) }
        ensures { (at : ℕ) → is_stray (why_of (take strict (nest_of self.now) at (mark_token mark))) ≡ result }
    {
        match mark {
            Mark::CloseBits => !self.closes_bits(),
            Mark::Arrow => !self.is_behind_key(),
            _ => matches!(self.refusal(), Some(TextWhy::BadToken)),
        }
    }

    /// Whether a bit string may close here.
    fn closes_bits(&self) -> bool
        ensures { result ≡ (at_segment (nest_of self.now).begun && ends_segments (nest_of self.now).place) }
    {
        self.at_segment()
            && matches!(
                self.place,
                NestPlace::Opened
                    | NestPlace::Number(_, _)
                    | NestPlace::Segment
                    | NestPlace::Sized(_)
            )
    }

    /// Whether a key is in front.
    fn is_behind_key(&self) -> bool
        ensures { result ≡ (is_after (nest_of self.now).place && at_key (nest_of self.now).begun) }
    {
        matches!(self.place, NestPlace::After(_, _))
            && match self.begun.last() {
                None => false,
                Some(innermost) => matches!(innermost.term, Open::Map(_, None)),
            }
    }

    /// Whether the last token was the full stop of a term.
    pub fn is_stopped(&self) -> bool
        ensures { result ≡ is_stopped (nest_of self.now).place }
    {
        matches!(self.place, NestPlace::Stopped(_))
    }

    /// Whether no token was taken.
    pub fn is_fresh(&self) -> bool
        ensures { result ≡ ((length (nest_of self.now).begun == 0) && is_want (nest_of self.now).place) }
    {
        self.begun.is_empty() && matches!(self.place, NestPlace::Want)
    }

    /// The term whose full stop was the last token; `None` where that was another token, or there was none.
    pub fn into_term(self) -> Option<Term>
        ensures some { (t : TermValue) → result ≡ Some t → (nest_of self).place ≡ stopped t }
        ensures none { result ≡ None → is_stopped (nest_of self).place ≡ false }
    {
        let Nest { place, .. } = self;
        match place {
            NestPlace::Stopped(term) => Some(term),
            _ => None,
        }
    }

    /// The fault of a number that the end of the input ends, and that began at an offset: `None` where it may go on or may stand
    /// there, `Some` with the offset and the reason where no continuation is without fault. The only error is `Memory`.
    pub fn last_number(
        self,
        start: u64,
        number: Integer,
    ) -> Result<Option<(u64, TextWhy)>, TextFault>
        ensures none { (end : ℕ) → result ≡ Ok None → last_fault (nest_of self) end (in_number start number.is_negative number.value) ≡ None }
        ensures some { (end o : ℕ) (why : TextWhy) → result ≡ Ok (Some (o, why))
            → last_fault (nest_of self) end (in_number start number.is_negative number.value) ≡ Some (o, why) }
        ensures memory { (o : ℕ) (why : TextWhy) → result ≡ Err (Syntax o why) → ⊥ }
    {
        if self.number_may_grow(number) {
            return Ok(None);
        }
        let mut nest = self;
        match nest.take_number(start, number.value) {
            Ok(()) => Ok(None),
            Err(TextFault::Syntax(at, why)) => Ok(Some((at, why))),
            Err(TextFault::Memory) => Err(TextFault::Memory),
        }
    }

    /// Whether a longer number could stand in the place of one.
    fn number_may_grow(&self, number: Integer) -> bool
        ensures { result ≡ number_may_grow (nest_of self.now) number.is_negative number.value }
    {
        if self.wants_segment() {
            return false;
        }
        match self.place {
            NestPlace::Colon(_, _) => !number.is_negative && number.value == 0,
            _ => number.with_digit(b'0').is_some(),
        }
    }

    /// The same of an atom without quotes.
    pub fn last_name(
        self,
        start: u64,
        name: Characters,
    ) -> Result<Option<(u64, TextWhy)>, TextFault>
        requires { length name.text ≤ 255 }
        ensures none { (end : ℕ) → result ≡ Ok None → last_fault (nest_of self) end (in_name start name.text) ≡ None }
        ensures some { (end o : ℕ) (why : TextWhy) → result ≡ Ok (Some (o, why)) → last_fault (nest_of self) end (in_name start name.text) ≡ Some (o, why) }
        ensures memory { (o : ℕ) (why : TextWhy) → result ≡ Err (Syntax o why) → ⊥ }
    {
        if name.count < MAX_CHARACTERS {
            return Ok(None);
        }
        let mut nest = self;
        match nest.take_atom(start, name.text) {
            Ok(()) => Ok(None),
            Err(TextFault::Syntax(at, why)) => Ok(Some((at, why))),
            Err(TextFault::Memory) => Err(TextFault::Memory),
        }
    }
}
