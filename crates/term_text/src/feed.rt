ghost use Rattle.std.specs.Prelude.{◌≡◌, ◌<◌, ◌≤◌, ◌+◌, ◌^◌, ℕ, [], ◌++◌, length, true, false, Option, Some, None, Ok, Err, OnOk, OnErr, IfOk};
ghost use Rattle.text_model.specs.declared.fault.TextFault.TheVariants.{Syntax};
ghost use Rattle.text_model.specs.declared.fault.TextWhy.{TextWhy};
ghost use Rattle.text_model.specs.Sentence.{ends};
ghost use Rattle.text_model.specs.Script.{fault, no_term, IsAnswer};
ghost use Rattle.feed_model.specs.Feed.{empty_feed, total, with_piece, passed, failed, Gives, IsNext};
ghost use Rattle.text_model.specs.TextFeed.{texts};
ghost use Rattle.text_nest.specs.Strays.{is_stopped};
ghost use Rattle.text_nest.specs.NestView.{nest_of};
ghost use Rattle.term_text.specs.FeedReads.{HasRead, HasReadOn};

use crate::Memory;
use crate::reader::{Reader, is_white};
use bytes::BytesMut;
use feed_model::{Fed, Feed};
use std::alloc::Global;
use std::marker::Model;
use std::mem;
use text_model::{TextFault, TextWhy};

/// A stream of printed terms that comes in pieces.
#[derive(Drop)]
pub struct TextFeed {
    alloc: Global,
    /// The bytes that were fed and of which no term was taken yet.
    left: BytesMut,
    /// Where the first of them stands in the stream.
    offset: u64,
    finished: bool,
    fault: Option<TextFault>,
    /// What the first of them have come to.
    reader: Reader,
    /// How many of them it has read.
    read: usize,
}

impl Model for TextFeed {
    ghost use Rattle.text_model.specs.TextFeed.{TextFeed as Shown};

    ghost Value = { Shown };

    ghost view = { λ a. record { left = a.left.items; offset = a.offset; finished = a.finished; fault = a.fault } };

    ghost use Rattle.term_text.specs.FeedInside.{IsInOrder};

    ghost invariant = { IsInOrder };
}

impl TextFeed {
    /// A stream of which nothing was fed yet.
    pub fn new(alloc: Global) -> TextFeed
        ensures { result ≡ empty_feed }
    {
        TextFeed {
            alloc,
            left: BytesMut::new(alloc),
            offset: 0,
            finished: false,
            fault: None,
            reader: Reader::new(alloc),
            read: 0,
        }
    }

    /// Puts a piece behind what is left. `Memory` changes nothing.
    pub fn feed(&mut self, piece: &[u8]) -> Result<(), Memory>
        requires not_finished { self.old.finished ≡ false }
        requires room { total self.old + length piece.now < 2 ^ 63 }
        ensures ok { OnOk result (self.new ≡ with_piece self.old piece.now) }
        ensures err { OnErr result (self.new ≡ self.old) }
    {
        self.left.extend_from_slice(piece)?;
        Ok(())
    }

    /// Says that no more input comes.
    pub fn finish(&mut self)
        ensures { self.new ≡ record self.old { finished = true } }
    {
        self.finished = true;
    }

    /// The next term, where it stands in front of what is left with its full stop; else whether more input is needed. A
    /// fault has the offset in the stream, and comes again at each later call; but `Memory` changes nothing.
    pub fn next(&mut self) -> Result<Fed, TextFault>
        ensures next { IsNext texts self.old self.new result }
        ensures keeps { (total self.new ≡ total self.old) × (self.new.finished ≡ self.old.finished) }
    {
        match self.fault {
            Some(fault) => Err(fault),
            None => self.read_next(),
        }
    }

    /// The same where no fault came yet.
    fn read_next(&mut self) -> Result<Fed, TextFault>
        ensures gives { Gives texts self.old self.new result }
        ensures keeps { (total self.new ≡ total self.old) × (self.new.finished ≡ self.old.finished) }
    {
        match self.read_on() {
            Ok(fed) => Ok(fed),
            Err(TextFault::Memory) => Err(TextFault::Memory),
            Err(TextFault::Syntax(at, why)) => Err(self.fail(at, why)),
        }
    }

    /// Answers a fault from now on, whose offset is that in what is left.
    fn fail(&mut self, at: u64, why: TextWhy) -> TextFault
        requires { at ≤ length self.old.left }
        ensures fault { result ≡ Syntax (self.old.offset + at) why }
        ensures failed { self.new ≡ failed self.old (Syntax (self.old.offset + at) why) }
    {
        let fault = TextFault::Syntax(self.offset + at, why);
        self.fault = Some(fault);
        fault
    }

    /// Reads what was fed and not read yet, and answers. The offset of a fault is that in what is left, which will then be
    /// read again from its first byte on.
    fn read_on(&mut self) -> Result<Fed, TextFault>
        ensures fed { (fed : Fed) → result ≡ Ok fed → Gives texts self.old self.new (Ok fed) }
        ensures syntax { (o : ℕ) (why : TextWhy) → result ≡ Err (Syntax o why) → IsAnswer self.old.finished self.old.left (no_term (fault o why)) }
        ensures err { OnErr result (self.new ≡ self.old) }
        ensures keeps { (total self.new ≡ total self.old) × (self.new.finished ≡ self.old.finished) }
    {
        let read = mem::replace(&mut self.read, 0);
        let mut reader = mem::replace(&mut self.reader, Reader::new(self.alloc));
        match reader.run(self.alloc, &self.left.as_slice()[read..]) {
            Ok(taken) => self.answer(reader, read + taken),
            Err(fault) => Err(fault),
        }
    }

    /// What is answered where the reader has come so far.
    fn answer(&mut self, reader: Reader, read: usize) -> Result<Fed, TextFault>
        requires { HasReadOn self.old.left read reader }
        ensures fed { (fed : Fed) → result ≡ Ok fed → Gives texts self.old self.new (Ok fed) }
        ensures syntax { (o : ℕ) (why : TextWhy) → result ≡ Err (Syntax o why) → IsAnswer self.old.finished self.old.left (no_term (fault o why)) }
        ensures err { OnErr result (self.new ≡ self.old) }
        ensures keeps { (total self.new ≡ total self.old) × (self.new.finished ≡ self.old.finished) }
    {
        if reader.is_stopped() {
            self.behind_stop(reader, read)
        } else if !self.finished {
            self.keep(reader, read);
            Ok(Fed::Again)
        } else if reader.is_blank() {
            match reader.blank_fault() {
                None => {
                    self.keep(reader, read);
                    Ok(Fed::End)
                }
                Some((at, why)) => Err(TextFault::Syntax(at, why)),
            }
        } else {
            Err(reader.ended())
        }
    }

    /// What is answered where a term and a full stop were read.
    fn behind_stop(&mut self, reader: Reader, read: usize) -> Result<Fed, TextFault>
        requires read { HasRead self.old.left read reader }
        requires stopped { is_stopped (nest_of reader.nest).place ≡ true }
        ensures fed { (fed : Fed) → result ≡ Ok fed → Gives texts self.old self.new (Ok fed) }
        ensures syntax { (o : ℕ) (why : TextWhy) → result ≡ Err (Syntax o why) → IsAnswer self.old.finished self.old.left (no_term (fault o why)) }
        ensures err { OnErr result (self.new ≡ self.old) }
        ensures keeps { (total self.new ≡ total self.old) × (self.new.finished ≡ self.old.finished) }
    {
        match is_end(&self.left.as_slice()[read..], self.finished) {
            None => {
                self.keep(reader, read);
                Ok(Fed::Again)
            }
            Some(false) => Err(TextFault::Syntax(
                (read as u64).saturating_sub(1),
                TextWhy::BadToken,
            )),
            Some(true) => match reader.into_term() {
                Some(term) => {
                    self.pass(read);
                    Ok(Fed::Term(term))
                }
                None => unreachable!(),
            },
        }
    }

    /// Takes bytes from the front, of which nothing is read.
    fn pass(&mut self, count: usize)
        requires { count ≤ length self.old.left }
        ensures { self.new ≡ passed self.old count }
    {
        self.left.advance(count);
        self.offset += count as u64;
        self.reader = Reader::new(self.alloc);
        self.read = 0;
    }

    /// Keeps what was read for the next call.
    fn keep(&mut self, reader: Reader, read: usize)
        requires { HasRead self.old.left read reader }
        ensures { self.new ≡ self.old }
    {
        self.reader = reader;
        self.read = read;
    }
}

impl Feed for TextFeed {
    type Fault = TextFault;

    ghost use Rattle.text_model.proofs.SteadyTexts.{steady-texts};

    ghost meaning = { texts };

    ghost shows = { λ feed. feed };

    fn feed(&mut self, piece: &[u8]) -> Result<(), Memory> {
        self.feed(piece)
    }

    fn finish(&mut self) {
        self.finish();
    }

    fn next(&mut self) -> Result<Fed, TextFault> {
        self.next()
    }

    ghost steady = { steady-texts };
}

/// Whether a full stop in front of these bytes is the end of a term; `None` where the next piece decides.
fn is_end(rest: &[u8], finished: bool) -> Option<bool>
    ensures { result ≡ ends finished rest.now }
{
    match rest.first() {
        Some(byte) => Some(is_white(*byte) || *byte == b'%'),
        None if finished => Some(true),
        None => None,
    }
}
