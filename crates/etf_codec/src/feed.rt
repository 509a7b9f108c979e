ghost use Rattle.std.specs.Prelude.{◌≡◌, ◌<◌, ◌+◌, ◌^◌, [], ◌++◌, length, true, false, None, Ok, Err, IfOk, IfErr, OnOk, OnErr};
ghost use Rattle.feed_model.specs.Feed.{empty_feed, total, with_piece, failed, Gives, IsNext};
ghost use Rattle.etf_model.specs.Answers.{Answers};
ghost use Rattle.etf_model.specs.SpellingFeed.{SpellingFeed, front_of, spellings};
ghost use Rattle.etf_model.specs.Spelling.{spelling, IsPart};

use crate::cursor::Cursor;
use crate::term_reader::TermReader;
use crate::{EtfFault, Fed, Feed, Memory};
use bytes::BytesMut;
use dets_term::Term;
use std::alloc::Global;
use std::marker::Model;
use std::mem;

/// How many bytes a spelling has at most.
const LONGEST: usize = 1 << 24;

/// A stream of spellings that comes in pieces.
#[derive(Drop)]
pub struct TermFeed {
    alloc: Global,
    /// The bytes that were fed and of which no term was taken yet.
    left: BytesMut,
    /// Where the first of them stands in the stream.
    offset: u64,
    finished: bool,
    fault: Option<EtfFault>,
    /// What was read of the spelling that begins with them.
    reader: TermReader,
    /// How many bytes were read of it.
    read: usize,
}

impl Model for TermFeed {
    ghost use Rattle.etf_model.specs.SpellingFeed.{SpellingFeed};

    ghost Value = { SpellingFeed };

    ghost view = { λ a. record { left = a.left.items; offset = a.offset; finished = a.finished; fault = a.fault } };

    ghost use Rattle.etf_codec.specs.FeedInside.{IsInOrder};

    ghost invariant = { IsInOrder };
}

impl TermFeed {
    /// A stream of which nothing was fed yet.
    pub fn new(alloc: Global) -> TermFeed
        ensures { result ≡ empty_feed }
    {
        TermFeed {
            alloc,
            left: BytesMut::new(alloc),
            offset: 0,
            finished: false,
            fault: None,
            reader: TermReader::new(alloc),
            read: 0,
        }
    }

    /// Puts a piece behind what is left. `Memory` changes nothing.
    pub fn feed(&mut self, piece: &[u8]) -> Result<(), Memory>
        requires not_finished { self.old.finished ≡ false }
        requires room { total self.old + length piece.now < 2 ^ 63 }
        ensures ok { OnOk result (self.new ≡ with_piece self.old piece.now) }
        ensures err { OnErr result (self.new ≡ self.old) }
    {
        self.left.extend_from_slice(piece)?;
        Ok(())
    }

    /// Says that no more input comes.
    pub fn finish(&mut self)
        ensures { self.new ≡ record self.old { finished = true } }
    {
        self.finished = true;
    }

    /// The next term, where a front of what is left spells it; else whether more input is needed. A fault has the offset
    /// in the stream, and comes again at each later call; but `Memory` changes nothing.
    ///
    /// `Short` where the input ends inside a term, `LongTerm` where 16,777,216 bytes spell no whole term and break no
    /// rule, else the fault of the first byte that breaks a rule.
    pub fn next(&mut self) -> Result<Fed, EtfFault>
        ensures { IsNext spellings self.old self.new result }
    {
        if let Some(fault) = self.fault {
            return Err(fault);
        }
        match self.take_front() {
            Ok(term) => Ok(Fed::Term(term)),
            Err(fault) => match fault {
                EtfFault::Memory => Err(fault),
                EtfFault::Short => self.behind_the_last(),
                _ => Err(self.keep_fault(fault)),
            },
        }
    }

    /// Reads on, and takes the term that a front of what is left spells. After `Short` it goes on where the bytes
    /// ended, else from the first byte that is left.
    fn take_front(&mut self) -> Result<Term, EtfFault>
        ensures term { IfOk result (λ term. Gives spellings self.old self.new (Ok (Fed.Term term))) }
        ensures fault { IfErr result (λ why. Answers spelling self.old.offset (front_of self.old) (Err why)) }
        ensures stays { OnErr result (self.new ≡ self.old) }
    {
        let read = mem::replace(&mut self.read, 0);
        let mut reader = mem::replace(&mut self.reader, TermReader::new(self.alloc));
        let end = self.left.len().min(LONGEST);
        let mut cursor = Cursor::new(self.offset + read as u64, &self.left.as_slice()[read..end]);
        match reader.read(self.alloc, &mut cursor) {
            Ok(term) => {
                let length = (cursor.offset() - self.offset) as usize;
                self.left.advance(length);
                self.offset += length as u64;
                Ok(term)
            }
            Err(fault) => match fault {
                EtfFault::Short => {
                    self.read = (cursor.offset() - self.offset) as usize;
                    self.reader = reader;
                    Err(fault)
                }
                _ => Err(fault),
            },
        }
    }

    /// What is answered where the bytes that are left, or as many as a spelling has at most, are a part of one.
    fn behind_the_last(&mut self) -> Result<Fed, EtfFault>
        requires { IsPart (front_of self.old) }
        ensures { Gives spellings self.old self.new result }
    {
        if self.left.len() >= LONGEST {
            Err(self.keep_fault(EtfFault::LongTerm(self.offset)))
        } else if !self.finished {
            Ok(Fed::Again)
        } else if self.left.is_empty() {
            Ok(Fed::End)
        } else {
            Err(self.keep_fault(EtfFault::Short))
        }
    }

    /// Answers a fault from now on.
    fn keep_fault(&mut self, fault: EtfFault) -> EtfFault
        ensures kept { self.new ≡ failed self.old fault }
        ensures same { result ≡ fault }
    {
        self.fault = Some(fault);
        fault
    }
}

impl Feed for TermFeed {
    type Fault = EtfFault;

    ghost use Rattle.etf_model.specs.SteadySpellings.{steady-spellings};

    ghost meaning = { spellings };

    ghost shows = { λ feed. feed };

    fn feed(&mut self, piece: &[u8]) -> Result<(), Memory> {
        self.feed(piece)
    }

    fn finish(&mut self) {
        self.finish();
    }

    #[tactic(auto, using(crate::proofs::FeedSteps::spellings_keep))]
    fn next(&mut self) -> Result<Fed, EtfFault> {
        self.next()
    }

    ghost steady = { steady-spellings };
}
