//! Reading a term part by part.
ghost use Rattle.std.specs.Prelude.{◌≡◌, ◌<◌, ◌∷◌, IfOk, OnOk, reverse, length};
ghost use Rattle.etf_codec.specs.Begun.{MayCome};
ghost use Rattle.etf_codec.specs.Tags.{next_role, next_in};
ghost use Rattle.etf_codec.specs.TermReader.{IsFresh, IsReader, IsNest, Completes, VersionReads, NextReads, StepReads, ReaderReads, ahead};
ghost use Rattle.etf_codec.specs.declared.term_reader.Stage.TheVariants.{Part};

use crate::big_integer::BigInteger;
use crate::cursor::Cursor;
use crate::frame::{Begun, Frame};
use crate::head::{Head, read_head};
use crate::joining::{Joined, join};
use crate::tags::{Role, read_tag};
use crate::{EtfFault, Memory};
use dets_term::Term;
use etf_model::tags::VERSION;
use std::alloc::Global;

/// Which bytes of a spelling come next.
#[derive(Drop)]
pub(crate) enum Stage {
    /// The byte in front of the term.
    Version,
    /// A part of the innermost term that is begun, or the whole term.
    Part,
    /// The magnitude of a part.
    Number(BigInteger),
}

/// What was read of a spelling.
#[derive(Drop)]
pub(crate) struct TermReader {
    stage: Stage,
    begun: Vec<Begun>,
}

impl TermReader {
    /// Nothing was read. It takes no memory yet.
    pub(crate) fn new(alloc: Global) -> TermReader
        ensures { IsFresh result }
    {
        TermReader {
            stage: Stage::Version,
            begun: Vec::new(alloc),
        }
    }

    /// Reads on, from the position that was come to. After `Short` it goes on where the bytes ended; after any other answer
    /// it is of no more use.
    pub(crate) fn read(&mut self, alloc: Global, cursor: &mut Cursor<'_>) -> Result<Term, EtfFault>
        requires { IsReader self.old }
        ensures { ReaderReads self.old self.new cursor.old cursor.new result }
    {
        loop {
            let answer = self.advance(alloc, cursor)?;
            match answer {
                Some(term) => return Ok(term),
                None => {}
            }
        }
    }

    /// The byte in front, the next part up to its own first part, or a magnitude. `None` where there is more to read,
    /// else the term.
    fn advance(&mut self, alloc: Global, cursor: &mut Cursor<'_>) -> Result<Option<Term>, EtfFault>
        requires { IsReader self.old }
        ensures reads { StepReads self.old self.new cursor.old cursor.new result }
        ensures forward { IfOk result (λ term. ahead self.new cursor.new < ahead self.old cursor.old) }
    {
        match &mut self.stage {
            Stage::Version => {
                read_version(cursor)?;
                self.stage = Stage::Part;
                Ok(None)
            }
            Stage::Part => self.read_part(alloc, cursor),
            Stage::Number(number) => {
                let start = number.start;
                let integer = number.read(cursor)?;
                self.stage = Stage::Part;
                complete(alloc, &mut self.begun, start, integer)
            }
        }
    }

    /// The next part, up to its own first part or its magnitude. `None` where there is more to read, else the term.
    fn read_part(
        &mut self,
        alloc: Global,
        cursor: &mut Cursor<'_>,
    ) -> Result<Option<Term>, EtfFault>
        requires reader { IsReader self.old }
        requires stage { self.old.stage ≡ Part }
        ensures reads { StepReads self.old self.new cursor.old cursor.new result }
        ensures forward { IfOk result (λ term. ahead self.new cursor.new < ahead self.old cursor.old) }
    {
        let start = cursor.offset();
        let head = read_next(alloc, &self.begun, cursor)?;
        match head {
            Head::Whole(term) => complete(alloc, &mut self.begun, start, term),
            Head::Open(frame) => {
                push_begun(&mut self.begun, Begun { start, frame })?;
                Ok(None)
            }
            Head::Number(number) => {
                self.stage = Stage::Number(number);
                Ok(None)
            }
        }
    }
}

/// The byte 131.
fn read_version(cursor: &mut Cursor<'_>) -> Result<(), EtfFault>
    ensures reads { VersionReads cursor.old cursor.new result }
    ensures forward { IfOk result (λ none. length cursor.new.left < length cursor.old.left) }
{
    let start = cursor.offset();
    let version = cursor.byte()?;
    if version != VERSION {
        return Err(EtfFault::NotVersion(start));
    }
    Ok(())
}

/// The tag of the next part and what follows it. After a fault the position is as it was.
fn read_next(alloc: Global, begun: &Vec<Begun>, cursor: &mut Cursor<'_>) -> Result<Head, EtfFault>
    requires { IsNest begun.now.items }
    ensures reads { NextReads begun.now.items cursor.old cursor.new result }
    ensures forward { IfOk result (λ head. length cursor.new.left < length cursor.old.left) }
{
    let start = cursor.offset();
    let levels = 255 - begun.len() as u32;
    let role = next_role(begun);
    let mut behind = cursor.copied();
    let tag = read_tag(&mut behind, role)?;
    let head = read_head(alloc, &mut behind, tag, levels, start)?;
    *cursor = behind;
    Ok(head)
}

/// What the next part is.
fn next_role(begun: &Vec<Begun>) -> Role
    ensures { result ≡ next_role (reverse begun.now.items) }
{
    match begun.last() {
        None => Role::Outermost,
        Some(innermost) => next_in(&innermost.frame),
    }
}

fn next_in(frame: &Frame) -> Role
    ensures { result ≡ next_in frame.now }
{
    match frame {
        Frame::Element(_, _) => Role::Part,
        Frame::Item(_, _) => Role::Part,
        Frame::Tail(_) => Role::Tail,
        Frame::Key(_, _) => Role::Part,
        Frame::Value(_, _, _) => Role::Part,
    }
}

/// Joins a part that begins at an offset to the innermost begun term, and each term that is whole by it to the one around
/// it. `None` where a next part is to be read.
fn complete(
    alloc: Global,
    begun: &mut Vec<Begun>,
    start: u64,
    part: Term,
) -> Result<Option<Term>, EtfFault>
    requires nest { IsNest begun.old.items }
    requires part { MayCome (reverse begun.old.items) part }
    ensures { Completes begun.old.items begun.new.items start part result }
{
    let mut at = start;
    let mut term = part;
    while let Some(innermost) = begun.pop() {
        let joined = join(alloc, innermost, at, term)?;
        match joined {
            Joined::Whole(start, whole) => {
                at = start;
                term = whole;
            }
            Joined::Open(open) => {
                push_begun(begun, open)?;
                return Ok(None);
            }
        }
    }
    Ok(Some(term))
}

/// Puts a begun term innermost. After `Memory` the others are as they were.
fn push_begun(begun: &mut Vec<Begun>, innermost: Begun) -> Result<(), Memory>
    ensures ok { OnOk result (reverse begun.new.items ≡ innermost ∷ reverse begun.old.items) }
{
    begun.push(innermost)?;
    Ok(())
}
