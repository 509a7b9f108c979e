//! The book of a table, in order.

use crate::changing::changes_of;
use crate::fault::Fault;
use crate::old::{Sides, old_entry, sides_of};
use crate::touch::Touch;
use crate::untold::Untold;
use block_disk::make;
use buddy_space::Space;
use dets_term::{Kind, Memory, Term};
use etf_codec::encode;
use file_model::{Entry, FileState, Head};
use flush_engine::{Book, PlanFault, commit, plan};
use host_model::{DiskFailed, Host};
use slot_table::Directory;
use std::alloc::{AllocError, Global};
use std::marker::Model;
use write_cache::WriteCache;

/// How many slots a directory has.
const SLOTS: u32 = 256;

/// A book in order. Contracts see the book.
#[derive(Drop)]
pub struct Kept {
    book: Book,
}

impl Model for Kept {
    ghost use Rattle.book_model.specs.Book.{Book, IsInOrder};
    ghost use Rattle.flush_engine.specs.Meaning.{book_of};

    ghost Value = { Book };

    ghost view = { λ a. book_of a.book };

    ghost invariant = { λ a. IsInOrder (book_of a.book) };
}

/// What a command came to.
#[derive(Clone, Copy)]
pub enum Outcome {
    Planned,
    Full(u8),
    BadLine,
}

/// How many segments, taken and deferred runs and pending keys there are.
#[derive(Clone, Copy)]
pub struct Numbers {
    pub segments: u32,
    pub taken: u32,
    pub deferred: usize,
    pub waiting: usize,
}

impl Kept {
    /// Makes the file of a set with at most so many segments, and its book. `BadLine` where no file may have so many.
    pub fn new<H: Host>(alloc: Global, host: &mut Untold<H>, most: u32) -> Result<Kept, Fault> {
        if most < 1 || most > 8000 {
            return Err(Fault::BadLine);
        }
        let head = Head {
            version: 1,
            state: FileState::Closed,
            kind: Kind::Set,
            keypos: 1,
            segments: 0,
            max_segments: most,
            index: None,
        };
        let place = make(host, head)?;
        Ok(Kept {
            book: Book {
                place,
                space: Space::new(alloc),
                directory: Directory::new(alloc, SLOTS)?,
                cache: WriteCache::new(alloc),
            },
        })
    }

    /// Plans the changes of these keys.
    pub fn command(self, alloc: Global, touches: &[Touch]) -> Result<(Kept, Outcome), Memory> {
        let Kept { mut book } = self;
        let changes = match changes_of(alloc, &book, touches) {
            Ok(changes) => changes,
            Err(Fault::Memory(memory)) => return Err(memory),
            Err(_) => return Ok((Kept { book }, Outcome::BadLine)),
        };
        match plan(alloc, &mut book, changes) {
            Ok(()) => Ok((Kept { book }, Outcome::Planned)),
            Err(PlanFault::Full(exp)) => Ok((Kept { book }, Outcome::Full(exp))),
            Err(PlanFault::Memory) => Err(AllocError),
        }
    }

    /// Flushes what waits to the file. A book whose flush failed is given up.
    pub fn flush<H: Host>(self, host: &mut Untold<H>) -> Result<Kept, DiskFailed> {
        let Kept { mut book } = self;
        commit(host, &mut book)?;
        Ok(Kept { book })
    }

    /// What is known of the block of a key.
    pub fn known(&self, alloc: Global, key: &Term) -> Result<Option<Entry>, Memory> {
        let spelled = encode(alloc, key)?;
        Ok(old_entry(&self.book, spelled.as_slice()))
    }

    /// What a key has before the next flush and after it.
    pub fn sides(&self, alloc: Global, key: &Term) -> Result<Sides, Memory> {
        let spelled = encode(alloc, key)?;
        Ok(sides_of(&self.book, spelled.as_slice()))
    }

    pub fn numbers(&self) -> Numbers {
        Numbers {
            segments: self.book.space.segments(),
            taken: self.book.directory.keys(),
            deferred: deferred(&self.book.cache),
            waiting: self.book.cache.len(),
        }
    }
}

/// How many pending keys have a block in the file.
fn deferred(cache: &WriteCache) -> usize {
    (0..cache.len())
        .filter(|place| cache.at(*place).is_some_and(|state| state.old.is_some()))
        .count()
}
