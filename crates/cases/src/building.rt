//! Terms that are built step by step.
ghost use Rattle.dets_term.specs.BitString.{MayUse};

use crate::fault::Fault;
use crate::line::{Line, bytes_of, counted};
use crate::texts::{only, term_of};
use dets_term::{ByteList, PairList, Term, TermList};
use std::alloc::Global;
use std::str;

/// Terms that were built and are a part of no other term yet.
#[derive(Drop)]
struct Builder {
    alloc: Global,
    terms: Vec<Term>,
}

/// The term that the rest of a line builds.
pub fn one_term(alloc: Global, line: &mut Line) -> Result<Term, Fault> {
    only(built(alloc, line)?)
}

/// The two terms that the rest of a line builds.
pub fn two_terms(alloc: Global, line: &mut Line) -> Result<(Term, Term), Fault> {
    let mut terms = built(alloc, line)?;
    let second = terms.pop().ok_or(Fault::BadLine)?;
    Ok((only(terms)?, second))
}

/// All terms that the rest of a line builds.
fn built(alloc: Global, line: &mut Line) -> Result<Vec<Term>, Fault> {
    let mut builder = Builder {
        alloc,
        terms: Vec::new(alloc),
    };
    for word in line.rest() {
        let (step, count) = counted(&word, '^');
        for _ in 0..count {
            builder.step(step)?;
        }
    }
    Ok(builder.terms)
}

impl Builder {
    /// Puts a term last: an atom's name in backquotes, `NAME:OPERAND`, or a printed term.
    fn step(&mut self, step: &str) -> Result<(), Fault> {
        let term = if step.starts_with('`') {
            atom(self.alloc, step)?
        } else {
            match step.split_once(':') {
                Some(("bits", operand)) => bit_string(self.alloc, operand)?,
                Some(("doubles", count)) => return self.put_doubles(count.parse()?),
                Some((name, count)) => self.joined(name, count.parse()?)?,
                None => term_of(self.alloc, step)?,
            }
        };
        self.put(term)
    }

    /// Makes one term of those that are last: of so many parts, or of so many pairs.
    fn joined(&mut self, name: &str, count: usize) -> Result<Term, Fault> {
        match name {
            "tuple" => Ok(Term::tuple(self.take(count)?)?),
            "list" => Ok(Term::list(self.take(count)?)?),
            "tail" => self.list_with_tail(count),
            "map" => Ok(Term::map(self.take_pairs(count)?)?),
            _ => Err(Fault::BadLine),
        }
    }

    fn list_with_tail(&mut self, count: usize) -> Result<Term, Fault> {
        let tail = self.pop()?;
        let parts = self.take(count)?;
        Ok(Term::list_with_tail(self.alloc, parts, tail)?)
    }

    fn put(&mut self, term: Term) -> Result<(), Fault> {
        self.terms.push(term)?;
        Ok(())
    }

    /// Puts each number from 0 on, so many of them, with its double behind it.
    fn put_doubles(&mut self, count: u32) -> Result<(), Fault> {
        for number in 0..count {
            self.put(Term::int(i128::from(number)))?;
            self.put(Term::int(2 * i128::from(number)))?;
        }
        Ok(())
    }

    fn pop(&mut self) -> Result<Term, Fault> {
        self.terms.pop().ok_or(Fault::BadLine)
    }

    /// Takes so many terms that are last, in their order.
    fn take(&mut self, count: usize) -> Result<TermList, Fault> {
        let start = self.terms.len().checked_sub(count).ok_or(Fault::BadLine)?;
        let mut parts = TermList::new(self.alloc);
        for term in self.terms.split_off(start)? {
            parts.push(term)?;
        }
        Ok(parts)
    }

    /// Takes so many pairs of terms that are last, the last pair first.
    fn take_pairs(&mut self, count: usize) -> Result<PairList, Fault> {
        let mut pairs = PairList::new(self.alloc);
        for _ in 0..count {
            let value = self.pop()?;
            pairs.push((self.pop()?, value))?;
        }
        Ok(pairs)
    }
}

fn atom(alloc: Global, name: &str) -> Result<Term, Fault> {
    let name = bytes_of(alloc, name)?;
    let name = str::from_utf8(&name).map_err(|_| Fault::BadLine)?;
    Ok(Term::atom(alloc, name)?)
}

/// `USED:BYTES`: the bit string of these bytes, with so many bits of the last one.
fn bit_string(alloc: Global, operand: &str) -> Result<Term, Fault> {
    let (used, bytes) = operand.split_once(':').ok_or(Fault::BadLine)?;
    let bytes = bytes_of(alloc, bytes)?;
    let used: u8 = used.parse()?;
    match bytes.as_slice() {
        [] if used == 8 => bits(alloc, &[], used),
        [_, ..] if 1 <= used && used <= 8 => bits(alloc, &bytes, used),
        _ => Err(Fault::BadLine),
    }
}

fn bits(alloc: Global, bytes: &[u8], used: u8) -> Result<Term, Fault>
    requires { MayUse bytes.now used }
{
    let mut list = ByteList::new(alloc);
    list.extend_from_slice(bytes)?;
    Ok(Term::bits(list, used)?)
}
