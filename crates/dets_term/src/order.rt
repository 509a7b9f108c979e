//! The order of terms.
ghost use Rattle.std.specs.Prelude.{◌≡◌, ℕ, ◌↔◌, IsTrue, length};
ghost use Rattle.std.specs.Ordering.{nat_cmp, bool_cmp, ordering_then};
ghost use Rattle.term_model.specs.BitString.{bits_of, IsPadded};
ghost use Rattle.std.specs.Cmp.Lexicographic.{slice_cmp};
ghost use Rattle.term_model.specs.Order.{order, rank};
ghost use Rattle.dets_term.specs.Fronts.{front_order, ends_order, values};
ghost use Rattle.term_model.specs.Pairs.{keys};

use crate::{Node, PairList, Term, TermList};
use std::cmp::Ordering;

const EMPTY_LIST: u8 = 4;

const OTHER_LIST: u8 = 5;

/// The order of terms: by kind, then by value. It is total, and `Equal` means that the terms are equal.
#[cycle(compare)]
pub fn cmp(a: &Term, b: &Term) -> Ordering
    ensures { result ≡ order a.now b.now }
{
    match (&a.node, &b.node) {
        (Node::Int(v), Node::Int(w)) => v.cmp(w),
        (Node::Atom(name), Node::Atom(other)) => name.compare(other),
        (Node::Tuple(parts), Node::Tuple(others)) => {
            if parts.len() == others.len() {
                cmp_fronts(parts, others)
            } else {
                parts.len().cmp(&others.len())
            }
        }
        (Node::Map(pairs), Node::Map(others)) => {
            let by_keys = cmp_keys(pairs, others);
            if by_keys.is_ne() {
                by_keys
            } else {
                cmp_values(pairs, others)
            }
        }
        (Node::List(parts), Node::List(others)) => {
            cmp_fronts(parts, others).then(cmp_ends(parts, EMPTY_LIST, others, EMPTY_LIST))
        }
        (Node::List(parts), Node::Improper(others, tail)) => {
            cmp_fronts(parts, others).then(cmp_ends(parts, EMPTY_LIST, others, rank(tail)))
        }
        (Node::Improper(parts, tail), Node::List(others)) => {
            cmp_fronts(parts, others).then(cmp_ends(parts, rank(tail), others, EMPTY_LIST))
        }
        (Node::Improper(parts, tail), Node::Improper(others, other_tail)) => {
            let by_fronts = cmp_fronts(parts, others);
            if by_fronts.is_eq() && parts.len() == others.len() {
                cmp(tail, other_tail)
            } else {
                by_fronts.then(cmp_ends(parts, rank(tail), others, rank(other_tail)))
            }
        }
        (Node::Bits(bytes, used), Node::Bits(others, other_used)) => {
            cmp_bytes(bytes.as_slice(), others.as_slice()).then(used.cmp(other_used))
        }
        _ => rank(a).cmp(&rank(b)),
    }
}

/// Whether two terms are equal.
pub fn eq(a: &Term, b: &Term) -> bool
    ensures { IsTrue result ↔ (a.now ≡ b.now) }
{
    cmp(a, b).is_eq()
}

/// The place of a term's kind among the kinds.
fn rank(term: &Term) -> u8
    ensures { result ≡ rank term.now }
{
    match &term.node {
        Node::Int(_) => 0,
        Node::Atom(_) => 1,
        Node::Tuple(_) => 2,
        Node::Map(_) => 3,
        Node::List(parts) => {
            if parts.len() == 0 {
                EMPTY_LIST
            } else {
                OTHER_LIST
            }
        }
        Node::Improper(_, _) => OTHER_LIST,
        Node::Bits(_, _) => 6,
    }
}

/// The order of two lists by the elements at the places that both have.
#[cycle(compare)]
fn cmp_fronts(parts: &TermList, others: &TermList) -> Ordering
    ensures { result ≡ front_order parts.now others.now }
{
    for place in 0..parts.len().min(others.len()) {
        let here = cmp(&parts.items[place], &others.items[place]);
        if here.is_ne() {
            return here;
        }
    }
    Ordering::Equal
}

/// The order of what follows those places, by kind alone: the rest of the longer list, and what a list ends in.
fn cmp_ends(parts: &TermList, end: u8, others: &TermList, other_end: u8) -> Ordering
    ensures { result ≡ ends_order (length parts.now) end (length others.now) other_end }
{
    match parts.len().cmp(&others.len()) {
        Ordering::Less => end.cmp(&OTHER_LIST),
        Ordering::Equal => end.cmp(&other_end),
        Ordering::Greater => OTHER_LIST.cmp(&other_end),
    }
}

/// The order of two maps by their sizes and then by their keys.
#[cycle(compare)]
fn cmp_keys(pairs: &PairList, others: &PairList) -> Ordering
    ensures { result ≡ ordering_then (nat_cmp (length pairs.now) (length others.now)) (front_order (keys pairs.now) (keys others.now)) }
{
    if pairs.len() != others.len() {
        return pairs.len().cmp(&others.len());
    }
    for place in 0..pairs.len().min(others.len()) {
        let here = cmp(&pairs.items[place].0, &others.items[place].0);
        if here.is_ne() {
            return here;
        }
    }
    Ordering::Equal
}

/// The order of two maps by their values, as far as both have some.
#[cycle(compare)]
fn cmp_values(pairs: &PairList, others: &PairList) -> Ordering
    ensures { result ≡ front_order (values pairs.now) (values others.now) }
{
    for place in 0..pairs.len().min(others.len()) {
        let here = cmp(&pairs.items[place].1, &others.items[place].1);
        if here.is_ne() {
            return here;
        }
    }
    Ordering::Equal
}

/// The order of some bytes. It is that of their bits, unless they are equal and the numbers of used bits decide.
fn cmp_bytes(bytes: &[u8], others: &[u8]) -> Ordering
    ensures { (used other_used : ℕ) → IsPadded bytes.now used → IsPadded others.now other_used →
        ordering_then result (nat_cmp used other_used) ≡ slice_cmp bool_cmp (bits_of bytes.now used) (bits_of others.now other_used) }
{
    bytes.cmp(others)
}
