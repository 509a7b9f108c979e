//! The search for the place of a run. A piece is an aligned run of free units that lies in no larger one.
ghost use Rattle.std.specs.Prelude.{◌≡◌, ◌≢◌, ◌≤◌, ◌<◌, ◌⊎◌, ℕ, ◌+◌, ◌%◌, ◌^◌, List, length};
ghost use Rattle.buddy_space.specs.Marks.{mark_at};
ghost use Rattle.buddy_space.specs.Pieces.{IsFreeUntil, IsStretch, IsBest, better, with_piece};

use crate::marks::{Mark, Run, size_of};

/// The exponent of the largest run.
const LARGEST_EXP: u8 = 12;

/// The lowest of the smallest pieces of at least the wanted exponent. Each unit is looked at once.
pub(crate) fn best_of_all(marks: &[Mark], wanted: u8) -> Option<Run>
    requires { length marks.now < 2 ^ 32 }
    ensures { IsBest 12 marks.now wanted 0 (length marks.now) result }
{
    let mut best = None;
    let mut unit = 0;
    while unit < marks.len() {
        let end = free_until(marks, unit);
        best = better(best, best_of_stretch(unit, end, wanted));
        unit = end + 1;
    }
    best
}

/// The first unit from this one on that is not free, or the end.
fn free_until(marks: &[Mark], first: usize) -> usize
    requires { first ≤ length marks.now }
    ensures free { IsFreeUntil marks.now first result }
    ensures low { first ≤ result }
    ensures high { result ≤ length marks.now }
{
    for unit in first..marks.len() {
        if !matches!(marks[unit], Mark::Free) {
            return unit;
        }
    }
    marks.len()
}

/// The same of one stretch of free units.
fn best_of_stretch(first: usize, end: usize, wanted: u8) -> Option<Run>
    requires first { first ≤ end }
    requires end { end < 2 ^ 32 }
    ensures { (marks : List Mark) → IsStretch marks first end → IsBest 12 marks wanted first end result }
{
    let mut best = None;
    let mut unit = first;
    while unit < end {
        let exp = exp_of_piece(unit, end);
        best = with_piece(best, Run { unit, exp }, wanted);
        unit += size_of(exp);
    }
    best
}

/// The exponent of the largest aligned run from a unit on that ends by this end.
fn exp_of_piece(unit: usize, end: usize) -> u8
    requires unit { unit < end }
    requires end { end < 2 ^ 32 }
    ensures most { result ≤ 12 }
    ensures aligned { unit % 2 ^ result ≡ 0 }
    ensures ends { unit + 2 ^ result ≤ end }
    ensures largest { (result ≡ 12) ⊎ ((unit % 2 ^ (result + 1) ≢ 0) ⊎ (end < unit + 2 ^ (result + 1))) }
{
    let mut exp = 0;
    while exp < LARGEST_EXP {
        let size = size_of(exp + 1);
        if unit % size != 0 || end < unit + size {
            return exp;
        }
        exp += 1;
    }
    exp
}

/// The better of a lower run and a piece, if the piece has at least the wanted exponent.
fn with_piece(best: Option<Run>, piece: Run, wanted: u8) -> Option<Run>
    ensures { result ≡ with_piece best piece wanted }
{
    if wanted <= piece.exp {
        better(best, Some(piece))
    } else {
        best
    }
}

/// The smaller of a lower and a higher run, or the lower one of two equals.
fn better(lower: Option<Run>, upper: Option<Run>) -> Option<Run>
    ensures { result ≡ better lower upper }
{
    match (lower, upper) {
        (Some(l), Some(u)) => Some(if u.exp < l.exp { u } else { l }),
        (None, found) => found,
        (found, None) => found,
    }
}
