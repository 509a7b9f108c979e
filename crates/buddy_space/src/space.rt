//! Which units of the segments are free, taken or deferred.
//!
//! The plain body: one mark for each unit, and a list of the deferred runs. `take` looks at each unit once, and no other
//! call looks at units beside those of its runs. A buddy system, which keeps the free runs of each size by themselves, will
//! replace it under the same contracts.
ghost use Rattle.std.specs.Prelude.{◌≡◌, ◌≤◌, ◌<◌, ◌^◌, max, OnOk, OnErr, MatchOption, if◌then◌else◌};
ghost use Rattle.space_model.specs.Sizes.{segment_units};
ghost use Rattle.space_model.specs.Runs.{run, place};
ghost use Rattle.space_model.specs.Apart.{In};
ghost use Rattle.buddy_space.specs.SpaceState.{most_segments, largest_exp, held, is_free_run, IsParted, no_segments, with_segment, taking, giving, deferring, settling, with_spare};

use crate::Memory;
use crate::marks::{Mark, Run, fill, is_unused, mark_taken, release};
use crate::search::best_of_all;
use std::alloc::Global;
use std::marker::Model;

/// How many units a segment has.
const SEGMENT_UNITS: usize = 4096;

/// Segments of 4,096 units, of which runs are taken or deferred, and all others are free. Contracts see the number of
/// segments, the taken runs in ascending order, the deferred ones in the order in which they were deferred, and the spare:
/// for how many more deferred runs there is room.
#[derive(Drop)]
pub struct Space {
    segments: u32,
    marks: Vec<Mark>,
    deferred: Vec<Run>,
    spare: usize,
}

impl Model for Space {
    ghost use Rattle.std.specs.Prelude.{vec_len, vec_capacity};
    ghost use Rattle.buddy_space.specs.SpaceState.{SpaceState};

    ghost Value = { SpaceState };

    ghost use Rattle.buddy_space.specs.Marks.{seen, IsKept};

    ghost view = { λ a. seen a.segments a.marks.items a.deferred.items a.spare };

    ghost invariant = { λ a. IsKept a.marks.items (seen a.segments a.marks.items a.deferred.items a.spare) (vec_len a.deferred) (vec_capacity a.deferred) };
}

impl Space {
    /// A space without a segment. It takes no memory yet.
    pub fn new(alloc: Global) -> Space
        ensures { result ≡ no_segments }
    {
        Space {
            segments: 0,
            marks: Vec::new(alloc),
            deferred: Vec::new(alloc),
            spare: 0,
        }
    }

    /// Adds a segment whose units are free. After `Memory` the space is as it was.
    pub fn add_segment(&mut self) -> Result<(), Memory>
        requires { self.old.segments < most_segments }
        ensures ok { OnOk result (self.new ≡ with_segment self.old) }
        ensures err { OnErr result (self.new ≡ self.old) }
        ensures parted { IsParted self.new }
    {
        self.marks
            .resize(self.marks.len() + SEGMENT_UNITS, Mark::Free)?;
        self.segments += 1;
        Ok(())
    }

    /// How many segments there are.
    pub fn segments(&self) -> u32
        ensures segments { result ≡ self.now.segments }
        ensures parted { IsParted self.now }
    {
        self.segments
    }

    /// Takes a run of 2 to the power `exp` units and gives its first unit: the front of the smallest free run that is large
    /// enough, and of the lowest of these. `None` where no run of this size is free; then nothing changes.
    pub fn take(&mut self, exp: u8) -> Option<u32>
        requires { exp ≤ largest_exp }
        ensures place { result ≡ place segment_units self.old.segments (held self.old) exp }
        ensures taken { MatchOption result (self.new ≡ self.old) (λ unit. self.new ≡ taking self.old (run unit exp)) }
        ensures parted { IsParted self.new }
    {
        let best = best_of_all(&self.marks, exp)?;
        mark_taken(
            &mut self.marks,
            Run {
                unit: best.unit,
                exp,
            },
        );
        Some(best.unit as u32)
    }

    /// Takes that very run. False where it is not aligned or not wholly free; then nothing changes.
    pub fn claim(&mut self, unit: u32, exp: u8) -> bool
        requires { exp ≤ largest_exp }
        ensures free { result ≡ is_free_run self.old (run unit exp) }
        ensures claimed { self.new ≡ (if result then taking self.old (run unit exp) else self.old) }
        ensures parted { IsParted self.new }
    {
        let run = Run {
            unit: unit as usize,
            exp,
        };
        if !is_unused(&self.marks, run) {
            return false;
        }
        mark_taken(&mut self.marks, run);
        true
    }

    /// Frees a taken run.
    pub fn give(&mut self, unit: u32, exp: u8)
        requires { In (run unit exp) self.old.taken }
        ensures given { self.new ≡ giving self.old (run unit exp) }
        ensures parted { IsParted self.new }
    {
        let run = Run {
            unit: unit as usize,
            exp,
        };
        fill(&mut self.marks, run, Mark::Free);
    }

    /// Makes room for at least so many more deferred runs. After `Memory` the space is as it was.
    pub fn reserve_deferred(&mut self, n: usize) -> Result<(), Memory>
        ensures ok { OnOk result (self.new ≡ with_spare (max self.old.spare n) self.old) }
        ensures err { OnErr result (self.new ≡ self.old) }
        ensures room { OnErr result (self.old.spare < n) }
    {
        if self.spare < n {
            self.deferred.reserve(n)?;
            self.spare = n;
        }
        Ok(())
    }

    /// Defers a taken run: its units are held until `settle`.
    pub fn defer(&mut self, unit: u32, exp: u8)
        requires taken { In (run unit exp) self.old.taken }
        requires spare { 1 ≤ self.old.spare }
        ensures deferred { self.new ≡ deferring self.old (run unit exp) }
        ensures parted { IsParted self.new }
    {
        let run = Run {
            unit: unit as usize,
            exp,
        };
        let first = Run {
            unit: unit as usize,
            exp: 0,
        };
        fill(&mut self.marks, first, Mark::Held);
        let _ = self.deferred.push(run);
        self.spare -= 1;
    }

    /// Frees all deferred runs.
    pub fn settle(&mut self)
        ensures settled { self.new ≡ settling self.old }
        ensures parted { IsParted self.new }
    {
        release(&mut self.marks, &self.deferred);
        self.deferred.clear();
    }
}
