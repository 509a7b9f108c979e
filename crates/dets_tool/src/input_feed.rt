// The input, taken a read at a time within a budget.
ghost use Rattle.std.specs.Prelude.{◌≡◌, ◌≢◌, ◌↔◌, ◌<◌, ◌≤◌, [], length, take, min, max, IfOk, IsErrOf, OnOk, OnErr, IfSome, option_map};
ghost use Rattle.host_model.specs.Counts.{Rose};
ghost use Rattle.host_model.specs.Source.{after_read};

use crate::Memory;
use host_model::{Source, SourceFailed};
use std::alloc::Global;
use std::marker::Model;
use std::mem;
use thiserror::Error;

/// A read asks for at most this many bytes.
const PIECE: usize = 4096;

/// What a pull answers.
#[derive(Clone, Copy, Debug, PartialEq, Eq)]
pub enum Piece {
    /// The read gave at least one byte, which `InputFeed::piece` lends.
    Bytes,
    /// The input is at its end.
    End,
}

/// Why a pull gives no piece.
#[derive(Debug, Drop, PartialEq, Eq, Error)]
pub enum PullFault {
    /// The read failed.
    #[error("source fault")]
    SourceFault,
    /// The input has more bytes than the budget.
    #[error("too much input")]
    TooMuch,
}

/// Whether a feed still reads.
#[derive(Clone, Copy)]
pub enum InputState {
    /// The next pull makes a read.
    Reading,
    /// A read gave no bytes.
    Ended,
    /// A read gave a byte past the budget.
    TooMuch,
}

/// The input of a run, taken at most 4,096 bytes at a time and within a budget.
#[derive(Drop)]
pub struct InputFeed {
    // The bytes of the last piece stand at its front.
    front: Vec<u8>,
    // Where the next read goes, so that one that fails leaves the piece.
    spare: Vec<u8>,
    // How many bytes the last piece has.
    filled: usize,
    // How many bytes are left of the budget.
    room: u64,
    state: InputState,
}

impl Model for InputFeed {
    ghost use Rattle.std.specs.Prelude.{◌≡◌, ◌≤◌, take, length};
    ghost use Rattle.dets_tool.specs.InputFeed.{InputFeedValue};

    ghost Value = { InputFeedValue };

    ghost view = { λ a. record {
      room = a.room;
      piece = take a.filled a.front.items;
      state = a.state;
    } };

    ghost invariant = { λ a. (length a.front.items ≡ 4096) × (length a.spare.items ≡ 4096) × (a.filled ≤ 4096) };
}

impl InputFeed {
    ghost use Rattle.dets_tool.specs.InputFeed.{fresh_feed, Pulled, AnswersAgain};

    /// A feed that takes at most `budget` bytes. All memory of its pulls is taken here.
    /// `Memory`: there was none for the pieces.
    pub fn new(alloc: Global, budget: u64) -> Result<InputFeed, Memory>
        ensures { IfOk result (λ feed. feed ≡ fresh_feed budget) }
    {
        Ok(InputFeed {
            front: vec![in alloc; 0; PIECE]?,
            spare: vec![in alloc; 0; PIECE]?,
            filled: 0,
            room: budget,
            state: InputState::Reading,
        })
    }

    /// The bytes of the last pull that answered `Bytes`: from 1 to 4,096. No bytes before the first such pull, and
    /// after one that answered `End` or `TooMuch`.
    pub fn piece(&self) -> &[u8]
        ensures { result.now ≡ self.now.piece }
    {
        &self.front[..self.filled]
    }

    /// Makes one read, for at most 4,096 bytes and at most what is left of the budget, or for one byte where
    /// nothing is left of it. `Bytes`: it gave at least one byte of the budget. `End`: it gave none. `TooMuch`:
    /// nothing was left of the budget, and it gave a byte. `SourceFault`: it failed; the feed is as it was, and
    /// the next pull reads again. After `End` and `TooMuch` each pull answers the same and makes no read.
    pub fn pull<S: Source>(&mut self, source: &mut S) -> Result<Piece, PullFault>
        ensures reads { self.old.state ≡ InputState.Reading
            → Pulled result self.old self.new (S.told source.old) (S.told source.new) }
        ensures cause { IsErrOf result PullFault.SourceFault
            → Rose (S.faults source.old) (S.faults source.new) }
        ensures no_fault { result ≢ Err PullFault.SourceFault → S.faults source.new ≡ S.faults source.old }
        ensures never_falls { S.faults source.old ≤ S.faults source.new }

        // After the end and past the budget.
        ensures again { AnswersAgain self.old.state result }
        ensures same_feed { self.old.state ≢ InputState.Reading → self.new ≡ self.old }
        ensures no_read { self.old.state ≢ InputState.Reading → source.new ≡ source.old }
    {
        match self.state {
            InputState::Reading => self.read(source),
            InputState::Ended => Ok(Piece::End),
            InputState::TooMuch => Err(PullFault::TooMuch),
        }
    }

    // The pull of a feed that still reads.
    fn read<S: Source>(&mut self, source: &mut S) -> Result<Piece, PullFault>
        requires { self.old.state ≡ InputState.Reading }
        ensures reads { Pulled result self.old self.new (S.told source.old) (S.told source.new) }
        ensures cause { IsErrOf result PullFault.SourceFault
            → Rose (S.faults source.old) (S.faults source.new) }
        ensures no_fault { result ≢ Err PullFault.SourceFault → S.faults source.new ≡ S.faults source.old }
        ensures never_falls { S.faults source.old ≤ S.faults source.new }
    {
        let wanted = wanted_bytes(self.room);
        match read_front(source, &mut self.spare, wanted) {
            Err(SourceFailed) => Err(PullFault::SourceFault),
            Ok(0) => {
                self.filled = 0;
                self.state = InputState::Ended;
                Ok(Piece::End)
            }
            Ok(_) if self.room == 0 => {
                self.filled = 0;
                self.state = InputState::TooMuch;
                Err(PullFault::TooMuch)
            }
            Ok(n) => {
                mem::swap(&mut self.front, &mut self.spare);
                self.filled = n;
                self.room -= n as u64;
                Ok(Piece::Bytes)
            }
        }
    }
}

// How many bytes a read asks for, where this many are left of the budget.
fn wanted_bytes(room: u64) -> usize
    ensures { result ≡ min (max room 1) 4096 }
{
    room.max(1).min(PIECE as u64) as usize
}

// Reads at most so many bytes to the front of a buffer.
fn read_front<S: Source>(
    source: &mut S,
    buffer: &mut [u8],
    wanted: usize,
) -> Result<usize, SourceFailed>
    requires some { 0 < wanted }
    requires there { wanted ≤ length buffer.old }
    ensures fits { IfOk result (λ n. n ≤ wanted) }
    ensures taken { IfOk result (λ n. S.told source.new ≡ option_map (after_read n) (S.told source.old)) }
    ensures there { IfOk result (λ n. IfSome (S.told source.old) (λ s. n ≤ length s.left)) }
    ensures given { IfOk result
        (λ n. IfSome (S.told source.old) (λ s. take n buffer.new ≡ take n s.left)) }
    ensures end { IfOk result (λ n. IfSome (S.told source.old) (λ s. (n ≡ 0) ↔ (s.left ≡ []))) }
    ensures untaken { OnErr result (S.told source.new ≡ S.told source.old) }
    ensures cause { OnErr result (Rose (S.faults source.old) (S.faults source.new)) }
    ensures no_fault { OnOk result (S.faults source.new ≡ S.faults source.old) }
    ensures never_falls { S.faults source.old ≤ S.faults source.new }
{
    source.read(&mut buffer[..wanted])
}
