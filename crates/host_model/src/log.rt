// The calls that a host in memory keeps, and the file and the output that they make.
ghost use Rattle.std.specs.Prelude.{◌≡◌, ◌≤◌, [], length, OnOk, OnErr, IfOk, IsTrue};
ghost use Rattle.host_model.specs.Disk.{are_bytes};
ghost use Rattle.host_model.specs.Host.{Left};
ghost use Rattle.host_model.specs.Calls.{file_after, said_after, is_possible};
ghost use Rattle.host_model.specs.Calls.Call.{Wrote, Synced, Put};
ghost use Rattle.host_model.specs.Log.{LogState, with_call};
ghost use Rattle.host_model.specs.Restart.{moment, pair_at};

use crate::Memory;
use crate::overwrite::overwrite;
use crate::restart::{Pick, image_after, output_after};
use std::alloc::Global;
use std::marker::Model;

// A call that moved the clock. A write keeps its range and its bytes.
#[derive(Drop)]
pub(crate) enum Kept {
    Write { at: usize, bytes: Vec<u8> },
    Sync,
    Piece { bytes: Vec<u8> },
}

// What a host in memory began with, its calls since, oldest first, and what they made.
#[derive(Drop)]
pub(crate) struct Log {
    alloc: Global,
    first: Vec<u8>,
    first_said: Vec<u8>,
    calls: Vec<Kept>,
    file: Vec<u8>,
    said: Vec<u8>,
}

impl Model for Log {
    ghost use Rattle.host_model.specs.Log.{LogState, newest_first, IsKept};

    ghost Value = { LogState };

    ghost view = { λ l. record {
      origin = record { image = l.first.items; output = l.first_said.items };
      calls = newest_first l.calls.items;
    } };

    ghost invariant = { λ l. IsKept l.first.items l.first_said.items l.calls.items l.file.items l.said.items };
}

impl Log {
    // Nothing was called yet. `Memory`: no room for one more copy of the two.
    pub(crate) fn new(alloc: Global, first: Vec<u8>, first_said: Vec<u8>) -> Result<Log, Memory>
        ensures { IfOk result (λ l. l ≡ record { origin = record { image = first.items; output = first_said.items }; calls = [] }) }
    {
        let file = copy_of(alloc, &first)?;
        let said = copy_of(alloc, &first_said)?;
        Ok(Log {
            alloc,
            first,
            first_said,
            calls: Vec::new(alloc),
            file,
            said,
        })
    }

    pub(crate) fn file(&self) -> &[u8]
        ensures { result.now ≡ file_after self.now.origin.image self.now.calls }
    {
        &self.file
    }

    pub(crate) fn said(&self) -> &[u8]
        ensures { result.now ≡ said_after self.now.origin.output self.now.calls }
    {
        &self.said
    }

    pub(crate) fn count(&self) -> usize
        ensures { result ≡ length self.now.calls }
    {
        self.calls.len()
    }

    // Writes and keeps the write, or has no effect.
    pub(crate) fn write(&mut self, at: usize, bytes: &[u8]) -> Result<(), Memory>
        requires { at ≤ length (file_after self.old.origin.image self.old.calls) }
        ensures ok { OnOk result (self.new ≡ with_call (Wrote at bytes.now) self.old) }
        ensures err { OnErr result (self.new ≡ self.old) }
    {
        let bytes_kept = bytes.to_vec(self.alloc)?;
        self.calls.reserve(1)?;
        overwrite(&mut self.file, at, bytes)?;
        self.calls.push(Kept::Write {
            at,
            bytes: bytes_kept,
        })?;
        Ok(())
    }

    // Keeps a sync, or has no effect.
    pub(crate) fn sync(&mut self) -> Result<(), Memory>
        ensures ok { OnOk result (self.new ≡ with_call Synced self.old) }
        ensures err { OnErr result (self.new ≡ self.old) }
    {
        self.calls.push(Kept::Sync)?;
        Ok(())
    }

    // Says a piece and keeps it, or has no effect.
    pub(crate) fn put(&mut self, bytes: &[u8]) -> Result<(), Memory>
        ensures ok { OnOk result (self.new ≡ with_call (Put bytes.now) self.old) }
        ensures err { OnErr result (self.new ≡ self.old) }
    {
        let bytes_kept = bytes.to_vec(self.alloc)?;
        self.calls.reserve(1)?;
        self.said.extend_from_slice(bytes)?;
        self.calls.push(Kept::Piece { bytes: bytes_kept })?;
        Ok(())
    }

    // What a restart goes on with after a stop within the call that follows the first `at`, or after all of them.
    pub(crate) fn restart(&self, alloc: Global, at: usize, pick: Pick) -> Result<Log, Memory>
        requires { at ≤ length self.now.calls }
        ensures ok { IfOk result (λ l. l ≡ record {
          origin = pair_at pick self.now.origin (moment at self.now.calls);
          calls = [];
        }) }
        ensures possible { IsTrue (is_possible self.now.origin.image self.now.calls) }
    {
        let image = image_after(alloc, &self.first, &self.calls, at, pick)?;
        let said = output_after(alloc, &self.first_said, &self.calls, at, pick)?;
        Log::new(alloc, image, said)
    }
}

// A copy of some bytes. Each of them is below 256.
fn copy_of(alloc: Global, bytes: &[u8]) -> Result<Vec<u8>, Memory>
    ensures copied { IfOk result (λ v. v.items ≡ bytes.now) }
    ensures in_range { IsTrue (are_bytes bytes.now) }
{
    bytes.to_vec(alloc)
}
