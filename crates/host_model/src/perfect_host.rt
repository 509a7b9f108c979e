// A host in memory that took its room beforehand.
ghost use Rattle.std.specs.Prelude.{◌≡◌, ◌≤◌, ◌<◌, ◌+◌, ◌↔◌, length, slice_range, vec_len, vec_capacity, IsOk, IsErr, IfOk, OnOk, OnErr};
ghost use Rattle.host_model.specs.PerfectHost.{PerfectHostState, fresh_perfect, shown_of, is_coherent, perfect_after_write, perfect_after_put, perfect_after_disk_fault, perfect_after_out_fault};

use crate::counts::with_fault;
use crate::overwrite::overwrite;
use crate::{DiskFailed, Host, Memory, OutFailed};
use std::alloc::Global;
use std::marker::Model;

/// A file and an output in memory, each with its room. It fails exactly where one would pass its room. It does not
/// tell what a stop leaves.
#[derive(Drop)]
pub struct PerfectHost {
    file: Vec<u8>,
    said: Vec<u8>,
    file_room: usize,
    out_room: usize,
    disk_faults: u64,
    out_faults: u64,
}

impl Model for PerfectHost {
    ghost Value = { PerfectHostState };

    ghost view = { λ h. record {
      file = h.file.items;
      said = h.said.items;
      file_room = h.file_room;
      out_room = h.out_room;
      disk_faults = h.disk_faults;
      out_faults = h.out_faults;
    } };

    // The room was taken.
    ghost invariant = { λ h.
        (vec_len h.file ≤ h.file_room) × (h.file_room ≤ vec_capacity h.file)
        × (vec_len h.said ≤ h.out_room) × (h.out_room ≤ vec_capacity h.said) };
}

impl PerfectHost {
    /// A host with this file that has said nothing, with room for so many bytes of the two. `Memory`: no such room.
    pub fn new(
        alloc: Global,
        file: &[u8],
        file_room: usize,
        out_room: usize,
    ) -> Result<PerfectHost, Memory>
        requires { length file.now ≤ file_room }
        ensures { IfOk result (λ h. h ≡ fresh_perfect file.now file_room out_room) }
    {
        let mut kept = Vec::with_capacity(alloc, file_room)?;
        kept.extend_from_slice(file)?;
        Ok(PerfectHost {
            file: kept,
            said: Vec::with_capacity(alloc, out_room)?,
            file_room,
            out_room,
            disk_faults: 0,
            out_faults: 0,
        })
    }

    /// The file as it reads.
    pub fn file(&self) -> &[u8]
        ensures { result.now ≡ self.now.file }
    {
        &self.file
    }

    /// All that was said so far.
    pub fn said(&self) -> &[u8]
        ensures { result.now ≡ self.now.said }
    {
        &self.said
    }
}

impl Host for PerfectHost {
    ghost shows = { shown_of };

    ghost coherent = { is_coherent };

    /// Never fails.
    fn len(&mut self) -> Result<u64, DiskFailed>
        ensures succeeds { IsOk result }
        ensures length { IfOk result (λ n. n ≡ length self.old.file) }
        ensures same { self.new ≡ self.old }
    {
        Ok(self.file.len() as u64)
    }

    /// Never fails.
    fn read_at(&mut self, at: u64, buf: &mut [u8]) -> Result<(), DiskFailed>
        requires { at + length buf.old ≤ length self.old.file }
        ensures succeeds { IsOk result }
        ensures given { buf.new ≡ slice_range self.old.file at (at + length buf.old) }
        ensures same { self.new ≡ self.old }
    {
        let from = at as usize;
        let n = buf.len();
        buf.copy_from_slice(&self.file[from..from + n]);
        Ok(())
    }

    /// Fails exactly where the file would pass its room.
    fn write_at(&mut self, at: u64, bytes: &[u8]) -> Result<(), DiskFailed>
        requires { at ≤ length self.old.file }
        ensures no_room { IsErr result ↔ (self.old.file_room < at + length bytes.now) }
        ensures ok { OnOk result (self.new ≡ perfect_after_write at bytes.now self.old) }
        ensures err { OnErr result (self.new ≡ perfect_after_disk_fault self.old) }
        ensures never_falls { self.old.disk_faults ≤ self.new.disk_faults }
    {
        let from = at as usize;
        if bytes.len() <= self.file_room - from && overwrite(&mut self.file, from, bytes).is_ok() {
            return Ok(());
        }
        self.disk_faults = with_fault(self.disk_faults);
        Err(DiskFailed)
    }

    /// Never fails.
    fn sync(&mut self) -> Result<(), DiskFailed>
        ensures succeeds { IsOk result }
        ensures same { self.new ≡ self.old }
    {
        Ok(())
    }

    /// Fails exactly where the output would pass its room, and then says nothing.
    fn put(&mut self, bytes: &[u8]) -> Result<(), OutFailed>
        ensures no_room { IsErr result ↔ (self.old.out_room < length self.old.said + length bytes.now) }
        ensures ok { OnOk result (self.new ≡ perfect_after_put bytes.now self.old) }
        ensures err { OnErr result (self.new ≡ perfect_after_out_fault self.old) }
        ensures never_falls { self.old.out_faults ≤ self.new.out_faults }
    {
        if bytes.len() <= self.out_room - self.said.len()
            && self.said.extend_from_slice(bytes).is_ok()
        {
            return Ok(());
        }
        self.out_faults = with_fault(self.out_faults);
        Err(OutFailed)
    }
}
