// One file and standard output.
ghost use Rattle.std.specs.Prelude.{◌≡◌, ◌≤◌, [], length, take, option_map, option_copied, string_bytes, None, IfOk, IsErr, OnOk, OnErr};
ghost use Rattle.std.specs.Io.KnownBytes.{Appends};
ghost use Rattle.host_model.specs.FileHost.{FileHostState, fresh_file_host, shown_of, is_coherent, file_host_after_disk_fault, file_host_after_fault, AppendsFront};

use crate::counts::with_fault;
use crate::real_file::{Opened, real_len, real_read, real_sync, real_write};
use crate::{DiskFailed, Host, Memory, OutFailed};
use std::alloc::Global;
use std::io;
use std::io::{ErrorKind, Write};
use std::marker::Model;
use std::rt::Files;

/// One file and standard output. It tells neither; a contract sees the path and the counts of faults.
#[derive(Drop)]
pub struct FileHost<R: Files> {
    runtime: R,
    path: Option<String>,
    // Open from the first call on that found it or made it: for reading first, and for writing from the first write on.
    file: Option<Opened<R::File>>,
    disk_faults: u64,
    out_faults: u64,
}

impl<R: Files> Model for FileHost<R> {
    ghost Value = { FileHostState };

    ghost view = { λ h. record {
      path = option_map (λ p. string_bytes p) h.path;
      disk_faults = h.disk_faults;
      out_faults = h.out_faults;
    } };
}

impl<R: Files + Print + Clone + Drop> FileHost<R> {
    /// The file at this path, if there is one, and the standard output of a clone of this runtime. The file is opened
    /// by the first call on it. `Memory`: the path or that clone found none.
    pub fn new(rt: &R, alloc: Global, path: Option<&str>) -> Result<FileHost<R>, Memory>
        ensures { IfOk result (λ h. h ≡ fresh_file_host (option_copied path.entry)) }
    {
        let path = match path {
            Some(text) => Some(String::from_str(alloc, text)?),
            None => None,
        };
        Ok(FileHost {
            runtime: rt.clone()?,
            path,
            file: None,
            disk_faults: 0,
            out_faults: 0,
        })
    }
}

impl<R: Files + Print> Host for FileHost<R> {
    ghost shows = { shown_of };

    ghost coherent = { is_coherent };

    /// The length of the file: 0 where there is none.
    fn len(&mut self) -> Result<u64, DiskFailed>
        ensures ok { OnOk result (self.new ≡ self.old) }
        ensures err { OnErr result (self.new ≡ file_host_after_disk_fault self.old) }
        ensures no_path { self.old.path ≡ None → IsErr result }
        ensures never_falls { self.old.disk_faults ≤ self.new.disk_faults }
    {
        let outcome = real_len(&self.runtime, &self.path, &mut self.file);
        if outcome.is_err() {
            self.disk_faults = with_fault(self.disk_faults);
        }
        outcome
    }

    /// Reads on until the buffer is full. A read that gives nothing before is a fault.
    fn read_at(&mut self, at: u64, buf: &mut [u8]) -> Result<(), DiskFailed>
        ensures ok { OnOk result (self.new ≡ self.old) }
        ensures err { OnErr result (self.new ≡ file_host_after_disk_fault self.old) }
        ensures no_path { self.old.path ≡ None → IsErr result }
        ensures never_falls { self.old.disk_faults ≤ self.new.disk_faults }
    {
        let outcome = real_read(&self.runtime, &self.path, &mut self.file, at, buf);
        if outcome.is_err() {
            self.disk_faults = with_fault(self.disk_faults);
        }
        outcome
    }

    /// Writes on until all is taken. A write that takes nothing is a fault. The first write makes a missing file.
    fn write_at(&mut self, at: u64, bytes: &[u8]) -> Result<(), DiskFailed>
        ensures ok { OnOk result (self.new ≡ self.old) }
        ensures err { OnErr result (self.new ≡ file_host_after_disk_fault self.old) }
        ensures no_path { self.old.path ≡ None → IsErr result }
        ensures never_falls { self.old.disk_faults ≤ self.new.disk_faults }
    {
        let outcome = real_write(&self.runtime, &self.path, &mut self.file, at, bytes);
        if outcome.is_err() {
            self.disk_faults = with_fault(self.disk_faults);
        }
        outcome
    }

    /// Asks the system to store the file. A file that is missing was not written.
    fn sync(&mut self) -> Result<(), DiskFailed>
        ensures ok { OnOk result (self.new ≡ self.old) }
        ensures err { OnErr result (self.new ≡ file_host_after_disk_fault self.old) }
        ensures no_path { self.old.path ≡ None → IsErr result }
        ensures never_falls { self.old.disk_faults ≤ self.new.disk_faults }
    {
        let outcome = real_sync(&self.runtime, &self.path, &mut self.file);
        if outcome.is_err() {
            self.disk_faults = with_fault(self.disk_faults);
        }
        outcome
    }

    /// Writes the piece to standard output, with one write where the system takes all of it.
    fn put(&mut self, bytes: &[u8]) -> Result<(), OutFailed>
        ensures ok { OnOk result (self.new ≡ self.old) }
        ensures err { OnErr result (self.new ≡ file_host_after_fault self.old) }
        ensures never_falls { self.old.out_faults ≤ self.new.out_faults }
    {
        let outcome = write_piece(&mut io::writer(&self.runtime), bytes);
        if outcome.is_err() {
            self.out_faults = with_fault(self.out_faults);
        }
        outcome
    }
}

// Writes a piece, and on from where a write stops.
#[tactic(auto, using(crate::proofs::Appending::kept))]
pub(crate) fn write_piece<W: Write>(writer: &mut W, bytes: &[u8]) -> Result<(), OutFailed>
    ensures ok { OnOk result (Appends (W.contents writer.old) (W.contents writer.new) bytes.now) }
    ensures err { OnErr result (AppendsFront (W.contents writer.old) (W.contents writer.new) bytes.now) }
{
    let mut written = 0;
    for _ in 0..u64::MAX {
        if written == bytes.len() {
            return Ok(());
        }
        written += write_some(writer, &bytes[written..])?;
    }
    Err(OutFailed)
}

// One write, and how many bytes it took: none where a signal interrupted it. A write that takes nothing by itself
// and any other error are faults.
fn write_some<W: Write>(writer: &mut W, bytes: &[u8]) -> Result<usize, OutFailed>
    ensures fits { IfOk result (λ n. n ≤ length bytes.now) }
    ensures ok { IfOk result
        (λ n. Appends (W.contents writer.old) (W.contents writer.new) (take n bytes.now)) }
    ensures err { OnErr result (Appends (W.contents writer.old) (W.contents writer.new) []) }
{
    match writer.write(bytes) {
        Ok(0) => Err(OutFailed),
        Ok(n) => Ok(n),
        Err(e) if e.kind() == ErrorKind::Interrupted => Ok(0),
        Err(_) => Err(OutFailed),
    }
}
