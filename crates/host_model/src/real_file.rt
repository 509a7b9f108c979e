// The calls on a real file.
ghost use Rattle.std.specs.Prelude.{◌≡◌, ◌≤◌, length, take, None, IsErr, IfOk, OnOk};
ghost use Rattle.std.specs.Io.KnownBytes.{Consumes};

use crate::DiskFailed;
use crate::file_host::write_piece;
use std::fs::{OpenFile, OpenOptions};
use std::io::{ErrorKind, Read, Seek, SeekFrom};
use std::rt::Files;

// A file that is open: for reading, and from the first write on for writing too.
#[derive(Drop)]
pub(crate) struct Opened<F> {
    file: F,
    is_writable: bool,
}

// Opens the file for reading, unless it is open. A missing file stays closed, which is no failure; a folder is one.
fn open_to_read<R: Files>(
    runtime: &R,
    path: &Option<String>,
    opened: &mut Option<Opened<R::File>>,
) -> Result<(), DiskFailed>
    ensures { path.now ≡ None → IsErr result }
{
    let Some(place) = path else {
        return Err(DiskFailed);
    };
    if opened.is_some() {
        return Ok(());
    }
    let mut how = OpenOptions::new();
    how.read(true);
    match runtime.open_file(&how, place.as_str()) {
        Ok(file) if is_folder(&file) => Err(DiskFailed),
        Ok(file) => {
            *opened = Some(Opened {
                file,
                is_writable: false,
            });
            Ok(())
        }
        Err(e) if e.kind() == ErrorKind::NotFound => Ok(()),
        Err(_) => Err(DiskFailed),
    }
}

// Opens the file for writing too, unless it is open so. A missing file is made.
fn open_to_write<R: Files>(
    runtime: &R,
    path: &Option<String>,
    opened: &mut Option<Opened<R::File>>,
) -> Result<(), DiskFailed>
    ensures { path.now ≡ None → IsErr result }
{
    let Some(place) = path else {
        return Err(DiskFailed);
    };
    if let Some(already) = opened
        && already.is_writable
    {
        return Ok(());
    }
    let mut how = OpenOptions::new();
    how.read(true).write(true).create(true);
    match runtime.open_file(&how, place.as_str()) {
        Ok(file) => {
            *opened = Some(Opened {
                file,
                is_writable: true,
            });
            Ok(())
        }
        Err(_) => Err(DiskFailed),
    }
}

fn is_folder<F: OpenFile>(file: &F) -> bool {
    match file.metadata() {
        Ok(about) => about.is_dir(),
        Err(_) => false,
    }
}

// The length of the file: 0 where there is none.
pub(crate) fn real_len<R: Files>(
    runtime: &R,
    path: &Option<String>,
    opened: &mut Option<Opened<R::File>>,
) -> Result<u64, DiskFailed>
    ensures { path.now ≡ None → IsErr result }
{
    open_to_read(runtime, path, opened)?;
    let Some(open) = opened else {
        return Ok(0);
    };
    match open.file.metadata() {
        Ok(about) => Ok(about.len()),
        Err(_) => Err(DiskFailed),
    }
}

// Fills the buffer with the bytes from `at` on. A missing file has none.
pub(crate) fn real_read<R: Files>(
    runtime: &R,
    path: &Option<String>,
    opened: &mut Option<Opened<R::File>>,
    at: u64,
    buf: &mut [u8],
) -> Result<(), DiskFailed>
    ensures { path.now ≡ None → IsErr result }
{
    open_to_read(runtime, path, opened)?;
    match opened {
        None if buf.is_empty() => Ok(()),
        None => Err(DiskFailed),
        Some(open) => {
            if open.file.seek(SeekFrom::Start(at)).is_err() {
                return Err(DiskFailed);
            }
            read_full(&mut open.file, buf)
        }
    }
}

// Writes the bytes from `at` on.
pub(crate) fn real_write<R: Files>(
    runtime: &R,
    path: &Option<String>,
    opened: &mut Option<Opened<R::File>>,
    at: u64,
    bytes: &[u8],
) -> Result<(), DiskFailed>
    ensures { path.now ≡ None → IsErr result }
{
    open_to_write(runtime, path, opened)?;
    let Some(open) = opened else {
        return Err(DiskFailed);
    };
    if open.file.seek(SeekFrom::Start(at)).is_err() || write_piece(&mut open.file, bytes).is_err() {
        return Err(DiskFailed);
    }
    Ok(())
}

// Stores what was written, with the file's length. A missing file was not written.
pub(crate) fn real_sync<R: Files>(
    runtime: &R,
    path: &Option<String>,
    opened: &mut Option<Opened<R::File>>,
) -> Result<(), DiskFailed>
    ensures { path.now ≡ None → IsErr result }
{
    open_to_read(runtime, path, opened)?;
    let Some(open) = opened else {
        return Ok(());
    };
    match open.file.sync_all() {
        Ok(()) => Ok(()),
        Err(_) => Err(DiskFailed),
    }
}

// Reads until the buffer is full, and again where a signal interrupts.
pub(crate) fn read_full<R: Read>(reader: &mut R, buf: &mut [u8]) -> Result<(), DiskFailed>
    ensures { OnOk result
        (Consumes (R.remaining reader.old) (R.remaining reader.new) buf.new) }
{
    let mut filled = 0;
    for _ in 0..u64::MAX {
        if filled == buf.len() {
            return Ok(());
        }
        filled += read_some(reader, &mut buf[filled..])?;
    }
    Err(DiskFailed)
}

// One read, and how many bytes it gave: none where a signal interrupted it. A read that gives nothing by itself and
// any other error are faults.
fn read_some<R: Read>(reader: &mut R, buf: &mut [u8]) -> Result<usize, DiskFailed>
    ensures fits { IfOk result (λ n. n ≤ length buf.new) }
    ensures given { IfOk result
        (λ n. Consumes (R.remaining reader.old) (R.remaining reader.new) (take n buf.new)) }
{
    match reader.read(buf) {
        Ok(0) => Err(DiskFailed),
        Ok(n) => Ok(n),
        Err(e) if e.kind() == ErrorKind::Interrupted => Ok(0),
        Err(_) => Err(DiskFailed),
    }
}
