//! A host of which contracts see nothing but its faults.
ghost use Rattle.std.specs.Prelude.{◌≡◌, ◌≤◌, ◌+◌, length, None, IsTrue, IfOk};
ghost use Rattle.host_model.specs.Counts.{raised};
ghost use Rattle.host_model.specs.Disk.{WhereTold};
ghost use Rattle.host_model.specs.Untold.{without_stops, untold_coherent};

use host_model::{DiskFailed, Host, OutFailed};

/// Passes all calls on to a host, and tells neither its file nor its output, so that code with premises on a file that is told
/// runs on any file. A read and a write outside the file are faults, which are not passed on. It counts all faults itself.
#[derive(Drop)]
pub struct Untold<H> {
    inner: H,
    disk_faults: u64,
    out_faults: u64,
}

impl<H: Host> Untold<H> {
    /// Over a host, with no fault yet.
    pub fn new(inner: H) -> Untold<H> {
        Untold {
            inner,
            disk_faults: 0,
            out_faults: 0,
        }
    }

    /// The inner host as the calls left it.
    pub fn into_inner(self) -> H {
        let Untold {
            inner,
            disk_faults: _,
            out_faults: _,
        } = self;
        inner
    }
}

impl<H: Host> Host for Untold<H> {
    ghost shows = { λ u. without_stops None None u.disk_faults u.out_faults };

    ghost coherent = { λ u. untold_coherent None None u.disk_faults u.out_faults };

    fn len(&mut self) -> Result<u64, DiskFailed> {
        let outcome = self.inner.len();
        if outcome.is_err() {
            self.disk_faults = with_fault(self.disk_faults);
        }
        outcome
    }

    fn read_at(&mut self, at: u64, buf: &mut [u8]) -> Result<(), DiskFailed> {
        let outcome = read_inside(&mut self.inner, at, buf);
        if outcome.is_err() {
            self.disk_faults = with_fault(self.disk_faults);
        }
        outcome
    }

    fn write_at(&mut self, at: u64, bytes: &[u8]) -> Result<(), DiskFailed> {
        let outcome = write_inside(&mut self.inner, at, bytes);
        if outcome.is_err() {
            self.disk_faults = with_fault(self.disk_faults);
        }
        outcome
    }

    fn sync(&mut self) -> Result<(), DiskFailed> {
        let outcome = self.inner.sync();
        if outcome.is_err() {
            self.disk_faults = with_fault(self.disk_faults);
        }
        outcome
    }

    fn put(&mut self, bytes: &[u8]) -> Result<(), OutFailed> {
        let outcome = self.inner.put(bytes);
        if outcome.is_err() {
            self.out_faults = with_fault(self.out_faults);
        }
        outcome
    }
}

/// Reads where the range lies in the file.
fn read_inside<H: Host>(host: &mut H, at: u64, buf: &mut [u8]) -> Result<(), DiskFailed> {
    if !reaches(host, at, buf.len())? {
        return Err(DiskFailed);
    }
    host.read_at(at, buf)
}

/// Writes where the range begins in the file or at its end.
fn write_inside<H: Host>(host: &mut H, at: u64, bytes: &[u8]) -> Result<(), DiskFailed> {
    if !reaches(host, at, 0)? {
        return Err(DiskFailed);
    }
    host.write_at(at, bytes)
}

/// Whether the file reaches as far as so many bytes behind a place.
fn reaches<H: Host>(host: &mut H, at: u64, count: usize) -> Result<bool, DiskFailed>
    ensures { IfOk result (λ far. IsTrue far → WhereTold (H.shows host.new).file (λ f. at + count ≤ length f)) }
{
    let len = host.len()?;
    let count = count as u64;
    Ok(at <= len && count <= len - at)
}

/// One fault more, while 64 bits hold the count.
fn with_fault(faults: u64) -> u64
    ensures { result ≡ raised faults }
{
    faults.saturating_add(1)
}
