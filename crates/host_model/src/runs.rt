// Small runs of calls on any host.
ghost use Rattle.std.specs.Prelude.{◌≡◌, ◌≤◌, ◌<◌, ◌+◌, ◌∷◌, [], List, length, slice_get, option_map, Some, OnOk, OnErr};
ghost use Rattle.host_model.specs.Counts.{Rose};
ghost use Rattle.host_model.specs.Disk.{written_at, range, DiffersIn, IsImage, WhereTold, Changes};
ghost use Rattle.host_model.specs.Host.{Settled, Tears, TearsIn, Reached, LeavesOnly};
ghost use Rattle.host_model.specs.Images.{LeavesImages};
ghost use Rattle.host_model.specs.Tearing.{Tearing};
ghost use Rattle.host_model.specs.Writes.{Write, ranges_of, with_writes, BeginInside};

use crate::{DiskFailed, Host};

/// Writes one after another: how many, and of each the place and the bytes.
pub trait Writes {
    /// The writes, in order.
    ghost list: { Self → List Write };

    /// How many writes there are.
    fn count(&self) -> usize
        ensures { result ≡ length (list self.now) };

    /// Where write `i` begins.
    fn place(&self, i: usize) -> u64
        requires { i < length (list self.now) }
        ensures { option_map (λ w. w.at) (slice_get (list self.now) i) ≡ Some result };

    /// The bytes of write `i`.
    fn bytes(&self, i: usize) -> &[u8]
        requires { i < length (list self.now) }
        ensures { option_map (λ w. w.bytes) (slice_get (list self.now) i) ≡ Some result.now };
}

/// Writes the bytes from `at` on and makes them lasting. A stop at any moment leaves what it left before, or that with
/// this one write torn. `DiskFailed` comes only where a call on the disk failed.
pub fn write_and_sync<H: Host>(host: &mut H, at: u64, bytes: &[u8]) -> Result<(), DiskFailed>
    requires { WhereTold (H.shows host.old).file (λ f. at ≤ length f) }
    ensures written { OnOk result
        ((H.shows host.new).file ≡ option_map (written_at at bytes.now) (H.shows host.old).file) }
    ensures settled { OnOk result (Settled (H.shows host.new)) }
    ensures torn { OnErr result
        (Changes (DiffersIn (range at (length bytes.now) ∷ [])) (H.shows host.old).file (H.shows host.new).file) }
    ensures any_moment { LeavesOnly (H.shows host.old) (H.shows host.new)
        (Reached (Tears at (length bytes.now)) (H.shows host.old).may_leave) }
    ensures clock { (H.shows host.new).clock ≤ (H.shows host.old).clock + 2 }
    ensures said { (H.shows host.new).said ≡ (H.shows host.old).said }
    ensures reads { (H.shows host.new).reads ≡ (H.shows host.old).reads }
    ensures cause { OnErr result (Rose (H.shows host.old).disk_faults (H.shows host.new).disk_faults) }
    ensures ok_faults { OnOk result ((H.shows host.new).disk_faults ≡ (H.shows host.old).disk_faults) }
    ensures never_falls { (H.shows host.old).disk_faults ≤ (H.shows host.new).disk_faults }
    ensures out_faults { (H.shows host.new).out_faults ≡ (H.shows host.old).out_faults }
{
    host.write_at(at, bytes)?;
    host.sync()
}

/// Makes the writes in order, and then makes them lasting with one sync. A stop at any moment leaves what it left
/// before, or that with the ranges of these writes torn; from a settled host it leaves an image of the file torn in them.
/// `DiskFailed` comes only where a call on the disk failed.
pub fn write_all_and_sync<H: Host, W: Writes>(host: &mut H, writes: &W) -> Result<(), DiskFailed>
    requires { WhereTold (H.shows host.old).file (BeginInside (W.list writes.now)) }
    ensures written { OnOk result
        ((H.shows host.new).file ≡ option_map (with_writes (W.list writes.now)) (H.shows host.old).file) }
    ensures settled { OnOk result (Settled (H.shows host.new)) }

    // Whatever it answers.
    ensures tearing { Tearing (ranges_of (W.list writes.now)) (H.shows host.old) (H.shows host.new) }
    ensures images { Settled (H.shows host.old) → WhereTold (H.shows host.old).file
        (λ f. LeavesImages (H.shows host.old) (H.shows host.new) (IsImage (ranges_of (W.list writes.now)) f)) }
    ensures clock { (H.shows host.new).clock ≤ (H.shows host.old).clock + length (W.list writes.now) + 1 }

    ensures cause { OnErr result (Rose (H.shows host.old).disk_faults (H.shows host.new).disk_faults) }
    ensures ok_faults { OnOk result ((H.shows host.new).disk_faults ≡ (H.shows host.old).disk_faults) }
{
    write_all(host, writes)?;
    host.sync()
}

/// Makes the writes in order, with no sync: a stop leaves what it left before, or that with the ranges of these writes
/// torn. `DiskFailed` comes only where a call on the disk failed.
pub fn write_all<H: Host, W: Writes>(host: &mut H, writes: &W) -> Result<(), DiskFailed>
    requires { WhereTold (H.shows host.old).file (BeginInside (W.list writes.now)) }
    ensures written { OnOk result
        ((H.shows host.new).file ≡ option_map (with_writes (W.list writes.now)) (H.shows host.old).file) }
    ensures tearing { Tearing (ranges_of (W.list writes.now)) (H.shows host.old) (H.shows host.new) }
    ensures clock { (H.shows host.new).clock ≤ (H.shows host.old).clock + length (W.list writes.now) }
    ensures cause { OnErr result (Rose (H.shows host.old).disk_faults (H.shows host.new).disk_faults) }
    ensures ok_faults { OnOk result ((H.shows host.new).disk_faults ≡ (H.shows host.old).disk_faults) }
{
    for i in 0..writes.count() {
        host.write_at(writes.place(i), writes.bytes(i))?;
    }
    Ok(())
}
