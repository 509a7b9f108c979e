//! Writes at places of which some have none, in order, and one sync behind them.
ghost use Rattle.std.specs.Prelude.{◌≡◌, ◌≤◌, ◌<◌, ◌+◌, [], List, length, slice_get, Option, Some, None, option_map, false};
ghost use Rattle.std.specs.Prelude.{IsTrue, MatchOption, IfOk, OnOk, OnErr};
ghost use Rattle.host_model.specs.Counts.{Rose};
ghost use Rattle.host_model.specs.Disk.{DiffersIn, WhereTold};
ghost use Rattle.host_model.specs.Host.{Settled};
ghost use Rattle.host_model.specs.Images.{LeavesImages};
ghost use Rattle.host_model.specs.Tearing.{Tearing};
ghost use Rattle.host_model.specs.Writes.{Write, ranges_of, with_writes};
ghost use Rattle.flush_steps.specs.Sparse.{some_of, BeginIn};

use host_model::{DiskFailed, Host};

/// Writes at places in order, of which each has one or none.
pub(crate) trait SparseWrites {
    /// What each place has.
    ghost places: { Self → List (Option Write) };

    /// The writes.
    ghost list: { Self → List Write };

    /// How many places there are.
    fn len(&self) -> usize
        ensures { result ≡ length (places self.now) };

    /// Where the write of a place begins, and its bytes.
    fn at(&self, place: usize) -> Option<(u64, &[u8])>
        requires { place < length (places self.now) }
        ensures { MatchOption result (slice_get (places self.now) place ≡ Some None)
            (λ w. slice_get (places self.now) place ≡ Some (Some (record { at = w.0; bytes = w.1.now }))) };

    ghost gathered: { (s : Self) → list s ≡ some_of (places s) };
}

/// Makes the writes in order, and then makes them lasting with one sync; it makes no call where there is none. From a settled
/// host each image is the file torn in the ranges of the writes.
pub(crate) fn write_some_and_sync<H: Host, W: SparseWrites>(
    host: &mut H,
    writes: &W,
) -> Result<(), DiskFailed>
    requires settled { Settled (H.shows host.old) }
    requires inside { WhereTold (H.shows host.old).file (BeginIn (W.list writes.now)) }
    ensures written { OnOk result
        ((H.shows host.new).file ≡ option_map (with_writes (W.list writes.now)) (H.shows host.old).file) }
    ensures settled { OnOk result (Settled (H.shows host.new)) }

    // Whatever it answers.
    ensures tearing { Tearing (ranges_of (W.list writes.now)) (H.shows host.old) (H.shows host.new) }
    ensures any_moment { WhereTold (H.shows host.old).file
        (λ f. LeavesImages (H.shows host.old) (H.shows host.new) (DiffersIn (ranges_of (W.list writes.now)) f)) }
    ensures clock { (H.shows host.new).clock ≤ (H.shows host.old).clock + length (W.list writes.now) + 1 }
    ensures no_call { W.list writes.now ≡ [] → host.new ≡ host.old }

    ensures cause { OnErr result (Rose (H.shows host.old).disk_faults (H.shows host.new).disk_faults) }
    ensures ok_faults { OnOk result ((H.shows host.new).disk_faults ≡ (H.shows host.old).disk_faults) }
{
    if write_some(host, writes)? {
        host.sync()?;
    }
    Ok(())
}

/// Makes the writes in order, with no sync. Whether there was one.
fn write_some<H: Host, W: SparseWrites>(host: &mut H, writes: &W) -> Result<bool, DiskFailed>
    requires { WhereTold (H.shows host.old).file (BeginIn (W.list writes.now)) }
    ensures any { IfOk result (λ any. IsTrue any → 0 < length (W.list writes.now)) }
    ensures none { IfOk result (λ any. any ≡ false → host.new ≡ host.old) }
    ensures written { OnOk result
        ((H.shows host.new).file ≡ option_map (with_writes (W.list writes.now)) (H.shows host.old).file) }
    ensures tearing { Tearing (ranges_of (W.list writes.now)) (H.shows host.old) (H.shows host.new) }
    ensures clock { (H.shows host.new).clock ≤ (H.shows host.old).clock + length (W.list writes.now) }
    ensures no_call { W.list writes.now ≡ [] → host.new ≡ host.old }
    ensures cause { OnErr result (Rose (H.shows host.old).disk_faults (H.shows host.new).disk_faults) }
    ensures ok_faults { OnOk result ((H.shows host.new).disk_faults ≡ (H.shows host.old).disk_faults) }
{
    let mut any = false;
    for place in 0..writes.len() {
        if let Some((at, bytes)) = writes.at(place) {
            host.write_at(at, bytes)?;
            any = true;
        }
    }
    Ok(any)
}
