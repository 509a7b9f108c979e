//! One write, and one write that lasts.
ghost use Rattle.std.specs.Prelude.{◌≡◌, ◌≤◌, ◌+◌, ◌∷◌, [], length, option_map, OnOk, OnErr};
ghost use Rattle.host_model.specs.Counts.{Rose};
ghost use Rattle.host_model.specs.Disk.{written_at, range, IsImage, WhereTold};
ghost use Rattle.host_model.specs.Host.{Settled};
ghost use Rattle.host_model.specs.Images.{LeavesImages};
ghost use Rattle.host_model.specs.Tearing.{Tearing};

use host_model::{DiskFailed, Host};

/// Writes the bytes from `at` on.
pub(crate) fn put_at<H: Host>(host: &mut H, at: u64, bytes: &[u8]) -> Result<(), DiskFailed>
    requires { WhereTold (H.shows host.old).file (λ f. at ≤ length f) }
    ensures written { OnOk result
        ((H.shows host.new).file ≡ option_map (written_at at bytes.now) (H.shows host.old).file) }
    ensures tearing { Tearing (range at (length bytes.now) ∷ []) (H.shows host.old) (H.shows host.new) }
    ensures clock { (H.shows host.new).clock ≤ (H.shows host.old).clock + 1 }
    ensures cause { OnErr result (Rose (H.shows host.old).disk_faults (H.shows host.new).disk_faults) }
    ensures ok_faults { OnOk result ((H.shows host.new).disk_faults ≡ (H.shows host.old).disk_faults) }
{
    host.write_at(at, bytes)
}

/// Writes the bytes from `at` on and makes them lasting. From a settled host each image is the file torn in this range.
pub(crate) fn put_lasting<H: Host>(host: &mut H, at: u64, bytes: &[u8]) -> Result<(), DiskFailed>
    requires { WhereTold (H.shows host.old).file (λ f. at ≤ length f) }
    ensures written { OnOk result
        ((H.shows host.new).file ≡ option_map (written_at at bytes.now) (H.shows host.old).file) }
    ensures settled { OnOk result (Settled (H.shows host.new)) }
    ensures tearing { Tearing (range at (length bytes.now) ∷ []) (H.shows host.old) (H.shows host.new) }
    ensures images { Settled (H.shows host.old) → WhereTold (H.shows host.old).file
        (λ f. LeavesImages (H.shows host.old) (H.shows host.new) (IsImage (range at (length bytes.now) ∷ []) f)) }
    ensures clock { (H.shows host.new).clock ≤ (H.shows host.old).clock + 2 }
    ensures cause { OnErr result (Rose (H.shows host.old).disk_faults (H.shows host.new).disk_faults) }
    ensures ok_faults { OnOk result ((H.shows host.new).disk_faults ≡ (H.shows host.old).disk_faults) }
{
    put_at(host, at, bytes)?;
    host.sync()
}
