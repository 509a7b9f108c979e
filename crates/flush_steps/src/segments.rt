//! Segments of zeros behind those that are there.
ghost use Rattle.std.specs.Prelude.{◌≡◌, ◌≤◌, ◌+◌, ◌*◌, ◌-◌, length, OnOk, OnErr};
ghost use Rattle.space_model.specs.Sizes.{segment_units};
ghost use Rattle.host_model.specs.Counts.{Rose};
ghost use Rattle.host_model.specs.Disk.{DiffersIn, WhereTold, Changes};
ghost use Rattle.host_model.specs.Host.{Settled};
ghost use Rattle.host_model.specs.Images.{LeavesImages};
ghost use Rattle.host_model.specs.Tearing.{Tearing};
ghost use Rattle.file_model.specs.Layout.{segment_at};
ghost use Rattle.block_disk.specs.Copies.{OnlyDisk};
ghost use Rattle.book_model.specs.Stopped.{AreShut};
ghost use Rattle.flush_steps.specs.Added.{added};

use block_disk::zero_segment;
use host_model::{DiskFailed, Host};

/// Writes zeros to the segments from `from` to the one before `to`, and makes that lasting with one sync; it makes no call
/// where there are none. The first one begins in the file or at its end. At the end they are whole in the file and their gates
/// are closed. `DiskFailed` comes only where a call on the disk failed.
pub fn add_segments<H: Host>(host: &mut H, from: u32, to: u32) -> Result<(), DiskFailed>
    requires settled { Settled (H.shows host.old) }
    requires begins { WhereTold (H.shows host.old).file (λ f. segment_at segment_units from ≤ length f) }
    ensures shut { OnOk result (WhereTold (H.shows host.new).file (AreShut segment_units from to)) }
    ensures settled { OnOk result (Settled (H.shows host.new)) }

    // Whatever it answers.
    ensures any_moment { WhereTold (H.shows host.old).file
        (λ f. LeavesImages (H.shows host.old) (H.shows host.new) (DiffersIn (added segment_units from to) f)) }
    ensures file { Changes (DiffersIn (added segment_units from to)) (H.shows host.old).file (H.shows host.new).file }
    ensures only_disk { OnlyDisk (H.shows host.old) (H.shows host.new) }
    ensures clock { (H.shows host.new).clock ≤ (H.shows host.old).clock + 65 * (to - from) + 1 }
    ensures no_call { to ≤ from → host.new ≡ host.old }

    ensures cause { OnErr result (Rose (H.shows host.old).disk_faults (H.shows host.new).disk_faults) }
    ensures ok_faults { OnOk result ((H.shows host.new).disk_faults ≡ (H.shows host.old).disk_faults) }
{
    if from >= to {
        return Ok(());
    }
    zero_segments(host, from, to)?;
    host.sync()
}

/// Writes zeros to the segments from `from` to the one before `to`.
fn zero_segments<H: Host>(host: &mut H, from: u32, to: u32) -> Result<(), DiskFailed>
    requires order { from ≤ to }
    requires begins { WhereTold (H.shows host.old).file (λ f. segment_at segment_units from ≤ length f) }
    ensures shut { OnOk result (WhereTold (H.shows host.new).file (AreShut segment_units from to)) }
    ensures tearing { Tearing (added segment_units from to) (H.shows host.old) (H.shows host.new) }
    ensures clock { (H.shows host.new).clock ≤ (H.shows host.old).clock + 65 * (to - from) }
    ensures cause { OnErr result (Rose (H.shows host.old).disk_faults (H.shows host.new).disk_faults) }
    ensures ok_faults { OnOk result ((H.shows host.new).disk_faults ≡ (H.shows host.old).disk_faults) }
{
    for segment in from..to {
        zero_segment(host, segment)?;
    }
    Ok(())
}
