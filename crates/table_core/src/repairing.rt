//! The repair of a file at its opening.
ghost use Rattle.std.specs.Prelude.{◌≡◌, ◌≤◌, ◌+◌, true, length, Ok, OnOk, OnErr};
ghost use Rattle.space_model.specs.Sizes.{segment_units};
ghost use Rattle.host_model.specs.Counts.{Rose};
ghost use Rattle.host_model.specs.Disk.{WhereTold, Changes};
ghost use Rattle.host_model.specs.Host.{Settled};
ghost use Rattle.host_model.specs.Images.{LeavesImages};
ghost use Rattle.file_model.specs.Header.{is_allowed, located};
ghost use Rattle.file_model.specs.View.{view_of};
ghost use Rattle.file_model.specs.Taken.{rejects};
ghost use Rattle.file_model.specs.GateWrites.{AreWhole};
ghost use Rattle.block_disk.specs.Copies.{OnlyDisk};
ghost use Rattle.repair_scan.specs.Found.{units_of_rejects};
ghost use Rattle.store_model.specs.Keeping.{Keeps};
ghost use Rattle.table_core.specs.Repairing.{IsMarked, IsRepaired};

use crate::Located;
use crate::below::what_a_repair_leaves;
use block_disk::FileState;
use flush_steps::mark_dirty;
use host_model::{DiskFailed, Host};
use repair_scan::{Found, close_rejects};

/// Has the header say that the file is dirty, with the segments that count and no index, unless it says just that.
fn mark_for_repair<H: Host>(host: &mut H, place: &mut Located) -> Result<(), DiskFailed>
    requires settled { Settled (H.shows host.old) }
    requires allowed { is_allowed place.old.head ≡ true }
    requires counted { place.old.whole ≤ place.old.head.segments }
    requires place { WhereTold (H.shows host.old).file (λ f. located f ≡ Ok place.old) }
    ensures marked { OnOk result (Changes (IsMarked place.old.head place.new) (H.shows host.old).file (H.shows host.new).file) }
    ensures settled { OnOk result (Settled (H.shows host.new)) }
    ensures allowed { OnOk result (is_allowed place.new.head ≡ true) }

    // Whatever it answers.
    ensures any_moment { WhereTold (H.shows host.old).file
        (λ f. LeavesImages (H.shows host.old) (H.shows host.new) (Keeps place.old.head f)) }
    ensures file { Changes (Keeps place.old.head) (H.shows host.old).file (H.shows host.new).file }
    ensures only_disk { OnlyDisk (H.shows host.old) (H.shows host.new) }
    ensures clock { (H.shows host.new).clock ≤ (H.shows host.old).clock + 8 }

    ensures cause { OnErr result (Rose (H.shows host.old).disk_faults (H.shows host.new).disk_faults) }
    ensures ok_faults { OnOk result ((H.shows host.new).disk_faults ≡ (H.shows host.old).disk_faults) }
{
    what_a_repair_leaves();
    let counted = place.whole;
    if place.head.state != FileState::Dirty || place.head.segments != counted {
        mark_dirty(host, place, counted)?;
    }
    Ok(())
}

/// Repairs a file: its header is made to say that it is dirty, with the segments that count and no index, unless it says just
/// that, and then the gates of the rejects are closed and synced. `place` is what `read_header` gives for the file, and is
/// what it gives for the new one then, and `found` is what a scan gives; after `DiskFailed` they say no more. At each moment
/// the table is the same. `DiskFailed` comes only where a call on the disk failed.
pub(crate) fn repair<H: Host>(
    host: &mut H,
    place: &mut Located,
    found: &Found,
) -> Result<(), DiskFailed>
    requires settled { Settled (H.shows host.old) }
    requires allowed { is_allowed place.old.head ≡ true }
    requires counted { place.old.whole ≤ place.old.head.segments }
    requires place { WhereTold (H.shows host.old).file (λ f. located f ≡ Ok place.old) }
    requires rejects { WhereTold (H.shows host.old).file (λ f. found.now.rejects ≡ rejects (view_of place.old.head f)) }
    requires closable { WhereTold (H.shows host.old).file (AreWhole segment_units (units_of_rejects found.now.rejects)) }
    ensures repaired { OnOk result (Changes (IsRepaired place.old.head place.new) (H.shows host.old).file (H.shows host.new).file) }
    ensures settled { OnOk result (Settled (H.shows host.new)) }
    ensures allowed { OnOk result (is_allowed place.new.head ≡ true) }

    // Whatever it answers.
    ensures any_moment { WhereTold (H.shows host.old).file
        (λ f. LeavesImages (H.shows host.old) (H.shows host.new) (Keeps place.old.head f)) }
    ensures file { Changes (Keeps place.old.head) (H.shows host.old).file (H.shows host.new).file }
    ensures only_disk { OnlyDisk (H.shows host.old) (H.shows host.new) }
    ensures clock { (H.shows host.new).clock ≤ (H.shows host.old).clock + length found.now.rejects + 9 }

    ensures cause { OnErr result (Rose (H.shows host.old).disk_faults (H.shows host.new).disk_faults) }
    ensures ok_faults { OnOk result ((H.shows host.new).disk_faults ≡ (H.shows host.old).disk_faults) }
{
    what_a_repair_leaves();
    mark_for_repair(host, place)?;
    close_rejects(host, found)
}
