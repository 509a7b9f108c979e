//! A change of the header, by its four steps.
ghost use Rattle.std.specs.Prelude.{◌≡◌, ◌≤◌, ◌+◌, Bool, true, not, length, Ok, OnOk, OnErr};
ghost use Rattle.host_model.specs.Counts.{Rose};
ghost use Rattle.host_model.specs.Disk.{WhereTold, Changes};
ghost use Rattle.host_model.specs.Host.{Settled};
ghost use Rattle.host_model.specs.Images.{LeavesImages};
ghost use Rattle.file_model.specs.declared.head.Head.{Head};
ghost use Rattle.file_model.specs.Layout.{page_size};
ghost use Rattle.file_model.specs.Header.{is_allowed, located};
ghost use Rattle.block_disk.specs.Copies.{HasHeader, HasEither, OnlyDisk, Stands, IsReady, Prepares, IsCurrent};

use crate::copies::{write_copy, write_gate};
use crate::places::whole_segments;
use file_model::laws::a_header_that_was_written_is_read;
use file_model::{Head, Located};
use host_model::{DiskFailed, Host};

/// Closes the gate of the other copy, where it is open.
fn close_other<H: Host>(host: &mut H, place: &Located) -> Result<(), DiskFailed>
    requires settled { Settled (H.shows host.old) }
    requires stands { WhereTold (H.shows host.old).file (Stands place.now.second place.now.other_gate place.now.head) }
    ensures any_moment { WhereTold (H.shows host.old).file
        (λ f. LeavesImages (H.shows host.old) (H.shows host.new) (HasHeader place.now.head f)) }
    ensures file { Changes (HasHeader place.now.head) (H.shows host.old).file (H.shows host.new).file }
    ensures closed { OnOk result
        (Changes (IsCurrent place.now.second place.now.head) (H.shows host.old).file (H.shows host.new).file) }
    ensures settled { OnOk result (Settled (H.shows host.new)) }
    ensures only_disk { OnlyDisk (H.shows host.old) (H.shows host.new) }
    ensures clock { (H.shows host.new).clock ≤ (H.shows host.old).clock + 2 }
    ensures cause { OnErr result (Rose (H.shows host.old).disk_faults (H.shows host.new).disk_faults) }
    ensures ok_faults { OnOk result ((H.shows host.new).disk_faults ≡ (H.shows host.old).disk_faults) }
{
    if !place.other_gate {
        return Ok(());
    }
    write_gate(host, !place.second, false)
}

/// Closes the gate of the other copy and writes its body.
fn prepare<H: Host>(host: &mut H, place: &Located, next: &Head) -> Result<(), DiskFailed>
    requires settled { Settled (H.shows host.old) }
    requires allowed { is_allowed next.now ≡ true }
    requires stands { WhereTold (H.shows host.old).file (Stands place.now.second place.now.other_gate place.now.head) }
    ensures any_moment { WhereTold (H.shows host.old).file
        (λ f. LeavesImages (H.shows host.old) (H.shows host.new) (HasHeader place.now.head f)) }
    ensures file { Changes (HasHeader place.now.head) (H.shows host.old).file (H.shows host.new).file }
    ensures prepared { OnOk result
        (Changes (Prepares place.now.second place.now.head next.now) (H.shows host.old).file (H.shows host.new).file) }
    ensures settled { OnOk result (Settled (H.shows host.new)) }
    ensures only_disk { OnlyDisk (H.shows host.old) (H.shows host.new) }
    ensures clock { (H.shows host.new).clock ≤ (H.shows host.old).clock + 4 }
    ensures cause { OnErr result (Rose (H.shows host.old).disk_faults (H.shows host.new).disk_faults) }
    ensures ok_faults { OnOk result ((H.shows host.new).disk_faults ≡ (H.shows host.old).disk_faults) }
{
    a_header_that_was_written_is_read();
    close_other(host, place)?;
    write_copy(host, !place.second, next)
}

/// Opens the gate of the copy that is ready, and then closes that of this one.
fn switch_copies<H: Host>(host: &mut H, second: bool) -> Result<(), DiskFailed>
    requires settled { Settled (H.shows host.old) }
    requires page { WhereTold (H.shows host.old).file (λ f. page_size ≤ length f) }
    ensures any_moment { (old next : Head) → WhereTold (H.shows host.old).file (λ f. IsReady second old next f
        → LeavesImages (H.shows host.old) (H.shows host.new) (HasEither old next f)) }
    ensures file { (old next : Head) → WhereTold (H.shows host.old).file (IsReady second old next)
        → Changes (HasEither old next) (H.shows host.old).file (H.shows host.new).file }
    ensures switched { OnOk result ((old next : Head) → WhereTold (H.shows host.old).file (IsReady second old next)
        → Changes (IsCurrent (not second) next) (H.shows host.old).file (H.shows host.new).file) }
    ensures settled { OnOk result (Settled (H.shows host.new)) }
    ensures only_disk { OnlyDisk (H.shows host.old) (H.shows host.new) }
    ensures clock { (H.shows host.new).clock ≤ (H.shows host.old).clock + 4 }
    ensures cause { OnErr result (Rose (H.shows host.old).disk_faults (H.shows host.new).disk_faults) }
    ensures ok_faults { OnOk result ((H.shows host.new).disk_faults ≡ (H.shows host.old).disk_faults) }
{
    write_gate(host, !second, true)?;
    write_gate(host, second, false)
}

/// The four steps.
fn change_copies<H: Host>(host: &mut H, place: &Located, next: &Head) -> Result<(), DiskFailed>
    requires settled { Settled (H.shows host.old) }
    requires allowed { is_allowed next.now ≡ true }
    requires stands { WhereTold (H.shows host.old).file (Stands place.now.second place.now.other_gate place.now.head) }
    ensures any_moment { WhereTold (H.shows host.old).file
        (λ f. LeavesImages (H.shows host.old) (H.shows host.new) (HasEither place.now.head next.now f)) }
    ensures file { Changes (HasEither place.now.head next.now) (H.shows host.old).file (H.shows host.new).file }
    ensures changed { OnOk result
        (Changes (IsCurrent (not place.now.second) next.now) (H.shows host.old).file (H.shows host.new).file) }
    ensures settled { OnOk result (Settled (H.shows host.new)) }
    ensures only_disk { OnlyDisk (H.shows host.old) (H.shows host.new) }
    ensures clock { (H.shows host.new).clock ≤ (H.shows host.old).clock + 8 }
    ensures cause { OnErr result (Rose (H.shows host.old).disk_faults (H.shows host.new).disk_faults) }
    ensures ok_faults { OnOk result ((H.shows host.new).disk_faults ≡ (H.shows host.old).disk_faults) }
{
    prepare(host, place, next)?;
    switch_copies(host, place.second)
}

/// Changes the header of a file to `next`, from a settled host. `place` is what `read_header` gives for the file, and is
/// what it gives for the new one then; after `DiskFailed` it says no more. At each moment the header is the old one or
/// `next`. `DiskFailed` comes only where a call on the disk failed.
pub fn change_header<H: Host>(
    host: &mut H,
    place: &mut Located,
    next: Head,
) -> Result<(), DiskFailed>
    requires settled { Settled (H.shows host.old) }
    requires allowed { is_allowed next ≡ true }
    requires place { WhereTold (H.shows host.old).file (λ f. located f ≡ Ok place.old) }
    ensures any_moment { WhereTold (H.shows host.old).file
        (λ f. LeavesImages (H.shows host.old) (H.shows host.new) (HasEither place.old.head next f)) }
    ensures file { Changes (HasEither place.old.head next) (H.shows host.old).file (H.shows host.new).file }
    ensures found { OnOk result (WhereTold (H.shows host.new).file (λ f. located f ≡ Ok place.new)) }
    ensures head { OnOk result (place.new.head ≡ next) }
    ensures err { OnErr result (place.new ≡ place.old) }
    ensures settled { OnOk result (Settled (H.shows host.new)) }
    ensures only_disk { OnlyDisk (H.shows host.old) (H.shows host.new) }
    ensures clock { (H.shows host.new).clock ≤ (H.shows host.old).clock + 8 }
    ensures cause { OnErr result (Rose (H.shows host.old).disk_faults (H.shows host.new).disk_faults) }
    ensures ok_faults { OnOk result ((H.shows host.new).disk_faults ≡ (H.shows host.old).disk_faults) }
{
    let len = host.len()?;
    change_copies(host, place, &next)?;
    *place = Located {
        head: next,
        second: !place.second,
        other_gate: false,
        whole: whole_segments(next.segments, len),
    };
    Ok(())
}
