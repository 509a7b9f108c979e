//! The two copies of the header: a write to a gate or a body of one that lasts.
ghost use Rattle.std.specs.Prelude.{◌≡◌, ◌≤◌, ◌+◌, cond, length, OnOk, OnErr};
ghost use Rattle.host_model.specs.Counts.{Rose};
ghost use Rattle.host_model.specs.Disk.{WhereTold, Changes};
ghost use Rattle.host_model.specs.Host.{Settled};
ghost use Rattle.host_model.specs.Images.{LeavesImages};
ghost use Rattle.file_model.specs.Layout.{page_size, open_byte, closed_byte};
ghost use Rattle.file_model.specs.Header.{body_of};
ghost use Rattle.block_disk.specs.Copies.{OnlyDisk, TearsGate, WritesGate, TearsBody, WritesBody};

use crate::header_bytes::body_bytes;
use crate::places::{CLOSED, OPEN, body_at, copy_at};
use crate::step::put_lasting;
use file_model::Head;
use host_model::{DiskFailed, Host};

/// The byte of an open gate, or of a closed one.
fn gate_byte(is_open: bool) -> u8
    ensures { result ≡ cond is_open open_byte closed_byte }
{
    if is_open { OPEN } else { CLOSED }
}

/// Opens or closes the gate of a copy.
pub(crate) fn write_gate<H: Host>(
    host: &mut H,
    second: bool,
    is_open: bool,
) -> Result<(), DiskFailed>
    requires settled { Settled (H.shows host.old) }
    requires page { WhereTold (H.shows host.old).file (λ f. page_size ≤ length f) }
    ensures any_moment { WhereTold (H.shows host.old).file
        (λ f. LeavesImages (H.shows host.old) (H.shows host.new) (TearsGate second f)) }
    ensures file { Changes (TearsGate second) (H.shows host.old).file (H.shows host.new).file }
    ensures written { OnOk result (Changes (WritesGate second is_open) (H.shows host.old).file (H.shows host.new).file) }
    ensures settled { OnOk result (Settled (H.shows host.new)) }
    ensures only_disk { OnlyDisk (H.shows host.old) (H.shows host.new) }
    ensures clock { (H.shows host.new).clock ≤ (H.shows host.old).clock + 2 }
    ensures cause { OnErr result (Rose (H.shows host.old).disk_faults (H.shows host.new).disk_faults) }
    ensures ok_faults { OnOk result ((H.shows host.new).disk_faults ≡ (H.shows host.old).disk_faults) }
{
    let gate = gate_byte(is_open);
    put_lasting(host, copy_at(second), &[gate])
}

/// Writes the body of a copy.
pub(crate) fn write_copy<H: Host>(host: &mut H, second: bool, head: &Head) -> Result<(), DiskFailed>
    requires settled { Settled (H.shows host.old) }
    requires page { WhereTold (H.shows host.old).file (λ f. page_size ≤ length f) }
    ensures any_moment { WhereTold (H.shows host.old).file
        (λ f. LeavesImages (H.shows host.old) (H.shows host.new) (TearsBody second f)) }
    ensures file { Changes (TearsBody second) (H.shows host.old).file (H.shows host.new).file }
    ensures written { OnOk result
        (Changes (WritesBody second (body_of head.now)) (H.shows host.old).file (H.shows host.new).file) }
    ensures settled { OnOk result (Settled (H.shows host.new)) }
    ensures only_disk { OnlyDisk (H.shows host.old) (H.shows host.new) }
    ensures clock { (H.shows host.new).clock ≤ (H.shows host.old).clock + 2 }
    ensures cause { OnErr result (Rose (H.shows host.old).disk_faults (H.shows host.new).disk_faults) }
    ensures ok_faults { OnOk result ((H.shows host.new).disk_faults ≡ (H.shows host.old).disk_faults) }
{
    let body = body_bytes(head);
    put_lasting(host, body_at(second), &body)
}
