//! The gates and blocks of units: what is read of them, and the single writes.
ghost use Rattle.std.specs.Prelude.{◌≡◌, ◌≤◌, ◌+◌, ◌*◌, ◌∷◌, [], length, take, drop, slice_range, option_map, IfOk, OnOk, OnErr};
ghost use Rattle.space_model.specs.Sizes.{unit_size, head_size, segment_units};
ghost use Rattle.host_model.specs.Counts.{Rose};
ghost use Rattle.host_model.specs.Disk.{written_at, range, WhereTold};
ghost use Rattle.host_model.specs.Host.{Rests, CountsRead, MayCountRead};
ghost use Rattle.host_model.specs.Tearing.{Tearing};
ghost use Rattle.file_model.specs.Layout.{segment_at, gate_at, unit_at, segment_end, unit_bytes, open_byte, closed_byte};
ghost use Rattle.file_model.specs.Block.{block_head};
ghost use Rattle.block_disk.specs.BlockHeads.{head_of_pair};

use crate::block_head::read_block_head;
use crate::places::{CLOSED, OPEN, gate_at, segment_at, unit_at, units_at};
use crate::step::put_at;
use host_model::{DiskFailed, Host};

/// Opens the gate of a unit whose segment is whole in the file. `DiskFailed` comes only where the write failed; so it is
/// with each call of this file.
pub fn open_gate<H: Host>(host: &mut H, unit: u32) -> Result<(), DiskFailed>
    requires { WhereTold (H.shows host.old).file (λ f. segment_end segment_units unit ≤ length f) }
    ensures written { OnOk result ((H.shows host.new).file
        ≡ option_map (written_at (gate_at segment_units unit) (open_byte ∷ [])) (H.shows host.old).file) }
    ensures tearing { Tearing (range (gate_at segment_units unit) 1 ∷ []) (H.shows host.old) (H.shows host.new) }
    ensures clock { (H.shows host.new).clock ≤ (H.shows host.old).clock + 1 }
    ensures cause { OnErr result (Rose (H.shows host.old).disk_faults (H.shows host.new).disk_faults) }
    ensures ok_faults { OnOk result ((H.shows host.new).disk_faults ≡ (H.shows host.old).disk_faults) }
{
    put_at(host, gate_at(unit), &[OPEN])
}

/// Closes the gate of a unit whose segment is whole in the file.
pub fn close_gate<H: Host>(host: &mut H, unit: u32) -> Result<(), DiskFailed>
    requires { WhereTold (H.shows host.old).file (λ f. segment_end segment_units unit ≤ length f) }
    ensures written { OnOk result ((H.shows host.new).file
        ≡ option_map (written_at (gate_at segment_units unit) (closed_byte ∷ [])) (H.shows host.old).file) }
    ensures tearing { Tearing (range (gate_at segment_units unit) 1 ∷ []) (H.shows host.old) (H.shows host.new) }
    ensures clock { (H.shows host.new).clock ≤ (H.shows host.old).clock + 1 }
    ensures cause { OnErr result (Rose (H.shows host.old).disk_faults (H.shows host.new).disk_faults) }
    ensures ok_faults { OnOk result ((H.shows host.new).disk_faults ≡ (H.shows host.old).disk_faults) }
{
    put_at(host, gate_at(unit), &[CLOSED])
}

/// Writes a block, head and payload, from a unit on, whose segment is whole in the file. It may end behind the segment.
pub fn write_body<H: Host>(host: &mut H, unit: u32, block: &[u8]) -> Result<(), DiskFailed>
    requires { WhereTold (H.shows host.old).file (λ f. segment_end segment_units unit ≤ length f) }
    ensures written { OnOk result ((H.shows host.new).file
        ≡ option_map (written_at (unit_at segment_units unit) block.now) (H.shows host.old).file) }
    ensures tearing { Tearing (range (unit_at segment_units unit) (length block.now) ∷ []) (H.shows host.old) (H.shows host.new) }
    ensures clock { (H.shows host.new).clock ≤ (H.shows host.old).clock + 1 }
    ensures cause { OnErr result (Rose (H.shows host.old).disk_faults (H.shows host.new).disk_faults) }
    ensures ok_faults { OnOk result ((H.shows host.new).disk_faults ≡ (H.shows host.old).disk_faults) }
{
    put_at(host, unit_at(unit), block)
}

/// Reads the gates of a segment that is whole in the file, one byte each.
pub fn read_gates<H: Host>(
    host: &mut H,
    segment: u32,
    gates: &mut [u8; 4096],
) -> Result<(), DiskFailed>
    requires { WhereTold (H.shows host.old).file (λ f. segment_at segment_units (segment + 1) ≤ length f) }
    ensures given { OnOk result (WhereTold (H.shows host.old).file (λ f. gates.new
        ≡ slice_range f (segment_at segment_units segment) (segment_at segment_units segment + segment_units))) }
    ensures rests { Rests (H.shows host.old) (H.shows host.new) }
    ensures counted { OnOk result (CountsRead (H.shows host.old) (H.shows host.new)) }
    ensures reads { OnErr result (MayCountRead (H.shows host.old) (H.shows host.new)) }
    ensures cause { OnErr result (Rose (H.shows host.old).disk_faults (H.shows host.new).disk_faults) }
    ensures ok_faults { OnOk result ((H.shows host.new).disk_faults ≡ (H.shows host.old).disk_faults) }
    ensures never_falls { (H.shows host.old).disk_faults ≤ (H.shows host.new).disk_faults }
    ensures out_faults { (H.shows host.new).out_faults ≡ (H.shows host.old).out_faults }
{
    host.read_at(segment_at(segment), gates)
}

/// Fills the buffer with all units of a segment that is whole in the file.
pub fn read_units<H: Host>(host: &mut H, segment: u32, units: &mut [u8]) -> Result<(), DiskFailed>
    requires all { length units.old ≡ unit_size * segment_units }
    requires whole { WhereTold (H.shows host.old).file (λ f. segment_at segment_units (segment + 1) ≤ length f) }
    ensures given { OnOk result (WhereTold (H.shows host.old).file (λ f. units.new
        ≡ slice_range f (segment_at segment_units segment + segment_units) (segment_at segment_units (segment + 1)))) }
    ensures rests { Rests (H.shows host.old) (H.shows host.new) }
    ensures counted { OnOk result (CountsRead (H.shows host.old) (H.shows host.new)) }
    ensures reads { OnErr result (MayCountRead (H.shows host.old) (H.shows host.new)) }
    ensures cause { OnErr result (Rose (H.shows host.old).disk_faults (H.shows host.new).disk_faults) }
    ensures ok_faults { OnOk result ((H.shows host.new).disk_faults ≡ (H.shows host.old).disk_faults) }
    ensures never_falls { (H.shows host.old).disk_faults ≤ (H.shows host.new).disk_faults }
    ensures out_faults { (H.shows host.new).out_faults ≡ (H.shows host.old).out_faults }
{
    host.read_at(units_at(segment), units)
}

/// Reads the head of a block: its exponent and the length of its payload. None just where it is not well formed.
pub fn read_head<H: Host>(host: &mut H, unit: u32) -> Result<Option<(u8, u32)>, DiskFailed>
    requires { WhereTold (H.shows host.old).file (λ f. segment_end segment_units unit ≤ length f) }
    ensures given { IfOk result (λ head. WhereTold (H.shows host.old).file (λ f.
        option_map head_of_pair head ≡ block_head segment_units (take head_size (unit_bytes segment_units f unit)))) }
    ensures rests { Rests (H.shows host.old) (H.shows host.new) }
    ensures counted { OnOk result (CountsRead (H.shows host.old) (H.shows host.new)) }
    ensures reads { OnErr result (MayCountRead (H.shows host.old) (H.shows host.new)) }
    ensures cause { OnErr result (Rose (H.shows host.old).disk_faults (H.shows host.new).disk_faults) }
    ensures ok_faults { OnOk result ((H.shows host.new).disk_faults ≡ (H.shows host.old).disk_faults) }
    ensures never_falls { (H.shows host.old).disk_faults ≤ (H.shows host.new).disk_faults }
    ensures out_faults { (H.shows host.new).out_faults ≡ (H.shows host.old).out_faults }
{
    let mut head = [0; 8];
    host.read_at(unit_at(unit), &mut head)?;
    Ok(read_block_head(&head))
}

/// Fills the buffer with the payload of a block, which ends in its unit's segment.
pub fn read_payload<H: Host>(host: &mut H, unit: u32, payload: &mut [u8]) -> Result<(), DiskFailed>
    requires room { unit_at segment_units unit + head_size + length payload.old ≤ segment_end segment_units unit }
    requires whole { WhereTold (H.shows host.old).file (λ f. segment_end segment_units unit ≤ length f) }
    ensures given { OnOk result (WhereTold (H.shows host.old).file (λ f. payload.new
        ≡ take (length payload.old) (drop head_size (unit_bytes segment_units f unit)))) }
    ensures rests { Rests (H.shows host.old) (H.shows host.new) }
    ensures counted { OnOk result (CountsRead (H.shows host.old) (H.shows host.new)) }
    ensures reads { OnErr result (MayCountRead (H.shows host.old) (H.shows host.new)) }
    ensures cause { OnErr result (Rose (H.shows host.old).disk_faults (H.shows host.new).disk_faults) }
    ensures ok_faults { OnOk result ((H.shows host.new).disk_faults ≡ (H.shows host.old).disk_faults) }
    ensures never_falls { (H.shows host.old).disk_faults ≤ (H.shows host.new).disk_faults }
    ensures out_faults { (H.shows host.new).out_faults ≡ (H.shows host.old).out_faults }
{
    host.read_at(unit_at(unit) + 8, payload)
}
