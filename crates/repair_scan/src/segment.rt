//! One segment: its gates and units are read and then judged from the lowest one up.
ghost use Rattle.std.specs.Prelude.{◌≡◌, ◌≤◌, ◌<◌, ◌+◌, ◌*◌, ◌^◌, ℕ, Err, length, IsTrue, OnOk, OnErr};
ghost use Rattle.space_model.specs.Sizes.{unit_size, segment_units};
ghost use Rattle.host_model.specs.Counts.{Rose};
ghost use Rattle.host_model.specs.Disk.{WhereTold};
ghost use Rattle.host_model.specs.Host.{Rests};
ghost use Rattle.file_model.specs.declared.head.Head.{Head};
ghost use Rattle.file_model.specs.Layout.{segment_at, unit_at, segment_end};
ghost use Rattle.file_model.specs.View.{Units};
ghost use Rattle.repair_scan.specs.Judgements.{IsWithin};
ghost use Rattle.repair_scan.specs.Progress.{units_with, IsJudgedTo, ShowsUnit, ShowsSegment};
ghost use Rattle.repair_scan.specs.TakenKeys.{AreKept};

use crate::judge::Judge;
use crate::standing::read_standing;
use crate::{Memory, ScanFault};
use block_disk::{Head, OPEN, read_gates, read_units};
use file_model::laws::open_units_follow_one_another;
use host_model::{DiskFailed, Host};
use std::alloc::Global;

const UNITS: u32 = 4096;

const UNIT_SIZE: usize = 64;

/// Judges the next unit, by its gate and the bytes from there to the end of its segment.
fn judge_unit(
    alloc: Global,
    head: &Head,
    judge: &mut Judge,
    unit: u32,
    gate: u8,
    bytes: &[u8],
) -> Result<(), Memory>
    requires inside { unit < 2 ^ 31 }
    requires kept { AreKept judge.old.keys }
    requires size { unit_at segment_units unit + length bytes.now ≡ segment_end segment_units unit }
    ensures kept { OnOk result (AreKept judge.new.keys) }
    ensures within { OnOk result (IsWithin unit judge.old → IsWithin (unit + 1) judge.new) }
    ensures goes_on { OnOk result ((v : Units) → ShowsUnit v head.now unit gate bytes.now
        → IsJudgedTo v unit judge.old → IsJudgedTo v (unit + 1) judge.new) }
{
    open_units_follow_one_another();
    if gate != OPEN {
        return Ok(());
    }
    let found = read_standing(alloc, head.kind, head.keypos, unit, bytes)?;
    judge.add(unit, found)
}

/// Judges the units of the next segment.
fn judge_units(
    alloc: Global,
    head: &Head,
    judge: &mut Judge,
    segment: u32,
    gates: &[u8; 4096],
    units: &[u8],
) -> Result<(), Memory>
    requires inside { segment < 8000 }
    requires kept { AreKept judge.old.keys }
    requires size { length units.now ≡ unit_size * segment_units }
    ensures kept { OnOk result (AreKept judge.new.keys) }
    ensures within { OnOk result (IsWithin (segment_units * segment) judge.old → IsWithin (segment_units * (segment + 1)) judge.new) }
    ensures goes_on { OnOk result ((v : Units) → ShowsSegment v head.now segment gates.now units.now
        → IsJudgedTo v (segment_units * segment) judge.old → IsJudgedTo v (segment_units * (segment + 1)) judge.new) }
{
    for place in 0..UNITS {
        let i = place as usize;
        judge_unit(
            alloc,
            head,
            judge,
            UNITS * segment + place,
            gates[i],
            &units[UNIT_SIZE * i..],
        )?;
    }
    Ok(())
}

/// Reads the gates of a segment that is whole in the file, and its units where one of them is open.
fn read_segment<H: Host>(
    host: &mut H,
    segment: u32,
    gates: &mut [u8; 4096],
    units: &mut [u8],
) -> Result<(), DiskFailed>
    requires size { length units.old ≡ unit_size * segment_units }
    requires whole { WhereTold (H.shows host.old).file (λ f. segment_at segment_units (segment + 1) ≤ length f) }
    ensures given { OnOk result (WhereTold (H.shows host.old).file (λ f. (h : Head) (segments : ℕ) → segment < segments
        → ShowsSegment (units_with h segments f) h segment gates.new units.new)) }
    ensures rests { Rests (H.shows host.old) (H.shows host.new) }
    ensures reads { IsTrue (H.shows host.old).tells_stops → (H.shows host.new).reads ≤ (H.shows host.old).reads + 2 }
    ensures cause { OnErr result (Rose (H.shows host.old).disk_faults (H.shows host.new).disk_faults) }
    ensures ok_faults { OnOk result ((H.shows host.new).disk_faults ≡ (H.shows host.old).disk_faults) }
    ensures never_falls { (H.shows host.old).disk_faults ≤ (H.shows host.new).disk_faults }
    ensures out_faults { (H.shows host.new).out_faults ≡ (H.shows host.old).out_faults }
{
    read_gates(host, segment, gates)?;
    if !gates.contains(&OPEN) {
        return Ok(());
    }
    read_units(host, segment, units)
}

/// Reads the next segment, which is whole in the file, and judges its units.
pub(crate) fn scan_segment<H: Host>(
    alloc: Global,
    host: &mut H,
    head: &Head,
    segment: u32,
    units: &mut [u8],
    judge: &mut Judge,
) -> Result<(), ScanFault>
    requires inside { segment < 8000 }
    requires kept { AreKept judge.old.keys }
    requires size { length units.old ≡ unit_size * segment_units }
    requires whole { WhereTold (H.shows host.old).file (λ f. segment_at segment_units (segment + 1) ≤ length f) }
    ensures kept { OnOk result (AreKept judge.new.keys) }
    ensures within { OnOk result (IsWithin (segment_units * segment) judge.old → IsWithin (segment_units * (segment + 1)) judge.new) }
    ensures goes_on { OnOk result (WhereTold (H.shows host.old).file (λ f. (segments : ℕ) → segment < segments
        → IsJudgedTo (units_with head.now segments f) (segment_units * segment) judge.old
        → IsJudgedTo (units_with head.now segments f) (segment_units * (segment + 1)) judge.new)) }
    ensures rests { Rests (H.shows host.old) (H.shows host.new) }
    ensures reads { IsTrue (H.shows host.old).tells_stops → (H.shows host.new).reads ≤ (H.shows host.old).reads + 2 }
    ensures cause { result ≡ Err ScanFault.Disk → Rose (H.shows host.old).disk_faults (H.shows host.new).disk_faults }
    ensures ok_faults { (result ≡ Err ScanFault.Disk → ⊥) → (H.shows host.new).disk_faults ≡ (H.shows host.old).disk_faults }
    ensures never_falls { (H.shows host.old).disk_faults ≤ (H.shows host.new).disk_faults }
    ensures out_faults { (H.shows host.new).out_faults ≡ (H.shows host.old).out_faults }
{
    let mut gates = [0; 4096];
    read_segment(host, segment, &mut gates, units)?;
    judge_units(alloc, head, judge, segment, &gates, units)?;
    Ok(())
}
