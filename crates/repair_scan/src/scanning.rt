//! The scan of a file: its gates and blocks, a segment at a time.
ghost use Rattle.std.specs.Prelude.{◌≡◌, ◌≤◌, ◌<◌, ◌+◌, ◌*◌, min, Ok, Err, length, IsTrue, IfOk};
ghost use Rattle.std.specs.List.{AllByRecursion};
ghost use Rattle.space_model.specs.Sizes.{unit_size, segment_units};
ghost use Rattle.host_model.specs.Counts.{Rose};
ghost use Rattle.host_model.specs.Disk.{WhereTold};
ghost use Rattle.host_model.specs.Host.{Rests};
ghost use Rattle.file_model.specs.Layout.{segment_at};
ghost use Rattle.file_model.specs.Header.{most_segments, located};
ghost use Rattle.file_model.specs.View.{view, view_of};
ghost use Rattle.file_model.specs.Taken.{entries, rejects};
ghost use Rattle.file_model.specs.GateWrites.{AreWhole};
ghost use Rattle.repair_scan.specs.Found.{units_of_rejects};
ghost use Rattle.repair_scan.specs.Progress.{units_with};

use crate::judge::Judge;
use crate::segment::scan_segment;
use crate::{Found, Located, ScanFault};
use block_disk::Head;
use file_model::laws::a_header_is_located_where_it_is_read;
use host_model::Host;
use std::alloc::Global;

/// No file has more segments.
const MOST_SEGMENTS: u32 = 8000;

/// The bytes of all units of a segment.
const UNITS_SIZE: usize = 262_144;

/// The taken blocks of the file by ascending unit, and each other open gate with the first of its reasons. `place` is what
/// `read_header` gives for the file. It makes at most two reads for each segment that counts, and takes memory for a segment
/// and for the keys. `Disk` comes only where a call on the disk failed.
pub fn scan<H: Host>(alloc: Global, host: &mut H, place: &Located) -> Result<Found, ScanFault>
    requires whole { WhereTold (H.shows host.old).file (λ f. segment_at segment_units place.now.whole ≤ length f) }
    ensures entries { IfOk result (λ found. WhereTold (H.shows host.old).file
        (λ f. located f ≡ Ok place.now → found.entries ≡ entries (view_of place.now.head f))) }
    ensures rejects { IfOk result (λ found. WhereTold (H.shows host.old).file
        (λ f. located f ≡ Ok place.now → found.rejects ≡ rejects (view_of place.now.head f))) }
    ensures few { IfOk result (λ found. length found.entries ≤ segment_units * min place.now.whole most_segments) }
    ensures closable { IfOk result (λ found. WhereTold (H.shows host.old).file
        (AreWhole segment_units (units_of_rejects found.rejects))) }
    ensures rests { Rests (H.shows host.old) (H.shows host.new) }
    ensures reads { IsTrue (H.shows host.old).tells_stops
        → (H.shows host.new).reads ≤ (H.shows host.old).reads + 2 * place.now.whole }
    ensures cause { result ≡ Err ScanFault.Disk → Rose (H.shows host.old).disk_faults (H.shows host.new).disk_faults }
    ensures ok_faults { (result ≡ Err ScanFault.Disk → ⊥) → (H.shows host.new).disk_faults ≡ (H.shows host.old).disk_faults }
    ensures never_falls { (H.shows host.old).disk_faults ≤ (H.shows host.new).disk_faults }
    ensures out_faults { (H.shows host.new).out_faults ≡ (H.shows host.old).out_faults }
{
    a_header_is_located_where_it_is_read();
    let mut units = vec![in alloc; 0; UNITS_SIZE]?;
    let segments = place.whole.min(MOST_SEGMENTS);
    scan_segments(alloc, host, &place.head, segments, units.as_mut_slice())
}

/// Reads so many segments, which are whole in the file, and judges their units from the lowest one up.
fn scan_segments<H: Host>(
    alloc: Global,
    host: &mut H,
    head: &Head,
    segments: u32,
    units: &mut [u8],
) -> Result<Found, ScanFault>
    requires inside { segments ≤ 8000 }
    requires size { length units.old ≡ unit_size * segment_units }
    requires whole { WhereTold (H.shows host.old).file (λ f. segment_at segment_units segments ≤ length f) }
    ensures few { IfOk result (λ found. length found.entries ≤ segment_units * segments) }
    ensures below { IfOk result (λ found. AllByRecursion (λ r. r.unit < segment_units * segments) found.rejects) }
    ensures entries { IfOk result (λ found. WhereTold (H.shows host.old).file (λ f.
        found.entries ≡ entries (view head.now (units_with head.now segments f)))) }
    ensures rejects { IfOk result (λ found. WhereTold (H.shows host.old).file (λ f.
        found.rejects ≡ rejects (view head.now (units_with head.now segments f)))) }
    ensures rests { Rests (H.shows host.old) (H.shows host.new) }
    ensures reads { IsTrue (H.shows host.old).tells_stops → (H.shows host.new).reads ≤ (H.shows host.old).reads + 2 * segments }
    ensures cause { result ≡ Err ScanFault.Disk → Rose (H.shows host.old).disk_faults (H.shows host.new).disk_faults }
    ensures ok_faults { (result ≡ Err ScanFault.Disk → ⊥) → (H.shows host.new).disk_faults ≡ (H.shows host.old).disk_faults }
    ensures never_falls { (H.shows host.old).disk_faults ≤ (H.shows host.new).disk_faults }
    ensures out_faults { (H.shows host.new).out_faults ≡ (H.shows host.old).out_faults }
{
    let mut judge = Judge::new(alloc);
    for segment in 0..segments {
        scan_segment(alloc, host, head, segment, units, &mut judge)?;
    }
    Ok(judge.into_found())
}
