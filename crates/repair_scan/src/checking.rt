//! A check of a file, which only reads it.
ghost use Rattle.std.specs.Prelude.{◌≡◌, ◌↔◌, ◌≤◌, ◌+◌, ◌*◌, Err, IsTrue, IfOk};
ghost use Rattle.space_model.specs.Sizes.{segment_units};
ghost use Rattle.host_model.specs.Counts.{Rose};
ghost use Rattle.host_model.specs.Disk.{WhereTold};
ghost use Rattle.host_model.specs.Host.{Rests};
ghost use Rattle.file_model.specs.Layout.{whole_segments};
ghost use Rattle.file_model.specs.Fit.{IsSound, NeedsRepair};
ghost use Rattle.repair_scan.specs.Reports.{Tells};

use crate::laws::the_segments_that_count_lie_in_the_file;
use crate::report::report_with;
use crate::{CheckFault, Report, scan};
use block_disk::read_header;
use file_model::laws::a_header_is_located_where_it_is_read;
use host_model::Host;
use std::alloc::Global;

/// What the file holds, by its header and its open gates, whether it is sound and whether it needs repair. `NotDets` and
/// `Version` come just where the file has no header that can be read, also where it is empty; `Disk` comes only where a call
/// on the disk failed. It makes at most two reads for the header and two for each segment.
pub fn check<H: Host>(alloc: Global, host: &mut H) -> Result<Report, CheckFault>
    ensures told { WhereTold (H.shows host.old).file (Tells result) }
    ensures sound { IfOk result (λ r. WhereTold (H.shows host.old).file (λ f. IsTrue r.sound ↔ IsSound f)) }
    ensures needs_repair { IfOk result (λ r. WhereTold (H.shows host.old).file (λ f. IsTrue r.needs_repair ↔ NeedsRepair f)) }
    ensures rests { Rests (H.shows host.old) (H.shows host.new) }
    ensures reads { IsTrue (H.shows host.old).tells_stops → WhereTold (H.shows host.old).file
        (λ f. (H.shows host.new).reads ≤ (H.shows host.old).reads + 2 + 2 * whole_segments segment_units f) }
    ensures cause { result ≡ Err CheckFault.Disk → Rose (H.shows host.old).disk_faults (H.shows host.new).disk_faults }
    ensures ok_faults { (result ≡ Err CheckFault.Disk → ⊥) → (H.shows host.new).disk_faults ≡ (H.shows host.old).disk_faults }
    ensures never_falls { (H.shows host.old).disk_faults ≤ (H.shows host.new).disk_faults }
    ensures out_faults { (H.shows host.new).out_faults ≡ (H.shows host.old).out_faults }
{
    the_segments_that_count_lie_in_the_file();
    a_header_is_located_where_it_is_read();
    let place = read_header(host)?;
    let found = scan(alloc, host, &place)?;
    Ok(report_with(place, found))
}
