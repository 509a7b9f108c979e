//! A segment of zeros.
ghost use Rattle.std.specs.Prelude.{◌≡◌, ◌≤◌, ◌+◌, ◌∷◌, [], length, option_map, OnOk, OnErr};
ghost use Rattle.host_model.specs.Counts.{Rose};
ghost use Rattle.host_model.specs.Disk.{written_at, range, WhereTold};
ghost use Rattle.host_model.specs.Tearing.{Tearing};
ghost use Rattle.file_model.specs.Layout.{segment_at, segment_size};
ghost use Rattle.space_model.specs.Sizes.{segment_units};
ghost use Rattle.block_disk.specs.Zeroed.{zeros};

use crate::places::segment_at;
use crate::zero_pages::ZeroPages;
use host_model::{DiskFailed, Host, write_all};

/// Writes a segment of zeros, so with all gates closed. It begins in the file or at its end. `DiskFailed` comes only where
/// a write failed.
pub fn zero_segment<H: Host>(host: &mut H, segment: u32) -> Result<(), DiskFailed>
    requires { WhereTold (H.shows host.old).file (λ f. segment_at segment_units segment ≤ length f) }
    ensures written { OnOk result ((H.shows host.new).file
        ≡ option_map (written_at (segment_at segment_units segment) (zeros (segment_size segment_units))) (H.shows host.old).file) }
    ensures tearing { Tearing (range (segment_at segment_units segment) (segment_size segment_units) ∷ [])
        (H.shows host.old) (H.shows host.new) }
    ensures clock { (H.shows host.new).clock ≤ (H.shows host.old).clock + 65 }
    ensures cause { OnErr result (Rose (H.shows host.old).disk_faults (H.shows host.new).disk_faults) }
    ensures ok_faults { OnOk result ((H.shows host.new).disk_faults ≡ (H.shows host.old).disk_faults) }
{
    write_all(host, &ZeroPages::from_place(segment_at(segment)))
}
