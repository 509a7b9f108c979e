//! The gates of rejects are closed.
ghost use Rattle.std.specs.Prelude.{◌≡◌, ◌≤◌, ◌+◌, [], length, true, option_map, OnOk, OnErr};
ghost use Rattle.space_model.specs.Sizes.{segment_units};
ghost use Rattle.host_model.specs.Counts.{Rose};
ghost use Rattle.host_model.specs.Disk.{WhereTold, Changes};
ghost use Rattle.host_model.specs.Host.{Settled};
ghost use Rattle.host_model.specs.Images.{LeavesImages};
ghost use Rattle.host_model.specs.Writes.{with_writes};
ghost use Rattle.file_model.specs.declared.head.Head.{Head};
ghost use Rattle.file_model.specs.Layout.{closed_byte};
ghost use Rattle.file_model.specs.View.{view_of};
ghost use Rattle.file_model.specs.Taken.{rejects};
ghost use Rattle.file_model.specs.Fit.{has_no_rejects};
ghost use Rattle.file_model.specs.GateWrites.{gate_writes, AreWhole};
ghost use Rattle.repair_scan.specs.Found.{units_of_rejects, KeepsTable};

use crate::Found;
use crate::closing_writes::Closing;
use file_model::repair_laws::a_repair_keeps_the_table_and_ends_without_rejects;
use host_model::{DiskFailed, Host, write_all_and_sync};

/// Closes the gates of the rejects, and makes that lasting with one sync; it makes no call where there are no rejects. The
/// segments of their units are whole in the file. Where `found` is what `scan` gives for the file, the table is the same at
/// each moment, and there are no rejects at the end. `DiskFailed` comes only where a call on the disk failed.
pub fn close_rejects<H: Host>(host: &mut H, found: &Found) -> Result<(), DiskFailed>
    requires whole { WhereTold (H.shows host.old).file (AreWhole segment_units (units_of_rejects found.now.rejects)) }
    ensures written { OnOk result ((H.shows host.new).file
        ≡ option_map (with_writes (gate_writes segment_units closed_byte (units_of_rejects found.now.rejects))) (H.shows host.old).file) }
    ensures none_left { OnOk result (WhereTold (H.shows host.old).file (λ f. (h : Head) → found.now.rejects ≡ rejects (view_of h f)
        → WhereTold (H.shows host.new).file (λ g. has_no_rejects (view_of h g) ≡ true))) }
    ensures lasting { OnOk result (Settled (H.shows host.old) → Settled (H.shows host.new)) }
    ensures synced { OnOk result ((found.now.rejects ≡ [] → ⊥) → Settled (H.shows host.new)) }
    ensures no_call { found.now.rejects ≡ [] → host.new ≡ host.old }

    // Whatever it answers.
    ensures any_moment { Settled (H.shows host.old) → WhereTold (H.shows host.old).file (λ f. (h : Head)
        → found.now.rejects ≡ rejects (view_of h f) → LeavesImages (H.shows host.old) (H.shows host.new) (KeepsTable h f)) }
    ensures table { Changes (λ f g. (h : Head) → found.now.rejects ≡ rejects (view_of h f) → KeepsTable h f g)
        (H.shows host.old).file (H.shows host.new).file }
    ensures clock { (H.shows host.new).clock ≤ (H.shows host.old).clock + length found.now.rejects + 1 }
    ensures said { (H.shows host.new).said ≡ (H.shows host.old).said }
    ensures reads { (H.shows host.new).reads ≡ (H.shows host.old).reads }

    ensures cause { OnErr result (Rose (H.shows host.old).disk_faults (H.shows host.new).disk_faults) }
    ensures ok_faults { OnOk result ((H.shows host.new).disk_faults ≡ (H.shows host.old).disk_faults) }
    ensures never_falls { (H.shows host.old).disk_faults ≤ (H.shows host.new).disk_faults }
    ensures out_faults { (H.shows host.new).out_faults ≡ (H.shows host.old).out_faults }
{
    if found.rejects.len() == 0 {
        return Ok(());
    }
    a_repair_keeps_the_table_and_ends_without_rejects();
    let closing = Closing::from_rejects(&found.rejects);
    write_all_and_sync(host, &closing)
}
