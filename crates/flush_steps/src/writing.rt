//! The blocks that wait, written by three steps.
ghost use Rattle.std.specs.Prelude.{◌≡◌, ◌≤◌, ◌+◌, ◌*◌, [], length, option_map, OnOk, OnErr};
ghost use Rattle.space_model.specs.Sizes.{segment_units};
ghost use Rattle.host_model.specs.Counts.{Rose};
ghost use Rattle.host_model.specs.Disk.{WhereTold, Changes};
ghost use Rattle.host_model.specs.Host.{Settled};
ghost use Rattle.host_model.specs.Images.{LeavesImages};
ghost use Rattle.file_model.specs.Flush.{news, without_olds};
ghost use Rattle.file_model.specs.GateWrites.{AreWhole};
ghost use Rattle.block_disk.specs.Copies.{OnlyDisk};
ghost use Rattle.book_model.specs.Flushing.{bodies_of, old_units};
ghost use Rattle.book_model.specs.Stopped.{IsWriting};
ghost use Rattle.flush_steps.specs.Switching.{switched, IsSwitching};

use crate::bodies::write_bodies;
use crate::gates::{close_gates, open_gates};
use host_model::{DiskFailed, Host};
use write_cache::WriteCache;

/// Opens the gates of new blocks, and then closes those of the blocks that go.
fn switch_gates<H: Host>(host: &mut H, cache: &WriteCache) -> Result<(), DiskFailed>
    requires settled { Settled (H.shows host.old) }
    requires new_whole { WhereTold (H.shows host.old).file (AreWhole segment_units (news (bodies_of cache.now))) }
    requires old_whole { WhereTold (H.shows host.old).file (AreWhole segment_units (old_units cache.now)) }
    ensures written { OnOk result ((H.shows host.new).file
        ≡ option_map (switched segment_units (news (bodies_of cache.now)) (old_units cache.now)) (H.shows host.old).file) }
    ensures settled { OnOk result (Settled (H.shows host.new)) }
    ensures any_moment { WhereTold (H.shows host.old).file (λ f. LeavesImages (H.shows host.old) (H.shows host.new)
        (IsSwitching segment_units (news (bodies_of cache.now)) (old_units cache.now) f)) }
    ensures file { Changes (IsSwitching segment_units (news (bodies_of cache.now)) (old_units cache.now))
        (H.shows host.old).file (H.shows host.new).file }
    ensures only_disk { OnlyDisk (H.shows host.old) (H.shows host.new) }
    ensures clock { (H.shows host.new).clock
        ≤ (H.shows host.old).clock + length (bodies_of cache.now) + length (old_units cache.now) + 2 }
    ensures no_call { cache.now ≡ [] → host.new ≡ host.old }
    ensures cause { OnErr result (Rose (H.shows host.old).disk_faults (H.shows host.new).disk_faults) }
    ensures ok_faults { OnOk result ((H.shows host.new).disk_faults ≡ (H.shows host.old).disk_faults) }
{
    open_gates(host, cache)?;
    close_gates(host, cache)
}

/// Writes the blocks that wait, opens their gates, and closes those of the blocks that go: three steps, of which each is
/// lasting before the next one begins. It makes no call where nothing waits. The segments of all these units are whole in the
/// file. `DiskFailed` comes only where a call on the disk failed.
#[tactic(auto, using(crate::proofs::Counted::bodies_at_most))]
pub fn write_blocks<H: Host>(host: &mut H, cache: &WriteCache) -> Result<(), DiskFailed>
    requires settled { Settled (H.shows host.old) }
    requires new_whole { WhereTold (H.shows host.old).file (AreWhole segment_units (news (bodies_of cache.now))) }
    requires old_whole { WhereTold (H.shows host.old).file (AreWhole segment_units (old_units cache.now)) }
    ensures written { OnOk result ((H.shows host.new).file
        ≡ option_map (without_olds segment_units (bodies_of cache.now) (old_units cache.now)) (H.shows host.old).file) }
    ensures settled { OnOk result (Settled (H.shows host.new)) }

    // Whatever it answers.
    ensures any_moment { WhereTold (H.shows host.old).file (λ f. LeavesImages (H.shows host.old) (H.shows host.new)
        (IsWriting segment_units (bodies_of cache.now) (old_units cache.now) f)) }
    ensures file { Changes (IsWriting segment_units (bodies_of cache.now) (old_units cache.now))
        (H.shows host.old).file (H.shows host.new).file }
    ensures only_disk { OnlyDisk (H.shows host.old) (H.shows host.new) }
    ensures clock { (H.shows host.new).clock ≤ (H.shows host.old).clock + 3 * length cache.now + 3 }
    ensures no_call { cache.now ≡ [] → host.new ≡ host.old }

    ensures cause { OnErr result (Rose (H.shows host.old).disk_faults (H.shows host.new).disk_faults) }
    ensures ok_faults { OnOk result ((H.shows host.new).disk_faults ≡ (H.shows host.old).disk_faults) }
{
    write_bodies(host, cache)?;
    switch_gates(host, cache)
}
