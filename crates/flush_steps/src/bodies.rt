//! The bodies of the blocks that wait.
ghost use Rattle.std.specs.Prelude.{◌≡◌, ◌≤◌, ◌+◌, [], length, map, option_map, OnOk, OnErr};
ghost use Rattle.space_model.specs.Sizes.{segment_units};
ghost use Rattle.host_model.specs.Counts.{Rose};
ghost use Rattle.host_model.specs.Disk.{DiffersIn, WhereTold, Changes};
ghost use Rattle.host_model.specs.Host.{Settled};
ghost use Rattle.host_model.specs.Images.{LeavesImages};
ghost use Rattle.host_model.specs.Writes.{ranges_of};
ghost use Rattle.file_model.specs.BodyWrites.{body_writes};
ghost use Rattle.file_model.specs.Flush.{news, with_bodies};
ghost use Rattle.file_model.specs.GateWrites.{AreWhole};
ghost use Rattle.block_disk.specs.Copies.{OnlyDisk};
ghost use Rattle.write_cache.specs.Waiting.{states_of};
ghost use Rattle.book_model.specs.Flushing.{bodies_of};
ghost use Rattle.flush_steps.specs.Places.{body_place, bodies_gathered};

use crate::sparse::{SparseWrites, write_some_and_sync};
use block_disk::unit_at;
use host_model::{DiskFailed, Host};
use write_cache::WriteCache;

/// The body of each block that waits, at its unit.
#[derive(Drop)]
struct Bodies<'a> {
    cache: &'a WriteCache,
}

impl<'a> SparseWrites for Bodies<'a> {
    ghost places = { λ b. map body_place (states_of b.cache.now) };

    ghost list = { λ b. body_writes segment_units (bodies_of b.cache.now) };

    ghost gathered = { λ b. bodies_gathered b.cache.now };

    fn len(&self) -> usize {
        self.cache.len()
    }

    fn at(&self, place: usize) -> Option<(u64, &[u8])> {
        let state = self.cache.at(place)?;
        let packed = state.block.as_ref()?;
        Some((unit_at(state.unit), packed.block.as_slice()))
    }
}

/// Writes the body of each block that waits, in the order of first touch, and makes that lasting with one sync; it makes no
/// call where no block waits. The segments of their units are whole in the file. `DiskFailed` comes only where a call on the
/// disk failed.
pub fn write_bodies<H: Host>(host: &mut H, cache: &WriteCache) -> Result<(), DiskFailed>
    requires settled { Settled (H.shows host.old) }
    requires whole { WhereTold (H.shows host.old).file (AreWhole segment_units (news (bodies_of cache.now))) }
    ensures written { OnOk result
        ((H.shows host.new).file ≡ option_map (with_bodies segment_units (bodies_of cache.now)) (H.shows host.old).file) }
    ensures settled { OnOk result (Settled (H.shows host.new)) }

    // Whatever it answers.
    ensures any_moment { WhereTold (H.shows host.old).file (λ f. LeavesImages (H.shows host.old) (H.shows host.new)
        (DiffersIn (ranges_of (body_writes segment_units (bodies_of cache.now))) f)) }
    ensures file { Changes (DiffersIn (ranges_of (body_writes segment_units (bodies_of cache.now))))
        (H.shows host.old).file (H.shows host.new).file }
    ensures only_disk { OnlyDisk (H.shows host.old) (H.shows host.new) }
    ensures clock { (H.shows host.new).clock ≤ (H.shows host.old).clock + length (bodies_of cache.now) + 1 }
    ensures no_call { bodies_of cache.now ≡ [] → host.new ≡ host.old }

    ensures cause { OnErr result (Rose (H.shows host.old).disk_faults (H.shows host.new).disk_faults) }
    ensures ok_faults { OnOk result ((H.shows host.new).disk_faults ≡ (H.shows host.old).disk_faults) }
{
    write_some_and_sync(host, &Bodies { cache })
}
