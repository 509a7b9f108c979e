//! The gates of new blocks and of those that go.
ghost use Rattle.std.specs.Prelude.{◌≡◌, ◌≤◌, ◌+◌, [], length, map, option_map, OnOk, OnErr};
ghost use Rattle.space_model.specs.Sizes.{segment_units};
ghost use Rattle.host_model.specs.Counts.{Rose};
ghost use Rattle.host_model.specs.Disk.{DiffersIn, WhereTold, Changes};
ghost use Rattle.host_model.specs.Host.{Settled};
ghost use Rattle.host_model.specs.Images.{LeavesImages};
ghost use Rattle.host_model.specs.Writes.{ranges_of, with_writes};
ghost use Rattle.file_model.specs.Layout.{open_byte, closed_byte};
ghost use Rattle.file_model.specs.Flush.{news};
ghost use Rattle.file_model.specs.GateWrites.{gate_writes, AreWhole};
ghost use Rattle.block_disk.specs.Copies.{OnlyDisk};
ghost use Rattle.write_cache.specs.Waiting.{states_of};
ghost use Rattle.book_model.specs.Flushing.{bodies_of, old_units};
ghost use Rattle.flush_steps.specs.Places.{new_gate_place, new_gates_gathered, old_gate_place, old_gates_gathered};

use crate::sparse::{SparseWrites, write_some_and_sync};
use block_disk::{CLOSED, OPEN, gate_at};
use host_model::{DiskFailed, Host};
use write_cache::WriteCache;

/// An open gate for each block that waits.
#[derive(Drop)]
struct NewGates<'a> {
    cache: &'a WriteCache,
}

impl<'a> SparseWrites for NewGates<'a> {
    ghost places = { λ n. map new_gate_place (states_of n.cache.now) };

    ghost list = { λ n. gate_writes segment_units open_byte (news (bodies_of n.cache.now)) };

    ghost gathered = { λ n. new_gates_gathered n.cache.now };

    fn len(&self) -> usize {
        self.cache.len()
    }

    fn at(&self, place: usize) -> Option<(u64, &[u8])> {
        let state = self.cache.at(place)?;
        let _packed = state.block.as_ref()?;
        Some((gate_at(state.unit), &[OPEN]))
    }
}

/// A closed gate for each block that stands in the file for a key that waits.
#[derive(Drop)]
struct OldGates<'a> {
    cache: &'a WriteCache,
}

impl<'a> SparseWrites for OldGates<'a> {
    ghost places = { λ o. map old_gate_place (states_of o.cache.now) };

    ghost list = { λ o. gate_writes segment_units closed_byte (old_units o.cache.now) };

    ghost gathered = { λ o. old_gates_gathered o.cache.now };

    fn len(&self) -> usize {
        self.cache.len()
    }

    fn at(&self, place: usize) -> Option<(u64, &[u8])> {
        let state = self.cache.at(place)?;
        let old = state.old.as_ref()?;
        Some((gate_at(old.unit), &[CLOSED]))
    }
}

/// Opens the gate of each block that waits, in the order of first touch, and makes that lasting with one sync; it makes no call
/// where no block waits. The segments of their units are whole in the file. `DiskFailed` comes only where a call on the disk
/// failed.
pub fn open_gates<H: Host>(host: &mut H, cache: &WriteCache) -> Result<(), DiskFailed>
    requires settled { Settled (H.shows host.old) }
    requires whole { WhereTold (H.shows host.old).file (AreWhole segment_units (news (bodies_of cache.now))) }
    ensures written { OnOk result
        ((H.shows host.new).file ≡ option_map (with_writes (gate_writes segment_units open_byte (news (bodies_of cache.now)))) (H.shows host.old).file) }
    ensures settled { OnOk result (Settled (H.shows host.new)) }

    // Whatever it answers.
    ensures any_moment { WhereTold (H.shows host.old).file (λ f. LeavesImages (H.shows host.old) (H.shows host.new)
        (DiffersIn (ranges_of (gate_writes segment_units open_byte (news (bodies_of cache.now)))) f)) }
    ensures file { Changes (DiffersIn (ranges_of (gate_writes segment_units open_byte (news (bodies_of cache.now)))))
        (H.shows host.old).file (H.shows host.new).file }
    ensures only_disk { OnlyDisk (H.shows host.old) (H.shows host.new) }
    ensures clock { (H.shows host.new).clock ≤ (H.shows host.old).clock + length (news (bodies_of cache.now)) + 1 }
    ensures no_call { news (bodies_of cache.now) ≡ [] → host.new ≡ host.old }

    ensures cause { OnErr result (Rose (H.shows host.old).disk_faults (H.shows host.new).disk_faults) }
    ensures ok_faults { OnOk result ((H.shows host.new).disk_faults ≡ (H.shows host.old).disk_faults) }
{
    write_some_and_sync(host, &NewGates { cache })
}

/// Closes the gate of each block that stands in the file for a key that waits, and makes that lasting with one sync; it makes
/// no call where there is none. The segments of their units are whole in the file. `DiskFailed` comes only where a call on the
/// disk failed.
pub fn close_gates<H: Host>(host: &mut H, cache: &WriteCache) -> Result<(), DiskFailed>
    requires settled { Settled (H.shows host.old) }
    requires whole { WhereTold (H.shows host.old).file (AreWhole segment_units (old_units cache.now)) }
    ensures written { OnOk result
        ((H.shows host.new).file ≡ option_map (with_writes (gate_writes segment_units closed_byte (old_units cache.now))) (H.shows host.old).file) }
    ensures settled { OnOk result (Settled (H.shows host.new)) }

    // Whatever it answers.
    ensures any_moment { WhereTold (H.shows host.old).file (λ f. LeavesImages (H.shows host.old) (H.shows host.new)
        (DiffersIn (ranges_of (gate_writes segment_units closed_byte (old_units cache.now))) f)) }
    ensures file { Changes (DiffersIn (ranges_of (gate_writes segment_units closed_byte (old_units cache.now))))
        (H.shows host.old).file (H.shows host.new).file }
    ensures only_disk { OnlyDisk (H.shows host.old) (H.shows host.new) }
    ensures clock { (H.shows host.new).clock ≤ (H.shows host.old).clock + length (old_units cache.now) + 1 }
    ensures no_call { old_units cache.now ≡ [] → host.new ≡ host.old }

    ensures cause { OnErr result (Rose (H.shows host.old).disk_faults (H.shows host.new).disk_faults) }
    ensures ok_faults { OnOk result ((H.shows host.new).disk_faults ≡ (H.shows host.old).disk_faults) }
{
    write_some_and_sync(host, &OldGates { cache })
}
