//! A file that may be opened is made ready, and its book is made.
ghost use Rattle.std.specs.Prelude.{◌≡◌, ◌≤◌, ◌<◌, ◌+◌, ◌^◌, Bool, true, [], length, Err, IfOk, IfErr, OnOk, OnErr};
ghost use Rattle.space_model.specs.Sizes.{segment_units};
ghost use Rattle.host_model.specs.Counts.{Rose};
ghost use Rattle.host_model.specs.Disk.{WhereTold, Changes};
ghost use Rattle.host_model.specs.Host.{Settled};
ghost use Rattle.host_model.specs.Images.{LeavesImages};
ghost use Rattle.file_model.specs.Header.{is_allowed};
ghost use Rattle.file_model.specs.GateWrites.{AreWhole};
ghost use Rattle.block_disk.specs.Copies.{OnlyDisk};
ghost use Rattle.repair_scan.specs.Found.{units_of_rejects};
ghost use Rattle.book_model.specs.Book.{IsInOrder};
ghost use Rattle.flush_engine.specs.Meaning.{book_of};
ghost use Rattle.store_model.specs.Keeping.{Keeps};
ghost use Rattle.table_core.specs.Answering.{IsRead, IsFree};
ghost use Rattle.table_core.specs.Repairing.{IsReady, IsLoaded};

use crate::below::what_a_repair_leaves;
use crate::reading::Read;
use crate::repairing::repair;
use crate::{Book, OpenFault, opened_book};
use host_model::{DiskFailed, Host};
use std::alloc::Global;

/// Makes what was read lasting, so that nothing is built on bytes that a stop may still take back.
fn settle<H: Host>(host: &mut H) -> Result<(), DiskFailed>
    ensures file { (H.shows host.new).file ≡ (H.shows host.old).file }
    ensures settled { OnOk result (Settled (H.shows host.new)) }
    ensures any_moment { Settled (H.shows host.old) → WhereTold (H.shows host.old).file
        (λ f. LeavesImages (H.shows host.old) (H.shows host.new) (λ image. image ≡ f)) }
    ensures only_disk { OnlyDisk (H.shows host.old) (H.shows host.new) }
    ensures clock { (H.shows host.new).clock ≤ (H.shows host.old).clock + 1 }
    ensures cause { OnErr result (Rose (H.shows host.old).disk_faults (H.shows host.new).disk_faults) }
    ensures ok_faults { OnOk result ((H.shows host.new).disk_faults ≡ (H.shows host.old).disk_faults) }
{
    host.sync()
}

/// Repairs a file that needs it, and any other one by force.
fn repair_where_needed<H: Host>(
    host: &mut H,
    read: &mut Read,
    force: bool,
) -> Result<(), DiskFailed>
    requires settled { Settled (H.shows host.old) }
    requires allowed { is_allowed read.old.place.head ≡ true }
    requires counted { read.old.place.whole ≤ read.old.place.head.segments }
    requires read { WhereTold (H.shows host.old).file (IsRead read.old.place read.old.found read.old.needs_repair) }
    requires closable { WhereTold (H.shows host.old).file (AreWhole segment_units (units_of_rejects read.old.found.rejects)) }
    ensures ready { OnOk result (Changes (IsReady read.old.place.head read.new.place) (H.shows host.old).file (H.shows host.new).file) }
    ensures settled { OnOk result (Settled (H.shows host.new)) }
    ensures allowed { OnOk result (is_allowed read.new.place.head ≡ true) }
    ensures found { read.new.found ≡ read.old.found }

    // Whatever it answers.
    ensures any_moment { WhereTold (H.shows host.old).file
        (λ f. LeavesImages (H.shows host.old) (H.shows host.new) (Keeps read.old.place.head f)) }
    ensures file { Changes (Keeps read.old.place.head) (H.shows host.old).file (H.shows host.new).file }
    ensures only_disk { OnlyDisk (H.shows host.old) (H.shows host.new) }
    ensures clock { (H.shows host.new).clock ≤ (H.shows host.old).clock + length read.old.found.rejects + 9 }

    ensures cause { OnErr result (Rose (H.shows host.old).disk_faults (H.shows host.new).disk_faults) }
    ensures ok_faults { OnOk result ((H.shows host.new).disk_faults ≡ (H.shows host.old).disk_faults) }
{
    what_a_repair_leaves();
    if read.needs_repair || force {
        repair(host, &mut read.place, &read.found)?;
    }
    Ok(())
}

/// Makes a file ready that was read and not refused, and gives its book. What was read is made lasting first. The only faults
/// are `Disk`, which comes only where a call on the disk failed, and `Memory`.
pub(crate) fn load<H: Host>(
    alloc: Global,
    host: &mut H,
    read: Read,
    force: bool,
) -> Result<Book, OpenFault>
    requires allowed { is_allowed read.place.head ≡ true }
    requires counted { read.place.whole ≤ read.place.head.segments }
    requires few { length read.found.entries < 2 ^ 32 }
    requires read { WhereTold (H.shows host.old).file (IsRead read.place read.found read.needs_repair) }
    requires closable { WhereTold (H.shows host.old).file (AreWhole segment_units (units_of_rejects read.found.rejects)) }
    ensures loaded { IfOk result (λ b. Changes (IsLoaded read.place.head (book_of b)) (H.shows host.old).file (H.shows host.new).file) }
    ensures order { IfOk result (λ b. IsInOrder (book_of b)) }
    ensures waits { IfOk result (λ b. b.cache ≡ []) }
    ensures settled { OnOk result (Settled (H.shows host.new)) }

    // Whatever it answers.
    ensures any_moment { Settled (H.shows host.old) → WhereTold (H.shows host.old).file
        (λ f. LeavesImages (H.shows host.old) (H.shows host.new) (Keeps read.place.head f)) }
    ensures only_disk { OnlyDisk (H.shows host.old) (H.shows host.new) }
    ensures clock { (H.shows host.new).clock ≤ (H.shows host.old).clock + length read.found.rejects + 10 }

    ensures free { IfErr result IsFree }
    ensures cause { result ≡ Err OpenFault.Disk → Rose (H.shows host.old).disk_faults (H.shows host.new).disk_faults }
    ensures ok_faults { (result ≡ Err OpenFault.Disk → ⊥) → (H.shows host.new).disk_faults ≡ (H.shows host.old).disk_faults }
{
    what_a_repair_leaves();
    let mut read = read;
    settle(host)?;
    repair_where_needed(host, &mut read, force)?;
    Ok(opened_book(alloc, read.place, &read.found.entries)?)
}
