//! What an opening reads of a file, and whether it refuses it.
ghost use Rattle.std.specs.Prelude.{◌≡◌, ◌≤◌, ◌<◌, ◌^◌, true, length, Err, OnErr, IfOk};
ghost use Rattle.space_model.specs.Sizes.{segment_units};
ghost use Rattle.host_model.specs.Counts.{Rose};
ghost use Rattle.host_model.specs.Disk.{WhereTold};
ghost use Rattle.host_model.specs.Host.{Rests};
ghost use Rattle.file_model.specs.Header.{is_allowed, head_of};
ghost use Rattle.file_model.specs.GateWrites.{AreWhole};
ghost use Rattle.repair_scan.specs.Found.{units_of_rejects};
ghost use Rattle.run_model.specs.Opening.{can_write, may_repair, is_same_kind};
ghost use Rattle.table_core.specs.Answering.{shape_fault, repair_fault, fault_with, IsAnsweredBy, IsRead};

use crate::{Located, OpenFault};
use block_disk::{Head, read_header};
use dets_term::Kind;
use file_model::laws::a_header_is_located_where_it_is_read;
use host_model::Host;
use repair_scan::laws::the_segments_that_count_lie_in_the_file;
use repair_scan::{Found, needs_repair, scan};
use run_model::{Access, OpenOptions, Repair};
use std::alloc::Global;

/// What was read of a file: its header and where it was found, what a scan found, and whether it needs repair.
#[derive(Drop)]
pub(crate) struct Read {
    pub(crate) place: Located,
    pub(crate) found: Found,
    pub(crate) needs_repair: bool,
}

/// Whether a table may be written.
pub(crate) fn can_write(access: Access) -> bool
    ensures { result ≡ can_write access }
{
    match access {
        Access::Read => false,
        Access::ReadWrite => true,
    }
}

/// Whether a file may be repaired at its opening.
fn may_repair(options: &OpenOptions) -> bool
    ensures { result ≡ may_repair options.now }
{
    match options.repair {
        Repair::Yes | Repair::Force => can_write(options.access),
        Repair::No => false,
    }
}

/// Whether two kinds are the same.
fn is_same_kind(one: Kind, other: Kind) -> bool
    ensures { result ≡ is_same_kind one other }
{
    match (one, other) {
        (Kind::Set, Kind::Set)
        | (Kind::Bag, Kind::Bag)
        | (Kind::DuplicateBag, Kind::DuplicateBag) => true,
        _ => false,
    }
}

/// Refuses a header of another kind or keypos than is asked for.
fn judge_shape(options: &OpenOptions, head: &Head) -> Result<(), OpenFault>
    ensures answer { IsAnsweredBy (shape_fault options.now head.now) result }
    ensures no_disk { result ≡ Err OpenFault.Disk → ⊥ }
    ensures no_memory { result ≡ Err OpenFault.Memory → ⊥ }
{
    if !is_same_kind(options.kind, head.kind) {
        return Err(OpenFault::TypeMismatch(head.kind));
    }
    if options.keypos != head.keypos {
        return Err(OpenFault::KeyposMismatch(head.keypos));
    }
    Ok(())
}

/// Refuses a file that needs repair where it may not be repaired.
fn judge_repair(options: &OpenOptions, needs_repair: bool) -> Result<(), OpenFault>
    ensures answer { IsAnsweredBy (repair_fault options.now needs_repair) result }
    ensures only { OnErr result (result ≡ Err OpenFault.NeedsRepair) }
{
    if needs_repair && !may_repair(options) {
        return Err(OpenFault::NeedsRepair);
    }
    Ok(())
}

/// Reads a file, and refuses it by its header and where it needs repair but may not be repaired. `Disk` comes only where a call
/// on the disk failed.
pub(crate) fn read_file<H: Host>(
    alloc: Global,
    host: &mut H,
    options: &OpenOptions,
) -> Result<Read, OpenFault>
    ensures answer { WhereTold (H.shows host.old).file (λ f. IsAnsweredBy (fault_with options.now f (head_of f)) result) }
    ensures found { IfOk result (λ r. WhereTold (H.shows host.old).file (IsRead r.place r.found r.needs_repair)) }
    ensures closable { IfOk result (λ r. WhereTold (H.shows host.old).file (AreWhole segment_units (units_of_rejects r.found.rejects))) }
    ensures allowed { IfOk result (λ r. is_allowed r.place.head ≡ true) }
    ensures counted { IfOk result (λ r. r.place.whole ≤ r.place.head.segments) }
    ensures few { IfOk result (λ r. length r.found.entries < 2 ^ 32) }
    ensures rests { Rests (H.shows host.old) (H.shows host.new) }
    ensures cause { result ≡ Err OpenFault.Disk → Rose (H.shows host.old).disk_faults (H.shows host.new).disk_faults }
    ensures ok_faults { (result ≡ Err OpenFault.Disk → ⊥) → (H.shows host.new).disk_faults ≡ (H.shows host.old).disk_faults }
    ensures never_falls { (H.shows host.old).disk_faults ≤ (H.shows host.new).disk_faults }
    ensures out_faults { (H.shows host.new).out_faults ≡ (H.shows host.old).out_faults }
{
    the_segments_that_count_lie_in_the_file();
    a_header_is_located_where_it_is_read();
    let place = read_header(host)?;
    judge_shape(options, &place.head)?;
    let found = scan(alloc, host, &place)?;
    let needs_repair = needs_repair(&place, &found.rejects);
    judge_repair(options, needs_repair)?;
    Ok(Read {
        place,
        found,
        needs_repair,
    })
}
