//! A file is prepared for the blocks of a flush: it gets the segments that they need, and its header says that it is dirty.
ghost use Rattle.std.specs.Prelude.{◌≡◌, ◌≤◌, ◌+◌, ◌*◌, ◌-◌, true, Ok, OnOk, OnErr};
ghost use Rattle.host_model.specs.Counts.{Rose};
ghost use Rattle.host_model.specs.Disk.{WhereTold, Changes};
ghost use Rattle.host_model.specs.Host.{Settled};
ghost use Rattle.host_model.specs.Images.{LeavesImages};
ghost use Rattle.file_model.specs.Header.{is_allowed, located};
ghost use Rattle.file_model.specs.Fit.{has_segments};
ghost use Rattle.file_model.specs.declared.head.FileState.TheVariants.{Dirty};
ghost use Rattle.block_disk.specs.Copies.{HasEither, OnlyDisk};
ghost use Rattle.book_model.specs.Stopped.{dirtied, IsPreparing, IsPrepared};

use crate::segments::add_segments;
use block_disk::{FileState, Head, Located, change_header};
use file_model::laws::a_header_is_located_where_it_is_read;
use file_model::write_laws::what_lies_outside_the_segments_that_count_is_not_seen;
use host_model::{DiskFailed, Host};

/// Changes the header of a file to one that is dirty, counts so many segments and names no index. `place` is what
/// `read_header` gives for the file, and is what it gives for the new one then; after `DiskFailed` it says no more. At each
/// moment the header is the old one or the new one. `DiskFailed` comes only where a call on the disk failed.
pub fn mark_dirty<H: Host>(
    host: &mut H,
    place: &mut Located,
    segments: u32,
) -> Result<(), DiskFailed>
    requires settled { Settled (H.shows host.old) }
    requires allowed { is_allowed place.old.head ≡ true }
    requires most { segments ≤ place.old.head.max_segments }
    requires place { WhereTold (H.shows host.old).file (λ f. located f ≡ Ok place.old) }
    ensures any_moment { WhereTold (H.shows host.old).file (λ f. LeavesImages (H.shows host.old) (H.shows host.new)
        (HasEither place.old.head (dirtied place.old.head segments) f)) }
    ensures file { Changes (HasEither place.old.head (dirtied place.old.head segments)) (H.shows host.old).file (H.shows host.new).file }
    ensures found { OnOk result (WhereTold (H.shows host.new).file (λ f. located f ≡ Ok place.new)) }
    ensures head { OnOk result (place.new.head ≡ dirtied place.old.head segments) }
    ensures err { OnErr result (place.new ≡ place.old) }
    ensures settled { OnOk result (Settled (H.shows host.new)) }
    ensures only_disk { OnlyDisk (H.shows host.old) (H.shows host.new) }
    ensures clock { (H.shows host.new).clock ≤ (H.shows host.old).clock + 8 }
    ensures cause { OnErr result (Rose (H.shows host.old).disk_faults (H.shows host.new).disk_faults) }
    ensures ok_faults { OnOk result ((H.shows host.new).disk_faults ≡ (H.shows host.old).disk_faults) }
{
    let next = Head {
        state: FileState::Dirty,
        segments,
        index: None,
        ..place.head
    };
    change_header(host, place, next)
}

/// Prepares a file whose blocks change: adds the segments that its header does not count yet, and then has a dirty header
/// count them. `place` is what `read_header` gives for the file, and is what it gives for the new one then; after `DiskFailed`
/// it says no more. It makes no call where the header is dirty and counts these segments. `DiskFailed` comes only where a call
/// on the disk failed.
pub fn prepare<H: Host>(host: &mut H, place: &mut Located, segments: u32) -> Result<(), DiskFailed>
    requires settled { Settled (H.shows host.old) }
    requires allowed { is_allowed place.old.head ≡ true }
    requires least { place.old.head.segments ≤ segments }
    requires most { segments ≤ place.old.head.max_segments }
    requires place { WhereTold (H.shows host.old).file (λ f. located f ≡ Ok place.old) }
    requires whole { WhereTold (H.shows host.old).file (λ f. has_segments place.old.head f ≡ true) }
    ensures prepared { OnOk result
        (Changes (IsPrepared place.old.head segments place.new) (H.shows host.old).file (H.shows host.new).file) }
    ensures head { OnOk result (place.new.head ≡ dirtied place.old.head segments) }
    ensures settled { OnOk result (Settled (H.shows host.new)) }
    ensures err { OnErr result (place.new ≡ place.old) }

    // Whatever it answers.
    ensures any_moment { WhereTold (H.shows host.old).file
        (λ f. LeavesImages (H.shows host.old) (H.shows host.new) (IsPreparing place.old.head segments f)) }
    ensures file { Changes (IsPreparing place.old.head segments) (H.shows host.old).file (H.shows host.new).file }
    ensures only_disk { OnlyDisk (H.shows host.old) (H.shows host.new) }
    ensures clock { (H.shows host.new).clock ≤ (H.shows host.old).clock + 65 * (segments - place.old.head.segments) + 9 }
    ensures no_call { place.old.head.state ≡ Dirty → place.old.head.segments ≡ segments → host.new ≡ host.old }

    ensures cause { OnErr result (Rose (H.shows host.old).disk_faults (H.shows host.new).disk_faults) }
    ensures ok_faults { OnOk result ((H.shows host.new).disk_faults ≡ (H.shows host.old).disk_faults) }
{
    a_header_is_located_where_it_is_read();
    what_lies_outside_the_segments_that_count_is_not_seen();
    let counted = place.head.segments;
    add_segments(host, counted, segments)?;
    if counted < segments || place.head.state != FileState::Dirty {
        mark_dirty(host, place, segments)?;
    }
    Ok(())
}
