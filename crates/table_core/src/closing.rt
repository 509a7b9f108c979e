//! A table is closed: what waits goes into its file, and the header says that the file is closed.
ghost use Rattle.std.specs.Prelude.{◌≡◌, ◌≤◌, ◌+◌, ◌-◌, ◌*◌, true, length, None, Ok, IsTrue, OnOk, OnErr};
ghost use Rattle.host_model.specs.Counts.{Rose};
ghost use Rattle.host_model.specs.Disk.{WhereTold, Changes};
ghost use Rattle.host_model.specs.Host.{Settled};
ghost use Rattle.host_model.specs.Images.{LeavesImages};
ghost use Rattle.file_model.specs.declared.head.FileState.TheVariants.{Closed};
ghost use Rattle.file_model.specs.Header.{is_allowed, located};
ghost use Rattle.file_model.specs.View.{view_of};
ghost use Rattle.file_model.specs.Fit.{has_segments, has_no_rejects};
ghost use Rattle.block_disk.specs.Copies.{OnlyDisk};
ghost use Rattle.book_model.specs.Book.{IsInOrder};
ghost use Rattle.book_model.specs.OfFile.{IsOf};
ghost use Rattle.flush_engine.specs.Meaning.{book_of};
ghost use Rattle.store_model.specs.Keeping.{Keeps};
ghost use Rattle.table_core.specs.Flushing.{LeavesBetween};
ghost use Rattle.table_core.specs.Closing.{IsClosed, ClosesWith, KeepsLedger};

use crate::below::what_a_repair_leaves;
use crate::flushing::flush;
use crate::{Book, Located};
use block_disk::{FileState, Head, change_header};
use host_model::{DiskFailed, Host};
use store_model::flush_laws::where_nothing_waits_the_table_is_that_of_the_file;

/// Whether a header says that the file is closed and has no index.
fn says_closed(head: &Head) -> bool
    ensures { IsTrue result → (head.now.state ≡ Closed) × (head.now.index ≡ None) }
{
    match (head.state, head.index) {
        (FileState::Closed, None) => true,
        _ => false,
    }
}

/// Has the header say that the file is closed and has no index, unless it says just that.
fn mark_closed<H: Host>(host: &mut H, place: &mut Located) -> Result<(), DiskFailed>
    requires settled { Settled (H.shows host.old) }
    requires allowed { is_allowed place.old.head ≡ true }
    requires place { WhereTold (H.shows host.old).file (λ f. located f ≡ Ok place.old) }
    requires whole { WhereTold (H.shows host.old).file (λ f. has_segments place.old.head f ≡ true) }
    requires none { WhereTold (H.shows host.old).file (λ f. has_no_rejects (view_of place.old.head f) ≡ true) }
    ensures closed { OnOk result (Changes (IsClosed place.old.head) (H.shows host.old).file (H.shows host.new).file) }
    ensures settled { OnOk result (Settled (H.shows host.new)) }

    // Whatever it answers.
    ensures any_moment { WhereTold (H.shows host.old).file
        (λ f. LeavesImages (H.shows host.old) (H.shows host.new) (Keeps place.old.head f)) }
    ensures only_disk { OnlyDisk (H.shows host.old) (H.shows host.new) }
    ensures clock { (H.shows host.new).clock ≤ (H.shows host.old).clock + 8 }

    ensures cause { OnErr result (Rose (H.shows host.old).disk_faults (H.shows host.new).disk_faults) }
    ensures ok_faults { OnOk result ((H.shows host.new).disk_faults ≡ (H.shows host.old).disk_faults) }
{
    what_a_repair_leaves();
    if !says_closed(&place.head) {
        let next = Head {
            state: FileState::Closed,
            index: None,
            ..place.head
        };
        change_header(host, place, next)?;
    }
    Ok(())
}

/// Flushes what waits, and has the header say that the file is closed. With Ok the file is closed and sound, and its table is the
/// one that it and its book held. `DiskFailed` comes only where a call on the disk failed.
pub(crate) fn close_book<H: Host>(host: &mut H, book: Book) -> Result<(), DiskFailed>
    requires settled { Settled (H.shows host.old) }
    requires order { IsInOrder (book_of book) }
    requires of_file { WhereTold (H.shows host.old).file (λ f. IsOf f (book_of book)) }
    ensures closed { OnOk result (Changes (ClosesWith (book_of book)) (H.shows host.old).file (H.shows host.new).file) }
    ensures ledger { OnOk result (Changes (KeepsLedger (book_of book)) (H.shows host.old).file (H.shows host.new).file) }
    ensures settled { OnOk result (Settled (H.shows host.new)) }

    // Whatever it answers.
    ensures any_moment { WhereTold (H.shows host.old).file (LeavesBetween (H.shows host.old) (H.shows host.new) (book_of book)) }
    ensures only_disk { OnlyDisk (H.shows host.old) (H.shows host.new) }
    ensures clock { (H.shows host.new).clock ≤ (H.shows host.old).clock
        + 3 * length book.cache + 20 + 65 * (book.space.segments - book.place.head.segments) }

    ensures cause { OnErr result (Rose (H.shows host.old).disk_faults (H.shows host.new).disk_faults) }
    ensures ok_faults { OnOk result ((H.shows host.new).disk_faults ≡ (H.shows host.old).disk_faults) }
{
    where_nothing_waits_the_table_is_that_of_the_file();
    let mut book = book;
    flush(host, &mut book)?;
    mark_closed(host, &mut book.place)
}
