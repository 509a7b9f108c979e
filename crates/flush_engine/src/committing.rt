//! The flush: all that waits in a book goes to its file.
ghost use Rattle.std.specs.Prelude.{◌≡◌, ◌≤◌, ◌⊎◌, ℕ, ◌+◌, ◌-◌, ◌*◌, true, List, [], length, OnOk, OnErr};
ghost use Rattle.host_model.specs.Counts.{Rose};
ghost use Rattle.host_model.specs.Disk.{WhereTold, Changes};
ghost use Rattle.host_model.specs.Host.{Settled};
ghost use Rattle.host_model.specs.Images.{LeavesImages};
ghost use Rattle.space_model.specs.Runs.{Run};
ghost use Rattle.space_model.specs.Apart.{In};
ghost use Rattle.block_disk.specs.Copies.{OnlyDisk};
ghost use Rattle.buddy_space.specs.SpaceState.{is_free_run, settling};
ghost use Rattle.book_model.specs.Book.{IsInOrder};
ghost use Rattle.book_model.specs.OfFile.{IsOf};
ghost use Rattle.book_model.specs.Stopped.{dirtied, IsStopped};
ghost use Rattle.flush_engine.specs.Meaning.{book_of};
ghost use Rattle.flush_engine.specs.Flushed.{HasNewObjects, FlushesLedger, IsWritten, HasFreed};

use crate::Book;
use crate::below::what_a_flush_leaves;
use flush_steps::{prepare, write_blocks};
use host_model::{DiskFailed, Host};

/// Prepares the file, and writes what waits. Of the book the header alone changes.
fn flush<H: Host>(host: &mut H, book: &mut Book) -> Result<(), DiskFailed>
    requires settled { Settled (H.shows host.old) }
    requires order { IsInOrder (book_of book.old) }
    requires of_file { WhereTold (H.shows host.old).file (λ f. IsOf f (book_of book.old)) }
    ensures written { OnOk result (Changes (IsWritten (book_of book.old) book.new.place) (H.shows host.old).file (H.shows host.new).file) }
    ensures settled { OnOk result (Settled (H.shows host.new)) }
    ensures head { OnOk result (book.new.place.head ≡ dirtied book.old.place.head book.old.space.segments) }
    ensures space { book.new.space ≡ book.old.space }
    ensures directory { book.new.directory ≡ book.old.directory }
    ensures cache { book.new.cache ≡ book.old.cache }

    // Whatever it answers.
    ensures any_moment { WhereTold (H.shows host.old).file
        (λ f. LeavesImages (H.shows host.old) (H.shows host.new) (IsStopped (book_of book.old) f)) }
    ensures file { Changes (IsStopped (book_of book.old)) (H.shows host.old).file (H.shows host.new).file }
    ensures only_disk { OnlyDisk (H.shows host.old) (H.shows host.new) }
    ensures clock { (H.shows host.new).clock ≤ (H.shows host.old).clock
        + 3 * length book.old.cache + 12 + 65 * (book.old.space.segments - book.old.place.head.segments) }

    ensures cause { OnErr result (Rose (H.shows host.old).disk_faults (H.shows host.new).disk_faults) }
    ensures ok_faults { OnOk result ((H.shows host.new).disk_faults ≡ (H.shows host.old).disk_faults) }
{
    what_a_flush_leaves();
    let segments = book.space.segments();
    prepare(host, &mut book.place, segments)?;
    write_blocks(host, &book.cache)
}

/// The flush: added segments are written and the header counts them, the bodies of new blocks are written, their gates are
/// opened, those of the blocks that go are closed, and then deferred runs are free. Each step is lasting before the next one
/// begins. The book is that of the file, and the host is settled. Where nothing waits and no segment was added no call is
/// made. `DiskFailed` comes only where a call on the disk failed; the book is given up then.
pub fn commit<H: Host>(host: &mut H, book: &mut Book) -> Result<(), DiskFailed>
    requires settled { Settled (H.shows host.old) }
    requires order { IsInOrder (book_of book.old) }
    requires of_file { WhereTold (H.shows host.old).file (λ f. IsOf f (book_of book.old)) }
    ensures of_file { OnOk result (WhereTold (H.shows host.new).file (λ f. IsOf f (book_of book.new))) }
    ensures objects { OnOk result (Changes (HasNewObjects (book_of book.old) book.new.place) (H.shows host.old).file (H.shows host.new).file) }
    ensures ledger { OnOk result (Changes (FlushesLedger (book_of book.old) (book_of book.new)) (H.shows host.old).file (H.shows host.new).file) }
    ensures settled { OnOk result (Settled (H.shows host.new)) }
    ensures free { OnOk result ((r : Run) → In r book.old.space.deferred → is_free_run book.new.space r ≡ true) }
    ensures shut { OnOk result (WhereTold (H.shows host.new).file (HasFreed book.old.space book.new.place)) }

    // The book then.
    ensures order { OnOk result (IsInOrder (book_of book.new)) }
    ensures waits { OnOk result (book.new.cache ≡ []) }
    ensures space { OnOk result (book.new.space ≡ settling book.old.space) }
    ensures directory { book.new.directory ≡ book.old.directory }
    ensures counted { OnOk result (book.new.place.head.segments ≡ book.new.space.segments) }
    ensures head { OnOk result ((book.new.place.head ≡ dirtied book.old.place.head book.old.space.segments)
        ⊎ (book.new.place ≡ book.old.place)) }

    // Whatever it answers.
    ensures any_moment { WhereTold (H.shows host.old).file
        (λ f. LeavesImages (H.shows host.old) (H.shows host.new) (IsStopped (book_of book.old) f)) }
    ensures file { Changes (IsStopped (book_of book.old)) (H.shows host.old).file (H.shows host.new).file }
    ensures only_disk { OnlyDisk (H.shows host.old) (H.shows host.new) }
    ensures clock { (H.shows host.new).clock ≤ (H.shows host.old).clock
        + 3 * length book.old.cache + 12 + 65 * (book.old.space.segments - book.old.place.head.segments) }
    ensures no_call { book.old.cache ≡ [] → book.old.space.segments ≡ book.old.place.head.segments → host.new ≡ host.old }

    ensures cause { OnErr result (Rose (H.shows host.old).disk_faults (H.shows host.new).disk_faults) }
    ensures ok_faults { OnOk result ((H.shows host.new).disk_faults ≡ (H.shows host.old).disk_faults) }
{
    what_a_flush_leaves();
    let segments = book.space.segments();
    if book.cache.len() == 0 && segments == book.place.head.segments {
        return Ok(());
    }
    flush(host, book)?;
    book.space.settle();
    book.cache.clear();
    Ok(())
}
