//! What waits goes into the file.
ghost use Rattle.std.specs.Prelude.{◌≡◌, ◌≤◌, ◌+◌, ◌-◌, ◌*◌, [], length, OnOk, OnErr};
ghost use Rattle.host_model.specs.Counts.{Rose};
ghost use Rattle.host_model.specs.Disk.{WhereTold, Changes};
ghost use Rattle.host_model.specs.Host.{Settled};
ghost use Rattle.block_disk.specs.Copies.{OnlyDisk};
ghost use Rattle.book_model.specs.Book.{IsInOrder};
ghost use Rattle.book_model.specs.OfFile.{IsOf};
ghost use Rattle.flush_engine.specs.Meaning.{book_of};
ghost use Rattle.flush_engine.specs.Flushed.{FlushesLedger};
ghost use Rattle.table_core.specs.Flushing.{HoldsStill, LeavesBetween, IsBetweenFor};

use crate::Book;
use flush_engine::commit;
use host_model::{DiskFailed, Host};
use store_model::flush_laws::{
    a_flush_leaves_the_table_of_a_book, a_stop_leaves_the_file_or_the_table,
};

/// Flushes what waits in a book. The file and the book then hold the table that they held before, and each image since the start
/// is between the file and that table. `DiskFailed` comes only where a call on the disk failed; the book is given up then.
pub(crate) fn flush<H: Host>(host: &mut H, book: &mut Book) -> Result<(), DiskFailed>
    requires settled { Settled (H.shows host.old) }
    requires order { IsInOrder (book_of book.old) }
    requires of_file { WhereTold (H.shows host.old).file (λ f. IsOf f (book_of book.old)) }
    ensures of_file { OnOk result (WhereTold (H.shows host.new).file (λ f. IsOf f (book_of book.new))) }
    ensures holds { OnOk result (Changes (HoldsStill (book_of book.old) (book_of book.new)) (H.shows host.old).file (H.shows host.new).file) }
    ensures ledger { OnOk result (Changes (FlushesLedger (book_of book.old) (book_of book.new)) (H.shows host.old).file (H.shows host.new).file) }
    ensures settled { OnOk result (Settled (H.shows host.new)) }
    ensures order { OnOk result (IsInOrder (book_of book.new)) }
    ensures waits { OnOk result (book.new.cache ≡ []) }
    ensures kind { OnOk result (book.new.place.head.kind ≡ book.old.place.head.kind) }
    ensures keypos { OnOk result (book.new.place.head.keypos ≡ book.old.place.head.keypos) }
    ensures directory { book.new.directory ≡ book.old.directory }

    // Whatever it answers.
    ensures any_moment { WhereTold (H.shows host.old).file (LeavesBetween (H.shows host.old) (H.shows host.new) (book_of book.old)) }
    ensures file { Changes (IsBetweenFor (book_of book.old)) (H.shows host.old).file (H.shows host.new).file }
    ensures only_disk { OnlyDisk (H.shows host.old) (H.shows host.new) }
    ensures clock { (H.shows host.new).clock ≤ (H.shows host.old).clock
        + 3 * length book.old.cache + 12 + 65 * (book.old.space.segments - book.old.place.head.segments) }
    ensures no_call { book.old.cache ≡ [] → book.old.space.segments ≡ book.old.place.head.segments → host.new ≡ host.old }

    ensures cause { OnErr result (Rose (H.shows host.old).disk_faults (H.shows host.new).disk_faults) }
    ensures ok_faults { OnOk result ((H.shows host.new).disk_faults ≡ (H.shows host.old).disk_faults) }
{
    a_flush_leaves_the_table_of_a_book();
    a_stop_leaves_the_file_or_the_table();
    commit(host, book)
}
