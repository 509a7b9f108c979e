//! A table over its file.
ghost use Rattle.std.specs.Prelude.{◌≡◌, ◌≤◌, ◌+◌, ◌-◌, ◌*◌, true, false, [], Err, IfOk, IfErr, OnOk, OnErr, length, sum_by};
ghost use Rattle.host_model.specs.Counts.{Rose};
ghost use Rattle.host_model.specs.Disk.{WhereTold, Changes};
ghost use Rattle.host_model.specs.Host.{Settled, Rests};
ghost use Rattle.host_model.specs.Images.{LeavesImages};
ghost use Rattle.block_disk.specs.Copies.{OnlyDisk};
ghost use Rattle.book_model.specs.OfFile.{IsOf};
ghost use Rattle.flush_engine.specs.Flushed.{FlushesLedger};
ghost use Rattle.table_core.specs.Flushing.{HoldsStill, LeavesBetween};
ghost use Rattle.table_core.specs.Closing.{ClosesWith, KeepsLedger};
ghost use Rattle.table_core.specs.Answering.{fault_of_opening, IsAnsweredBy, IsOpenedTo, IsOpening, IsRefusal};

use crate::closing::close_book;
use crate::flushing::flush;
use crate::open_book::open_book;
use crate::{Access, Book, OpenFault, OpenOptions, TableFault};
use dets_term::Kind;
use host_model::{DiskFailed, Host};
use std::alloc::Global;
use std::marker::Model;

/// A table that is open over its file: the book of the file, and what it was opened for. After a call answered `Disk` or
/// `Memory` it has failed, and is given up.
#[derive(Drop)]
pub struct Table {
    book: Book,
    access: Access,
    failed: bool,
}

impl Model for Table {
    ghost use Rattle.std.specs.Prelude.{◌≡◌, false, length};
    ghost use Rattle.book_model.specs.Book.{IsInOrder};
    ghost use Rattle.flush_engine.specs.Meaning.{book_of};
    ghost use Rattle.table_core.specs.TableState.{TableState};

    ghost Value = { TableState };

    ghost view = { λ a. record { book = book_of a.book; slots = length a.book.directory; access = a.access; failed = a.failed } };

    ghost invariant = { λ a. a.failed ≡ false → IsInOrder (book_of a.book) };
}

impl Table {
    /// Opens the table of a file. A file without bytes is made, with the kind, the keypos and the most segments of the options;
    /// one that needs repair is repaired, and any other one by force. The refusals are `NoFile`, `NotDets`, `Version`,
    /// `TypeMismatch`, `KeyposMismatch` and `NeedsRepair`, the first that holds, each exactly where it holds; they leave the file
    /// and the clock. `Disk` comes only where a call on the disk failed. What was read is made lasting, so the host is settled
    /// then. From a settled host the table of the file is the same at each moment, but for a file in the making.
    pub fn open_table<H: Host>(
        alloc: Global,
        host: &mut H,
        options: OpenOptions,
    ) -> Result<Table, OpenFault>
        requires keypos { 1 ≤ options.keypos }
        requires most_keypos { options.keypos ≤ 65535 }
        requires segments { 1 ≤ options.max_segments }
        requires most_segments { options.max_segments ≤ 8000 }
        ensures answer { WhereTold (H.shows host.old).file (λ f. IsAnsweredBy (fault_of_opening options f) result) }
        ensures opened { IfOk result (λ t. Changes (IsOpenedTo options t.book) (H.shows host.old).file (H.shows host.new).file) }
        ensures access { IfOk result (λ t. t.access ≡ options.access) }
        ensures failed { IfOk result (λ t. t.failed ≡ false) }
        ensures waits { IfOk result (λ t. t.book.cache ≡ []) }
        ensures settled { OnOk result (Settled (H.shows host.new)) }

        // Whatever it answers.
        ensures any_moment { Settled (H.shows host.old) → WhereTold (H.shows host.old).file
            (λ f. LeavesImages (H.shows host.old) (H.shows host.new) (IsOpening f)) }
        ensures refused { IfErr result (λ fault. IsRefusal fault → Rests (H.shows host.old) (H.shows host.new)) }
        ensures said { (H.shows host.new).said ≡ (H.shows host.old).said }
        ensures cause { result ≡ Err OpenFault.Disk → Rose (H.shows host.old).disk_faults (H.shows host.new).disk_faults }
        ensures ok_faults { (result ≡ Err OpenFault.Disk → ⊥) → (H.shows host.new).disk_faults ≡ (H.shows host.old).disk_faults }
        ensures never_falls { (H.shows host.old).disk_faults ≤ (H.shows host.new).disk_faults }
        ensures out_faults { (H.shows host.new).out_faults ≡ (H.shows host.old).out_faults }
    {
        let book = open_book(alloc, host, &options)?;
        Ok(Table {
            book,
            access: options.access,
            failed: false,
        })
    }

    /// Writes all that waits and makes it lasting. With Ok the file has the table, and the host is settled; where nothing waits
    /// and no segment was added no call is made. Each image since the start has of each key what it had in the file or what it
    /// has in the table. The only fault is `Disk`, which comes only where a call on the disk failed.
    pub fn sync<H: Host>(&mut self, host: &mut H) -> Result<(), TableFault>
        requires usable { self.old.failed ≡ false }
        requires settled { Settled (H.shows host.old) }
        requires of_file { WhereTold (H.shows host.old).file (λ f. IsOf f self.old.book) }
        ensures of_file { OnOk result (WhereTold (H.shows host.new).file (λ f. IsOf f self.new.book)) }
        ensures holds { OnOk result (Changes (HoldsStill self.old.book self.new.book) (H.shows host.old).file (H.shows host.new).file) }
        ensures ledger { OnOk result (Changes (FlushesLedger self.old.book self.new.book) (H.shows host.old).file (H.shows host.new).file) }
        ensures settled { OnOk result (Settled (H.shows host.new)) }
        ensures waits { OnOk result (self.new.book.cache ≡ []) }
        ensures usable { OnOk result (self.new.failed ≡ false) }
        ensures kind { OnOk result (self.new.book.place.head.kind ≡ self.old.book.place.head.kind) }
        ensures keypos { OnOk result (self.new.book.place.head.keypos ≡ self.old.book.place.head.keypos) }

        // Whatever it answers.
        ensures slots { self.new.slots ≡ self.old.slots }
        ensures access { self.new.access ≡ self.old.access }
        ensures any_moment { WhereTold (H.shows host.old).file (LeavesBetween (H.shows host.old) (H.shows host.new) self.old.book) }
        ensures only_disk { OnlyDisk (H.shows host.old) (H.shows host.new) }
        ensures clock { (H.shows host.new).clock ≤ (H.shows host.old).clock
            + 3 * length self.old.book.cache + 12 + 65 * (self.old.book.space.segments - self.old.book.place.head.segments) }
        ensures no_call { self.old.book.cache ≡ [] → self.old.book.space.segments ≡ self.old.book.place.head.segments → host.new ≡ host.old }

        ensures only { IfErr result (λ fault. fault ≡ TableFault.Disk) }
        ensures failed { OnErr result (self.new.failed ≡ true) }
        ensures cause { OnErr result (Rose (H.shows host.old).disk_faults (H.shows host.new).disk_faults) }
        ensures ok_faults { OnOk result ((H.shows host.new).disk_faults ≡ (H.shows host.old).disk_faults) }
    {
        match flush(host, &mut self.book) {
            Ok(()) => Ok(()),
            Err(DiskFailed) => {
                self.failed = true;
                Err(TableFault::Disk)
            }
        }
    }

    /// Writes all that waits, and has the file say that it is closed. With Ok the file is closed and sound, its table is this
    /// one, and the host is settled. Each image since the start has of each key what it had in the file or what it has in the
    /// table. The only fault is `Disk`, which comes only where a call on the disk failed. The table is spent.
    pub fn close<H: Host>(self, host: &mut H) -> Result<(), TableFault>
        requires usable { self.failed ≡ false }
        requires settled { Settled (H.shows host.old) }
        requires of_file { WhereTold (H.shows host.old).file (λ f. IsOf f self.book) }
        ensures closed { OnOk result (Changes (ClosesWith self.book) (H.shows host.old).file (H.shows host.new).file) }
        ensures ledger { OnOk result (Changes (KeepsLedger self.book) (H.shows host.old).file (H.shows host.new).file) }
        ensures settled { OnOk result (Settled (H.shows host.new)) }

        // Whatever it answers.
        ensures any_moment { WhereTold (H.shows host.old).file (LeavesBetween (H.shows host.old) (H.shows host.new) self.book) }
        ensures only_disk { OnlyDisk (H.shows host.old) (H.shows host.new) }
        ensures clock { (H.shows host.new).clock ≤ (H.shows host.old).clock
            + 3 * length self.book.cache + 20 + 65 * (self.book.space.segments - self.book.place.head.segments) }

        ensures only { IfErr result (λ fault. fault ≡ TableFault.Disk) }
        ensures cause { OnErr result (Rose (H.shows host.old).disk_faults (H.shows host.new).disk_faults) }
        ensures ok_faults { OnOk result ((H.shows host.new).disk_faults ≡ (H.shows host.old).disk_faults) }
    {
        close_book(host, self.book)?;
        Ok(())
    }

    /// The kind of the table.
    pub fn kind(&self) -> Kind
        ensures { result ≡ self.now.book.place.head.kind }
    {
        self.book.place.head.kind
    }

    /// The place of the key in an object.
    pub fn keypos(&self) -> u32
        ensures { result ≡ self.now.book.place.head.keypos }
    {
        self.book.place.head.keypos
    }

    /// What the table was opened for.
    pub fn access(&self) -> Access
        ensures { result ≡ self.now.access }
    {
        self.access
    }

    /// How many objects it has.
    pub fn size(&self) -> u64
        ensures { result ≡ sum_by (λ e. e.count) self.now.book.directory }
    {
        self.book.directory.objects()
    }

    /// How many keys it has.
    pub fn keys(&self) -> u32
        ensures { result ≡ length self.now.book.directory }
    {
        self.book.directory.keys()
    }

    /// How many slots its directory has.
    pub fn slots(&self) -> u32
        ensures { result ≡ self.now.slots }
    {
        self.book.directory.slots()
    }

    /// Whether a call answered `Disk` or `Memory`.
    pub fn failed(&self) -> bool
        ensures { result ≡ self.now.failed }
    {
        self.failed
    }
}
