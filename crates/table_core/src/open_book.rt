//! The opening of a file: it is made, or read and made ready.
ghost use Rattle.std.specs.Prelude.{◌≡◌, ◌≤◌, true, [], List, ℕ, length, Err, IfOk, IfErr, OnOk, IsErrOf};
ghost use Rattle.host_model.specs.Counts.{Rose};
ghost use Rattle.host_model.specs.Disk.{WhereTold, Changes};
ghost use Rattle.host_model.specs.Host.{Settled, Rests};
ghost use Rattle.host_model.specs.Images.{LeavesImages};
ghost use Rattle.file_model.specs.Header.{is_allowed};
ghost use Rattle.book_model.specs.Book.{IsInOrder};
ghost use Rattle.flush_engine.specs.Meaning.{book_of};
ghost use Rattle.run_model.specs.State.{new_head};
ghost use Rattle.table_core.specs.Answering.{fault_of_opening, IsAnsweredBy, IsOpenedTo, IsOpening, IsRefusal};

use crate::loading::load;
use crate::reading::{can_write, read_file};
use crate::{Book, Entries, OpenFault, opened_book};
use block_disk::{FileState, Head, make};
use file_model::laws::a_header_is_located_where_it_is_read;
use host_model::Host;
use run_model::{OpenOptions, Repair};
use std::alloc::Global;

/// The header of a file that is made for an opening.
fn new_head(options: &OpenOptions) -> Head
    ensures { result ≡ new_head options.now }
{
    Head {
        version: 1,
        state: FileState::Closed,
        kind: options.kind,
        keypos: options.keypos,
        segments: 0,
        max_segments: options.max_segments,
        index: None,
    }
}

/// Makes a file where there are no bytes, unless it is opened to be read, and gives its book.
fn open_made<H: Host>(alloc: Global, host: &mut H, options: &OpenOptions) -> Result<Book, OpenFault>
    requires allowed { is_allowed (new_head options.now) ≡ true }
    requires empty { WhereTold (H.shows host.old).file (λ f. f ≡ []) }
    ensures answer { WhereTold (H.shows host.old).file (λ f. IsAnsweredBy (fault_of_opening options.now f) result) }
    ensures opened { IfOk result (λ b. Changes (IsOpenedTo options.now (book_of b)) (H.shows host.old).file (H.shows host.new).file) }
    ensures order { IfOk result (λ b. IsInOrder (book_of b)) }
    ensures waits { IfOk result (λ b. b.cache ≡ []) }
    ensures settled { OnOk result (Settled (H.shows host.new)) }
    ensures any_moment { WhereTold (H.shows host.old).file (λ f. LeavesImages (H.shows host.old) (H.shows host.new) (IsOpening f)) }
    ensures refused { IfErr result (λ fault. IsRefusal fault → Rests (H.shows host.old) (H.shows host.new)) }
    ensures said { (H.shows host.new).said ≡ (H.shows host.old).said }
    ensures cause { result ≡ Err OpenFault.Disk → Rose (H.shows host.old).disk_faults (H.shows host.new).disk_faults }
    ensures ok_faults { (result ≡ Err OpenFault.Disk → ⊥) → (H.shows host.new).disk_faults ≡ (H.shows host.old).disk_faults }
    ensures never_falls { (H.shows host.old).disk_faults ≤ (H.shows host.new).disk_faults }
    ensures out_faults { (H.shows host.new).out_faults ≡ (H.shows host.old).out_faults }
{
    if !can_write(options.access) {
        return Err(OpenFault::NoFile);
    }
    let place = make(host, new_head(options))?;
    Ok(opened_book(alloc, place, &Entries::new(alloc))?)
}

/// Opens the file: one without bytes is made, and any other is read, refused or made ready. The refusals come in their order,
/// each exactly where it holds, and leave the file and the clock; `Disk` comes only where a call on the disk failed. From a
/// settled host each image since the start keeps the table of the file, but for one in the making.
pub(crate) fn open_book<H: Host>(
    alloc: Global,
    host: &mut H,
    options: &OpenOptions,
) -> Result<Book, OpenFault>
    requires allowed { is_allowed (new_head options.now) ≡ true }
    ensures answer { WhereTold (H.shows host.old).file (λ f. IsAnsweredBy (fault_of_opening options.now f) result) }
    ensures opened { IfOk result (λ b. Changes (IsOpenedTo options.now (book_of b)) (H.shows host.old).file (H.shows host.new).file) }
    ensures order { IfOk result (λ b. IsInOrder (book_of b)) }
    ensures waits { IfOk result (λ b. b.cache ≡ []) }
    ensures settled { OnOk result (Settled (H.shows host.new)) }
    ensures any_moment { Settled (H.shows host.old) → WhereTold (H.shows host.old).file
        (λ f. LeavesImages (H.shows host.old) (H.shows host.new) (IsOpening f)) }
    ensures refused { IfErr result (λ fault. IsRefusal fault → Rests (H.shows host.old) (H.shows host.new)) }
    ensures said { (H.shows host.new).said ≡ (H.shows host.old).said }
    ensures cause { result ≡ Err OpenFault.Disk → Rose (H.shows host.old).disk_faults (H.shows host.new).disk_faults }
    ensures ok_faults { (result ≡ Err OpenFault.Disk → ⊥) → (H.shows host.new).disk_faults ≡ (H.shows host.old).disk_faults }
    ensures never_falls { (H.shows host.old).disk_faults ≤ (H.shows host.new).disk_faults }
    ensures out_faults { (H.shows host.new).out_faults ≡ (H.shows host.old).out_faults }
{
    a_header_is_located_where_it_is_read();
    let len = host.len()?;
    if len == 0 {
        return open_made(alloc, host, options);
    }
    let read = read_file(alloc, host, options)?;
    load(alloc, host, read, options.repair == Repair::Force)
}
