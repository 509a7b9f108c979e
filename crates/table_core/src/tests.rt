// What no clause says: that calls succeed where memory is there.
use crate::{Access, Entries, Located, OpenFault, OpenOptions, Repair, Table, opened_book};
use dets_term::Kind;
use file_model::{Entry, FileState, Head};
use host_model::MemHost;
use std::alloc::Global;
use std::test::Fail;

#[test]
fn the_blocks_of_a_file_are_entered(rt: HostRuntime) -> Result<(), Fail> {
    let head = Head {
        version: 1,
        state: FileState::Closed,
        kind: Kind::Set,
        keypos: 1,
        segments: 1,
        max_segments: 2,
        index: None,
    };
    let place = Located {
        head,
        second: false,
        other_gate: false,
        whole: 1,
    };
    let mut entries = Entries::new(rt.alloc());
    entries.push(Entry {
        hash: 7,
        unit: 64,
        exp: 6,
        count: 3,
    })?;
    let mut book = opened_book(rt.alloc(), place, &entries)?;
    assert_eq!(rt; book.space.segments(), 1);
    assert_eq!(rt; book.directory.keys(), 1);
    assert_eq!(rt; book.directory.objects(), 3);
    assert!(rt; !book.space.claim(127, 0));
    assert!(rt; book.space.claim(128, 0));
    Ok(())
}

// The answer to an opening of a file, as a word.
fn opening(alloc: Global, host: &mut MemHost, kind: Kind, access: Access) -> &'static str {
    let options = OpenOptions {
        kind,
        keypos: 1,
        access,
        repair: Repair::Yes,
        max_segments: 8000,
    };
    match Table::open_table(alloc, host, options) {
        Ok(table) if table.keys() == 0 && !table.failed() => "opened",
        Ok(_) => "filled",
        Err(OpenFault::NoFile) => "no file",
        Err(OpenFault::TypeMismatch(Kind::Set)) => "a set",
        Err(_) => "another fault",
    }
}

#[test]
fn a_table_is_made_and_opened_again(rt: HostRuntime) -> Result<(), Fail> {
    let mut host = MemHost::new(rt.alloc(), &[], &[])?;
    assert_eq!(rt;
        opening(rt.alloc(), &mut host, Kind::Set, Access::Read),
        "no file"
    );
    assert_eq!(rt; host.moments(), 0);
    assert_eq!(rt;
        opening(rt.alloc(), &mut host, Kind::Set, Access::ReadWrite),
        "opened"
    );
    assert_eq!(rt;
        opening(rt.alloc(), &mut host, Kind::Bag, Access::ReadWrite),
        "a set"
    );
    assert_eq!(rt;
        opening(rt.alloc(), &mut host, Kind::Set, Access::Read),
        "opened"
    );
    Ok(())
}
