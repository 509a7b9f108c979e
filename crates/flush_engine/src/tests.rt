// What no clause says: that calls succeed where memory is there.
use crate::{Book, Changes, plan};
use book_model::Change;
use buddy_space::Space;
use dets_term::{ByteList, Kind};
use file_model::{FileState, Head, Located};
use slot_table::Directory;
use std::test::Fail;
use write_cache::WriteCache;

#[test]
fn a_change_is_pushed(rt: HostRuntime) -> Result<(), Fail> {
    let mut changes = Changes::new(rt.alloc());
    changes.push(Change {
        key: ByteList::new(rt.alloc()),
        hash: 7,
        old: None,
        next: None,
    })?;
    assert_eq!(rt; changes.len(), 1);
    let is_there = matches!(changes.get(0), Some(change) if change.hash == 7);
    assert!(rt; is_there);
    Ok(())
}

#[test]
fn a_command_without_changes_is_planned(rt: HostRuntime) -> Result<(), Fail> {
    let head = Head {
        version: 1,
        state: FileState::Closed,
        kind: Kind::Set,
        keypos: 1,
        segments: 0,
        max_segments: 1,
        index: None,
    };
    let mut book = Book {
        place: Located {
            head,
            second: false,
            other_gate: false,
            whole: 0,
        },
        space: Space::new(rt.alloc()),
        directory: Directory::new(rt.alloc(), 256)?,
        cache: WriteCache::new(rt.alloc()),
    };
    let answer = plan(rt.alloc(), &mut book, Changes::new(rt.alloc()));
    assert!(rt; answer.is_ok());
    assert_eq!(rt; book.space.segments(), 0);
    Ok(())
}
