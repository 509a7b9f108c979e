//! What no clause says: that a call succeeds where memory is there, the slots of a hash from outside, and that a directory
//! that grows with each entry is not made anew each time.
ghost use Rattle.std.specs.Prelude.{◌≡◌, length, max, IfOk};

use crate::{Directory, Entries, Entry, Memory, slot_of};
use std::alloc::Global;
use std::test::Fail;

#[test]
fn an_entry_is_pushed(rt: HostRuntime) -> Result<(), Fail> {
    let entry = Entry {
        hash: 7,
        unit: 64,
        exp: 6,
        count: 3,
    };
    let mut entries = Entries::new(rt.alloc());
    entries.push(entry)?;
    assert_eq!(rt; entries.len(), 1);
    assert!(rt; entries.get(0).copied() == Some(entry));
    assert!(rt; entries.get(1).is_none());
    Ok(())
}

/// The hash of the key 1.
const HASH_OF_1: u32 = 4_220_504_952;

#[test]
fn the_key_1_has_these_slots(rt: HostRuntime) {
    assert_eq!(rt; slot_of(HASH_OF_1, 1), 0);
    assert_eq!(rt; slot_of(HASH_OF_1, 256), 120);
    assert_eq!(rt; slot_of(HASH_OF_1, 400), 376);
}

#[test]
fn an_entry_is_added_and_removed(rt: HostRuntime) -> Result<(), Fail> {
    let entry = Entry {
        hash: HASH_OF_1,
        unit: 64,
        exp: 6,
        count: 3,
    };
    let mut directory = Directory::new(rt.alloc(), 256)?;
    directory.reserve(&[entry])?;
    directory.add(entry);
    assert_eq!(rt; directory.keys(), 1);
    assert_eq!(rt; directory.objects(), 3);
    directory.grow_to(400)?;
    assert_eq!(rt; directory.slots(), 400);
    assert!(rt; directory.entries_of(120).is_empty());
    assert!(rt; directory.entries_of(376).first().copied() == Some(entry));
    assert!(rt; directory.remove(HASH_OF_1, 65).is_none());
    assert!(rt; directory.remove(HASH_OF_1, 64) == Some(entry));
    assert_eq!(rt; directory.keys(), 0);
    assert_eq!(rt; directory.objects(), 0);
    Ok(())
}

/// The entry with this number as its hash and its unit.
fn entry_of(number: u32) -> Entry
    ensures hash { result.hash ≡ number }
    ensures unit { result.unit ≡ number }
{
    Entry {
        hash: number,
        unit: number,
        exp: 0,
        count: 1,
    }
}

/// A directory to which so many entries were added, with a slot for each, and 256 at least.
fn filled(alloc: Global, many: u32) -> Result<Directory, Memory>
    ensures { IfOk result (λ d. length d ≡ max many 256) }
{
    let mut directory = Directory::new(alloc, 256)?;
    for number in 0..many {
        let entry = entry_of(number);
        directory.reserve(&[entry])?;
        directory.add(entry);
        let keys = directory.keys();
        directory.grow_to(keys.max(256))?;
    }
    Ok(directory)
}

#[test]
fn a_directory_grows_with_each_entry(rt: HostRuntime) -> Result<(), Fail> {
    let directory = filled(rt.alloc(), 100_000)?;
    assert_eq!(rt; directory.slots(), 100_000);
    for number in 0..100_000 {
        let entries = directory.entries_of(number);
        assert_eq!(rt; entries.len(), 1);
        assert!(rt; entries.first().copied() == Some(entry_of(number)));
    }
    Ok(())
}
