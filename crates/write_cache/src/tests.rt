//! What no clause says: that a call succeeds where memory is there, and what a first example gives.
use crate::{Entry, Memory, Packed, Pending, WriteCache};
use dets_term::ByteList;
use std::alloc::Global;
use std::test::Fail;

/// A list of these bytes.
fn list_of(alloc: Global, bytes: &[u8]) -> Result<ByteList, Memory> {
    let mut list = ByteList::new(alloc);
    list.extend_from_slice(bytes)?;
    Ok(list)
}

/// A state with a block of these bytes at a unit.
fn state_with(alloc: Global, unit: u32, bytes: &[u8]) -> Result<Pending, Memory> {
    let packed = Packed {
        exp: 0,
        count: 1,
        block: list_of(alloc, bytes)?,
    };
    Ok(Pending {
        block: Some(packed),
        unit,
        hash: 7,
        old: None,
    })
}

/// The unit of a state.
fn unit_of(state: Option<&Pending>) -> Option<u32> {
    match state {
        Some(state) => Some(state.unit),
        None => None,
    }
}

#[test]
fn a_key_that_is_put_again_keeps_its_place(rt: HostRuntime) -> Result<(), Fail> {
    let alloc = rt.alloc();
    let mut cache = WriteCache::new(alloc);
    cache.put(list_of(alloc, b"a")?, state_with(alloc, 1, b"0123456789")?)?;
    cache.put(list_of(alloc, b"b")?, state_with(alloc, 2, b"01234567")?)?;
    cache.put(list_of(alloc, b"a")?, state_with(alloc, 3, b"012345678")?)?;
    assert_eq!(rt; cache.len(), 2);
    assert_eq!(rt; cache.bytes(), 17);
    assert_eq!(rt; unit_of(cache.at(0)), Some(3));
    assert_eq!(rt; unit_of(cache.at(1)), Some(2));
    assert_eq!(rt; unit_of(cache.at(2)), None);
    assert_eq!(rt; unit_of(cache.get(b"b")), Some(2));
    assert_eq!(rt; unit_of(cache.get(b"c")), None);
    cache.clear();
    assert_eq!(rt; cache.len(), 0);
    assert_eq!(rt; cache.bytes(), 0);
    Ok(())
}

#[test]
fn a_removed_key_waits_without_a_block(rt: HostRuntime) -> Result<(), Fail> {
    let alloc = rt.alloc();
    let stood = Entry {
        hash: 7,
        unit: 64,
        exp: 6,
        count: 3,
    };
    let mut cache = WriteCache::new(alloc);
    cache.put(list_of(alloc, b"a")?, state_with(alloc, 1, b"0123456789")?)?;
    cache.put(
        list_of(alloc, b"a")?,
        Pending {
            block: None,
            unit: 0,
            hash: 7,
            old: Some(stood),
        },
    )?;
    assert_eq!(rt; cache.len(), 1);
    assert_eq!(rt; cache.bytes(), 0);
    Ok(())
}
