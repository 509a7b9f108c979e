// What no clause says: that calls on a real file succeed, and the bytes of a file of one object.
use crate::{FileState, Head, change_header, make, open_gate, write_body, zero_segment};
use host_model::FileHost;
use std::fs;
use std::test::Fail;
use term_model::Kind;

const CLOSED: Head = Head {
    version: 1,
    state: FileState::Closed,
    kind: Kind::Set,
    keypos: 1,
    segments: 0,
    max_segments: 8000,
    index: None,
};

const DIRTY: Head = Head {
    state: FileState::Dirty,
    segments: 1,
    ..CLOSED
};

// The list of `{k,1}` alone, behind its head.
const BLOCK: [u8; 22] = [
    0, 0, 0, 0, 0, 0, 0, 14, 131, 108, 0, 0, 0, 1, 104, 2, 119, 1, 107, 97, 1, 106,
];

// A header of a set with keypos 1, one segment of at most 8,000 and no index, that is closed or dirty.
const CLOSED_BODY: [u8; 32] = [
    68, 84, 66, 76, 1, 0, 0, 0, 0, 0, 0, 1, 0, 0, 0, 1, 0, 0, 31, 64, 255, 255, 255, 255, 0, 0, 0,
    0, 0, 0, 0, 0,
];

const DIRTY_BODY: [u8; 32] = [
    68, 84, 66, 76, 1, 1, 0, 0, 0, 0, 0, 1, 0, 0, 0, 1, 0, 0, 31, 64, 255, 255, 255, 255, 0, 0, 0,
    0, 0, 0, 0, 0,
];

#[test]
fn the_file_of_one_object_has_these_bytes(rt: HostRuntime) -> Result<(), Fail> {
    let name = "block_disk_object";
    let _ = fs::remove_file(&rt, name);
    let mut host = FileHost::new(&rt, rt.alloc(), Some(name))?;
    let Ok(mut place) = make(&mut host, CLOSED) else {
        panic!(rt; "the file was not made")
    };
    assert_eq!(rt; zero_segment(&mut host, 0), Ok(()));
    assert_eq!(rt; change_header(&mut host, &mut place, DIRTY), Ok(()));
    assert_eq!(rt; write_body(&mut host, 0, &BLOCK), Ok(()));
    assert_eq!(rt; open_gate(&mut host, 0), Ok(()));
    let closed = Head {
        segments: 1,
        ..CLOSED
    };
    assert_eq!(rt; change_header(&mut host, &mut place, closed), Ok(()));
    let mut bytes = vec![in rt.alloc(); 0; 270_336]?;
    bytes[0] = 165;
    bytes[16..48].copy_from_slice(&CLOSED_BODY);
    bytes[528..560].copy_from_slice(&DIRTY_BODY);
    bytes[4096] = 165;
    bytes[8192..8214].copy_from_slice(&BLOCK);
    let file = fs::read(&rt, name)?;
    assert!(rt; file == bytes);
    fs::remove_file(&rt, name)?;
    Ok(())
}
