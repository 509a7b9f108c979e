// What no clause says: that each call succeeds where memory is there, and that a fault at each call of the disk in turn ends
// a check.
use crate::laws::the_segments_that_count_lie_in_the_file;
use crate::{CheckFault, IndexState, Reason, Reject, Rejects, Report, check, close_rejects, scan};
use block_disk::read_header;
use host_model::{MemHost, Memory};
use std::alloc::Global;
use std::test::Fail;

// A header of a set with keypos 1, one segment of at most 8,000 and no index, that is closed.
const CLOSED_BODY: [u8; 32] = [
    68, 84, 66, 76, 1, 0, 0, 0, 0, 0, 0, 1, 0, 0, 0, 1, 0, 0, 31, 64, 255, 255, 255, 255, 0, 0, 0,
    0, 0, 0, 0, 0,
];

// The block of the pair of two small numbers.
const fn block(exp: u8, key: u8, value: u8) -> [u8; 21] {
    [
        exp, 0, 0, 0, 0, 0, 0, 13, 131, 108, 0, 0, 0, 1, 104, 2, 97, key, 97, value, 106,
    ]
}

// A file of one segment with three open gates: of a block of two units, of one that it covers, and of one with its key.
fn hostile_file(alloc: Global) -> Result<Vec<u8>, Memory> {
    let mut bytes = vec![in alloc; 0; 270_336]?;
    bytes[0] = 165;
    bytes[16..48].copy_from_slice(&CLOSED_BODY);
    bytes[4096..4099].copy_from_slice(&[165; 3]);
    bytes[8192..8213].copy_from_slice(&block(1, 1, 1));
    bytes[8256..8277].copy_from_slice(&block(0, 2, 1));
    bytes[8320..8341].copy_from_slice(&block(0, 1, 2));
    Ok(bytes)
}

// Whether a file could be checked, and has a key with an object, so many rejects, and is sound or needs repair.
fn tells(report: &Result<Report, CheckFault>, rejects: usize, sound: bool) -> bool {
    match report {
        Ok(report) => {
            report.keys == 1
                && report.objects == 1
                && report.rejects.len() == rejects
                && report.index == IndexState::Absent
                && report.sound == sound
                && report.needs_repair == !sound
        }
        Err(_) => false,
    }
}

// Closes the gates of the rejects of a file. Whether that succeeded.
fn close_all(alloc: Global, host: &mut MemHost) -> bool {
    the_segments_that_count_lie_in_the_file();
    let Ok(place) = read_header(host) else {
        return false;
    };
    match scan(alloc, host, &place) {
        Ok(found) => close_rejects(host, &found).is_ok(),
        Err(_) => false,
    }
}

#[test]
fn a_hostile_file_has_no_rejects_once_they_are_closed(rt: HostRuntime) -> Result<(), Fail> {
    let file = hostile_file(rt.alloc())?;
    let mut host = MemHost::new(rt.alloc(), &file, &[])?;
    assert!(rt; tells(&check(rt.alloc(), &mut host), 2, false));
    assert!(rt; close_all(rt.alloc(), &mut host));
    assert_eq!(rt; host.moments(), 3);
    assert!(rt; tells(&check(rt.alloc(), &mut host), 0, true));
    Ok(())
}

#[test]
fn a_fault_at_each_call_ends_a_check(rt: HostRuntime) -> Result<(), Fail> {
    let file = hostile_file(rt.alloc())?;
    for call in 0..5 {
        let mut host = MemHost::new(rt.alloc(), &file, &[call])?;
        assert!(rt; matches!(check(rt.alloc(), &mut host), Err(CheckFault::Disk)));
    }
    let mut host = MemHost::new(rt.alloc(), &file, &[5])?;
    assert!(rt; check(rt.alloc(), &mut host).is_ok());
    Ok(())
}

#[test]
fn a_reject_is_pushed(rt: HostRuntime) -> Result<(), Fail> {
    let reject = Reject {
        unit: 1,
        reason: Reason::Overlaps(0),
    };
    let mut rejects = Rejects::new(rt.alloc());
    rejects.push(reject)?;
    assert_eq!(rt; rejects.len(), 1);
    assert!(rt; rejects.get(0).copied() == Some(reject));
    assert!(rt; rejects.get(1).is_none());
    assert!(rt; rejects.as_slice() == [reject].as_slice());
    Ok(())
}
