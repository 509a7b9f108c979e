//! What no clause says: that a call succeeds where memory is there, and what a first example gives.
use crate::Space;
use std::test::Fail;

#[test]
fn the_smallest_free_run_is_taken(rt: HostRuntime) -> Result<(), Fail> {
    let mut space = Space::new(rt.alloc());
    space.add_segment()?;
    assert_eq!(rt; space.segments(), 1);
    assert_eq!(rt; space.take(0), Some(0));
    assert_eq!(rt; space.take(6), Some(64));
    assert_eq!(rt; space.take(1), Some(2));
    assert_eq!(rt; space.take(12), None);
    space.give(0, 0);
    space.give(64, 6);
    space.give(2, 1);
    assert_eq!(rt; space.take(12), Some(0));
    Ok(())
}

#[test]
fn deferred_runs_are_held_until_they_are_settled(rt: HostRuntime) -> Result<(), Fail> {
    let mut space = Space::new(rt.alloc());
    space.add_segment()?;
    space.reserve_deferred(1)?;
    assert!(rt; space.claim(8, 3));
    assert!(rt; !space.claim(8, 0));
    assert!(rt; !space.claim(4, 3));
    space.defer(8, 3);
    assert!(rt; !space.claim(8, 3));
    space.settle();
    assert!(rt; space.claim(8, 3));
    Ok(())
}

#[test]
fn many_units_are_taken_in_order(rt: HostRuntime) -> Result<(), Fail> {
    let mut space = Space::new(rt.alloc());
    for _ in 0..25u32 {
        space.add_segment()?;
    }
    for unit in 0..1000u32 {
        assert_eq!(rt; space.take(0), Some(unit));
    }
    Ok(())
}
