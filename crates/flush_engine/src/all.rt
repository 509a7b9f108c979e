//! The places of the new blocks of all changes of a command, or none.
ghost use Rattle.std.specs.Prelude.{◌≡◌, ◌≤◌, ◌<◌, ◌+◌, ℕ, take, length, Ok, Err, IfOk, IsErrOf};
ghost use Rattle.buddy_space.specs.SpaceState.{SpaceState};
ghost use Rattle.flush_engine.specs.Placing.{in_segments, all_placed};
ghost use Rattle.flush_engine.specs.Steps.{MayBePlaced, IsLed};

use crate::placing::{place_change, take_back};
use crate::{Changes, PlanFault};
use buddy_space::Space;
use std::alloc::Global;
use write_cache::WriteCache;

/// Places the new blocks of the changes, in order, and gives the first unit of each, 0 for a change that has none. `cache` has
/// the keys that wait before the command. `Full` where one has no place with all segments, which then are there, and nothing
/// else has changed.
pub(crate) fn place_all(
    alloc: Global,
    space: &mut Space,
    most: u32,
    cache: &WriteCache,
    changes: &Changes,
) -> Result<Vec<u32>, PlanFault>
    requires most { most ≤ 8000 }
    requires segments { space.old.segments ≤ most }
    requires changes { MayBePlaced cache.now space.old changes.now }
    ensures ok { IfOk result (λ units. all_placed most cache.now space.old changes.now ≡ Ok (record { space = space.new; units = units.items })) }
    ensures full { (exp : ℕ) → IsErrOf result (PlanFault.Full exp)
        → (all_placed most cache.now space.old changes.now ≡ Err exp) × (space.new ≡ in_segments most space.old) }
{
    // its clause says that the runs part the units
    let _segments = space.segments();
    let mut units = Vec::new(alloc);
    for change in changes.as_slice() {
        let earlier = cache.get(change.key.as_slice());
        match place_change(space, most, earlier, change.next.as_ref()) {
            Ok(unit) => match units.push(unit) {
                Ok(()) => {}
                Err(_) => return Err(PlanFault::Memory),
            },
            Err(PlanFault::Full(exp)) => {
                take_all_back(space, cache, changes, &units);
                return Err(PlanFault::Full(exp));
            }
            Err(PlanFault::Memory) => return Err(PlanFault::Memory),
        }
    }
    Ok(units)
}

/// Undoes what was placed for the first changes, from the last of them on.
fn take_all_back(space: &mut Space, cache: &WriteCache, changes: &Changes, units: &[u32])
    requires { (most : ℕ) × (first : SpaceState) × IsLed most cache.now changes.now units.now first space.old }
    ensures { (most : ℕ) (first : SpaceState) → IsLed most cache.now changes.now units.now first space.old
        → space.new ≡ in_segments space.old.segments first }
{
    let mut left = units.len();
    while left > 0 {
        left -= 1;
        take_one_back(space, cache, changes, units, left);
    }
}

/// Undoes what was placed for the change at this place.
fn take_one_back(
    space: &mut Space,
    cache: &WriteCache,
    changes: &Changes,
    units: &[u32],
    place: usize,
)
    requires place { place < length units.now }
    requires led { (most : ℕ) × (first : SpaceState) × IsLed most cache.now changes.now (take (place + 1) units.now) first space.old }
    ensures segments { space.new.segments ≡ space.old.segments }
    ensures led { (most : ℕ) (first : SpaceState) → IsLed most cache.now changes.now (take (place + 1) units.now) first space.old
        → IsLed most cache.now changes.now (take place units.now) first space.new }
{
    if let Some(change) = changes.get(place) {
        let earlier = cache.get(change.key.as_slice());
        take_back(space, earlier, change.next.as_ref(), units[place]);
    }
}
