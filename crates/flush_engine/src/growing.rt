//! A run of a space that grows.
ghost use Rattle.std.specs.Prelude.{◌≡◌, ◌≢◌, ◌≤◌, Ok, Err, MatchOption};
ghost use Rattle.space_model.specs.Runs.{Run};
ghost use Rattle.space_model.specs.Apart.{In};
ghost use Rattle.buddy_space.specs.SpaceState.{IsParted};
ghost use Rattle.flush_engine.specs.Placing.{in_segments, place_in, placed_run};

use crate::PlanFault;
use buddy_space::Space;

/// Takes a run of 2 to the power `exp` units and gives its first unit. Segments are added one at a time, up to `most`, as
/// long as it has no place. `Full` where it has none with all of them, which then are there.
pub(crate) fn take_growing(space: &mut Space, most: u32, exp: u8) -> Result<u32, PlanFault>
    requires exp { exp ≤ 12 }
    requires most { most ≤ 8000 }
    requires segments { space.old.segments ≤ most }
    ensures placed { result ≢ Err PlanFault.Memory → MatchOption (place_in most space.old exp)
        ((result ≡ Err (PlanFault.Full exp)) × (space.new ≡ in_segments most space.old))
        (λ at. (result ≡ Ok at.unit) × (space.new ≡ placed_run space.old exp at)) }
    ensures segments { space.new.segments ≤ most }
    ensures grows { space.old.segments ≤ space.new.segments }
    ensures parted { IsParted space.new }
    ensures kept { (r : Run) → In r space.old.taken → In r space.new.taken }
{
    loop {
        if let Some(unit) = space.take(exp) {
            return Ok(unit);
        }
        if space.segments() == most {
            return Err(PlanFault::Full(exp));
        }
        space.add_segment()?;
    }
}
