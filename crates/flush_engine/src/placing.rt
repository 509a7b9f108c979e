//! The places of the new blocks of a command, before anything else of a book changes.
ghost use Rattle.std.specs.Prelude.{◌≡◌, ◌≢◌, ◌≤◌, ℕ, Ok, Err, Some, IfSome, option_map};
ghost use Rattle.std.specs.Option.{option_copied};
ghost use Rattle.space_model.specs.Runs.{Run, run};
ghost use Rattle.space_model.specs.Apart.{In};
ghost use Rattle.file_model.specs.declared.entry.Entry.{Entry};
ghost use Rattle.buddy_space.specs.SpaceState.{SpaceState, IsParted};
ghost use Rattle.book_model.specs.Book.{entry_run};
ghost use Rattle.book_model.specs.Planning.{kept_unit};
ghost use Rattle.flush_engine.specs.Placing.{block_of, in_segments, BeginsElsewhere, giving_up, placed, IsPlaced, reclaimed, WasPlaced};

use crate::PlanFault;
use crate::growing::take_growing;
use buddy_space::Space;
use file_model::Packed;
use write_cache::Pending;

/// The run of the block that a key has which waits: its first unit and its exponent.
fn pending_run(earlier: Option<&Pending>) -> Option<(u32, u8)>
    ensures { result ≡ option_map (λ (e : Entry). (e.unit, e.exp)) (block_of (option_copied earlier.entry)) }
{
    let state = earlier?;
    let packed = state.block.as_ref()?;
    Some((state.unit, packed.exp))
}

/// The first unit of a pending block, where it has this exponent.
fn kept_unit(earlier: Option<&Pending>, exp: u8) -> Option<u32>
    ensures { result ≡ kept_unit (option_copied earlier.entry) exp }
{
    match pending_run(earlier) {
        Some((unit, old)) if old == exp => Some(unit),
        _ => None,
    }
}

/// Gives back the run of a pending block.
fn give_up(space: &mut Space, earlier: Option<&Pending>)
    requires { IfSome (block_of (option_copied earlier)) (λ e. In (entry_run e) space.old.taken) }
    ensures given { space.new ≡ giving_up (block_of (option_copied earlier.entry)) space.old }
    ensures segments { space.new.segments ≡ space.old.segments }
    ensures parted { IsParted space.old → IsParted space.new }
    ensures others { (r : Run) → In r space.old.taken → BeginsElsewhere r (block_of (option_copied earlier.entry)) → In r space.new.taken }
{
    if let Some((unit, exp)) = pending_run(earlier) {
        space.give(unit, exp);
    }
}

/// Places the new block of a key that waits in this state, or does not, and gives back the run of a pending block that goes.
/// Gives the first unit of the new block, 0 where there is none. `Full` where it has no place with all segments, which then
/// are there, and nothing else has changed.
pub(crate) fn place_change(
    space: &mut Space,
    most: u32,
    earlier: Option<&Pending>,
    next: Option<&Packed>,
) -> Result<u32, PlanFault>
    requires most { most ≤ 8000 }
    requires segments { space.old.segments ≤ most }
    requires exp { IfSome (option_copied next) (λ p. p.exp ≤ 12) }
    requires pending { IfSome (block_of (option_copied earlier)) (λ e. In (entry_run e) space.old.taken) }
    ensures segments { space.new.segments ≤ most }
    ensures grows { space.old.segments ≤ space.new.segments }
    ensures parted { IsParted space.old → IsParted space.new }
    ensures others { (r : Run) → In r space.old.taken → BeginsElsewhere r (block_of (option_copied earlier.entry)) → In r space.new.taken }
    ensures placed { result ≢ Err PlanFault.Memory
        → IsPlaced (placed most (option_copied earlier.entry) space.old (option_copied next.entry)) most space.old space.new result }
{
    let Some(packed) = next else {
        give_up(space, earlier);
        return Ok(0);
    };
    if let Some(unit) = kept_unit(earlier, packed.exp) {
        return Ok(unit);
    }
    let unit = take_growing(space, most, packed.exp)?;
    give_up(space, earlier);
    Ok(unit)
}

/// Takes the run of a pending block again, where it is free.
fn reclaim(space: &mut Space, earlier: Option<&Pending>)
    requires { IfSome (block_of (option_copied earlier)) (λ e. e.exp ≤ 12) }
    ensures { space.new ≡ reclaimed (block_of (option_copied earlier.entry)) space.old }
{
    if let Some((unit, exp)) = pending_run(earlier) {
        space.claim(unit, exp);
    }
}

/// Undoes what `place_change` did, but for the segments that were added then or since.
pub(crate) fn take_back(
    space: &mut Space,
    earlier: Option<&Pending>,
    next: Option<&Packed>,
    unit: u32,
)
    requires { (s : SpaceState) × WasPlaced (option_copied earlier) (option_copied next) unit s space.old }
    ensures { (s : SpaceState) → WasPlaced (option_copied earlier.entry) (option_copied next.entry) unit s space.old
        → space.new ≡ in_segments space.old.segments s }
{
    match next {
        None => reclaim(space, earlier),
        Some(packed) if kept_unit(earlier, packed.exp).is_some() => {}
        Some(packed) => {
            reclaim(space, earlier);
            space.give(unit, packed.exp);
        }
    }
}
