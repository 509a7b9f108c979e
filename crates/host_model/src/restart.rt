// What a host in memory goes on with after a stop.
ghost use Rattle.std.specs.Prelude.{◌≡◌, ◌≤◌, ◌<◌, ◌+◌, ◌^◌, true, length, min, take, drop, map, slice_index, OnOk, IfOk};
ghost use Rattle.std.specs.List.{range_with_len};
ghost use Rattle.host_model.specs.Calls.{file_after, said_after, synced_after, unsynced, is_possible};
ghost use Rattle.host_model.specs.Log.{newest_first, written};
ghost use Rattle.host_model.specs.Restart.{byte_picked, picked_image, moment, image_at, output_at};

use crate::Memory;
use crate::log::Kept;
use crate::overwrite::overwrite;
use std::alloc::Global;

/// What a restart makes of each byte in doubt, which is one that was written since the last sync that succeeded.
#[derive(Clone, Copy, Debug, PartialEq, Eq)]
pub enum Pick {
    /// The old byte, and the old length. Of a piece of output in progress nothing was said.
    Old,
    /// The new byte. With this pick and those below, the image has the greatest length that it may have, an old byte
    /// past the old end is 0, and a piece of output in progress was said whole.
    New,
    /// This byte.
    Fill(u8),
    /// The new byte at the places k where bit k mod 64 of this number is 1, and the old byte at the others.
    Mix(u64),
}

// How many of the calls come before the last sync and with it: 0 where there is none.
fn sync_point(calls: &[Kept]) -> usize
    ensures within { result ≤ length calls.now }
    ensures unsynced { unsynced (newest_first calls.now) ≡ written (newest_first (drop result calls.now)) }
    ensures synced { (first : _) → synced_after first (newest_first calls.now)
        ≡ file_after first (newest_first (take result calls.now)) }
{
    let mut since = 0;
    for (i, call) in calls.iter().enumerate() {
        if let Kept::Sync = call {
            since = i + 1;
        }
    }
    since
}

// Makes the writes among these calls again.
fn replay(file: &mut Vec<u8>, calls: &[Kept]) -> Result<(), Memory>
    requires { is_possible file.old.items (newest_first calls.now) ≡ true }
    ensures { OnOk result (file.new.items ≡ file_after file.old.items (newest_first calls.now)) }
{
    for call in calls {
        if let Kept::Write { at, bytes } = call {
            overwrite(file, *at, bytes)?;
        }
    }
    Ok(())
}

// Says the pieces among these calls again.
fn say_again(said: &mut Vec<u8>, calls: &[Kept]) -> Result<(), Memory>
    ensures { OnOk result (said.new.items ≡ said_after said.old.items (newest_first calls.now)) }
{
    for call in calls {
        if let Kept::Piece { bytes } = call {
            said.extend_from_slice(bytes)?;
        }
    }
    Ok(())
}

fn picked_byte(pick: Pick, k: usize, old: u8, new: u8) -> u8
    ensures { result ≡ byte_picked pick k old new }
{
    match pick {
        Pick::Old => old,
        Pick::New => new,
        Pick::Fill(byte) => byte,
        Pick::Mix(number) => {
            if (number >> (k as u64 % 64)) % 2 == 1 {
                new
            } else {
                old
            }
        }
    }
}

fn byte_or_zero(bytes: &[u8], k: usize) -> u8
    ensures { result ≡ slice_index bytes.now k }
{
    if k < bytes.len() { bytes[k] } else { 0 }
}

// What is picked for the bytes of a write that began at this place of an image.
fn picked_bytes(
    alloc: Global,
    pick: Pick,
    image: &[u8],
    at: usize,
    bytes: &[u8],
) -> Result<Vec<u8>, Memory>
    requires { at + length bytes.now < 2 ^ 64 }
    ensures { IfOk result (λ v. v.items ≡ map (λ i. byte_picked pick (at + i) (slice_index image.now (at + i)) (slice_index bytes.now i))
        (range_with_len 0 (length bytes.now))) }
{
    let mut picked = Vec::with_capacity(alloc, bytes.len())?;
    for (i, new) in bytes.iter().enumerate() {
        let k = at + i;
        picked.push(picked_byte(pick, k, byte_or_zero(image, k), *new))?;
    }
    Ok(picked)
}

// Makes of a file as it was synced the image that is picked, with these calls since.
fn patch(alloc: Global, pick: Pick, image: &mut Vec<u8>, calls: &[Kept]) -> Result<(), Memory>
    requires { is_possible image.old.items (newest_first calls.now) ≡ true }
    ensures { OnOk result (image.new.items ≡ picked_image pick (written (newest_first calls.now)) image.old.items
        (file_after image.old.items (newest_first calls.now))) }
{
    if let Pick::Old = pick {
        return Ok(());
    }
    for call in calls {
        if let Kept::Write { at, bytes } = call {
            let picked = picked_bytes(alloc, pick, image, *at, bytes)?;
            overwrite(image, *at, &picked)?;
        }
    }
    Ok(())
}

// How many calls were made at a stop within the call that follows the first `at`, with that one.
fn stop_end(calls: &[Kept], at: usize) -> usize
    requires { at ≤ length calls.now }
    ensures { result ≡ min (at + 1) (length calls.now) }
{
    if at < calls.len() { at + 1 } else { at }
}

// The image that is picked at that stop, of a file that began as this one.
pub(crate) fn image_after(
    alloc: Global,
    first: &[u8],
    calls: &[Kept],
    at: usize,
    pick: Pick,
) -> Result<Vec<u8>, Memory>
    requires within { at ≤ length calls.now }
    requires possible { is_possible first.now (newest_first calls.now) ≡ true }
    ensures { IfOk result (λ v. v.items ≡ image_at pick first.now (moment at (newest_first calls.now))) }
{
    let end = stop_end(calls, at);
    let since = sync_point(&calls[..at]);
    let mut image = first.to_vec(alloc)?;
    replay(&mut image, &calls[..since])?;
    patch(alloc, pick, &mut image, &calls[since..end])?;
    Ok(image)
}

// The output of the same pair.
pub(crate) fn output_after(
    alloc: Global,
    first: &[u8],
    calls: &[Kept],
    at: usize,
    pick: Pick,
) -> Result<Vec<u8>, Memory>
    requires { at ≤ length calls.now }
    ensures { IfOk result (λ v. v.items ≡ output_at pick first.now (moment at (newest_first calls.now))) }
{
    let mut said = first.to_vec(alloc)?;
    let end = match pick {
        Pick::Old => at,
        _ => stop_end(calls, at),
    };
    say_again(&mut said, &calls[..end])?;
    Ok(said)
}
