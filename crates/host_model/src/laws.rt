//! Laws of writes and of hosts, as contracts of functions that do nothing.
ghost use Rattle.std.specs.Prelude.{◌≡◌, ◌≤◌, ◌<◌, ◌+◌, ℕ, List, false, length, slice_range};
ghost use Rattle.host_model.specs.Disk.{written_at, Range, in_doubt, DiffersIn};
ghost use Rattle.host_model.specs.Host.{Left, Says, Settled, Rests, Goes};
ghost use Rattle.host_model.specs.Images.{IsInTheMaking, LeavesNow};
ghost use Rattle.host_model.specs.Writes.{Write, ranges_of, with_writes, BeginInside, LieInside, AreApart, ReadBack};

use crate::Host;

/// What a write put is read at its place; so is what each of some writes put that do not meet.
pub fn what_was_written_reads_back()
    ensures one { (at : ℕ) (bytes file : List ℕ) → at ≤ length file → slice_range (written_at at bytes file) at (at + length bytes) ≡ bytes }
    ensures each { (writes : List Write) (file : List ℕ) → AreApart writes → BeginInside writes file → ReadBack writes (with_writes writes file) }
{}

/// Where a file was torn, a part that the ranges do not meet is as it was.
pub fn a_part_outside_the_ranges_is_as_it_was()
    ensures { (ranges : List Range) (i j : ℕ) (old new : List ℕ) → DiffersIn ranges old new → j ≤ length old
        → ((k : ℕ) → i ≤ k → k < j → in_doubt ranges k ≡ false) → slice_range new i j ≡ slice_range old i j }
{}

/// A file that writes inside it tore, or made anew, is as long as before.
pub fn writes_inside_a_file_keep_its_length()
    ensures torn { (writes : List Write) (file image : List ℕ) → LieInside writes file → DiffersIn (ranges_of writes) file image → length image ≡ length file }
    ensures written { (writes : List Write) (file : List ℕ) → LieInside writes file → BeginInside writes file → length (with_writes writes file) ≡ length file }
{}

/// A settled host stays settled by calls that only read, and by output.
pub fn a_settled_host_stays_settled<H: Host>()
    ensures reading { (old new : H) → Settled (H.shows old) → Rests (H.shows old) (H.shows new) → Settled (H.shows new) }
    ensures output { (piece : List ℕ) (old new : H) → Settled (H.shows old) → Goes (Says piece) (H.shows old) (H.shows new)
        → (H.shows new).file ≡ (H.shows old).file → Settled (H.shows new) }
{}

/// No image that a stop leaves after a call that succeeded is of a file in the making.
pub fn what_a_stop_leaves_after_success_is_not_in_the_making<H: Host>()
    ensures { (old new : H) (image : List ℕ) → LeavesNow (H.shows new) image → IsInTheMaking false (H.shows old) (H.shows new) image → ⊥ }
{}
