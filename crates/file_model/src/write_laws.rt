//! Laws of what writes leave of a file, as contracts of functions that do nothing.
ghost use Rattle.std.specs.Prelude.{◌≡◌, ◌≤◌, ◌<◌, ℕ, false, List, ◌++◌, length, Ok};
ghost use Rattle.std.specs.List.{AllByRecursion};
ghost use Rattle.host_model.specs.Disk.{Range, in_doubt, DiffersIn};
ghost use Rattle.host_model.specs.Writes.{ranges_of, with_writes};
ghost use Rattle.term_model.specs.TermValue.{TermValue};
ghost use Rattle.term_model.specs.declared.kind.Kind.{Kind};
ghost use Rattle.file_model.specs.declared.head.Head.{Head};
ghost use Rattle.file_model.specs.Layout.{page_size, segment_at, page_of, whole_segments, gate_at, open_byte, closed_byte, is_open_at};
ghost use Rattle.file_model.specs.View.{units_in, view};
ghost use Rattle.file_model.specs.Gates.{with_gates, OpenBetween, is_among, opened, closed};
ghost use Rattle.file_model.specs.Block.{standing};
ghost use Rattle.file_model.specs.Header.{segments_in, head_of, located};
ghost use Rattle.file_model.specs.Images.{ImagesAgree};
ghost use Rattle.file_model.specs.BodyWrites.{Body, body_writes, HasRoom, Pairs, RunsApart, StandsPacked, MayWrite, IsPayload, block_bytes, block_at};
ghost use Rattle.file_model.specs.GateWrites.{gate_writes, AreWhole, AreOpen, AreClosed, OnlyGatesDiffer};

/// Torn writes of gates change no others and nothing else: of closed gates some are open then, of open ones some still are,
/// and what stands behind them is as before.
pub fn torn_gates_open_or_close_some()
    ensures torn { (per_segment byte : ℕ) (us old new : List ℕ) → 0 < per_segment → page_size ≤ length old → AreWhole per_segment us old
        → DiffersIn (ranges_of (gate_writes per_segment byte us)) old new → OnlyGatesDiffer per_segment us old new }
    ensures seen { (per_segment : ℕ) (us old new : List ℕ) (h : Head) → OnlyGatesDiffer per_segment us old new
        → view h (units_in per_segment h new) ≡ view h (with_gates (units_in per_segment h old) (units_in per_segment h new).is_open) }
    ensures opening { (per_segment : ℕ) (us old new : List ℕ) (h : Head) → AreClosed per_segment us old
        → OnlyGatesDiffer per_segment us old new
        → OpenBetween (units_in per_segment h old).is_open (is_among us) (units_in per_segment h new).is_open }
    ensures closing { (per_segment : ℕ) (us old new : List ℕ) (h : Head) → AreOpen per_segment us old
        → OnlyGatesDiffer per_segment us old new
        → OpenBetween (closed us (units_in per_segment h old).is_open) (units_in per_segment h old).is_open (units_in per_segment h new).is_open }
{}

/// Once they are written all of these gates are open, or closed, and no others.
pub fn written_gates_are_open_or_closed()
    ensures opened { (per_segment : ℕ) (us image : List ℕ) (u : ℕ) → 0 < per_segment → AreWhole per_segment us image
        → is_open_at (with_writes (gate_writes per_segment open_byte us) image) (gate_at per_segment u)
        ≡ opened us (λ w. is_open_at image (gate_at per_segment w)) u }
    ensures closed { (per_segment : ℕ) (us image : List ℕ) (u : ℕ) → 0 < per_segment → AreWhole per_segment us image
        → is_open_at (with_writes (gate_writes per_segment closed_byte us) image) (gate_at per_segment u)
        ≡ closed us (λ w. is_open_at image (gate_at per_segment w)) u }
{}

/// Torn writes of bodies to runs that meet no block behind an open gate are not seen.
pub fn torn_bodies_in_free_runs_are_not_seen()
    ensures { (per_segment : ℕ) (h : Head) (bodies : List Body) (old new : List ℕ) → 0 < per_segment → MayWrite per_segment h bodies old
        → DiffersIn (ranges_of (body_writes per_segment bodies)) old new → (located new ≡ located old) × ImagesAgree per_segment h old new }
{}

/// Bodies that were written to runs that do not meet stand there.
pub fn written_bodies_stand()
    ensures { (per_segment : ℕ) (h : Head) (bodies : List Body) (image : List ℕ) → 0 < per_segment
        → AllByRecursion (HasRoom per_segment image) bodies → Pairs RunsApart bodies
        → AllByRecursion (StandsPacked per_segment h (with_writes (body_writes per_segment bodies) image)) bodies }
{}

/// The bytes of a block stand as that block at each unit that they are aligned for, whatever follows them.
pub fn a_block_that_was_written_stands()
    ensures { (per_segment : ℕ) (kind : Kind) (keypos unit exp : ℕ) (payload rest : List ℕ) (k : TermValue)
        → IsPayload per_segment kind keypos unit exp payload k
        → standing per_segment kind keypos unit (block_bytes exp payload ++ rest) ≡ Ok (block_at unit exp payload k) }
{}

/// What lies in the header's page or behind the segments that count is not seen by a header that counts as many segments
/// before and after; and which header a file has depends on its page alone.
pub fn what_lies_outside_the_segments_that_count_is_not_seen()
    ensures seen { (per_segment : ℕ) (h : Head) (ranges : List Range) (old new : List ℕ) → 0 < per_segment → DiffersIn ranges old new
        → segments_in per_segment h new ≡ segments_in per_segment h old
        → ((k : ℕ) → page_size ≤ k → k < segment_at per_segment (segments_in per_segment h old) → in_doubt ranges k ≡ false)
        → view h (units_in per_segment h new) ≡ view h (units_in per_segment h old) }
    ensures counted { (per_segment : ℕ) (h : Head) (old new : List ℕ) → h.segments ≤ whole_segments per_segment old
        → h.segments ≤ whole_segments per_segment new → segments_in per_segment h new ≡ segments_in per_segment h old }
    ensures header { (old new : List ℕ) → page_size ≤ length old → page_size ≤ length new → page_of new ≡ page_of old
        → head_of new ≡ head_of old }
{}
