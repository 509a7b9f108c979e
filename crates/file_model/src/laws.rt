//! Laws of what is seen of a file, as contracts of functions that do nothing.
ghost use Rattle.std.specs.Prelude.{◌-◌, ◌≡◌, ◌≤◌, ◌<◌, ◌⊎◌, ℕ, ◌+◌, ◌*◌, ◌%◌, ◌^◌, List, Bool, true, false, ◌||◌, [], length, Some, Ok, Err};
ghost use Rattle.term_model.specs.TermValue.{TermValue};
ghost use Rattle.term_model.specs.declared.kind.Kind.{Kind};
ghost use Rattle.table_model.specs.Table.{objects_of};
ghost use Rattle.file_model.specs.declared.head.Head.{Head};
ghost use Rattle.file_model.specs.declared.head.Located.{Located};
ghost use Rattle.file_model.specs.declared.head.Unreadable.{Unreadable};
ghost use Rattle.file_model.specs.declared.reject.Reason.{Reason};
ghost use Rattle.etf_model.specs.Spelling.{Spells};
ghost use Rattle.file_model.specs.declared.head.FileState.TheVariants.{Dirty};
ghost use Rattle.file_model.specs.Header.{is_allowed, body_of, head_in, current_copy, head_of, located, segments_in, segments_of};
ghost use Rattle.file_model.specs.Free.{IsFreeIn};
ghost use Rattle.file_model.specs.BodyWrites.{Body, MeetsNone};
ghost use Rattle.file_model.specs.Fit.{has_no_rejects, is_sound, needs_repair, IsFit};
ghost use Rattle.space_model.specs.Sizes.{unit_size};
ghost use Rattle.file_model.specs.Layout.{page_of, is_open_at, gate_at, unit_at, segment_end, whole_segments};
ghost use Rattle.file_model.specs.LayoutLaws.{EndsInSegment};
ghost use Rattle.file_model.specs.Block.{Block, Standing, standing, term_in};
ghost use Rattle.file_model.specs.Stands.{StandsAligned};
ghost use Rattle.file_model.specs.Images.{ImagesAgree};
ghost use Rattle.file_model.specs.View.{Units, View, view, units_in, with_unit, open_from};
ghost use Rattle.file_model.specs.Taken.{judged, taken, table_of};
ghost use Rattle.file_model.specs.Judgement.{IsTaken, AreTaken, IsReason};
ghost use Rattle.file_model.specs.Gates.{Gates, AreRead, StandsOpen, NoneMeet, NoneShareKeys, SeenAlike, lowest_objects, table_with, MayFlush};
ghost use Rattle.file_model.specs.Gates.{OpenBetween, OldOrNew, ClosesRejects, OpenAtTaken};

/// Two units have two gates. No gate is in a unit, nor behind one in its segment. Runs that do not meet have no byte in
/// common, and an aligned run that is no larger than a segment ends in its segment.
pub fn gates_and_units_do_not_meet()
    ensures gates { (per_segment u w : ℕ) → 0 < per_segment → gate_at per_segment u ≡ gate_at per_segment w → u ≡ w }
    ensures gate_and_unit { (per_segment u w : ℕ) → 0 < per_segment
        → (gate_at per_segment u < unit_at per_segment w) ⊎ (segment_end per_segment w ≤ gate_at per_segment u) }
    ensures runs { (per_segment u w units : ℕ) → 0 < per_segment → EndsInSegment per_segment u units → u + units ≤ w
        → unit_at per_segment u + unit_size * units ≤ unit_at per_segment w }
    ensures aligned { (power u exp : ℕ) → 2 ^ exp ≤ 2 ^ power → u % 2 ^ exp ≡ 0 → EndsInSegment (2 ^ power) u (2 ^ exp) }
    ensures whole { (per_segment u segments : ℕ) (image : List ℕ) → 0 < per_segment → u < per_segment * segments
        → segments ≤ whole_segments per_segment image → segment_end per_segment u ≤ length image }
{}

/// The header that is located is that of the file, and its whole segments are those that count. None is located just where
/// none can be read.
pub fn a_header_is_located_where_it_is_read()
    ensures head { (image : List ℕ) (l : Located) → located image ≡ Ok l
        → (head_of image ≡ Ok l.head) × (current_copy (page_of image) ≡ Some l.second) × (l.whole ≡ segments_of l.head image) }
    ensures fault { (image : List ℕ) (why : Unreadable) → head_of image ≡ Err why → located image ≡ Err why }
{}

/// The open units from one on are this one, where it is open, and those behind it.
pub fn open_units_follow_one_another()
    ensures { (gates : Gates) (stands : ℕ → Standing) (n u : ℕ) → u < n
        → open_from gates stands (n - u) u ≡ with_unit (gates u) stands u (open_from gates stands (n - (u + 1)) (u + 1)) }
{}

/// A unit whose gate is closed says nothing, whatever its bytes are.
pub fn a_unit_whose_gate_is_closed_says_nothing()
    ensures { (h : Head) (old new : Units) → SeenAlike old new → view h new ≡ view h old }
{}

/// Where no two blocks at open units meet, a key has the objects of its lowest one.
pub fn a_key_has_the_objects_of_its_lowest_block()
    ensures { (h : Head) (units : Units) (gates : Gates) (k : TermValue) → AreRead h units → NoneMeet gates units
        → objects_of (table_with h units gates) k ≡ lowest_objects gates units.stands k units.count 0 }
{}

/// While the gates of new blocks are opened, whichever are, each key has its old or its new objects; and so it has while
/// those of the old blocks are closed then.
pub fn while_gates_change_each_key_has_its_old_or_its_new_objects()
    ensures opening { (h : Head) (units : Units) (before after now : Gates) → MayFlush h units before after → OpenBetween before after now
        → OldOrNew (table_with h units before) (table_with h units after) (table_with h units now) }
    ensures closing { (h : Head) (units : Units) (before after now : Gates) → MayFlush h units before after → OpenBetween after before now
        → OldOrNew (table_with h units before) (table_with h units after) (table_with h units now) }
{}

/// Where no two blocks at open units meet or share a key, a key has the objects of its one block, and none where it has no
/// block. Where the gates of a key's blocks stay the key has what it had.
pub fn a_key_has_the_objects_of_its_one_block()
    ensures one { (h : Head) (units : Units) (gates : Gates) (u : ℕ) (b : Block) → AreRead h units → NoneMeet gates units → NoneShareKeys gates units
        → StandsOpen gates units u b → objects_of (table_with h units gates) b.key ≡ b.objects }
    ensures none { (h : Head) (units : Units) (gates : Gates) (k : TermValue) → AreRead h units → NoneMeet gates units
        → ((u : ℕ) (b : Block) → StandsOpen gates units u b → b.key ≡ k → ⊥) → objects_of (table_with h units gates) k ≡ [] }
    ensures others { (h : Head) (units : Units) (before after : Gates) (k : TermValue) → AreRead h units → NoneMeet before units → NoneMeet after units
        → ((u : ℕ) (b : Block) → u < units.count → units.stands u ≡ Ok b → b.key ≡ k → after u ≡ before u)
        → objects_of (table_with h units after) k ≡ objects_of (table_with h units before) k }
{}

/// Closing the gates of rejects, whichever are closed, leaves the table.
pub fn closing_the_gates_of_rejects_leaves_the_table()
    ensures { (h : Head) (units : Units) (now : Gates) → ClosesRejects h units now → table_with h units now ≡ table_of (view h units) }
{}

/// Just those blocks are taken that no taken block below covers and whose key none has, and what is not taken has the first
/// of the reasons.
pub fn a_block_is_taken_where_none_below_covers_it_or_has_its_key()
    ensures taken { (v : View) → AreTaken (taken v) [] }
    ensures takes { (below : List Block) (b : Block) → IsTaken below b → judged below (Ok b) ≡ Ok b }
    ensures only { (below : List Block) (s : Standing) (b : Block) → judged below s ≡ Ok b → (s ≡ Ok b) × IsTaken below b }
    ensures reason { (below : List Block) (s : Standing) (reason : Reason) → judged below s ≡ Err reason → IsReason below s reason }
{}

/// A block that stands at a unit is no larger than a segment and aligned, and its objects are some that the kind allows
/// for its key.
pub fn a_block_stands_as_it_is_read()
    ensures aligned { (per_segment : ℕ) (kind : Kind) (keypos unit : ℕ) (bytes : List ℕ) (b : Block)
        → standing per_segment kind keypos unit bytes ≡ Ok b → StandsAligned per_segment kind keypos unit b }
    ensures read { (per_segment : ℕ) (h : Head) (image : List ℕ) → AreRead h (units_in per_segment h image) }
{}

/// Images that agree on the number of units, on their gates and on the heads and payloads behind open ones are seen alike.
pub fn what_is_seen_depends_on_gates_and_on_what_stands_behind_open_ones()
    ensures { (per_segment : ℕ) (h : Head) (old new : List ℕ) → ImagesAgree per_segment h old new
        → view h (units_in per_segment h new) ≡ view h (units_in per_segment h old) }
{}

/// The header of a body that was written is read.
pub fn a_header_that_was_written_is_read()
    ensures { (h : Head) → is_allowed h ≡ true → head_in (body_of h) ≡ Ok h }
{}

/// The term of a payload is the one that all of its bytes spell.
pub fn a_payload_has_the_term_that_it_spells()
    ensures read { (t : TermValue) (bytes : List ℕ) → Spells t bytes → term_in bytes ≡ Some t }
    ensures spelled { (t : TermValue) (bytes : List ℕ) → term_in bytes ≡ Some t → Spells t bytes }
{}

/// A header that counts more segments, in which all gates are closed, gives the same table.
pub fn more_segments_with_closed_gates_add_nothing()
    ensures { (per_segment : ℕ) (h more : Head) (image : List ℕ) → more.kind ≡ h.kind → more.keypos ≡ h.keypos
        → segments_in per_segment h image ≤ segments_in per_segment more image
        → ((u : ℕ) → per_segment * segments_in per_segment h image ≤ u → u < per_segment * segments_in per_segment more image
        → is_open_at image (gate_at per_segment u) ≡ false)
        → table_of (view more (units_in per_segment more image)) ≡ table_of (view h (units_in per_segment h image)) }
{}

/// There are no rejects just where each open unit has a block, and these do not meet and share no key.
pub fn open_gates_stand_at_taken_units_alone_where_nothing_is_rejected()
    ensures none { (h : Head) (units : Units) → AreRead h units → has_no_rejects (view h units) ≡ true → OpenAtTaken units }
    ensures only { (h : Head) (units : Units) → AreRead h units → OpenAtTaken units → has_no_rejects (view h units) ≡ true }
{}

/// Where open gates stand at taken units alone, a run that is free meets no block behind an open gate; and the gates of a
/// free run are closed.
pub fn a_free_run_meets_no_block_and_has_no_open_gate()
    ensures meets_none { (h : Head) (units : Units) (b : Body) → AreRead h units → OpenAtTaken units → IsFreeIn (view h units) b.unit b.exp
        → MeetsNone units b }
    ensures shut { (h : Head) (units : Units) (unit exp u : ℕ) → IsFreeIn (view h units) unit exp → unit ≤ u → u < unit + 2 ^ exp
        → u < units.count → units.is_open u ≡ false }
{}

/// A file with a header that can be read is sound or needs repair, and a dirty one is both.
pub fn a_file_with_a_header_is_sound_or_needs_repair()
    ensures either { (h : Head) (image : List ℕ) → (is_sound h image || needs_repair h image) ≡ true }
    ensures fit { (h : Head) (image : List ℕ) → head_of image ≡ Ok h → IsFit image }
    ensures dirty_is_sound { (h : Head) (image : List ℕ) → h.state ≡ Dirty → is_sound h image ≡ true }
    ensures dirty_needs_repair { (h : Head) (image : List ℕ) → h.state ≡ Dirty → needs_repair h image ≡ true }
{}
