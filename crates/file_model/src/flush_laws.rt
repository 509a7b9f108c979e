//! Laws of a flush that is stopped at any moment, as contracts of functions that do nothing.
ghost use Rattle.std.specs.Prelude.{◌<◌, ℕ, List};
ghost use Rattle.host_model.specs.Disk.{DiffersIn};
ghost use Rattle.host_model.specs.Writes.{ranges_of};
ghost use Rattle.file_model.specs.declared.head.Head.{Head};
ghost use Rattle.file_model.specs.Layout.{open_byte, closed_byte};
ghost use Rattle.file_model.specs.GateWrites.{gate_writes};
ghost use Rattle.file_model.specs.BodyWrites.{Body, body_writes};
ghost use Rattle.file_model.specs.Flush.{IsFlushable, news, with_bodies, with_news, IsBetween, IsFlushed};

/// While the bodies of a flush are written, while the gates of new blocks are opened then, and while those of the blocks that
/// go are closed at last, whatever of these writes is torn: the header is as before, and each key has what it had or what it
/// is to have.
pub fn a_flush_leaves_each_key_its_old_or_its_new_objects()
    ensures bodies { (per_segment : ℕ) (h : Head) (bodies : List Body) (olds old : List ℕ) → 0 < per_segment → IsFlushable per_segment h bodies olds old
        → (image : List ℕ) → DiffersIn (ranges_of (body_writes per_segment bodies)) old image → IsBetween per_segment h bodies olds old image }
    ensures opening { (per_segment : ℕ) (h : Head) (bodies : List Body) (olds old : List ℕ) → 0 < per_segment → IsFlushable per_segment h bodies olds old
        → (image : List ℕ) → DiffersIn (ranges_of (gate_writes per_segment open_byte (news bodies))) (with_bodies per_segment bodies old) image
        → IsBetween per_segment h bodies olds old image }
    ensures closing { (per_segment : ℕ) (h : Head) (bodies : List Body) (olds old : List ℕ) → 0 < per_segment → IsFlushable per_segment h bodies olds old
        → (image : List ℕ) → DiffersIn (ranges_of (gate_writes per_segment closed_byte olds)) (with_news per_segment bodies old) image
        → IsBetween per_segment h bodies olds old image }
{}

/// After a flush a key has the objects of its new block, none where its old block went and none came, and else what it had.
pub fn after_a_flush_each_key_has_its_new_objects()
    ensures { (per_segment : ℕ) (h : Head) (bodies : List Body) (olds old : List ℕ) → 0 < per_segment → IsFlushable per_segment h bodies olds old
        → IsFlushed per_segment h bodies olds old }
{}
