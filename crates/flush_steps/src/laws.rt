//! A law of what a flush needs of a file, as the contract of a function that does nothing.
ghost use Rattle.std.specs.Prelude.{◌<◌, ℕ, List};
ghost use Rattle.file_model.specs.declared.head.Head.{Head};
ghost use Rattle.file_model.specs.BodyWrites.{Body};
ghost use Rattle.file_model.specs.GateWrites.{AreWhole};
ghost use Rattle.file_model.specs.Flush.{IsFlushable, news};

/// Where blocks may be flushed to a file, the segments of their units and of those of the blocks that go are whole in it.
pub fn a_file_that_may_be_flushed_has_whole_segments()
    ensures new { (per_segment : ℕ) (h : Head) (bodies : List Body) (olds file : List ℕ) → 0 < per_segment
        → IsFlushable per_segment h bodies olds file → AreWhole per_segment (news bodies) file }
    ensures old { (per_segment : ℕ) (h : Head) (bodies : List Body) (olds file : List ℕ) → 0 < per_segment
        → IsFlushable per_segment h bodies olds file → AreWhole per_segment olds file }
{}
