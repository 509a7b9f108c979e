//! Laws of a repair that is stopped at any moment, as contracts of functions that do nothing.
ghost use Rattle.std.specs.Prelude.{◌≡◌, ◌≤◌, ◌<◌, ℕ, true, List, length};
ghost use Rattle.host_model.specs.Disk.{DiffersIn};
ghost use Rattle.host_model.specs.Writes.{ranges_of, with_writes};
ghost use Rattle.file_model.specs.declared.head.Head.{Head};
ghost use Rattle.file_model.specs.Layout.{page_size, closed_byte};
ghost use Rattle.file_model.specs.Header.{located};
ghost use Rattle.file_model.specs.View.{units_in, view};
ghost use Rattle.file_model.specs.Taken.{taken};
ghost use Rattle.file_model.specs.Fit.{has_no_rejects};
ghost use Rattle.file_model.specs.Gates.{rejected_units};
ghost use Rattle.file_model.specs.GateWrites.{gate_writes};
ghost use Rattle.file_model.specs.Flush.{table_in};

/// While the gates of all rejects are closed, whatever of these writes is torn, the header, the taken blocks and so the table
/// are the same. After it there are no rejects.
pub fn a_repair_keeps_the_table_and_ends_without_rejects()
    ensures any_moment { (per_segment : ℕ) (h : Head) (old : List ℕ) → 0 < per_segment → page_size ≤ length old → (image : List ℕ)
        → DiffersIn (ranges_of (gate_writes per_segment closed_byte (rejected_units (view h (units_in per_segment h old))))) old image
        → (located image ≡ located old) × (table_in per_segment h image ≡ table_in per_segment h old) }
    ensures blocks { (per_segment : ℕ) (h : Head) (old : List ℕ) → 0 < per_segment → page_size ≤ length old → (image : List ℕ)
        → DiffersIn (ranges_of (gate_writes per_segment closed_byte (rejected_units (view h (units_in per_segment h old))))) old image
        → taken (view h (units_in per_segment h image)) ≡ taken (view h (units_in per_segment h old)) }
    ensures end { (per_segment : ℕ) (h : Head) (old : List ℕ) → 0 < per_segment → page_size ≤ length old
        → has_no_rejects (view h (units_in per_segment h
        (with_writes (gate_writes per_segment closed_byte (rejected_units (view h (units_in per_segment h old)))) old))) ≡ true }
{}
