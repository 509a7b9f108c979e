//! The marks of units.
ghost use Rattle.std.specs.Prelude.{◌≡◌, ◌≤◌, ◌<◌, ◌↔◌, ℕ, ◌+◌, ◌^◌, IsTrue, length, map};
ghost use Rattle.buddy_space.specs.Marks.{run_of, AreFree, IsUnused, IsFilled, IsTaken, AreWithin, IsReleased};

/// What is known of one unit: it is free, or the first one of a taken run of this exponent, or a further one of a taken
/// run or any one of a deferred run.
#[derive(Clone, Copy)]
pub(crate) enum Mark {
    Free,
    Taken(u8),
    Held,
}

/// 2 to the power `exp` units from `unit` on.
#[derive(Clone, Copy)]
pub(crate) struct Run {
    pub(crate) unit: usize,
    pub(crate) exp: u8,
}

/// How many units a run has.
pub(crate) fn size_of(exp: u8) -> usize
    requires { exp ≤ 12 }
    ensures value { result ≡ 2 ^ exp }
    ensures most { result ≤ 4096 }
{
    1 << exp
}

/// Whether all units of a run are free.
pub(crate) fn are_free(marks: &[Mark], run: Run) -> bool
    requires exp { run.exp ≤ 12 }
    requires ends { run.unit + 2 ^ run.exp ≤ length marks.now }
    ensures { IsTrue result ↔ AreFree marks.now (run_of run) }
{
    for unit in run.unit..run.unit + size_of(run.exp) {
        if !matches!(marks[unit], Mark::Free) {
            return false;
        }
    }
    true
}

/// Whether a run is aligned and all its units are there and free.
pub(crate) fn is_unused(marks: &[Mark], run: Run) -> bool
    requires exp { run.exp ≤ 12 }
    requires unit { run.unit < 2 ^ 32 }
    ensures { IsTrue result ↔ IsUnused marks.now (run_of run) }
{
    let size = size_of(run.exp);
    run.unit % size == 0 && run.unit + size <= marks.len() && are_free(marks, run)
}

/// Gives the units of a run this mark.
pub(crate) fn fill(marks: &mut [Mark], run: Run, mark: Mark)
    requires exp { run.exp ≤ 12 }
    requires ends { run.unit + 2 ^ run.exp ≤ length marks.old }
    ensures { IsFilled marks.old marks.new (run_of run) mark }
{
    for unit in run.unit..run.unit + size_of(run.exp) {
        marks[unit] = mark;
    }
}

/// Marks the units of a run as those of a taken one.
pub(crate) fn mark_taken(marks: &mut [Mark], run: Run)
    requires exp { run.exp ≤ 12 }
    requires ends { run.unit + 2 ^ run.exp ≤ length marks.old }
    ensures { IsTaken marks.old marks.new (run_of run) }
{
    fill(marks, run, Mark::Held);
    marks[run.unit] = Mark::Taken(run.exp);
}

/// Marks the units of all these runs as free.
pub(crate) fn release(marks: &mut [Mark], runs: &[Run])
    requires { AreWithin (length marks.old) runs.now }
    ensures { IsReleased marks.old marks.new (map run_of runs.now) }
{
    for run in runs {
        fill(marks, *run, Mark::Free);
    }
}
