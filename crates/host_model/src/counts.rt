// Numbers of calls, and counts of faults.
ghost use Rattle.std.specs.Prelude.{◌≡◌};
ghost use Rattle.host_model.specs.Counts.{following, is_listed, raised};

// The number after this one, while 64 bits can hold it.
pub(crate) fn next_number(number: Option<u64>) -> Option<u64>
    ensures { result ≡ following number }
{
    let n = number?;
    if n < u64::MAX { Some(n + 1) } else { None }
}

// Whether the call of this number is one of those that are to fail.
pub(crate) fn must_fail(number: Option<u64>, fail: &[u64]) -> bool
    ensures { result ≡ is_listed number fail.now }
{
    match number {
        None => false,
        Some(n) => fail.contains(&n),
    }
}

// One fault more. The count stays at its last value once that is reached.
pub(crate) fn with_fault(faults: u64) -> u64
    ensures { result ≡ raised faults }
{
    faults.saturating_add(1)
}
