ghost use Rattle.std.specs.Prelude.{◌≡◌};
ghost use Rattle.flush_engine.specs.declared.fault.PlanFault.TheVariants.{Memory as OutOfMemory};

use std::alloc::AllocError;

/// Why a command was not planned.
#[derive(Clone, Copy, Debug, PartialEq, Eq)]
pub enum PlanFault {
    /// A block of 2 to the power of this exponent units has no place, with all segments.
    Full(u8),
    /// There was no memory.
    Memory,
}

impl From<AllocError> for PlanFault {
    ghost from_gives = { λ _ fault. fault ≡ OutOfMemory };

    fn from(_error: AllocError) -> PlanFault {
        PlanFault::Memory
    }
}
