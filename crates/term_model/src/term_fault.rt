ghost use Rattle.std.specs.Prelude.{◌≡◌};
ghost use Rattle.term_model.specs.declared.term_fault.TermFault.TheVariants.{Memory as OutOfMemory};

use std::alloc::AllocError;

/// Why a term was not built.
#[derive(Clone, Copy, Debug, PartialEq, Eq)]
pub enum TermFault {
    /// It would have more than 256 levels.
    Depth,
    /// Two keys of a map would be equal.
    RepeatedKey,
    /// An atom would have more than 255 characters.
    LongAtom,
    /// A node would have 2^32 parts or bytes or more.
    ManyParts,
    Memory,
}

impl From<AllocError> for TermFault {
    ghost from_gives = { λ _ e. e ≡ OutOfMemory };

    fn from(_error: AllocError) -> TermFault {
        TermFault::Memory
    }
}
