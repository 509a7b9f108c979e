ghost use Rattle.std.specs.Prelude.{◌≡◌};
ghost use Rattle.table_core.specs.declared.fault.TableFault.TheVariants.{Disk as DiskOfTable, Memory as NoMemoryForTable};

use host_model::DiskFailed;
use std::alloc::AllocError;

/// Why a call on a table did nothing to its objects.
#[derive(Clone, Copy, Debug, PartialEq, Eq)]
pub enum TableFault {
    /// The list of a key's objects would take more than 262,136 bytes.
    TooLarge,
    /// A block of 2 to the power of this exponent units has no place, with all segments.
    Full(u8),
    /// The new integer of a counter is none of a term.
    SystemLimit,
    /// There is no counter in that place of an object with the key.
    BadArg,
    /// The block that stands at this unit is not intact. A file that was fit when it was opened, or that was scanned or repaired
    /// then, has none.
    BadObject(u32),
    /// A call on the disk failed. The table is given up.
    Disk,
    /// The table is given up.
    Memory,
}

impl From<DiskFailed> for TableFault {
    ghost from_gives = { λ _ fault. fault ≡ DiskOfTable };

    fn from(_failed: DiskFailed) -> TableFault {
        TableFault::Disk
    }
}

impl From<AllocError> for TableFault {
    ghost from_gives = { λ _ fault. fault ≡ NoMemoryForTable };

    fn from(_error: AllocError) -> TableFault {
        TableFault::Memory
    }
}
