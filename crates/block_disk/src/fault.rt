//! Why no header was read.
ghost use Rattle.std.specs.Prelude.{◌≡◌};
ghost use Rattle.block_disk.specs.Answer.{fault_of};

use file_model::Unreadable;
use host_model::DiskFailed;

/// Why no header was read.
#[derive(Clone, Copy, Debug, PartialEq, Eq)]
pub enum HeadFault {
    /// A call on the disk failed.
    Disk,
    /// The file is no table's file.
    NotDets,
    /// The current copy of the header has this version.
    Version(u8),
}

impl From<DiskFailed> for HeadFault {
    ghost use Rattle.block_disk.specs.declared.fault.HeadFault.TheVariants.{Disk};

    ghost from_gives = { λ _ fault. fault ≡ Disk };

    fn from(_failed: DiskFailed) -> HeadFault {
        HeadFault::Disk
    }
}

impl From<Unreadable> for HeadFault {
    ghost from_gives = { λ why fault. fault ≡ fault_of why };

    fn from(why: Unreadable) -> HeadFault {
        match why {
            Unreadable::NotDets => HeadFault::NotDets,
            Unreadable::Version(n) => HeadFault::Version(n),
        }
    }
}
