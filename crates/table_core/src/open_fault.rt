ghost use Rattle.std.specs.Prelude.{◌≡◌};
ghost use Rattle.table_core.specs.declared.open_fault.OpenFault.TheVariants.{Disk as DiskAtOpening, Memory as NoMemoryToOpen};
ghost use Rattle.table_core.specs.Answering.{header_fault, scan_fault};

use block_disk::HeadFault;
use dets_term::Kind;
use host_model::DiskFailed;
use repair_scan::ScanFault;
use std::alloc::AllocError;

/// Why a table was not opened. Of those that hold the first is answered, in this order behind `Disk`.
#[derive(Clone, Copy, Debug, PartialEq, Eq)]
pub enum OpenFault {
    /// A call on the disk failed.
    Disk,
    /// The file has no bytes, and is opened to be read.
    NoFile,
    /// The file is no table's file.
    NotDets,
    /// The current copy of the header has this version.
    Version(u8),
    /// The file's table is of this kind.
    TypeMismatch(Kind),
    /// The file's table has its keys at this position.
    KeyposMismatch(u32),
    /// The file needs repair, and is opened to be read or with no repair.
    NeedsRepair,
    Memory,
}

impl From<DiskFailed> for OpenFault {
    ghost from_gives = { λ _ fault. fault ≡ DiskAtOpening };

    fn from(_failed: DiskFailed) -> OpenFault {
        OpenFault::Disk
    }
}

impl From<AllocError> for OpenFault {
    ghost from_gives = { λ _ fault. fault ≡ NoMemoryToOpen };

    fn from(_error: AllocError) -> OpenFault {
        OpenFault::Memory
    }
}

impl From<HeadFault> for OpenFault {
    ghost from_gives = { λ why fault. fault ≡ header_fault why };

    fn from(why: HeadFault) -> OpenFault {
        match why {
            HeadFault::Disk => OpenFault::Disk,
            HeadFault::NotDets => OpenFault::NotDets,
            HeadFault::Version(number) => OpenFault::Version(number),
        }
    }
}

impl From<ScanFault> for OpenFault {
    ghost from_gives = { λ why fault. fault ≡ scan_fault why };

    fn from(why: ScanFault) -> OpenFault {
        match why {
            ScanFault::Disk => OpenFault::Disk,
            ScanFault::Memory => OpenFault::Memory,
        }
    }
}
