ghost use Rattle.std.specs.Prelude.{◌≡◌};
ghost use Rattle.repair_scan.specs.declared.fault.ScanFault.TheVariants.{Disk as DiskInScan, Memory as NoMemoryToScan};
ghost use Rattle.repair_scan.specs.Faults.{header_fault, scan_fault};

use block_disk::HeadFault;
use host_model::DiskFailed;
use std::alloc::AllocError;

/// Why a file was not scanned.
#[derive(Clone, Copy, Debug, PartialEq, Eq)]
pub enum ScanFault {
    /// A call on the disk failed.
    Disk,
    Memory,
}

/// Why a file was not checked.
#[derive(Clone, Copy, Debug, PartialEq, Eq)]
pub enum CheckFault {
    /// A call on the disk failed.
    Disk,
    /// The file is no table's file. So is one of length 0.
    NotDets,
    /// The current copy of the header has this version.
    Version(u8),
    Memory,
}

impl From<DiskFailed> for ScanFault {
    ghost from_gives = { λ _ fault. fault ≡ DiskInScan };

    fn from(_failed: DiskFailed) -> ScanFault {
        ScanFault::Disk
    }
}

impl From<AllocError> for ScanFault {
    ghost from_gives = { λ _ fault. fault ≡ NoMemoryToScan };

    fn from(_error: AllocError) -> ScanFault {
        ScanFault::Memory
    }
}

impl From<HeadFault> for CheckFault {
    ghost from_gives = { λ why fault. fault ≡ header_fault why };

    fn from(why: HeadFault) -> CheckFault {
        match why {
            HeadFault::Disk => CheckFault::Disk,
            HeadFault::NotDets => CheckFault::NotDets,
            HeadFault::Version(number) => CheckFault::Version(number),
        }
    }
}

impl From<ScanFault> for CheckFault {
    ghost from_gives = { λ why fault. fault ≡ scan_fault why };

    fn from(why: ScanFault) -> CheckFault {
        match why {
            ScanFault::Disk => CheckFault::Disk,
            ScanFault::Memory => CheckFault::Memory,
        }
    }
}
