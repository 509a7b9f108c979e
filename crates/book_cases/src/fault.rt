//! Why a line has no better answer.
use dets_term::TermFault;
use host_model::DiskFailed;
use key_block::PackFault;
use repair_scan::ScanFault;
use std::alloc::AllocError;
use std::num::ParseIntError;
use thiserror::Error;

/// What is answered in the place of a value.
#[derive(Debug, Drop, Error)]
pub enum Fault {
    /// The line is none of the language, or names a key or an entry twice.
    #[error("bad line")]
    BadLine,
    /// A call on the file failed, and the table is given up.
    #[error("failed")]
    Disk,
    /// There was no memory, and the program ends.
    #[error("out of memory")]
    Memory(#[from(alloc)] AllocError),
}

impl From<ParseIntError> for Fault {
    fn from(_error: ParseIntError) -> Fault {
        Fault::BadLine
    }
}

impl From<TermFault> for Fault {
    fn from(error: TermFault) -> Fault {
        match error {
            TermFault::Memory => Fault::Memory(AllocError),
            _ => Fault::BadLine,
        }
    }
}

impl From<PackFault> for Fault {
    fn from(error: PackFault) -> Fault {
        match error {
            PackFault::Memory => Fault::Memory(AllocError),
            PackFault::TooLarge => Fault::BadLine,
        }
    }
}

impl From<DiskFailed> for Fault {
    fn from(_failed: DiskFailed) -> Fault {
        Fault::Disk
    }
}

impl From<ScanFault> for Fault {
    fn from(error: ScanFault) -> Fault {
        match error {
            ScanFault::Disk => Fault::Disk,
            ScanFault::Memory => Fault::Memory(AllocError),
        }
    }
}
