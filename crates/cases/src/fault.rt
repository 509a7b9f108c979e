//! Why a line has no better answer.

use dets_machine::Stop;
use dets_term::TermFault;
use etf_codec::EtfFault;
use hex::FromHexError;
use host_model::{DiskFailed, OutFailed, SourceFailed};
use std::alloc::AllocError;
use std::num::ParseIntError;
use term_text::{TextFault, TextWhy};
use thiserror::Error;

/// What is answered in the place of a value.
#[derive(Debug, Drop, Error)]
pub enum Fault {
    /// The line is none of the language.
    #[error("bad line")]
    BadLine,
    #[error("out of memory")]
    Memory(#[from(alloc)] AllocError),
    #[error("{0:?}")]
    Term(#[from] TermFault),
    #[error("{0:?}")]
    Spelling(#[from] EtfFault),
    /// The rule that is broken, and its offset.
    #[error("{0:?}({1})")]
    Text(TextWhy, u64),
    #[error("{0:?}")]
    Machine(#[from] Stop),
    #[error("failed")]
    Disk(#[from] DiskFailed),
    #[error("failed")]
    Output(#[from] OutFailed),
    #[error("failed")]
    Source(#[from] SourceFailed),
}

impl From<TextFault> for Fault {
    fn from(error: TextFault) -> Fault {
        match error {
            TextFault::Syntax(offset, why) => Fault::Text(why, offset),
            TextFault::Memory => Fault::Memory(AllocError),
        }
    }
}

impl From<FromHexError> for Fault {
    fn from(error: FromHexError) -> Fault {
        match error {
            FromHexError::OutOfMemory => Fault::Memory(AllocError),
            _ => Fault::BadLine,
        }
    }
}

impl From<ParseIntError> for Fault {
    fn from(_error: ParseIntError) -> Fault {
        Fault::BadLine
    }
}
