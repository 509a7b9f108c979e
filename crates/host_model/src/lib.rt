//! Where the program meets the outside: a source that it reads, and a host of one file and one output.
//!
//! Stands on the standard library alone. Two traits say what a call does and when it fails: a failure
//! comes only where the count of faults of that very object rose. `Host` also says what a stop at any
//! moment may leave of the file and the output. `MemSource` and `MemHost` keep all in memory, tell what
//! they hold, and fail exactly at the calls that they were told to fail at; `MemHost::restart` is what a
//! program finds after a stop. `FuseHost` stops serving after some calls, `PerfectHost` fails for want of
//! room alone. `StdSource` and `FileHost` stand for standard input and output and for a real file, and
//! tell only their counts. `write_and_sync` is a small run of calls over any host.
#![tactic(auto)]

mod counts;
mod file_host;
mod fuse_host;
pub mod laws;
mod log;
mod mem_host;
mod mem_source;
mod overwrite;
mod perfect_host;
mod reading;
mod real_file;
mod restart;
mod runs;
mod std_source;
mod writing;

pub use file_host::FileHost;
pub use fuse_host::FuseHost;
pub use mem_host::MemHost;
pub use mem_source::MemSource;
pub use perfect_host::PerfectHost;
pub use reading::{Source, SourceFailed};
pub use restart::Pick;
pub use runs::{Writes, write_all, write_all_and_sync, write_and_sync};
pub use std::alloc::AllocError as Memory;
pub use std_source::StdSource;
pub use writing::{DiskFailed, Host, OutFailed};

#[cfg(test)]
mod tests;
