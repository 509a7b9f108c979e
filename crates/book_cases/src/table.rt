//! A table in memory.
use crate::fault::Fault;
use crate::kept::{Kept, Outcome};
use crate::touch::Touch;
use crate::untold::Untold;
use dets_term::Memory;
use host_model::{DiskFailed, FuseHost, MemHost};
use std::alloc::Global;

/// A table: its file and its book.
#[derive(Drop)]
pub struct Table {
    host: Untold<MemHost>,
    kept: Kept,
}

impl Table {
    /// A set that was just made, of at most so many segments.
    pub fn new(alloc: Global, most: u32) -> Result<Table, Fault> {
        let mut host = Untold::new(MemHost::new(alloc, &[], &[])?);
        let kept = Kept::new(alloc, &mut host, most)?;
        Ok(Table { host, kept })
    }

    /// Its book.
    pub fn kept(&self) -> &Kept {
        &self.kept
    }

    /// Plans the changes of these keys.
    pub fn command(self, alloc: Global, touches: &[Touch]) -> Result<(Table, Outcome), Memory> {
        let Table { host, kept } = self;
        let (kept, outcome) = kept.command(alloc, touches)?;
        Ok((Table { host, kept }, outcome))
    }

    /// Flushes what waits. A table whose flush failed is given up.
    pub fn flush(self) -> Result<Table, DiskFailed> {
        let Table { mut host, kept } = self;
        let kept = kept.flush(&mut host)?;
        Ok(Table { host, kept })
    }

    /// Flushes what waits; so many calls of `Host` are passed on, and all others fail. The host with the file as they left it,
    /// and whether the flush succeeded.
    pub fn flush_by(self, calls: u64) -> (MemHost, bool) {
        let Table { host, kept } = self;
        let mut fused = Untold::new(FuseHost::new(host.into_inner(), calls));
        let succeeded = kept.flush(&mut fused).is_ok();
        (fused.into_inner().into_inner(), succeeded)
    }
}
