//! A host in memory of any kind.
ghost use Rattle.std.specs.Prelude.{◌+◌, ◌≤◌, length, IsTrue};

use crate::fault::Fault;
use host_model::{DiskFailed, FuseHost, Host, MemHost, OutFailed, PerfectHost};
use std::alloc::Global;

/// A host in memory of any kind.
#[derive(Drop)]
pub enum Device {
    Memory(MemHost),
    Fused(FuseHost),
    Perfect(PerfectHost),
}

impl Device {
    /// The file as it reads. A fuse does not show it.
    pub fn file(&self) -> Result<&[u8], Fault> {
        match self {
            Device::Memory(host) => Ok(host.file()),
            Device::Fused(_) => Err(Fault::BadLine),
            Device::Perfect(host) => Ok(host.file()),
        }
    }

    /// All that was said. A fuse does not show it.
    pub fn said(&self) -> Result<&[u8], Fault> {
        match self {
            Device::Memory(host) => Ok(host.said()),
            Device::Fused(_) => Err(Fault::BadLine),
            Device::Perfect(host) => Ok(host.said()),
        }
    }

    pub fn len(&mut self) -> Result<u64, DiskFailed> {
        match self {
            Device::Memory(host) => host.len(),
            Device::Fused(host) => host.len(),
            Device::Perfect(host) => host.len(),
        }
    }

    /// So many bytes of the file. Through a fuse nothing is read.
    pub fn read(&mut self, alloc: Global, at: u64, count: u64) -> Result<Vec<u8>, Fault> {
        let mut buffer = vec![in alloc; 0; count as usize]?;
        match self {
            Device::Memory(host) if is_within(host.file(), at, &buffer) => {
                host.read_at(at, &mut buffer)?;
            }
            Device::Perfect(host) if is_within(host.file(), at, &buffer) => {
                host.read_at(at, &mut buffer)?;
            }
            _ => return Err(Fault::BadLine),
        }
        Ok(buffer)
    }

    /// A write that begins within the file. Through a fuse it begins with the file.
    pub fn write(&mut self, at: u64, bytes: &[u8]) -> Result<(), Fault> {
        match self {
            Device::Memory(host) if at <= host.file().len() as u64 => {
                Ok(host.write_at(at, bytes)?)
            }
            Device::Fused(host) if at == 0 => Ok(host.write_at(at, bytes)?),
            Device::Perfect(host) if at <= host.file().len() as u64 => {
                Ok(host.write_at(at, bytes)?)
            }
            _ => Err(Fault::BadLine),
        }
    }

    pub fn sync(&mut self) -> Result<(), DiskFailed> {
        match self {
            Device::Memory(host) => host.sync(),
            Device::Fused(host) => host.sync(),
            Device::Perfect(host) => host.sync(),
        }
    }

    pub fn put(&mut self, bytes: &[u8]) -> Result<(), OutFailed> {
        match self {
            Device::Memory(host) => host.put(bytes),
            Device::Fused(host) => host.put(bytes),
            Device::Perfect(host) => host.put(bytes),
        }
    }
}

/// Whether a file has as many bytes from a place on.
fn is_within(file: &[u8], at: u64, bytes: &[u8]) -> bool
    ensures { IsTrue result → at + length bytes.now ≤ length file.now }
{
    let end = at.checked_add(bytes.len() as u64);
    end.is_some_and(|end| end <= file.len() as u64)
}
