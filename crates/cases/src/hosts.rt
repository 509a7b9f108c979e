//! Calls to a host in memory.

use crate::device::Device;
use crate::fault::Fault;
use crate::line::Line;
use crate::shown::text_or_digits;
use crate::two_writes::TwoWrites;
use dets_term::Memory;
use host_model::{FuseHost, MemHost, PerfectHost, Pick, write_all_and_sync, write_and_sync};
use std::alloc::Global;

/// The host of some lines, once one of them made it.
#[derive(Drop)]
pub struct Hosts {
    alloc: Global,
    device: Option<Device>,
}

impl Hosts {
    pub fn new(alloc: Global) -> Hosts {
        Hosts {
            alloc,
            device: None,
        }
    }

    /// The answer to a word that makes a host or calls it.
    pub fn answer(&mut self, word: &str, line: &mut Line) -> Result<String, Fault> {
        match word {
            "host" => self.device = Some(mem_host(self.alloc, line)?),
            "perfect" => self.device = Some(perfect_host(self.alloc, line)?),
            "fuse" => self.fuse(line.number()?)?,
            "inner" => self.unfuse()?,
            _ => return call(self.alloc, self.device()?, word, line),
        }
        done(self.alloc)
    }

    fn device(&mut self) -> Result<&mut Device, Fault> {
        self.device.as_mut().ok_or(Fault::BadLine)
    }

    /// Puts a fuse before the host.
    fn fuse(&mut self, calls: u64) -> Result<(), Fault> {
        let Some(Device::Memory(host)) = self.device.take() else {
            return Err(Fault::BadLine);
        };
        self.device = Some(Device::Fused(FuseHost::new(host, calls)));
        Ok(())
    }

    /// Takes the fuse away.
    fn unfuse(&mut self) -> Result<(), Fault> {
        let Some(Device::Fused(fuse)) = self.device.take() else {
            return Err(Fault::BadLine);
        };
        self.device = Some(Device::Memory(fuse.into_inner()));
        Ok(())
    }
}

/// `host FILE NUMBER ..`
fn mem_host(alloc: Global, line: &mut Line) -> Result<Device, Fault> {
    let file = line.bytes()?;
    let fail = line.numbers()?;
    Ok(Device::Memory(MemHost::new(alloc, &file, &fail)?))
}

/// `perfect FILE ROOM ROOM`
fn perfect_host(alloc: Global, line: &mut Line) -> Result<Device, Fault> {
    let file = line.bytes()?;
    let file_room = line.number()? as usize;
    let out_room = line.number()? as usize;
    if file.len() > file_room {
        return Err(Fault::BadLine);
    }
    let host = PerfectHost::new(alloc, &file, file_room, out_room)?;
    Ok(Device::Perfect(host))
}

fn call(alloc: Global, device: &mut Device, word: &str, line: &mut Line) -> Result<String, Fault> {
    match word {
        "len" => number(alloc, device.len()?),
        "read" => shown(alloc, &device.read(alloc, line.number()?, line.number()?)?),
        "file" => shown(alloc, device.file()?),
        "said" => shown(alloc, device.said()?),
        "write" => {
            device.write(line.number()?, &line.bytes()?)?;
            done(alloc)
        }
        "sync" => {
            device.sync()?;
            done(alloc)
        }
        "put" => {
            device.put(&line.bytes()?)?;
            done(alloc)
        }
        _ => match device {
            Device::Memory(host) => mem_call(alloc, host, word, line),
            _ => Err(Fault::BadLine),
        },
    }
}

/// What only a host that keeps its calls answers.
fn mem_call(
    alloc: Global,
    host: &mut MemHost,
    word: &str,
    line: &mut Line,
) -> Result<String, Fault> {
    match word {
        "moments" => number(alloc, host.moments()),
        "starved" => {
            let starved = host.starved();
            Ok(format!(in alloc; "{starved}")?)
        }
        "restart" => restart(alloc, host, line),
        "write_and_sync" => {
            let at = line.number()?;
            let bytes = line.bytes()?;
            if at > host.file().len() as u64 {
                return Err(Fault::BadLine);
            }
            write_and_sync(host, at, &bytes)?;
            done(alloc)
        }
        "write_all_and_sync" => {
            two_writes(host, &TwoWrites::of(line)?)?;
            done(alloc)
        }
        _ => Err(Fault::BadLine),
    }
}

fn two_writes(host: &mut MemHost, writes: &TwoWrites) -> Result<(), Fault> {
    if !writes.begin_inside(host.file()) {
        return Err(Fault::BadLine);
    }
    Ok(write_all_and_sync(host, writes)?)
}

/// `restart MOMENT PICK`
fn restart(alloc: Global, host: &MemHost, line: &mut Line) -> Result<String, Fault> {
    let moment = line.number()?;
    let pick = pick_of(line)?;
    if moment > host.moments() {
        return Err(Fault::BadLine);
    }
    Ok(file_and_output(alloc, &host.restart(alloc, moment, pick)?)?)
}

fn file_and_output(alloc: Global, host: &MemHost) -> Result<String, Memory> {
    let file = text_or_digits(alloc, host.file())?;
    let output = text_or_digits(alloc, host.said())?;
    format!(in alloc; "{file} {output}")
}

/// `old`, `new`, `fill BYTE`, `mix NUMBER`
fn pick_of(line: &mut Line) -> Result<Pick, Fault> {
    match line.word()?.as_str() {
        "old" => Ok(Pick::Old),
        "new" => Ok(Pick::New),
        "fill" => match line.bytes()?.as_slice() {
            [byte] => Ok(Pick::Fill(*byte)),
            _ => Err(Fault::BadLine),
        },
        "mix" => Ok(Pick::Mix(line.number()?)),
        _ => Err(Fault::BadLine),
    }
}

fn number(alloc: Global, number: u64) -> Result<String, Fault> {
    Ok(format!(in alloc; "{number}")?)
}

fn shown(alloc: Global, bytes: &[u8]) -> Result<String, Fault> {
    Ok(text_or_digits(alloc, bytes)?)
}

fn done(alloc: Global) -> Result<String, Fault> {
    Ok(String::from_str(alloc, "ok")?)
}
