//! What is found of a table's file after a stop.
use crate::fault::Fault;
use block_disk::read_header;
use file_model::Entry;
use host_model::{MemHost, Pick};
use repair_scan::laws::the_segments_that_count_lie_in_the_file;
use repair_scan::{Entries, scan};
use std::alloc::Global;

/// The blocks of the image that a stop after all calls of a host leaves. None where it has no header.
pub fn blocks_left(alloc: Global, host: &MemHost, pick: Pick) -> Result<Option<Entries>, Fault> {
    let mut image = host.restart(alloc, host.moments(), pick)?;
    blocks_of(alloc, &mut image)
}

/// The blocks of a file. None where it has no header.
fn blocks_of(alloc: Global, host: &mut MemHost) -> Result<Option<Entries>, Fault> {
    the_segments_that_count_lie_in_the_file();
    let Ok(place) = read_header(host) else {
        return Ok(None);
    };
    match scan(alloc, host, &place) {
        Ok(found) => Ok(Some(found.entries)),
        Err(error) => Err(Fault::from(error)),
    }
}

/// The first entry with a hash.
pub fn entry_with(entries: &Entries, hash: u32) -> Option<Entry> {
    for place in 0..entries.len() {
        let entry = entries.get(place).copied()?;
        if entry.hash == hash {
            return Some(entry);
        }
    }
    None
}

/// `old`, `new`, `fill:BYTE` or `mix:N`
pub fn pick_of(word: &str) -> Result<Pick, Fault> {
    match word.split_once(':') {
        Some(("fill", byte)) => Ok(Pick::Fill(byte.parse()?)),
        Some(("mix", number)) => Ok(Pick::Mix(number.parse()?)),
        Some(_) => Err(Fault::BadLine),
        None if word == "old" => Ok(Pick::Old),
        None if word == "new" => Ok(Pick::New),
        None => Err(Fault::BadLine),
    }
}
