//! The next flush of a table, stopped after each number of calls.
use crate::fault::Fault;
use crate::image::{blocks_left, entry_with};
use crate::kept::Kept;
use crate::old::Sides;
use crate::row::Row;
use crate::touch::key_of;
use dets_term::Memory;
use host_model::{MemHost, Pick};
use repair_scan::Entries;
use std::alloc::{AllocError, Global};

/// In how many images a key has its block of before the flush, in how many that of after it, and in how many neither.
#[derive(Drop)]
struct Tally {
    name: String,
    sides: Sides,
    before: u64,
    after: u64,
    lost: u64,
}

/// Those of some keys, and in how many images there are blocks of other keys.
#[derive(Drop)]
struct Tallies {
    keys: Vec<Tally>,
    others: u64,
}

/// What the next flush of the table of a row leaves where it is stopped after 0 calls, after 1, and so on until it succeeds:
/// the tally of each key, and how many stops there were. Each has one image.
pub fn stops(alloc: Global, row: &Row, pick: Pick, names: &str) -> Result<String, Fault> {
    let mut tallies = Tallies::new(alloc, row.table()?.kept(), names)?;
    for calls in 0..u64::MAX {
        let (host, succeeded) = row.table()?.flush_by(calls);
        tallies.count_stop(alloc, &host, pick)?;
        if succeeded {
            return Ok(tallies.text(alloc, calls + 1)?);
        }
    }
    Err(Fault::Disk)
}

impl Tallies {
    /// The tallies of the keys with these names, before any image.
    fn new(alloc: Global, kept: &Kept, names: &str) -> Result<Tallies, Fault> {
        let mut keys = Vec::new(alloc);
        for name in names.split_whitespace() {
            keys.push(Tally {
                name: String::from_str(alloc, name)?,
                sides: kept.sides(alloc, &key_of(alloc, name)?)?,
                before: 0,
                after: 0,
                lost: 0,
            })?;
        }
        Ok(Tallies { keys, others: 0 })
    }

    /// Counts the image of a stop.
    fn count_stop(&mut self, alloc: Global, host: &MemHost, pick: Pick) -> Result<(), Fault> {
        if host.starved() {
            return Err(Fault::Memory(AllocError));
        }
        match blocks_left(alloc, host, pick)? {
            Some(entries) => self.count(&entries),
            None => self.count_lost(),
        }
        Ok(())
    }

    /// Counts an image with these blocks.
    fn count(&mut self, entries: &Entries) {
        let mut known: usize = 0;
        for tally in self.keys.iter_mut() {
            if tally.count(entries) {
                known = known.saturating_add(1);
            }
        }
        if known < entries.len() {
            self.others = self.others.saturating_add(1);
        }
    }

    /// Counts an image without a header.
    fn count_lost(&mut self) {
        for tally in self.keys.iter_mut() {
            tally.lost = tally.lost.saturating_add(1);
        }
    }

    /// The tally of each key, and how many stops there were.
    fn text(&self, alloc: Global, stops: u64) -> Result<String, Memory> {
        let mut text = String::new(alloc);
        for tally in &self.keys {
            text.push_str(&tally.text(alloc)?)?;
        }
        if self.others > 0 {
            let others = self.others;
            text.push_str(&format!(in alloc; "other keys in {others}; ")?)?;
        }
        text.push_str(&format!(in alloc; "stops {stops}")?)?;
        Ok(text)
    }
}

impl Tally {
    /// Counts an image with these blocks. Whether the key has one of them.
    fn count(&mut self, entries: &Entries) -> bool {
        let found = entry_with(entries, self.sides.hash);
        if found == self.sides.before {
            self.before = self.before.saturating_add(1);
        } else if found == self.sides.after {
            self.after = self.after.saturating_add(1);
        } else {
            self.lost = self.lost.saturating_add(1);
        }
        found.is_some()
    }

    /// The tally of the key, and the mark behind it.
    fn text(&self, alloc: Global) -> Result<String, Memory> {
        let Tally {
            name,
            before,
            after,
            lost,
            ..
        } = self;
        if *lost > 0 {
            return format!(in alloc; "{name}: {before} before, {after} after, {lost} lost; ");
        }
        format!(in alloc; "{name}: {before} before, {after} after; ")
    }
}
