//! The judgement on open units, from the lowest one up.
ghost use Rattle.std.specs.Prelude.{◌≡◌, ◌<◌, ◌+◌, ◌^◌, [], ◌∷◌, ◌++◌, List, Ok, Some, OnOk};
ghost use Rattle.file_model.specs.Block.{Block, Standing};
ghost use Rattle.file_model.specs.Taken.{judged};
ghost use Rattle.repair_scan.specs.Candidates.{IsRead};
ghost use Rattle.repair_scan.specs.Judgements.{Reflects, IsWithin, Judges};
ghost use Rattle.repair_scan.specs.TakenKeys.{AreKept};

use crate::candidate::{Candidate, run_units};
use crate::taken_keys::TakenKeys;
use crate::{Entries, Found, Memory, Reason, Reject, Rejects};
use std::alloc::Global;
use table_model::walk_laws::keys_are_told_apart_by_their_bytes;

/// What was found so far; the unit and the end of the last taken block, which alone can cover a unit behind it; and the keys
/// of the taken blocks with the units of these.
#[derive(Drop)]
pub(crate) struct Judge {
    entries: Entries,
    rejects: Rejects,
    last: u32,
    end: u32,
    keys: TakenKeys,
}

impl Judge {
    /// No unit was judged yet.
    pub(crate) fn new(alloc: Global) -> Judge
        ensures kept { AreKept result.keys }
        ensures within { IsWithin 0 result }
        ensures reflects { Reflects [] 0 result }
        ensures entries { result.entries ≡ [] }
        ensures rejects { result.rejects ≡ [] }
    {
        Judge {
            entries: Entries::new(alloc),
            rejects: Rejects::new(alloc),
            last: 0,
            end: 0,
            keys: TakenKeys::new(alloc),
        }
    }

    /// Judges what stands at an open unit, which is above those that were judged. After `Memory` nothing is known.
    pub(crate) fn add(
        &mut self,
        unit: u32,
        found: Result<Candidate<'_>, Reason>,
    ) -> Result<(), Memory>
        requires inside { unit < 2 ^ 31 }
        requires kept { AreKept self.old.keys }
        ensures kept { OnOk result (AreKept self.new.keys) }
        ensures within { OnOk result (IsWithin unit self.old → IsWithin (unit + 1) self.new) }
        ensures judges { OnOk result ((below : List Block) (s : Standing) → Reflects below unit self.old → IsRead unit found.entry s
            → Judges below unit self.old self.new (judged below s)) }
    {
        match found {
            Ok(candidate) => self.judge(unit, candidate),
            Err(reason) => self.reject(unit, reason),
        }
    }

    /// Judges a block.
    fn judge(&mut self, unit: u32, candidate: Candidate<'_>) -> Result<(), Memory>
        requires inside { unit < 2 ^ 31 }
        requires kept { AreKept self.old.keys }
        ensures kept { OnOk result (AreKept self.new.keys) }
        ensures within { OnOk result (IsWithin unit self.old → IsWithin (unit + 1) self.new) }
        ensures judges { OnOk result ((below : List Block) (s : Standing) → Reflects below unit self.old → IsRead unit (Ok candidate.entry) s
            → Judges below unit self.old self.new (judged below s)) }
    {
        if unit < self.end {
            let reason = Reason::Overlaps(self.last);
            return self.reject(unit, reason);
        }
        keys_are_told_apart_by_their_bytes();
        let key = candidate.key.as_slice();
        if let Some(other) = self.keys.put(candidate.entry.hash, key, unit)? {
            return self.reject(unit, Reason::KeyTaken(other));
        }
        self.end = unit + run_units(candidate.entry.exp);
        self.last = unit;
        self.entries.push(candidate.entry)
    }

    /// Puts a reject last.
    fn reject(&mut self, unit: u32, reason: Reason) -> Result<(), Memory>
        ensures { OnOk result (self.new ≡ record self.old { rejects = self.old.rejects ++ record { unit = unit; reason = reason } ∷ [] }) }
    {
        self.rejects.push(Reject { unit, reason })
    }

    /// What was found.
    pub(crate) fn into_found(self) -> Found
        ensures entries { result.entries ≡ self.entries }
        ensures rejects { result.rejects ≡ self.rejects }
    {
        Found {
            entries: self.entries,
            rejects: self.rejects,
        }
    }
}
