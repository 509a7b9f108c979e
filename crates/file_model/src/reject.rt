//! Open gates behind which no block of the table stands.

/// Why what stands at an open gate is no block of the table.
#[derive(Clone, Copy, Debug, PartialEq, Eq)]
pub enum Reason {
    /// Its head is not well formed.
    BadHead,
    /// Its unit is no multiple of its number of units.
    NotAligned,
    /// Its payload is no list that the table's kind allows for one key.
    BadPayload,
    /// The taken block at this unit covers its unit.
    Overlaps(u32),
    /// The taken block at this unit has its key.
    KeyTaken(u32),
}

/// An open gate that is not that of a taken block.
#[derive(Clone, Copy, Debug, PartialEq, Eq)]
pub struct Reject {
    pub unit: u32,
    pub reason: Reason,
}
