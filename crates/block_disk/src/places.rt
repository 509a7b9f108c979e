//! Where the parts of a file stand: the layout of `file_model`, computed.
ghost use Rattle.std.specs.Prelude.{◌≡◌, ◌+◌, min};
ghost use Rattle.file_model.specs.Layout.{copy_at, body_at, segment_at, gate_at, unit_at, segments_within};
ghost use Rattle.space_model.specs.Sizes.{segment_units};

/// An open gate. Every other byte is a closed one.
pub const OPEN: u8 = 165;

/// The byte that a gate is closed with.
pub const CLOSED: u8 = 0;

pub(crate) const PAGE_BYTES: u64 = 4096;

const SEGMENT_BYTES: u64 = 266_240;

const UNITS: u32 = 4096;

pub(crate) fn copy_at(second: bool) -> u64
    ensures { result ≡ copy_at second }
{
    if second { 512 } else { 0 }
}

pub(crate) fn body_at(second: bool) -> u64
    ensures { result ≡ body_at second }
{
    copy_at(second) + 16
}

pub(crate) fn segment_at(segment: u32) -> u64
    ensures { result ≡ segment_at segment_units segment }
{
    PAGE_BYTES + SEGMENT_BYTES * u64::from(segment)
}

/// Where the gate of a unit stands, in bytes from the front of the file.
pub fn gate_at(unit: u32) -> u64
    ensures { result ≡ gate_at segment_units unit }
{
    segment_at(unit / UNITS) + u64::from(unit % UNITS)
}

/// Where the units of a segment begin.
pub(crate) fn units_at(segment: u32) -> u64
    ensures { result ≡ segment_at segment_units segment + segment_units }
{
    segment_at(segment) + u64::from(UNITS)
}

/// Where a unit begins.
pub fn unit_at(unit: u32) -> u64
    ensures { result ≡ unit_at segment_units unit }
{
    units_at(unit / UNITS) + 64 * u64::from(unit % UNITS)
}

/// How many of so many segments lie wholly in a file of this length.
pub(crate) fn whole_segments(segments: u32, len: u64) -> u32
    ensures { result ≡ min segments (segments_within segment_units len) }
{
    let within = len.saturating_sub(PAGE_BYTES) / SEGMENT_BYTES;
    u64::from(segments).min(within) as u32
}
