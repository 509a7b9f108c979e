//! The head of a block: eight bytes.
ghost use Rattle.std.specs.Prelude.{◌≡◌, ◌≤◌, ◌-◌, ◌==◌, ◌&&◌, length, take, slice_index, Some, IfSome, option_map};
ghost use Rattle.space_model.specs.Sizes.{head_size, segment_units};
ghost use Rattle.file_model.specs.Layout.{run_size};
ghost use Rattle.file_model.specs.Block.{is_well_formed, block_head};
ghost use Rattle.file_model.specs.BodyWrites.{head_bytes};
ghost use Rattle.block_disk.specs.BlockHeads.{head_of_pair};

use byteorder::{BigEndian, ByteOrder};

const MOST: u8 = 12;

/// How long the payload of a block of 2 to the power `exp` units may be.
fn payload_room(exp: u8) -> u32
    requires { exp ≤ 12 }
    ensures { result ≡ run_size exp - head_size }
{
    (64 << exp) - 8
}

/// The head of a block of 2 to the power `exp` units, whose payload has this length.
pub fn head_bytes(exp: u8, length: u32) -> [u8; 8]
    requires exponent { exp ≤ 12 }
    requires fits { length ≤ run_size exp - head_size }
    ensures bytes { result ≡ head_bytes exp length }
    ensures reads_back { block_head segment_units result ≡ Some (record { exp = exp; count = length }) }
{
    let mut head = [0; 8];
    head[0] = exp;
    BigEndian::write_u32(&mut head[4..], length);
    head
}

/// Whether the three bytes behind the exponent are zero.
fn has_zeros(head: &[u8; 8]) -> bool
    ensures { result ≡ (slice_index head.now 1 == 0 && (slice_index head.now 2 == 0 && slice_index head.now 3 == 0)) }
{
    head[1] == 0 && head[2] == 0 && head[3] == 0
}

/// Whether a block is no larger than a segment, and holds so long a payload.
fn is_well_formed(exp: u8, length: u32) -> bool
    ensures { result ≡ is_well_formed segment_units (record { exp = exp; count = length }) }
{
    exp <= MOST && length <= payload_room(exp)
}

/// The exponent and the length of the payload, where the head is well formed.
pub(crate) fn read_block_head(head: &[u8; 8]) -> Option<(u8, u32)>
    ensures given { option_map head_of_pair result ≡ block_head segment_units head.now }
    ensures well_formed { IfSome result (λ p. (p.0 ≤ 12) × (p.1 ≤ run_size p.0 - head_size)) }
{
    let exp = head[0];
    let length = BigEndian::read_u32(&head[4..]);
    if has_zeros(head) && is_well_formed(exp, length) {
        Some((exp, length))
    } else {
        None
    }
}

/// The head of the block whose bytes these are: its exponent and the length of its payload. None just where it is not well
/// formed.
pub fn head_in(bytes: &[u8]) -> Option<(u8, u32)>
    requires { head_size ≤ length bytes.now }
    ensures given { option_map head_of_pair result ≡ block_head segment_units (take head_size bytes.now) }
    ensures well_formed { IfSome result (λ p. (p.0 ≤ 12) × (p.1 ≤ run_size p.0 - head_size)) }
{
    let mut head = [0; 8];
    head.copy_from_slice(&bytes[..8]);
    read_block_head(&head)
}
