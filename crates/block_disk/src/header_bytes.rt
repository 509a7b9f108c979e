//! The body of a header, written and read.
ghost use Rattle.std.specs.Prelude.{◌≡◌, ◌≤◌, ◌+◌, ◌*◌, true, slice_range, IfOk};
ghost use Rattle.std.specs.Str.{bytes_eq};
ghost use Rattle.file_model.specs.Header.{body_of, magic, number_at, has_zeros, head_with, head_in};
ghost use Rattle.file_model.specs.Header.{state_number, state_of, kind_number, kind_of, is_allowed, if_allowed, may_name, index_number, index_of};

use byteorder::{BigEndian, ByteOrder};
use file_model::{FileState, Head, Unreadable};
use term_model::Kind;

const MAGIC: [u8; 4] = [68, 84, 66, 76];

const THE_VERSION: u8 = 1;

const NO_UNIT: u32 = 4_294_967_295;

fn state_number(state: FileState) -> u8
    ensures { result ≡ state_number state }
{
    match state {
        FileState::Closed => 0,
        FileState::Dirty => 1,
    }
}

fn kind_number(kind: Kind) -> u8
    ensures { result ≡ kind_number kind }
{
    match kind {
        Kind::Set => 0,
        Kind::Bag => 1,
        Kind::DuplicateBag => 2,
    }
}

fn state_of(number: u8) -> Option<FileState>
    ensures { result ≡ state_of number }
{
    match number {
        0 => Some(FileState::Closed),
        1 => Some(FileState::Dirty),
        _ => None,
    }
}

fn kind_of(number: u8) -> Option<Kind>
    ensures { result ≡ kind_of number }
{
    match number {
        0 => Some(Kind::Set),
        1 => Some(Kind::Bag),
        2 => Some(Kind::DuplicateBag),
        _ => None,
    }
}

fn index_of(number: u32) -> Option<u32>
    ensures { result ≡ index_of number }
{
    if number == NO_UNIT {
        None
    } else {
        Some(number)
    }
}

fn index_number(index: Option<u32>) -> u32
    ensures { result ≡ index_number index }
{
    match index {
        Some(unit) => unit,
        None => NO_UNIT,
    }
}

/// The body of a header.
pub(crate) fn body_bytes(head: &Head) -> [u8; 32]
    ensures { result ≡ body_of head.now }
{
    let mut body = [0; 32];
    body[..4].copy_from_slice(&MAGIC);
    body[4] = head.version;
    body[5] = state_number(head.state);
    body[6] = kind_number(head.kind);
    BigEndian::write_u32(&mut body[8..], head.keypos);
    BigEndian::write_u32(&mut body[12..], head.segments);
    BigEndian::write_u32(&mut body[16..], head.max_segments);
    BigEndian::write_u32(&mut body[20..], index_number(head.index));
    body
}

/// Whether the index may stand there.
fn may_name(state: FileState, segments: u32, index: Option<u32>) -> bool
    requires { segments ≤ 8000 }
    ensures { result ≡ may_name state (4096 * segments) index }
{
    match (state, index) {
        (_, None) => true,
        (FileState::Dirty, Some(_)) => false,
        (FileState::Closed, Some(unit)) => unit < 4096 * segments,
    }
}

/// Whether the fields are in range.
fn is_allowed(head: &Head) -> bool
    ensures { result ≡ is_allowed head.now }
{
    head.version == THE_VERSION
        && 1 <= head.keypos
        && head.keypos <= 65_535
        && 1 <= head.max_segments
        && head.max_segments <= 8000
        && head.segments <= head.max_segments
        && may_name(head.state, head.segments, head.index)
}

/// The header itself, where its fields are in range.
fn if_allowed(head: Head) -> Result<Head, Unreadable>
    ensures value { result ≡ if_allowed head }
    ensures allowed { IfOk result (λ h. is_allowed h ≡ true) }
{
    if is_allowed(&head) {
        Ok(head)
    } else {
        Err(Unreadable::NotDets)
    }
}

/// Whether its first bytes are those of every header.
fn has_magic(body: &[u8; 32]) -> bool
    ensures { result ≡ bytes_eq (slice_range body.now 0 4) magic }
{
    &body[..4] == MAGIC.as_slice()
}

/// Whether the bytes are zero that are to be.
fn has_zeros(body: &[u8; 32]) -> bool
    ensures { result ≡ has_zeros body.now }
{
    body[7] == 0 && body[24..32].iter().all(|b| *b == 0)
}

/// The number in the four bytes from a place on.
fn number_at(body: &[u8; 32], at: usize) -> u32
    requires { at + 4 ≤ 32 }
    ensures { result ≡ number_at body.now at }
{
    BigEndian::read_u32(&body[at..])
}

/// The header of a body that has this state and kind.
fn head_with(body: &[u8; 32], state: FileState, kind: Kind) -> Result<Head, Unreadable>
    ensures value { result ≡ head_with body.now (Some state) (Some kind) }
    ensures allowed { IfOk result (λ h. is_allowed h ≡ true) }
{
    if_allowed(Head {
        version: THE_VERSION,
        state,
        kind,
        keypos: number_at(body, 8),
        segments: number_at(body, 12),
        max_segments: number_at(body, 16),
        index: index_of(number_at(body, 20)),
    })
}

/// The header of a body.
pub(crate) fn head_in(body: &[u8; 32]) -> Result<Head, Unreadable>
    ensures value { result ≡ head_in body.now }
    ensures allowed { IfOk result (λ h. is_allowed h ≡ true) }
{
    if !has_magic(body) {
        return Err(Unreadable::NotDets);
    }
    if body[4] != THE_VERSION {
        return Err(Unreadable::Version(body[4]));
    }
    if !has_zeros(body) {
        return Err(Unreadable::NotDets);
    }
    match (state_of(body[5]), kind_of(body[6])) {
        (Some(state), Some(kind)) => head_with(body, state, kind),
        _ => Err(Unreadable::NotDets),
    }
}
