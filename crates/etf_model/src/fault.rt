ghost use Rattle.std.specs.Prelude.{◌≡◌};
ghost use Rattle.etf_model.specs.declared.fault.EtfFault.TheVariants.{Memory as OutOfMemory};

use std::alloc::AllocError;

/// Why bytes are not read as a term. Each offset is that of the tag of the term that is named.
#[derive(Clone, Copy, Debug, PartialEq, Eq)]
pub enum EtfFault {
    /// The bytes end before the term does, and break no rule.
    Short,
    /// The first byte is not 131.
    NotVersion(u64),
    /// A tag that is not allowed in its place.
    Unsupported(u64, u8),
    /// The term is compressed.
    Compressed(u64),
    /// An integer outside -2^127 .. 2^127 - 1.
    IntegerRange(u64),
    /// An atom that is not UTF-8 or has more than 255 characters.
    BadAtom(u64),
    /// A bit string whose number of used bits is not 1 to 8, or which has no byte.
    BadBits(u64),
    /// A key that equals an earlier key of the same map.
    RepeatedKey(u64),
    /// A term at level 256 that has parts.
    Depth(u64),
    /// 16,777,216 bytes that spell no whole term and break no rule.
    LongTerm(u64),
    Memory,
}

impl From<AllocError> for EtfFault {
    ghost from_gives = { λ _ e. e ≡ OutOfMemory };

    fn from(_error: AllocError) -> EtfFault {
        EtfFault::Memory
    }
}
