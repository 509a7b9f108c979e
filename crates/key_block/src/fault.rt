ghost use Rattle.std.specs.Prelude.{◌≡◌};
ghost use Rattle.key_block.specs.declared.fault.PackFault.TheVariants.{Memory as NoMemoryToPack};
ghost use Rattle.key_block.specs.declared.fault.BlockFault.TheVariants.{Memory as NoMemoryToUnpack};
ghost use Rattle.key_block.specs.Refusal.{refusal};

use etf_codec::EtfFault;
use std::alloc::AllocError;

/// Why objects are not packed.
#[derive(Clone, Copy, Debug, PartialEq, Eq)]
pub enum PackFault {
    /// Their list has more than 262,136 bytes.
    TooLarge,
    Memory,
}

/// Why a payload has no objects of one key. The first that holds is answered.
#[derive(Clone, Copy, Debug, PartialEq, Eq)]
pub enum BlockFault {
    /// Its bytes spell no term, or some are left behind one.
    NotTerm,
    /// The term is no proper list of at least one object.
    NotObjects,
    /// An object has another key than the first.
    KeysDiffer,
    /// A set has two objects, a bag's do not ascend strictly, or a duplicate bag's do not ascend.
    Order,
    Memory,
}

impl From<AllocError> for PackFault {
    ghost from_gives = { λ _ e. e ≡ NoMemoryToPack };

    fn from(_error: AllocError) -> PackFault {
        PackFault::Memory
    }
}

impl From<AllocError> for BlockFault {
    ghost from_gives = { λ _ e. e ≡ NoMemoryToUnpack };

    fn from(_error: AllocError) -> BlockFault {
        BlockFault::Memory
    }
}

impl From<EtfFault> for BlockFault {
    ghost from_gives = { λ fault e. e ≡ refusal fault };

    fn from(fault: EtfFault) -> BlockFault {
        match fault {
            EtfFault::Memory => BlockFault::Memory,
            _ => BlockFault::NotTerm,
        }
    }
}
