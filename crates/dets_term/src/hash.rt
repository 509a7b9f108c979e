ghost use Rattle.std.specs.Prelude.{◌≡◌};
ghost use Rattle.term_model.specs.Hash.{hash_of};

const BASIS: u32 = 2_166_136_261;

const PRIME: u32 = 16_777_619;

/// The hash FNV-1a of 32 bits.
pub fn hash_bytes(bytes: &[u8]) -> u32
    ensures { result ≡ hash_of bytes.now }
{
    let mut hash = BASIS;
    for byte in bytes {
        hash = (hash ^ u32::from(*byte)).wrapping_mul(PRIME);
    }
    hash
}
