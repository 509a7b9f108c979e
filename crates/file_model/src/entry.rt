//! What is known of a taken block without its objects.

/// A block: the hash of its key, its run of 2 to the power `exp` units, and how many objects it has.
#[derive(Clone, Copy, Debug, PartialEq, Eq)]
pub struct Entry {
    pub hash: u32,
    pub unit: u32,
    pub exp: u8,
    pub count: u32,
}
