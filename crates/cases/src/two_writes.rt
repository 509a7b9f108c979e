//! Two writes that are made lasting together.
ghost use Rattle.std.specs.Prelude.{◌≤◌, length, IsTrue};

use crate::fault::Fault;
use crate::line::Line;
use host_model::Writes;

/// Two writes, one after the other.
#[derive(Drop)]
pub struct TwoWrites {
    pub first: u64,
    pub first_bytes: Vec<u8>,
    pub second: u64,
    pub second_bytes: Vec<u8>,
}

impl TwoWrites {
    /// `AT BYTES AT BYTES`
    pub fn of(line: &mut Line) -> Result<TwoWrites, Fault> {
        Ok(TwoWrites {
            first: line.number()?,
            first_bytes: line.bytes()?,
            second: line.number()?,
            second_bytes: line.bytes()?,
        })
    }

    /// Whether both begin inside a file, or at its end.
    pub fn begin_inside(&self, file: &[u8]) -> bool
        ensures first { IsTrue result → self.now.first ≤ length file.now }
        ensures second { IsTrue result → self.now.second ≤ length file.now }
    {
        let end = file.len() as u64;
        self.first <= end && self.second <= end
    }
}

impl Writes for TwoWrites {
    ghost use Rattle.std.specs.Prelude.{[], ◌∷◌};

    ghost list = { λ w. (record { at = w.first; bytes = w.first_bytes.items })
        ∷ (record { at = w.second; bytes = w.second_bytes.items }) ∷ [] };

    fn count(&self) -> usize {
        2
    }

    fn place(&self, i: usize) -> u64 {
        if i == 0 { self.first } else { self.second }
    }

    fn bytes(&self, i: usize) -> &[u8] {
        if i == 0 {
            &self.first_bytes
        } else {
            &self.second_bytes
        }
    }
}
