//! The writes that close the gates of rejects.
ghost use Rattle.std.specs.Prelude.{◌≡◌, ◌∷◌, []};
ghost use Rattle.space_model.specs.Sizes.{segment_units};
ghost use Rattle.file_model.specs.Layout.{closed_byte};
ghost use Rattle.file_model.specs.GateWrites.{gate_writes};
ghost use Rattle.repair_scan.specs.Found.{units_of_rejects};

use crate::Rejects;
use block_disk::{CLOSED, gate_at};
use host_model::Writes;

/// A write for each reject, of one byte.
#[derive(Drop)]
pub(crate) struct Closing<'a> {
    rejects: &'a Rejects,
    gate: [u8; 1],
    ghost closed: { gate ≡ closed_byte ∷ [] },
}

impl<'a> Closing<'a> {
    pub(crate) fn from_rejects(rejects: &'a Rejects) -> Closing<'a>
        ensures { result.rejects.now ≡ rejects.now }
    {
        Closing {
            rejects,
            gate: [CLOSED],
        }
    }
}

impl<'a> Writes for Closing<'a> {
    ghost list = { λ c. gate_writes segment_units closed_byte (units_of_rejects c.rejects.now) };

    fn count(&self) -> usize {
        self.rejects.len()
    }

    fn place(&self, i: usize) -> u64 {
        match self.rejects.get(i) {
            Some(reject) => gate_at(reject.unit),
            None => 0,
        }
    }

    fn bytes(&self, _i: usize) -> &[u8] {
        &self.gate
    }
}
