//! The pages of a segment of zeros.
ghost use Rattle.std.specs.Prelude.{◌≡◌, ◌≤◌, ◌+◌, ◌*◌, ◌^◌};
ghost use Rattle.file_model.specs.Layout.{page_size};
ghost use Rattle.block_disk.specs.Zeroed.{zeros, zero_pages};

use crate::places::PAGE_BYTES;
use host_model::Writes;

/// A segment has one page for its gates and 64 for its units.
const PAGES: usize = 65;

/// Pages of zeros from a place on.
#[derive(Drop)]
pub(crate) struct ZeroPages {
    at: u64,
    page: [u8; 4096],
    ghost in_range: { at ≤ 2 ^ 60 },
    ghost is_zero: { page ≡ zeros page_size },
}

impl ZeroPages {
    #[tactic(auto, unfolding(crate::specs::Zeroed::zeros))]
    pub(crate) fn from_place(at: u64) -> ZeroPages
        requires { at ≤ 2 ^ 60 }
        ensures { result.at ≡ at }
    {
        ZeroPages {
            at,
            page: [0; 4096],
        }
    }
}

impl Writes for ZeroPages {
    ghost list = { λ z. zero_pages page_size z.at 65 };

    fn count(&self) -> usize {
        PAGES
    }

    fn place(&self, i: usize) -> u64 {
        self.at + PAGE_BYTES * i as u64
    }

    fn bytes(&self, _i: usize) -> &[u8] {
        &self.page
    }
}
