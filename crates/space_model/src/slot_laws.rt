//! The slot of a hash: laws and worked rows, as contracts of functions that do nothing.
ghost use Rattle.std.specs.Prelude.{◌≡◌, ◌≤◌, ◌<◌, ◌⊎◌, ℕ, ◌+◌, ◌-◌, ◌^◌};
ghost use Rattle.space_model.specs.Least.{log2};
ghost use Rattle.space_model.specs.Slots.{slot_of};

/// A slot is one of the slots.
#[tactic(auto, using(crate::proofs::Splits::slot_below))]
pub fn a_slot_is_below_the_number_of_slots()
    ensures { (hash slots : ℕ) → 1 ≤ slots → slot_of hash slots < slots }
{}

/// With one more slot a hash keeps its slot, unless it comes from the one slot that is split into the new one.
#[tactic(auto, using(crate::proofs::Splits::grown))]
pub fn one_more_slot_splits_one_slot()
    ensures { (hash slots : ℕ) → 1 ≤ slots
        → (slot_of hash (slots + 1) ≡ slot_of hash slots) ⊎ ((slot_of hash (slots + 1) ≡ slots) × (slot_of hash slots ≡ slots - 2 ^ log2 slots)) }
{}

/// Hashes among 1, 6, 256 and 400 slots.
pub fn slots_of_small_numbers()
    ensures one_slot { slot_of 12345 1 ≡ 0 }
    ensures there { slot_of 13 6 ≡ 5 }
    ensures not_there { slot_of 14 6 ≡ 2 }
    ensures power_of_two { slot_of 1000 256 ≡ 232 }
    ensures above { slot_of 1000 400 ≡ 232 }
    ensures behind_the_power { slot_of 300 400 ≡ 300 }
    ensures split { slot_of 256 257 ≡ 256 }
    ensures before_the_split { slot_of 256 256 ≡ 0 }
{}
