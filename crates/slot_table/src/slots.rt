//! The slot of a hash.
ghost use Rattle.std.specs.Prelude.{◌≡◌, ◌<◌, ◌≤◌};
ghost use Rattle.space_model.specs.Least.{log2};
ghost use Rattle.space_model.specs.Slots.{slot_of};

use space_model::run_laws::the_exponent_of_the_greatest_power_of_two;
use space_model::slot_laws::a_slot_is_below_the_number_of_slots;

/// The slot of a hash among at least one slot.
pub fn slot_of(hash: u32, slots: u32) -> u32
    requires { 1 ≤ slots }
    ensures value { result ≡ slot_of hash slots }
    ensures within { result < slots }
{
    a_slot_is_below_the_number_of_slots();
    let power = 1u64 << log2(slots);
    let upper = u64::from(hash) % (2 * power);
    if upper < u64::from(slots) {
        upper as u32
    } else {
        (u64::from(hash) % power) as u32
    }
}

/// The exponent of the greatest power of two that is at most a number.
fn log2(number: u32) -> u32
    requires { 1 ≤ number }
    ensures value { result ≡ log2 number }
    ensures within { result ≤ 31 }
{
    the_exponent_of_the_greatest_power_of_two();
    31 - number.leading_zeros()
}
