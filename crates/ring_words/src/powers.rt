//! Powers of ten.
ghost use Rattle.std.specs.Prelude.{◌≡◌, ◌^◌, ◌≤◌};

use vocabulary::limits::MOST_SCALE_CHANGE;

static POWERS: [u64; 19] = [
    1,
    10,
    100,
    1_000,
    10_000,
    100_000,
    1_000_000,
    10_000_000,
    100_000_000,
    1_000_000_000,
    10_000_000_000,
    100_000_000_000,
    1_000_000_000_000,
    10_000_000_000_000,
    100_000_000_000_000,
    1_000_000_000_000_000,
    10_000_000_000_000_000,
    100_000_000_000_000_000,
    1_000_000_000_000_000_000,
];

/// Ten to this power.
#[inline(always)]
pub fn power_of_ten(exponent: u32) -> u64
    requires { exponent ≤ MOST_SCALE_CHANGE }
    ensures value { result ≡ 10 ^ exponent }
    ensures bound { (1 ≤ result) × (result ≤ 10 ^ 18) }
{
    POWERS[exponent as usize]
}
