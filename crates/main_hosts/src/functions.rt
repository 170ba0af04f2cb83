//! The functions. Words are read as signed numbers.
ghost use Rattle.std.specs.Prelude.{◌≡◌};
ghost use Rattle.main_hosts.specs.Functions as spec;

use ring_words::{add, less, mul};

/// The word, or 0 where it is negative.
pub fn clamp0(a: u64) -> u64
    ensures { result ≡ spec.clamp0 a }
{
    if less(a, 0) { 0 } else { a }
}

/// The lesser of two words.
pub fn least(a: u64, b: u64) -> u64
    ensures { result ≡ spec.least a b }
{
    if less(b, a) { b } else { a }
}

/// The greater of two words.
pub fn most(a: u64, b: u64) -> u64
    ensures { result ≡ spec.most a b }
{
    if less(a, b) { b } else { a }
}

/// One step of a linear congruential generator of 64 bits.
pub fn mix(a: u64) -> u64
    ensures { result ≡ spec.mix a }
{
    add(mul(a, 6_364_136_223_846_793_005), 1_442_695_040_888_963_407)
}

/// The square of a word, modulo 2^64.
pub fn square(a: u64) -> u64
    ensures { result ≡ spec.square a }
{
    mul(a, a)
}
