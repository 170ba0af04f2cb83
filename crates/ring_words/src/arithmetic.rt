ghost use Rattle.std.specs.Prelude.{◌≡◌, ◌^◌, not, nat_lt};
ghost use Rattle.ring_words.specs.Word as words;

/// The sum of two words, modulo 2^64.
#[inline]
#[tactic(auto, unfolding(crate::specs::Word::add))]
pub fn add(a: u64, b: u64) -> u64
    ensures { result ≡ words.add a b }
{
    a.wrapping_add(b)
}

/// The difference of two words, modulo 2^64.
#[inline]
#[tactic(auto, unfolding(crate::specs::Word::sub))]
pub fn sub(a: u64, b: u64) -> u64
    ensures { result ≡ words.sub a b }
{
    a.wrapping_sub(b)
}

/// The product of two words, modulo 2^64.
#[inline]
#[tactic(auto, unfolding(crate::specs::Word::mul))]
pub fn mul(a: u64, b: u64) -> u64
    ensures { result ≡ words.mul a b }
{
    a.wrapping_mul(b)
}

/// The word that, added to `a`, gives 0 modulo 2^64.
#[inline]
#[tactic(auto, unfolding(crate::specs::Word::neg))]
pub fn neg(a: u64) -> u64
    ensures { result ≡ words.neg a }
{
    a.wrapping_neg()
}

/// Whether `a` is less than `b` by their signed readings.
#[inline]
#[tactic(auto, unfolding(crate::specs::Word::is_less))]
pub fn less(a: u64, b: u64) -> bool
    ensures { result ≡ words.is_less a b }
{
    a.cast_signed() < b.cast_signed()
}

/// Whether the signed reading of a word is below 0.
#[inline(always)]
pub fn is_negative(w: u64) -> bool
    ensures { result ≡ not (nat_lt w (2 ^ 63)) }
{
    w >= 1 << 63
}
