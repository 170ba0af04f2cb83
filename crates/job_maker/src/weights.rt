ghost use Rattle.std.specs.Prelude.{◌≡◌, ◌≤◌, length};
ghost use Rattle.hypergraph.specs.Sets.{set_at};
ghost use Rattle.hypergraph.specs.SetValue.{column_at};
ghost use Rattle.job_maker.specs.Weighted.{weighted_sum};

use hypergraph::Sets;

/// The sum of the words of the second column of the first set, each times its element's number counted from 1, modulo
/// 2^64. This takes no memory.
pub fn weighted(sets: &Sets) -> u64
    requires set { 1 ≤ length sets.now }
    requires columns { 2 ≤ length (set_at sets.now 0).columns }
    ensures { result ≡ weighted_sum (column_at (set_at sets.now 0) 1) }
{
    sum_of(sets.column(0, 1))
}

/// The sum of the words, each times its number counted from 1, modulo 2^64.
#[tactic(auto, unfolding(crate::specs::Weighted::weighted_sum), using(crate::proofs::Ranges::sum_range_more))]
fn sum_of(words: &[u64]) -> u64
    ensures { result ≡ weighted_sum words.now }
{
    let mut sum = 0u64;
    for (i, word) in words.iter().enumerate() {
        let weight = i as u64 + 1;
        sum = sum.wrapping_add(weight.wrapping_mul(*word));
    }
    sum
}
