//! The laws of finite sums over lists. Each call does nothing: the laws are its contract.
ghost use Rattle.vocabulary.specs.Sums.{SumLaws, DoubleSumLaws, RangeSumLaws};

/// The laws of sums over one list.
pub fn sum_laws<A>()
    ensures { SumLaws A }
{}

/// The laws of sums over two lists.
pub fn double_sum_laws<A, B>()
    ensures { DoubleSumLaws A B }
{}

/// The laws of sums over the numbers below a bound.
pub fn range_sum_laws()
    ensures { RangeSumLaws }
{}
