//! How many words the dense matrices of runs take: worked out by hand, and by conformance/reference.py.
use crate::graphs::{DECLARATIONS, OVER_LINKS, graph, points_alone};
use crate::typing::typed;
use dense_sizes::dense_words;
use hypergraph::Sets;
use std::process::Abort;
use std::test::Fail;
use worked_texts::{GRADIENTS, POINTS_AND_SPRINGS, PULLING, STIFF, STIFFNESS};

/// Sums, products, transposes and other scales: 13 matrices, of which K and H are variables.
const SUMS: &str = "proc main
  var K = map stiff to springs reduce +;
  var H = K + K';
  points.f = (H*K - 2*K')*points.x;
  points.x = rescale((K - H*3)', 0)*points.f;
  assert dot(K*K*points.x, (-K)*points.x) <= 0;
end
";

/// A copy is a variable of its own, and a name has no value of its own.
const COPY: &str = "proc main
  var K = map stiff to springs reduce +;
  var H = K;
  points.f = K*points.x + H*points.x;
end
";

/// The parts of a program, how many points there are, and the words.
static WORDS: [(&[&str], u32, u128); 9] = [
    (&[PULLING], 3, 0),
    (&[STIFFNESS], 3, 9),
    (&[STIFFNESS], 2048, 4_194_304),
    (&[STIFFNESS], 2049, 4_198_401),
    (&[GRADIENTS], 2, 108),
    (&[GRADIENTS], 100, 270_000),
    (&[POINTS_AND_SPRINGS, STIFF, SUMS], 3, 117),
    (&[POINTS_AND_SPRINGS, STIFF, COPY], 3, 18),
    (&[POINTS_AND_SPRINGS, STIFF, SUMS], 0, 0),
];

/// Over four points and six links: K and K' have 64 words, and so has K*K'; M and M' have 24, M' twice, and Q has 16.
const TWO_SIDES: &str = "end
proc main
  var b, e, K, M = map f(1) to ls reduce +;
  ps.v = K*K'*ps.v;
  var Q = M'*M;
  ps.x = Q*ps.x - M'*ls.k;
end
";

/// Asserts how many words the matrices of a program over sets take.
fn assert_words(
    rt: &(impl Abort + AllocGlobal),
    parts: &[&str],
    sets: &Sets,
    words: u128,
) -> Result<(), Fail> {
    let text = parts.concat(rt.alloc())?;
    let typed = typed(rt, text.as_str())?;
    let found = dense_words(typed.typed_program(), sets);
    assert_eq!(rt; found, words, "words of {text}");
    Ok(())
}

#[test]
fn words_of_dense_matrices(rt: HostRuntime) -> Result<(), Fail> {
    for (parts, count, words) in &WORDS {
        assert!(rt; *count <= 4096);
        let sets = points_alone(rt.alloc(), *count)?;
        assert_words(&rt, parts, &sets, *words)?;
    }
    let sets = graph(rt.alloc())?;
    assert_words(&rt, &[DECLARATIONS, OVER_LINKS, TWO_SIDES], &sets, 280)
}
