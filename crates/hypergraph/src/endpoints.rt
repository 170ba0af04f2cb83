//! The check of endpoints.
ghost use Rattle.std.specs.Prelude.{◌≡◌, ◌<◌, ◌≤◌, IfSome, MatchOption, length};
ghost use Rattle.vocabulary.specs.declared.limits.TheConstants.{MOST_SETS};
ghost use Rattle.hypergraph.specs.Sets.{AreSets, AllLieOverEarlier, count_over};
ghost use Rattle.hypergraph.specs.BadEndpoint.{IsFirstBad};

use crate::{BadEndpoint, SetData};

/// The first endpoint of these sets that isn't below the count of the set that it lies in.
pub(crate) fn first_bad(sets: &[SetData]) -> Option<BadEndpoint>
    requires few { length sets.now ≤ MOST_SETS }
    requires over_earlier { AllLieOverEarlier sets.now }
    ensures { MatchOption result (AreSets sets.now) (λ bad. IsFirstBad sets.now bad) }
{
    for (number, set) in sets.iter().enumerate() {
        let bad = set.first_bad(number as u32, bound_over(sets, set.over()));
        if bad.is_some() {
            return bad;
        }
    }
    None
}

/// How many elements the set has in which endpoints lie; 0 where there are none.
fn bound_over(sets: &[SetData], over: Option<u32>) -> u32
    requires { IfSome over (λ over. over < length sets.now) }
    ensures { result ≡ count_over sets.now over }
{
    match over {
        None => 0,
        Some(over) => sets[over as usize].count(),
    }
}
