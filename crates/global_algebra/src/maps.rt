//! How the results of maps are computed.

ghost use Rattle.algebra_meaning.specs.Assembled as spec;
ghost use Rattle.algebra_meaning.specs.Linked.{linked};
ghost use Rattle.algebra_meaning.specs.Means.{Means};

use algebra_meaning::{LinkedProgram, Stopped, Trapped};
use host_table::HostMeaning;
use hypergraph::Sets;
use plain_maps::mapped;
use std::alloc::Global;
use typed_tree::TypedFunction;
use value_algebra::Value;
use vocabulary::L;

/// A way to compute the results of maps.
pub trait Maps {
    /// The results of a function that is mapped to a set, by the values of its scalar arguments; or the least element that
    /// traps, with its trap.
    fn mapped<H: HostMeaning>(
        &self,
        alloc: Global,
        program: &LinkedProgram<'_, H>,
        sets: &Sets,
        set: u32,
        function: &TypedFunction,
        args: &[Value],
    ) -> Result<L<Value>, Stopped<Trapped>>
        ensures { Means (spec.mapped (linked H.answer program.now) sets.now set function.now args.now) result };
}

/// By the definition: the contributions of all elements are kept in a list, and then summed.
#[derive(Clone, Copy, Debug)]
pub struct PlainMaps;

impl Maps for PlainMaps {
    fn mapped<H: HostMeaning>(
        &self,
        alloc: Global,
        program: &LinkedProgram<'_, H>,
        sets: &Sets,
        set: u32,
        function: &TypedFunction,
        args: &[Value],
    ) -> Result<L<Value>, Stopped<Trapped>> {
        mapped(alloc, program, sets, set, function, args)
    }
}
