//! Maps whose functions run on words: an element's contributions are added as they come, and no value is made of them.

ghost use Rattle.std.specs.Prelude.{◌≡◌, List};
ghost use Rattle.algebra_meaning.specs.declared.contribution.Contribution as contribution;
ghost use Rattle.algebra_meaning.specs.Assembled as spec;
ghost use Rattle.algebra_meaning.specs.Element as element_spec;
ghost use Rattle.algebra_meaning.specs.Linked.{linked};
ghost use Rattle.algebra_meaning.specs.Means.{Means};
ghost use Rattle.proc_engine.specs.Running.{Adds};

use crate::word_statements::in_order;
use algebra_meaning::{Contribution, LinkedProgram, Stopped, Trapped};
use assembly_sums::Sums;
use global_algebra::Maps;
use host_table::HostMeaning;
use hypergraph::Sets;
use loop_laws::number_laws;
use plain_maps::{Call, place_of};
use ring_words::TrapKind;
use std::alloc::Global;
use typed_tree::TypedFunction;
use value_algebra::{Value, count};
use vocabulary::L;
use word_stacks::Locals;

/// What a function contributes at an element is added to the sums; or its first trap.
#[tactic(auto, unfolding(algebra_meaning::specs::Element::contributions))]
fn contribute<H: HostMeaning>(
    call: &Call<'_, H>,
    function: &TypedFunction,
    args: &[Value],
    locals: &mut Locals,
    sums: &mut Sums,
    stack: &mut Vec<u64>,
) -> Result<(), Stopped<TrapKind>>
    ensures { (before : List contribution.Contribution) → sums.old ≡ spec.all_assembled call.now.sets before 0 function.now.results
        → Adds call.now.sets function.now.results before (element_spec.contributions (element_spec.call_in H.answer call.now) function.now args.now) result sums.new }
{
    locals.restart(args)?;
    in_order(
        function.body.as_slice(),
        call,
        function.results.items(),
        locals,
        sums,
        stack,
    )
}

/// The same, by the element: where it traps, it is named.
fn contribute_at<H: HostMeaning>(
    call: &Call<'_, H>,
    function: &TypedFunction,
    args: &[Value],
    locals: &mut Locals,
    sums: &mut Sums,
    stack: &mut Vec<u64>,
) -> Result<(), Stopped<Trapped>>
    ensures { (before : List contribution.Contribution) → sums.old ≡ spec.all_assembled call.now.sets before 0 function.now.results
        → Adds call.now.sets function.now.results before (spec.of_element call.now.place.element (element_spec.contributions (element_spec.call_in H.answer call.now) function.now args.now)) result sums.new }
{
    match contribute(call, function, args, locals, sums, stack) {
        Ok(()) => Ok(()),
        Err(Stopped::By(kind)) => Err(Stopped::By(Trapped {
            element: call.place.element,
            kind,
        })),
        Err(Stopped::Memory) => Err(Stopped::Memory),
    }
}

/// What a function that is mapped to a set contributes at one of its elements is added to the sums; or its trap there.
fn add_element<H: HostMeaning>(
    program: &LinkedProgram<'_, H>,
    sets: &Sets,
    set: u32,
    element: u32,
    function: &TypedFunction,
    args: &[Value],
    locals: &mut Locals,
    sums: &mut Sums,
    stack: &mut Vec<u64>,
) -> Result<(), Stopped<Trapped>>
    ensures { (before : List contribution.Contribution) → sums.old ≡ spec.all_assembled sets.now before 0 function.now.results
        → Adds sets.now function.now.results before (spec.of_element element (spec.contributions_at (linked H.answer program.now) sets.now set function.now args.now element)) result sums.new }
{
    let call = Call {
        program,
        sets,
        place: place_of(function, set, element),
    };
    contribute_at(&call, function, args, locals, sums, stack)
}

/// The sums of what all elements of a set contribute, or the least element that traps, with its trap.
#[tactic(auto, using(crate::proofs::Elements::elements_begun))]
fn all_sums<H: HostMeaning>(
    alloc: Global,
    program: &LinkedProgram<'_, H>,
    sets: &Sets,
    set: u32,
    function: &TypedFunction,
    args: &[Value],
) -> Result<Sums, Stopped<Trapped>>
    ensures { Means (spec.mapped (linked H.answer program.now) sets.now set function.now args.now) result }
{
    number_laws::<L<Contribution>, Trapped>();
    let mut sums = Sums::zeros(alloc, sets, function.results.items())?;
    let mut locals = Locals::new(alloc);
    let mut stack = Vec::new(alloc);
    for element in 0..count(sets, set) {
        add_element(
            program,
            sets,
            set,
            element,
            function,
            args,
            &mut locals,
            &mut sums,
            &mut stack,
        )?;
    }
    Ok(sums)
}

/// Functions run on words, and contributions are added as they come.
#[derive(Clone, Copy, Debug)]
pub(crate) struct WordMaps;

impl Maps for WordMaps {
    fn mapped<H: HostMeaning>(
        &self,
        alloc: Global,
        program: &LinkedProgram<'_, H>,
        sets: &Sets,
        set: u32,
        function: &TypedFunction,
        args: &[Value],
    ) -> Result<L<Value>, Stopped<Trapped>> {
        let sums = all_sums(alloc, program, sets, set, function, args)?;
        Ok(sums.into_values())
    }
}
