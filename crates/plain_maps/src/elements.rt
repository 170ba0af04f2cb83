//! A function over all elements of a set.

ghost use Rattle.std.specs.Prelude.{◌≡◌, ◌++◌, OnOk};
ghost use Rattle.algebra_meaning.specs.Assembled as spec;
ghost use Rattle.algebra_meaning.specs.Element as element_spec;
ghost use Rattle.algebra_meaning.specs.Linked.{linked};
ghost use Rattle.algebra_meaning.specs.Means.{Means};

use crate::assembly::all_assembled;
use crate::call::Call;
use crate::statements::contributions;
use algebra_meaning::{Contribution, ElementContext, LinkedProgram, Stopped, Trapped};
use host_table::HostMeaning;
use hypergraph::Sets;
use loop_laws::number_laws;
use std::alloc::Global;
use typed_tree::TypedFunction;
use value_algebra::{Value, count};
use vocabulary::{L, NoMemory};

/// Where a function runs at an element of a set.
pub fn place_of(function: &TypedFunction, set: u32, element: u32) -> ElementContext
    ensures { result ≡ spec.place_of function.now set element }
{
    ElementContext {
        own: function.element,
        ends: function.endpoints,
        mapped: set,
        element,
    }
}

/// What a function contributes at an element, or its trap there.
fn contributions_at<H: HostMeaning>(
    alloc: Global,
    call: &Call<'_, H>,
    function: &TypedFunction,
    args: &[Value],
) -> Result<L<Contribution>, Stopped<Trapped>>
    ensures { Means (spec.of_element call.now.place.element (element_spec.contributions (element_spec.call_in H.answer call.now) function.now args.now)) result }
{
    match contributions(alloc, call, function, args) {
        Ok(contributed) => Ok(contributed),
        Err(Stopped::By(kind)) => Err(Stopped::By(Trapped {
            element: call.place.element,
            kind,
        })),
        Err(Stopped::Memory) => Err(Stopped::Memory),
    }
}

/// What a function that is mapped to a set contributes at one of its elements, or its trap there.
fn element_contributions<H: HostMeaning>(
    alloc: Global,
    program: &LinkedProgram<'_, H>,
    sets: &Sets,
    set: u32,
    function: &TypedFunction,
    args: &[Value],
    element: u32,
) -> Result<L<Contribution>, Stopped<Trapped>>
    ensures { Means (spec.of_element element (spec.contributions_at (linked H.answer program.now) sets.now set function.now args.now element)) result }
{
    let call = Call {
        program,
        sets,
        place: place_of(function, set, element),
    };
    contributions_at(alloc, &call, function, args)
}

/// Appends contributions.
fn append(so_far: &mut L<Contribution>, more: L<Contribution>) -> Result<(), NoMemory>
    ensures { OnOk result (so_far.new ≡ so_far.old ++ more) }
{
    for one in more.into_vec() {
        so_far.push(one)?;
    }
    Ok(())
}

/// What all elements of a set contribute, in their order, or the trap of the least element that traps.
#[tactic(auto, unfolding(algebra_meaning::specs::Assembled::all_contributions), using(crate::proofs::Contributed::element_taken, crate::proofs::Contributed::element_stopped, crate::proofs::Contributed::elements_ended))]
fn all_contributions<H: HostMeaning>(
    alloc: Global,
    program: &LinkedProgram<'_, H>,
    sets: &Sets,
    set: u32,
    function: &TypedFunction,
    args: &[Value],
) -> Result<L<Contribution>, Stopped<Trapped>>
    ensures { Means (spec.all_contributions (linked H.answer program.now) sets.now set function.now args.now) result }
{
    number_laws::<L<Contribution>, Trapped>();
    let mut so_far = L::empty(alloc);
    for element in 0..count(sets, set) {
        let contributed = element_contributions(
            alloc, program, sets, set, function, args, element,
        )?;
        append(&mut so_far, contributed)?;
    }
    Ok(so_far)
}

/// The results of a function that is mapped to a set, by the values of its scalar arguments: each the sum of what all
/// elements contribute; or the least element that traps, with its trap.
#[tactic(auto, unfolding(algebra_meaning::specs::Assembled::mapped))]
pub fn mapped<H: HostMeaning>(
    alloc: Global,
    program: &LinkedProgram<'_, H>,
    sets: &Sets,
    set: u32,
    function: &TypedFunction,
    args: &[Value],
) -> Result<L<Value>, Stopped<Trapped>>
    ensures { Means (spec.mapped (linked H.answer program.now) sets.now set function.now args.now) result }
{
    let contributed = all_contributions(alloc, program, sets, set, function, args)?;
    let results = all_assembled(alloc, sets, contributed.items(), function.results.items())?;
    Ok(results)
}
