//! Declarations of every kind, one after the other.

ghost use Rattle.vocabulary.specs.Answers.{fold_result};
ghost use Rattle.typed_tree.specs.Steps.{Leads};
ghost use Rattle.typed_tree.specs.Declarations as spec;

use crate::elements::element_declaration;
use crate::functions::function_declaration;
use crate::hosts::host_declaration;
use crate::sets::set_declaration;
use host_table::HostName;
use sim_syntax::Decl;
use std::alloc::Global;
use typed_tree::{CheckFault, Walk};

/// A declaration, by what the host offers.
#[tactic(auto, unfolding(typed_tree::specs::Declarations::declaration))]
fn declaration<'a>(
    alloc: Global,
    hosts: &[HostName],
    declared: &'a Decl,
    walk: &mut Walk<'a>,
) -> Result<(), CheckFault>
    ensures { Leads (spec.declaration hosts.now walk.old declared.now) result walk.new }
{
    match declared {
        Decl::Element { line, name, fields } => {
            element_declaration(alloc, *line, name, fields.as_slice(), walk)
        }
        Decl::Set {
            line,
            name,
            element,
            ends,
        } => set_declaration(alloc, *line, name, element, ends.as_slice(), walk),
        Decl::Host {
            line,
            name,
            args,
            result,
        } => host_declaration(alloc, hosts, *line, name, args.as_slice(), result, walk),
        Decl::Func {
            line,
            name,
            params,
            results,
            body,
        } => function_declaration(
            alloc,
            *line,
            name,
            params.as_slice(),
            results.as_slice(),
            body.as_slice(),
            walk,
        ),
    }
}

/// Declarations, one after the other, by the names of the host functions.
#[tactic(auto, using(crate::proofs::Folds::one_more, crate::proofs::Folds::one_refused, crate::proofs::Folds::none_left))]
pub fn declarations<'a>(
    alloc: Global,
    hosts: &[HostName],
    declared: &'a [Decl],
    walk: &mut Walk<'a>,
) -> Result<(), CheckFault>
    ensures { Leads (fold_result (spec.declaration hosts.now) walk.old declared.now) result walk.new }
{
    for one in declared {
        declaration(alloc, hosts, one, walk)?;
    }
    Ok(())
}
