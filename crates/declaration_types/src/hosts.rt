//! Host functions.

ghost use Rattle.std.specs.Prelude.{◌≡◌, IfOk, map, position};
ghost use Rattle.std.specs.List.{list_any};
ghost use Rattle.std.specs.Option.{is_none};
ghost use Rattle.std.specs.Str.{bytes_eq};
ghost use Rattle.vocabulary.specs.declared.limits.TheConstants.{MOST_SCALE};
ghost use Rattle.type_rules.specs.Rules as rules;
ghost use Rattle.typed_tree.specs.Declarations as spec;
ghost use Rattle.typed_tree.specs.Literals as literals;
ghost use Rattle.typed_tree.specs.Names.{is_known};
ghost use Rattle.typed_tree.specs.Steps.{Leads};
ghost use Rattle.declaration_types.specs.Hosts.{numbered};

use crate::rules::{at_line, faultless, whole};
use host_table::HostName;
use sim_syntax::{Name, Num};
use std::alloc::Global;
use type_rules::TypeKind;
use typed_tree::{CheckFault, Environment, HostArguments, HostSignature, Meaning, Walk};
use vocabulary::limits::MOST_SCALE;
use vocabulary::{L, NoMemory};

/// The index of the first host function that has a name.
fn position_of(hosts: &[HostName], name: &str) -> Option<usize>
    ensures { result ≡ position (λ host. bytes_eq host.name name.now) hosts.now }
{
    hosts
        .iter()
        .position(|host| host.name.has_bytes(name.as_bytes()))
}

/// The number of a host function by its name.
fn number_of(hosts: &[HostName], name: &str) -> Option<usize>
    ensures { numbered hosts.now result ≡ spec.host_by_name hosts.now name.now }
{
    position_of(hosts, name)
}

/// Whether no host function has the number.
fn is_unknown(hosts: &[HostName], number: Option<usize>) -> bool
    ensures { result ≡ is_none (numbered hosts.now number) }
{
    match number {
        None => true,
        Some(number) => hosts.get(number).is_none(),
    }
}

/// The number, where a host function has it; else 0.
fn number_in(hosts: &[HostName], number: Option<usize>) -> usize
    ensures { result ≡ spec.number_in (numbered hosts.now number) }
{
    match number {
        None => 0,
        Some(number) => match hosts.get(number) {
            None => 0,
            Some(_) => number,
        },
    }
}

/// How many arguments the host function of the number takes; 0 where there is none.
fn arity_in(hosts: &[HostName], number: Option<usize>) -> u32
    ensures { result ≡ spec.arity_in (numbered hosts.now number) }
{
    match number {
        None => 0,
        Some(number) => match hosts.get(number) {
            None => 0,
            Some(host) => host.arity,
        },
    }
}

/// The scales as they are written; none where one isn't written as a whole number.
fn scales_of(alloc: Global, args: &[Num]) -> Result<L<Option<u64>>, NoMemory>
    ensures { IfOk result (λ scales. scales ≡ map literals.whole args.now) }
{
    let mut scales = L::empty(alloc);
    for digits in args {
        scales.push(whole(digits))?;
    }
    Ok(scales)
}

/// Whether a scale is over the limit.
fn is_scale_past(scale: Option<u64>) -> bool
    ensures { result ≡ rules.is_scale_past MOST_SCALE scale }
{
    match scale {
        None => false,
        Some(scale) => scale > u64::from(MOST_SCALE),
    }
}

/// Whether one of the scales isn't written as a whole number.
fn has_missing(scales: &[Option<u64>]) -> bool
    ensures { result ≡ list_any rules.is_missing scales.now }
{
    scales.iter().any(|scale| scale.is_none())
}

/// Whether one of the scales is over the limit.
fn has_past(scales: &[Option<u64>]) -> bool
    ensures { result ≡ list_any (rules.is_scale_past MOST_SCALE) scales.now }
{
    scales.iter().any(|scale| is_scale_past(*scale))
}

/// Whether there is neither one argument nor two.
fn are_not_one_or_two(scales: &[Option<u64>]) -> bool
    ensures { result ≡ is_none (spec.host_arguments scales.now) }
{
    match scales {
        [_] | [_, _] => false,
        _ => true,
    }
}

/// The fault of the declaration of a host function.
#[tactic(auto, unfolding(typed_tree::specs::Declarations::host_fault))]
fn host_fault(
    hosts: &[HostName],
    number: Option<usize>,
    is_taken: bool,
    scales: &[Option<u64>],
    answer: Option<u64>,
) -> Option<TypeKind>
    ensures { result ≡ spec.host_fault (numbered hosts.now number) is_taken scales.now answer }
{
    if is_unknown(hosts, number) {
        return Some(TypeKind::Unknown);
    }
    if is_taken {
        return Some(TypeKind::Twice);
    }
    if answer.is_none() || has_missing(scales) {
        return Some(TypeKind::NotConstant);
    }
    if scales.len() != arity_in(hosts, number) as usize || are_not_one_or_two(scales) {
        return Some(TypeKind::Shape);
    }
    if is_scale_past(answer) || has_past(scales) {
        return Some(TypeKind::Scale);
    }
    None
}

/// The fault of the declaration of the host function of a name.
fn declaration_fault(
    environment: &Environment<'_>,
    hosts: &[HostName],
    name: &Name,
    scales: &[Option<u64>],
    answer: Option<u64>,
) -> Option<TypeKind>
    ensures { result ≡ spec.host_fault (spec.host_by_name hosts.now name.now) (is_known environment.now.names name.now) scales.now answer }
{
    let number = number_of(hosts, name.as_str());
    let is_taken = environment.is_known(name.as_str());
    host_fault(hosts, number, is_taken, scales, answer)
}

/// The scale, where it is one. One that doesn't fit is out of memory.
fn scale_in(scale: Option<u64>) -> Result<u32, NoMemory>
    ensures { IfOk result (λ found. found ≡ rules.or_zero scale) }
{
    match scale {
        None => Ok(0),
        Some(scale) => u32::try_from(scale).map_err(|_| NoMemory),
    }
}

/// The scales of one argument or two; 0 as of one, where there are more.
fn host_arguments(scales: &[Option<u64>]) -> Result<HostArguments, NoMemory>
    ensures { IfOk result (λ arguments. arguments ≡ spec.stated (spec.host_arguments scales.now)) }
{
    match scales {
        [scale] => Ok(HostArguments::One(scale_in(*scale)?)),
        [first, second] => Ok(HostArguments::Two(scale_in(*first)?, scale_in(*second)?)),
        _ => Ok(HostArguments::One(0)),
    }
}

/// What the host function of a name takes and answers, at its number.
fn signature(
    hosts: &[HostName],
    name: &Name,
    scales: &[Option<u64>],
    answer: Option<u64>,
) -> Result<HostSignature, NoMemory>
    ensures { IfOk result (λ host. host ≡ record { number = spec.number_in (spec.host_by_name hosts.now name.now); arguments = spec.stated (spec.host_arguments scales.now); scale = rules.or_zero answer }) }
{
    let Ok(number) = u32::try_from(number_in(hosts, number_of(hosts, name.as_str()))) else {
        return Err(NoMemory);
    };
    let arguments = host_arguments(scales)?;
    let scale = scale_in(answer)?;
    Ok(HostSignature {
        number,
        arguments,
        scale,
    })
}

/// The declaration of a host function, which is one of those that the host offers.
#[tactic(auto, unfolding(typed_tree::specs::Declarations::host_decl))]
pub fn host_declaration<'a>(
    alloc: Global,
    hosts: &[HostName],
    line: u32,
    name: &'a Name,
    args: &[Num],
    answer: &Num,
    walk: &mut Walk<'a>,
) -> Result<(), CheckFault>
    ensures { Leads (spec.host_decl hosts.now line name.now args.now answer.now walk.old) result walk.new }
{
    let scales = scales_of(alloc, args)?;
    let scale = whole(answer);
    at_line(
        line,
        faultless(declaration_fault(&walk.environment, hosts, name, scales.items(), scale)),
    )?;
    let host = signature(hosts, name, scales.items(), scale)?;
    walk.name(name.as_str(), Meaning::Host(host))?;
    Ok(())
}
