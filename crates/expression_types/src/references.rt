//! What names stand for where a value is asked, and the types of references.

ghost use Rattle.std.specs.Prelude.{◌≡◌, ◌++◌, map, Ok, Err, IfOk, if◌then◌else◌};
ghost use Rattle.type_rules.specs.declared.types.TypeKind.TheVariants.{Shape};
ghost use Rattle.type_rules.specs.Rules as rules;
ghost use Rattle.type_rules.specs.Rules.{is_empty};
ghost use Rattle.type_rules.specs.declared.types.NodeType.TheVariants as type;
ghost use Rattle.type_rules.specs.declared.types.BlockShape.TheVariants as block;
ghost use Rattle.typed_tree.specs.declared.expression.Referent.TheVariants as referent;
ghost use Rattle.typed_tree.specs.Expressions as spec;
ghost use Rattle.typed_tree.specs.Steps.{Walks};
ghost use Rattle.expression_types.specs.Parts as parts;

use crate::blocks::types_of;
use crate::nodes::{at_line, node};
use crate::ranges::ranges_of;
use sim_syntax::Name;
use sqlite_items::Items;
use std::alloc::Global;
use type_rules::{
    BlockShape, IndexRange, NodeType, TypeKind, call_rule, has_unknown, part_rule, rank_rule,
};
use typed_tree::{
    CheckFault, Environment, HostArguments, HostSignature, Level, Meaning, Referent, TypedExpr,
    TypedForm, find_field, over_set,
};
use vocabulary::NoMemory;

/// What a name stands for, and its type.
type Found = Result<(Referent, NodeType), TypeKind>;

/// What a name stands for, with the type that a rule answers.
fn found(what: Referent, rule: Result<NodeType, TypeKind>) -> Found
    ensures { result ≡ spec.found what rule }
{
    match rule {
        Ok(value_type) => Ok((what, value_type)),
        Err(kind) => Err(kind),
    }
}

/// The type of a whole value, where none of its entries is named.
fn whole_rule(value_type: NodeType, is_whole: bool) -> Result<NodeType, TypeKind>
    ensures { result ≡ (if is_whole then Ok value_type else Err Shape) }
{
    if is_whole {
        Ok(value_type)
    } else {
        Err(TypeKind::Shape)
    }
}

/// Why an element, endpoints and a result are no value.
fn no_value(indices: &[IndexRange]) -> Found
    ensures { result ≡ spec.no_value indices.now }
{
    if has_unknown(indices) {
        Err(TypeKind::NotConstant)
    } else {
        Err(TypeKind::Shape)
    }
}

/// The type of a number of this scale.
fn number_type(scale: u32) -> NodeType
    ensures { result ≡ type.Local block.Number scale }
{
    NodeType::Local {
        block: BlockShape::Number,
        scale,
    }
}

/// What a name without a field stands for.
#[tactic(auto, unfolding(typed_tree::specs::Expressions::value_rule))]
fn value_rule(meaning: Option<Meaning>, indices: &[IndexRange]) -> Found
    ensures { result ≡ spec.value_rule meaning indices.now }
{
    match meaning {
        Some(Meaning::Parameter { local, scale }) => found(
            Referent::Local(local),
            part_rule(None, number_type(scale), &[], indices),
        ),
        Some(Meaning::Local { local, value_type }) => found(
            Referent::Local(local),
            part_rule(None, value_type, &[], indices),
        ),
        Some(Meaning::Turn { local, range }) => found(
            Referent::Turn { local, range },
            part_rule(None, number_type(0), &[], indices),
        ),
        Some(
            Meaning::Variable {
                variable,
                value_type,
            },
        ) => found(
            Referent::Variable(variable),
            whole_rule(value_type, indices.is_empty()),
        ),
        Some(Meaning::Counter { local }) => found(
            Referent::Local(local),
            whole_rule(number_type(0), indices.is_empty()),
        ),
        Some(Meaning::Own { .. } | Meaning::Ends { .. } | Meaning::Result { .. }) => {
            no_value(indices)
        }
        _ => Err(TypeKind::Unknown),
    }
}

/// Whether nothing is indexed before the point or after it.
#[tactic(auto, using(crate::proofs::Indices::no_index))]
fn has_no_index(places: &[IndexRange], indices: &[IndexRange]) -> bool
    ensures { result ≡ is_empty (places.now ++ indices.now) }
{
    places.is_empty() && indices.is_empty()
}

/// A field of a set, which the main procedure names.
#[tactic(auto, unfolding(typed_tree::specs::Expressions::set_member))]
fn set_member(
    level: Level,
    set: u32,
    field: Option<(u32, NodeType)>,
    places: &[IndexRange],
    indices: &[IndexRange],
) -> Found
    ensures { result ≡ spec.set_member level set field (places.now ++ indices.now) }
{
    match (level, field) {
        (Level::Main, Some((field, field_type))) => found(
            Referent::Field { set, field },
            whole_rule(over_set(set, field_type), has_no_index(places, indices)),
        ),
        _ => Err(TypeKind::Unknown),
    }
}

/// A field of the element that a function takes.
#[tactic(auto, unfolding(typed_tree::specs::Expressions::own_member))]
fn own_member(
    field: Option<(u32, NodeType)>,
    places: &[IndexRange],
    indices: &[IndexRange],
) -> Found
    ensures { result ≡ spec.own_member field places.now indices.now }
{
    match field {
        Some((field, field_type)) => found(
            Referent::Own { field },
            part_rule(None, field_type, places, indices),
        ),
        None => Err(TypeKind::Unknown),
    }
}

/// A field of one of so many endpoints.
#[tactic(auto, unfolding(typed_tree::specs::Expressions::end_member))]
fn end_member(
    count: u32,
    field: Option<(u32, NodeType)>,
    places: &[IndexRange],
    indices: &[IndexRange],
) -> Found
    ensures { result ≡ spec.end_member count field places.now indices.now }
{
    match field {
        Some((field, field_type)) => found(
            Referent::End { field },
            part_rule(Some(count), field_type, places, indices),
        ),
        None => Err(TypeKind::Unknown),
    }
}

/// A field of what a name stands for.
#[tactic(auto, unfolding(typed_tree::specs::Expressions::member_rule))]
fn member_rule(
    environment: &Environment<'_>,
    meaning: Option<Meaning>,
    name: &Name,
    places: &[IndexRange],
    indices: &[IndexRange],
) -> Result<Found, NoMemory>
    ensures { IfOk result (λ found. found ≡ spec.member_rule environment.now meaning name.now places.now indices.now) }
{
    let declarations = &environment.declarations;
    match meaning {
        Some(Meaning::Set(set)) => {
            let fields = declarations.fields_of(declarations.element_in(set));
            let field = find_field(fields, name.as_str())?;
            Ok(set_member(environment.level, set, field, places, indices))
        }
        Some(Meaning::Own { element }) => {
            let field = find_field(declarations.fields_of(element), name.as_str())?;
            Ok(own_member(field, places, indices))
        }
        Some(Meaning::Ends { element, count }) => {
            let field = find_field(declarations.fields_of(element), name.as_str())?;
            Ok(end_member(count, field, places, indices))
        }
        _ => Ok(Err(TypeKind::Unknown)),
    }
}

/// What a name stands for, or a field of it.
#[tactic(auto, unfolding(typed_tree::specs::Expressions::name_rule))]
fn name_rule(
    environment: &Environment<'_>,
    name: &Name,
    places: &[IndexRange],
    field: &Option<Name>,
    indices: &[IndexRange],
) -> Result<Found, NoMemory>
    ensures { IfOk result (λ found. found ≡ spec.name_rule environment.now name.now places.now field.now indices.now) }
{
    let meaning = environment.names.find(name.as_str());
    match (field, indices) {
        (None, []) => Ok(value_rule(meaning, places)),
        (None, _) => Ok(Err(TypeKind::Shape)),
        (Some(field), _) => member_rule(environment, meaning, field, places, indices),
    }
}

/// What was found, with as many indices as its view where a number of them is asked.
fn ranked(rank: Option<u32>, what: Found) -> Found
    ensures { result ≡ parts.with_rank rank what }
{
    match (rank, what) {
        (Some(rank), Ok((referent, value_type))) => found(referent, rank_rule(value_type, rank)),
        (_, what) => what,
    }
}

/// The names of a reference, and the number of its indices where it was made of an index expression.
#[derive(Clone, Copy)]
pub struct Written<'a> {
    pub name: &'a Name,
    pub field: &'a Option<Name>,
    pub rank: Option<u32>,
}

/// The host function for which a name stands.
fn host_in(meaning: Option<Meaning>) -> Option<HostSignature>
    ensures { result ≡ spec.host_in meaning }
{
    match meaning {
        Some(Meaning::Host(host)) => Some(host),
        _ => None,
    }
}

/// The host function that a reference calls, where it names no field.
fn host_named(
    environment: &Environment<'_>,
    name: &Name,
    field: &Option<Name>,
    field_args: &[TypedExpr],
) -> Option<HostSignature>
    ensures { result ≡ spec.host_named environment.now name.now field.now field_args.now }
{
    match (field, field_args) {
        (None, []) => host_in(environment.names.find(name.as_str())),
        _ => None,
    }
}

/// A call of a host function, by the types of its arguments.
fn host_rule(host: HostSignature, args: &[NodeType]) -> Found
    ensures { result ≡ spec.found (referent.Host host.number) (rules.call_rule (spec.scales_of host.arguments) host.scale args.now) }
{
    let rule = match host.arguments {
        HostArguments::One(scale) => call_rule(&[scale], host.scale, args),
        HostArguments::Two(first, second) => call_rule(&[first, second], host.scale, args),
    };
    found(Referent::Host(host.number), rule)
}

/// What a name with typed indices stands for, or a field of it.
fn indexed_rule(
    alloc: Global,
    environment: &Environment<'_>,
    written: Written<'_>,
    args: &[TypedExpr],
    field_args: &[TypedExpr],
) -> Result<Found, NoMemory>
    ensures { IfOk result (λ found. found ≡ spec.name_rule environment.now written.entry.name.now (map spec.range_of args.now) written.entry.field.now (map spec.range_of field_args.now)) }
{
    let places = ranges_of(alloc, args)?;
    let indices = ranges_of(alloc, field_args)?;
    name_rule(
        environment,
        written.name,
        places.items(),
        written.field,
        indices.items(),
    )
}

/// What a name with typed arguments stands for: a host function is called, any other name has a value.
#[tactic(auto, unfolding(typed_tree::specs::Expressions::called_or_named))]
fn called_or_named(
    alloc: Global,
    environment: &Environment<'_>,
    host: Option<HostSignature>,
    written: Written<'_>,
    args: &[TypedExpr],
    field_args: &[TypedExpr],
) -> Result<Found, NoMemory>
    ensures { IfOk result (λ found. found ≡ spec.called_or_named environment.now host written.entry.name.now args.now written.entry.field.now field_args.now) }
{
    match host {
        Some(host) => {
            let types = types_of(alloc, args)?;
            Ok(host_rule(host, types.items()))
        }
        None => indexed_rule(alloc, environment, written, args, field_args),
    }
}

/// What a reference with typed arguments stands for.
fn reference_rule(
    alloc: Global,
    environment: &Environment<'_>,
    written: Written<'_>,
    args: &[TypedExpr],
    field_args: &[TypedExpr],
) -> Result<Found, NoMemory>
    ensures { IfOk result (λ found. found ≡ spec.reference_rule environment.now written.entry.name.now args.now written.entry.field.now field_args.now written.entry.rank) }
{
    let host = host_named(environment, written.name, written.field, field_args);
    let found = called_or_named(alloc, environment, host, written, args, field_args)?;
    Ok(ranked(written.rank, found))
}

/// A reference with typed arguments.
pub fn reference(
    alloc: Global,
    environment: &Environment<'_>,
    line: u32,
    written: Written<'_>,
    args: Items<TypedExpr>,
    field_args: Items<TypedExpr>,
    next: &mut u32,
) -> Result<TypedExpr, CheckFault>
    ensures { Walks (parts.referred (spec.reference_rule environment.now written.entry.name.now args written.entry.field.now field_args written.entry.rank) args field_args line next.old) result next.new }
{
    let answer = reference_rule(
        alloc,
        environment,
        written,
        args.as_slice(),
        field_args.as_slice(),
    )?;
    let (referent, value_type) = at_line(line, answer)?;
    let node = node(line, value_type, next)?;
    let form = TypedForm::Ref {
        referent,
        args,
        field_args,
    };
    Ok(TypedExpr { node, form })
}
