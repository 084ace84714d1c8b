//! The shape of a query's groups.
ghost use Rattle.std.specs.Prelude.{◌≡◌};
ghost use Rattle.std.specs.Cmp.Lexicographic.{pointwise};
ghost use Rattle.answer_fields.specs.Fields.{shape_in};
ghost use Rattle.answer_fields.specs.Shape as spec;

use meaning::{Aggregate, AggregateKind, ColType, GroupingKey, Plan, type_code};

/// An aggregate as an answer's shape shows it. COUNT(*) has no argument.
#[derive(Clone, Copy, Drop)]
pub struct AggregateShape {
    pub kind: AggregateKind,
    pub argument: Option<ColType>,
}

/// The type of each key, and each aggregate.
#[derive(Drop)]
pub struct Shape {
    pub keys: Vec<ColType>,
    pub aggregates: Vec<AggregateShape>,
}

pub fn kind_code(kind: AggregateKind) -> u8
    ensures { result ≡ spec.kind_code kind }
{
    match kind {
        AggregateKind::CountRows => 1,
        AggregateKind::Count => 2,
        AggregateKind::Sum => 3,
        AggregateKind::Min => 4,
        AggregateKind::Max => 5,
        AggregateKind::Avg => 6,
        AggregateKind::CountDistinct => 7,
        AggregateKind::SumDistinct => 8,
    }
}

pub fn argument_code(argument: Option<ColType>) -> u8
    ensures { result ≡ spec.argument_code argument }
{
    match argument {
        None => 0,
        Some(col_type) => type_code(col_type),
    }
}

pub fn shape_of_aggregate(aggregate: &Aggregate) -> AggregateShape
    ensures { result ≡ spec.shape_of_aggregate aggregate.now }
{
    match aggregate.kind {
        AggregateKind::CountRows => AggregateShape {
            kind: aggregate.kind,
            argument: None,
        },
        _ => AggregateShape {
            kind: aggregate.kind,
            argument: Some(aggregate.col_type),
        },
    }
}

fn is_same_aggregate(a: AggregateShape, b: AggregateShape) -> bool
    ensures { result ≡ spec.is_same_aggregate a b }
{
    kind_code(a.kind) == kind_code(b.kind) && argument_code(a.argument) == argument_code(b.argument)
}

/// Whether these are the keys' types.
fn are_types_of(keys: &[GroupingKey], types: &[ColType]) -> bool
    ensures { result ≡ pointwise (λ t k. spec.is_same_type t k.col_type) types.now keys.now }
{
    if types.len() != keys.len() {
        return false;
    }
    for i in 0..types.len() {
        if type_code(types[i]) != type_code(keys[i].col_type) {
            return false;
        }
    }
    true
}

/// Whether the aggregates have these shapes.
fn are_shapes_of(aggregates: &[Aggregate], shapes: &[AggregateShape]) -> bool
    ensures { result ≡ pointwise (λ s a. spec.is_same_aggregate s (spec.shape_of_aggregate a))
        shapes.now aggregates.now }
{
    if shapes.len() != aggregates.len() {
        return false;
    }
    for i in 0..shapes.len() {
        if !is_same_aggregate(shapes[i], shape_of_aggregate(&aggregates[i])) {
            return false;
        }
    }
    true
}

/// Whether the plan's groups have this shape.
pub fn is_shape_of(plan: &Plan, shape: &Shape) -> bool
    ensures { result ≡ spec.is_same_shape (shape_in shape.now) (spec.shape_of plan.now) }
{
    are_types_of(plan.keys.as_slice(), &shape.keys)
        && are_shapes_of(plan.aggs.as_slice(), &shape.aggregates)
}
