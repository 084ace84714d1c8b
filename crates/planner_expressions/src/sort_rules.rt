//! Which sorts an operator takes, and which it gives.
ghost use Rattle.std.specs.Prelude.{◌≡◌, ◌∷◌, [], ◌&&◌};
ghost use Rattle.meaning.specs.Results.{and_then};
ghost use Rattle.planner_expressions.specs.Judged.{typed, two, if_allowed, over_part};
ghost use Rattle.planner_expressions.specs.Sorts.{same_sort, is_value, are_alike, is_taken, aggregate_sort, added, first_known};
ghost use Rattle.planner_expressions.specs.declared.sort.Sort.TheVariants as sort;

use crate::fault::PlanFault;
use crate::sort::{ArmSorts, Likeness, Sort};
use sql_syntax::Aggregate;

/// The sort, if the test holds.
fn sort_if(test: bool, gives: Sort) -> Result<Sort, PlanFault>
    ensures { result ≡ typed test gives }
{
    if test {
        Ok(gives)
    } else {
        Err(PlanFault::TypeMismatch)
    }
}

/// An aggregate, unless none may stand there.
pub fn unless_barred(barred: bool, gives: Sort) -> Result<Sort, PlanFault>
    ensures { result ≡ if_allowed barred gives }
{
    if barred {
        Err(PlanFault::MisplacedAggregate)
    } else {
        Ok(gives)
    }
}

fn takes(kind: Aggregate, sort: Sort) -> bool
    ensures { result ≡ is_taken kind sort }
{
    match kind {
        Aggregate::Sum => Sort::Integer.is(sort),
        Aggregate::SumDistinct => Sort::Integer.is(sort),
        Aggregate::Average => Sort::Integer.is(sort),
        Aggregate::Count => sort.is_value(),
        Aggregate::CountDistinct => sort.is_value(),
        Aggregate::Min => sort.is_value(),
        Aggregate::Max => sort.is_value(),
    }
}

fn gives(kind: Aggregate, sort: Sort) -> Sort
    ensures { result ≡ aggregate_sort kind sort }
{
    match kind {
        Aggregate::Min => sort,
        Aggregate::Max => sort,
        Aggregate::Count => Sort::Integer,
        Aggregate::CountDistinct => Sort::Integer,
        Aggregate::Sum => Sort::Integer,
        Aggregate::SumDistinct => Sort::Integer,
        Aggregate::Average => Sort::Integer,
    }
}

/// An aggregate over an argument.
pub fn over(
    kind: Aggregate,
    barred: bool,
    argument: Result<Sort, PlanFault>,
) -> Result<Sort, PlanFault>
    ensures { result ≡ and_then argument (over_part kind barred) }
{
    match argument {
        Ok(sort) => {
            if takes(kind, sort) {
                unless_barred(barred, gives(kind, sort))
            } else {
                Err(PlanFault::TypeMismatch)
            }
        }
        Err(e) => Err(e),
    }
}

/// An operator that takes one operand of a sort.
pub fn one(wanted: Sort, part: Result<Sort, PlanFault>, gives: Sort) -> Result<Sort, PlanFault>
    ensures { result ≡ and_then part (λ x. typed (same_sort wanted x) gives) }
{
    match part {
        Ok(sort) => sort_if(wanted.is(sort), gives),
        Err(e) => Err(e),
    }
}

/// IS NULL
pub fn value(part: Result<Sort, PlanFault>) -> Result<Sort, PlanFault>
    ensures { result ≡ and_then part (λ x. typed (is_value x) sort.Truth) }
{
    match part {
        Ok(sort) => sort_if(sort.is_value(), Sort::Truth),
        Err(e) => Err(e),
    }
}

/// An operator that takes two operands of a sort.
pub fn both(
    wanted: Sort,
    left: Result<Sort, PlanFault>,
    right: Result<Sort, PlanFault>,
    gives: Sort,
) -> Result<Sort, PlanFault>
    ensures { result ≡ two left right
        (λ x y. typed (same_sort wanted x && same_sort wanted y) gives) }
{
    match left {
        Ok(left) => match right {
            Ok(right) => sort_if(wanted.is(left) && wanted.is(right), gives),
            Err(e) => Err(e),
        },
        Err(e) => Err(e),
    }
}

/// A comparison.
pub fn compared(
    left: Result<Sort, PlanFault>,
    right: Result<Sort, PlanFault>,
) -> Result<Sort, PlanFault>
    ensures { result ≡ two left right (λ x y. typed (are_alike (x ∷ y ∷ [])) sort.Truth) }
{
    match left {
        Ok(left) => match right {
            Ok(right) => sort_if(Likeness::none().with(left).with(right).alike, Sort::Truth),
            Err(e) => Err(e),
        },
        Err(e) => Err(e),
    }
}

pub fn between(
    subject: Result<Sort, PlanFault>,
    low: Result<Sort, PlanFault>,
    high: Result<Sort, PlanFault>,
) -> Result<Sort, PlanFault>
    ensures { result ≡ and_then subject
        (λ x. two low high (λ y z. typed (are_alike (x ∷ y ∷ z ∷ [])) sort.Truth)) }
{
    match subject {
        Ok(subject) => match low {
            Ok(low) => match high {
                Ok(high) => sort_if(
                    Likeness::none().with(subject).with(low).with(high).alike,
                    Sort::Truth,
                ),
                Err(e) => Err(e),
            },
            Err(e) => Err(e),
        },
        Err(e) => Err(e),
    }
}

/// IN
pub fn listed(entries: Result<Likeness, PlanFault>) -> Result<Sort, PlanFault>
    ensures { result ≡ and_then entries (λ known. typed known.alike sort.Truth) }
{
    match entries {
        Ok(known) => sort_if(known.alike, Sort::Truth),
        Err(e) => Err(e),
    }
}

/// COALESCE
pub fn coalesced(entries: Result<Likeness, PlanFault>) -> Result<Sort, PlanFault>
    ensures { result ≡ and_then entries (λ known. typed known.alike (first_known known.first)) }
{
    match entries {
        Ok(known) => sort_if(known.alike, known.first_sort()),
        Err(e) => Err(e),
    }
}

/// CASE
pub fn without_else(arms: ArmSorts) -> Result<Sort, PlanFault>
    ensures { result ≡ typed (arms.truths && arms.values.alike) (first_known arms.values.first) }
{
    sort_if(arms.truths && arms.values.alike, arms.values.first_sort())
}

/// CASE with ELSE
pub fn with_else(arms: ArmSorts, otherwise: Result<Sort, PlanFault>) -> Result<Sort, PlanFault>
    ensures { result ≡ and_then otherwise
        (λ s. typed (arms.truths && (added arms.values s).alike)
        (first_known (added arms.values s).first)) }
{
    match otherwise {
        Ok(sort) => without_else(ArmSorts {
            truths: arms.truths,
            values: arms.values.with(sort),
        }),
        Err(e) => Err(e),
    }
}
