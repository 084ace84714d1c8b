//! Which sort an expression is, or which fault it has first.
ghost use Rattle.std.specs.Prelude.{◌≡◌, true, map};
ghost use Rattle.meaning.specs.Results.{all_ok};
ghost use Rattle.planner_expressions.specs.Judged.{judged, judged_arm, each, each_arm};
ghost use Rattle.planner_expressions.specs.Results.{map_ok};
ghost use Rattle.planner_expressions.specs.Sorts.{behind, with_arms, fresh};

use crate::fault::PlanFault;
use crate::naming::sort_of_name;
use crate::scope::Scope;
use crate::sort::{ArmSorts, Likeness, Sort};
use crate::sort_rules::{
    between, both, coalesced, compared, listed, one, over, unless_barred, value, with_else,
    without_else,
};
use sql_syntax::{Arm, Expr};

/// The sort of the expression, or its first fault; where aggregates are barred none may stand in
/// it.
#[cycle(judge)]
pub fn judge(scope: &Scope, expr: &Expr, barred: bool) -> Result<Sort, PlanFault>
    ensures { result ≡ judged scope.now expr.now barred }
{
    match expr {
        Expr::Column { table, name } => sort_of_name(scope, table, name),
        Expr::Integer(_) => Ok(Sort::Integer),
        Expr::Text(_) => Ok(Sort::Text),
        Expr::CountRows => unless_barred(barred, Sort::Integer),
        Expr::Aggregate { kind, argument } => {
            over(*kind, barred, judge(scope, argument.get(), true))
        }
        Expr::Minus(a) => one(Sort::Integer, judge(scope, a.get(), barred), Sort::Integer),
        Expr::Arithmetic { left, right, .. } => {
            let left = judge(scope, left.get(), barred);
            both(
                Sort::Integer,
                left,
                judge(scope, right.get(), barred),
                Sort::Integer,
            )
        }
        Expr::Compare { left, right, .. } => {
            let left = judge(scope, left.get(), barred);
            compared(left, judge(scope, right.get(), barred))
        }
        Expr::Not(a) => one(Sort::Truth, judge(scope, a.get(), barred), Sort::Truth),
        Expr::And { left, right } => {
            let left = judge(scope, left.get(), barred);
            both(
                Sort::Truth,
                left,
                judge(scope, right.get(), barred),
                Sort::Truth,
            )
        }
        Expr::Or { left, right } => {
            let left = judge(scope, left.get(), barred);
            both(
                Sort::Truth,
                left,
                judge(scope, right.get(), barred),
                Sort::Truth,
            )
        }
        Expr::IsNull { subject, .. } => value(judge(scope, subject.get(), barred)),
        Expr::Between {
            subject,
            low,
            high,
            ..
        } => {
            let subject = judge(scope, subject.get(), barred);
            let low = judge(scope, low.get(), barred);
            between(subject, low, judge(scope, high.get(), barred))
        }
        Expr::In {
            subject,
            entries,
            ..
        } => match judge(scope, subject.get(), barred) {
            Ok(first) => listed(judge_entries(
                scope,
                entries.as_slice(),
                barred,
                Likeness::none().with(first),
            )),
            Err(e) => Err(e),
        },
        Expr::Like { subject, .. } => one(
            Sort::Text,
            judge(scope, subject.get(), barred),
            Sort::Truth,
        ),
        Expr::Coalesce(entries) => {
            coalesced(judge_entries(scope, entries.as_slice(), barred, Likeness::none()))
        }
        Expr::Case { arms, otherwise } => {
            match judge_arms(scope, arms.as_slice(), barred) {
                Ok(found) => match otherwise {
                    Some(otherwise) => { with_else(found, judge(scope, otherwise.get(), barred)) }
                    None => without_else(found),
                },
                Err(e) => Err(e),
            }
        }
    }
}

/// What is known of sorts with those of the expressions.
#[cycle(judge)]
fn judge_entries(
    scope: &Scope,
    entries: &[Expr],
    barred: bool,
    known: Likeness,
) -> Result<Likeness, PlanFault>
    ensures { result ≡ map_ok (behind known)
        (all_ok (each barred (map (judged scope.now) entries.now))) }
{
    let mut known = known;
    for entry in entries {
        known = known.with(judge(scope, entry, barred)?);
    }
    Ok(known)
}

/// What is known of the arms.
#[cycle(judge)]
fn judge_arms(scope: &Scope, arms: &[Arm], barred: bool) -> Result<ArmSorts, PlanFault>
    ensures { result ≡ map_ok (with_arms (record { truths = true; values = fresh }))
        (all_ok (each_arm barred (map (judged_arm scope.now) arms.now))) }
{
    let mut known = ArmSorts {
        truths: true,
        values: Likeness::none(),
    };
    for arm in arms {
        let condition = judge(scope, &arm.condition, barred)?;
        known = known.with(condition, judge(scope, &arm.value, barred)?);
    }
    Ok(known)
}
