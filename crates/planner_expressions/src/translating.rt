//! From a query's expressions to a plan's.
ghost use Rattle.std.specs.Prelude.{◌≡◌, ◌++◌, IfOk, map, option_map};
ghost use Rattle.planner_expressions.specs.Given.{given_in};
ghost use Rattle.meaning.specs.declared.expr.Expr.TheVariants as expr;
ghost use Rattle.meaning.specs.declared.value.Value.TheVariants as value;
ghost use Rattle.planner_expressions.specs.Translated.{translated, translated_arm, all_some, arm_of, else_of, if_all};

use crate::basis::{Basis, given};
use crate::building::{
    and, arithmetic, arm, between, case, coalesce, compare, is_null, like, listed, minus, not, or,
};
use crate::collecting::{list_if, put, put_arm};
use crate::scope::Scope;
use meaning::{Boxed, Sequence, Text, Value, expr};
use sql_syntax::{Arm, Expr};
use std::alloc::{AllocError, Global};

fn text_literal(text: &Text) -> Result<Option<expr::Expr>, AllocError>
    ensures { IfOk result (λ x. x ≡ Some (expr.Literal (value.Text text.now))) }
{
    Ok(Some(expr::Expr::Literal(Value::Text(text.clone()?))))
}

/// The plan's expression, if something is given for each name and each aggregate.
#[cycle(translate)]
pub fn translate(
    alloc: Global,
    scope: &Scope,
    basis: &Basis,
    expr: &Expr,
) -> Result<Option<expr::Expr>, AllocError>
    ensures { IfOk result (λ x. x ≡ translated (given_in scope.now basis.now) expr.now) }
{
    match given(alloc, scope, basis, expr) {
        Ok(Some(found)) => return Ok(Some(found)),
        Ok(None) => {}
        Err(e) => return Err(e),
    }
    match expr {
        Expr::Column { .. } => Ok(None),
        Expr::Integer(n) => Ok(Some(expr::Expr::Literal(Value::Int(*n)))),
        Expr::Text(text) => text_literal(text),
        Expr::CountRows => Ok(None),
        Expr::Aggregate { .. } => Ok(None),
        Expr::Minus(a) => minus(alloc, translate(alloc, scope, basis, a.get())),
        Expr::Arithmetic {
            operator,
            left,
            right,
        } => {
            let left = translate(alloc, scope, basis, left.get());
            arithmetic(
                alloc,
                *operator,
                left,
                translate(alloc, scope, basis, right.get()),
            )
        }
        Expr::Compare {
            operator,
            left,
            right,
        } => {
            let left = translate(alloc, scope, basis, left.get());
            compare(
                alloc,
                *operator,
                left,
                translate(alloc, scope, basis, right.get()),
            )
        }
        Expr::Not(a) => not(alloc, translate(alloc, scope, basis, a.get())),
        Expr::And { left, right } => {
            let left = translate(alloc, scope, basis, left.get());
            and(alloc, left, translate(alloc, scope, basis, right.get()))
        }
        Expr::Or { left, right } => {
            let left = translate(alloc, scope, basis, left.get());
            or(alloc, left, translate(alloc, scope, basis, right.get()))
        }
        Expr::IsNull { negated, subject } => is_null(
            alloc,
            *negated,
            translate(alloc, scope, basis, subject.get()),
        ),
        Expr::Between {
            negated,
            subject,
            low,
            high,
        } => {
            let subject = translate(alloc, scope, basis, subject.get());
            let low = translate(alloc, scope, basis, low.get());
            between(
                alloc,
                *negated,
                subject,
                low,
                translate(alloc, scope, basis, high.get()),
            )
        }
        Expr::In {
            negated,
            subject,
            entries,
        } => {
            let subject = translate(alloc, scope, basis, subject.get());
            listed(
                alloc,
                *negated,
                subject,
                translate_entries(alloc, scope, basis, entries.as_slice()),
            )
        }
        Expr::Like {
            negated,
            subject,
            pattern,
        } => like(
            alloc,
            *negated,
            translate(alloc, scope, basis, subject.get()),
            pattern,
        ),
        Expr::Coalesce(entries) => {
            coalesce(translate_entries(alloc, scope, basis, entries.as_slice()))
        }
        Expr::Case { arms, otherwise } => {
            let arms = translate_arms(alloc, scope, basis, arms.as_slice());
            case(alloc, arms, translate_else(alloc, scope, basis, otherwise))
        }
    }
}

#[cycle(translate)]
fn translate_else(
    alloc: Global,
    scope: &Scope,
    basis: &Basis,
    otherwise: &Option<Boxed<Expr>>,
) -> Result<Option<expr::Expr>, AllocError>
    ensures { IfOk result (λ x. x
        ≡ else_of (option_map (translated (given_in scope.now basis.now)) otherwise.now)) }
{
    match otherwise {
        Some(otherwise) => translate(alloc, scope, basis, otherwise.get()),
        None => Ok(Some(expr::Expr::Literal(Value::Null))),
    }
}

#[cycle(translate)]
fn translate_entries(
    alloc: Global,
    scope: &Scope,
    basis: &Basis,
    entries: &[Expr],
) -> Result<Option<Sequence<expr::Expr>>, AllocError>
    ensures { IfOk result (λ x. x
        ≡ all_some (map (translated (given_in scope.now basis.now)) entries.now)) }
{
    let mut list = Sequence::new(alloc);
    let all = push_entries(alloc, scope, basis, entries, &mut list);
    list_if(all, list)
}

/// Puts the expressions behind the others, and says whether each was there.
#[cycle(translate)]
fn push_entries(
    alloc: Global,
    scope: &Scope,
    basis: &Basis,
    entries: &[Expr],
    out: &mut Sequence<expr::Expr>,
) -> Result<bool, AllocError>
    ensures { IfOk result (λ all. if_all all out.new
        ≡ option_map (λ xs. out.old ++ xs)
        (all_some (map (translated (given_in scope.now basis.now)) entries.now))) }
{
    for entry in entries {
        if !put(translate(alloc, scope, basis, entry), out)? {
            return Ok(false);
        }
    }
    Ok(true)
}

#[cycle(translate)]
fn translate_arms(
    alloc: Global,
    scope: &Scope,
    basis: &Basis,
    arms: &[Arm],
) -> Result<Option<Sequence<expr::Arm>>, AllocError>
    ensures { IfOk result (λ x. x
        ≡ all_some (map arm_of (map (translated_arm (given_in scope.now basis.now)) arms.now))) }
{
    let mut list = Sequence::new(alloc);
    let all = push_arms(alloc, scope, basis, arms, &mut list);
    list_if(all, list)
}

/// Puts the arms behind the others, and says whether each was there.
#[cycle(translate)]
fn push_arms(
    alloc: Global,
    scope: &Scope,
    basis: &Basis,
    arms: &[Arm],
    out: &mut Sequence<expr::Arm>,
) -> Result<bool, AllocError>
    ensures { IfOk result (λ all. if_all all out.new
        ≡ option_map (λ xs. out.old ++ xs)
        (all_some (map arm_of (map (translated_arm (given_in scope.now basis.now)) arms.now)))) }
{
    for arm_here in arms {
        let when = translate(alloc, scope, basis, &arm_here.condition);
        if !put_arm(
            arm(when, translate(alloc, scope, basis, &arm_here.value)),
            out,
        )? {
            return Ok(false);
        }
    }
    Ok(true)
}
