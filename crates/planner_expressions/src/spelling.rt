//! Trees written out, with names looked up, so that two of them can be compared.
ghost use Rattle.std.specs.Prelude.{◌≡◌, ◌++◌, ◌∷◌, [], map, option_map, IfOk, OnOk};
ghost use Rattle.planner_expressions.specs.declared.marks.Mark.TheVariants as of_mark;
ghost use Rattle.planner_expressions.specs.declared.marks.Operator.TheVariants as of_operator;
ghost use Rattle.planner_expressions.specs.Spelled.{spelled, spelled_arm, column_mark, list_marks, arms_marks, else_marks, same_spelling, index_among};
ghost use Rattle.planner_expressions.specs.Scope.{stands_for};

use crate::marks::{Mark, Operator, Spelling};
use crate::naming::look_up;
use crate::scope::Scope;
use meaning::{Boxed, Text};
use sql_syntax::{Arm, Expr};
use std::alloc::AllocError;

fn mark_of_name(scope: &Scope, table: &Option<Text>, name: &Text) -> Result<Mark, AllocError>
    ensures { IfOk result (λ m. m ≡ column_mark (stands_for scope.now table.now name.now)) }
{
    let Ok(column) = look_up(scope, table, name) else {
        return Ok(Mark::Unknown);
    };
    let owner = column.owner.clone()?;
    let name = column.name.clone()?;
    Ok(Mark::Column { owner, name })
}

fn put_name(
    scope: &Scope,
    table: &Option<Text>,
    name: &Text,
    out: &mut Spelling,
) -> Result<(), AllocError>
    ensures { OnOk result (out.new
        ≡ out.old ++ column_mark (stands_for scope.now table.now name.now) ∷ []) }
{
    let mark = mark_of_name(scope, table, name)?;
    out.push(mark)
}

fn put_text(text: &Text, out: &mut Spelling) -> Result<(), AllocError>
    ensures { OnOk result (out.new ≡ out.old ++ of_mark.Text text.now ∷ []) }
{
    let text = text.clone()?;
    out.push(Mark::Text(text))
}

fn put_operator(operator: Operator, out: &mut Spelling) -> Result<(), AllocError>
    ensures { OnOk result (out.new ≡ out.old ++ of_mark.Operator operator ∷ []) }
{
    out.push(Mark::Operator(operator))
}

/// Writes the expression out behind what is there.
#[cycle(spell)]
pub fn spell(scope: &Scope, expr: &Expr, out: &mut Spelling) -> Result<(), AllocError>
    ensures { OnOk result (out.new ≡ out.old ++ spelled scope.now expr.now) }
{
    match expr {
        Expr::Column { table, name } => put_name(scope, table, name, out),
        Expr::Integer(n) => out.push(Mark::Integer(*n)),
        Expr::Text(text) => put_text(text, out),
        Expr::CountRows => put_operator(Operator::CountRows, out),
        Expr::Aggregate { kind, argument } => {
            spell_part(scope, argument, Operator::Aggregate(*kind), out)
        }
        Expr::Minus(part) => spell_part(scope, part, Operator::Minus, out),
        Expr::Arithmetic {
            operator,
            left,
            right,
        } => spell_two(scope, left, right, Operator::Arithmetic(*operator), out),
        Expr::Compare {
            operator,
            left,
            right,
        } => spell_two(scope, left, right, Operator::Compare(*operator), out),
        Expr::Not(part) => spell_part(scope, part, Operator::Not, out),
        Expr::And { left, right } => spell_two(scope, left, right, Operator::And, out),
        Expr::Or { left, right } => spell_two(scope, left, right, Operator::Or, out),
        Expr::IsNull { negated, subject } => {
            spell_part(scope, subject, Operator::IsNull { negated: *negated }, out)
        }
        Expr::Between {
            negated,
            subject,
            low,
            high,
        } => spell_between(scope, subject, low, high, *negated, out),
        Expr::In {
            negated,
            subject,
            entries,
        } => spell_in(scope, entries.as_slice(), subject, *negated, out),
        Expr::Like {
            negated,
            subject,
            pattern,
        } => spell_like(scope, subject, pattern, *negated, out),
        Expr::Coalesce(entries) => spell_coalesce(scope, entries.as_slice(), out),
        Expr::Case { arms, otherwise } => {
            spell_case(scope, arms.as_slice(), out)?;
            spell_else(scope, otherwise, out)
        }
    }
}

#[cycle(spell)]
fn spell_part(
    scope: &Scope,
    part: &Boxed<Expr>,
    operator: Operator,
    out: &mut Spelling,
) -> Result<(), AllocError>
    ensures { OnOk result (out.new
        ≡ out.old ++ of_mark.Operator operator ∷ spelled scope.now part.now) }
{
    put_operator(operator, out)?;
    spell(scope, part.get(), out)
}

#[cycle(spell)]
fn spell_two(
    scope: &Scope,
    left: &Boxed<Expr>,
    right: &Boxed<Expr>,
    operator: Operator,
    out: &mut Spelling,
) -> Result<(), AllocError>
    ensures { OnOk result (out.new
        ≡ out.old
        ++ of_mark.Operator operator ∷ spelled scope.now left.now
        ++ spelled scope.now right.now) }
{
    spell_part(scope, left, operator, out)?;
    spell(scope, right.get(), out)
}

#[cycle(spell)]
fn spell_between(
    scope: &Scope,
    subject: &Boxed<Expr>,
    low: &Boxed<Expr>,
    high: &Boxed<Expr>,
    negated: bool,
    out: &mut Spelling,
) -> Result<(), AllocError>
    ensures { OnOk result (out.new
        ≡ out.old
        ++ of_mark.Operator (of_operator.Between negated) ∷ spelled scope.now subject.now
        ++ (spelled scope.now low.now ++ spelled scope.now high.now)) }
{
    spell_two(scope, subject, low, Operator::Between { negated }, out)?;
    spell(scope, high.get(), out)
}

#[cycle(spell)]
fn spell_in(
    scope: &Scope,
    entries: &[Expr],
    subject: &Boxed<Expr>,
    negated: bool,
    out: &mut Spelling,
) -> Result<(), AllocError>
    ensures { OnOk result (out.new
        ≡ out.old
        ++ of_mark.Operator (of_operator.In negated) ∷ spelled scope.now subject.now
        ++ list_marks (map (spelled scope.now) entries.now)) }
{
    spell_part(scope, subject, Operator::In { negated }, out)?;
    spell_entries(scope, entries, out)
}

#[cycle(spell)]
fn spell_like(
    scope: &Scope,
    subject: &Boxed<Expr>,
    pattern: &Text,
    negated: bool,
    out: &mut Spelling,
) -> Result<(), AllocError>
    ensures { OnOk result (out.new
        ≡ out.old
        ++ of_mark.Operator (of_operator.Like negated) ∷ spelled scope.now subject.now
        ++ of_mark.Text pattern.now ∷ []) }
{
    spell_part(scope, subject, Operator::Like { negated }, out)?;
    put_text(pattern, out)
}

#[cycle(spell)]
fn spell_coalesce(scope: &Scope, entries: &[Expr], out: &mut Spelling) -> Result<(), AllocError>
    ensures { OnOk result (out.new
        ≡ out.old
        ++ of_mark.Operator of_operator.Coalesce ∷ list_marks (map (spelled scope.now)
        entries.now)) }
{
    put_operator(Operator::Coalesce, out)?;
    spell_entries(scope, entries, out)
}

/// CASE and its arms.
#[cycle(spell)]
fn spell_case(scope: &Scope, arms: &[Arm], out: &mut Spelling) -> Result<(), AllocError>
    ensures { OnOk result (out.new
        ≡ out.old
        ++ of_mark.Operator of_operator.Case ∷ arms_marks (map (spelled_arm scope.now)
        arms.now)) }
{
    put_operator(Operator::Case, out)?;
    spell_arms(scope, arms, out)
}

/// One more part of a list.
#[cycle(spell)]
fn spell_next(scope: &Scope, part: &Expr, out: &mut Spelling) -> Result<(), AllocError>
    ensures { OnOk result (out.new ≡ out.old ++ of_mark.More ∷ spelled scope.now part.now) }
{
    out.push(Mark::More)?;
    spell(scope, part, out)
}

#[cycle(spell)]
fn spell_entries(scope: &Scope, entries: &[Expr], out: &mut Spelling) -> Result<(), AllocError>
    ensures { OnOk result (out.new ≡ out.old ++ list_marks (map (spelled scope.now) entries.now)) }
{
    for entry in entries {
        spell_next(scope, entry, out)?;
    }
    out.push(Mark::End)
}

#[cycle(spell)]
fn spell_arms(scope: &Scope, arms: &[Arm], out: &mut Spelling) -> Result<(), AllocError>
    ensures { OnOk result (out.new ≡ out.old ++ arms_marks (map (spelled_arm scope.now) arms.now)) }
{
    for arm in arms {
        spell_next(scope, &arm.condition, out)?;
        spell(scope, &arm.value, out)?;
    }
    out.push(Mark::End)
}

#[cycle(spell)]
fn spell_else(
    scope: &Scope,
    otherwise: &Option<Boxed<Expr>>,
    out: &mut Spelling,
) -> Result<(), AllocError>
    ensures { OnOk result (out.new
        ≡ out.old ++ else_marks (option_map (spelled scope.now) otherwise.now)) }
{
    match otherwise {
        Some(otherwise) => spell_next(scope, otherwise.get(), out),
        None => out.push(Mark::End),
    }
}

fn is_same(a: &Spelling, b: &Spelling) -> bool
    ensures { result ≡ same_spelling a.now b.now }
{
    a == b
}

/// Where a list first has a tree that is written out like this.
pub fn find_same(list: &[Spelling], wanted: &Spelling) -> Option<usize>
    ensures { result ≡ index_among list.now wanted.now }
{
    list.iter().position(|spelling| is_same(wanted, spelling))
}
