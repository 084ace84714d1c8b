//! The nodes of an expression: each part is evaluated on the lanes on which what stands before it
//! leaves it needed.
ghost use Rattle.std.specs.Prelude.{◌≡◌, ◌<◌, ℕ, true, List, map, All, Ok, IfOk};
ghost use Rattle.meaning.specs.declared.joined_row.JoinedRow.{JoinedRow};
ghost use Rattle.meaning.specs.declared.outcome.Outcome.{Outcome};
ghost use Rattle.meaning.specs.declared.value.ColType.{ColType};
ghost use Rattle.meaning.specs.declared.value.ColType.TheVariants as of_type;
ghost use Rattle.meaning.specs.declared.expr.ComparisonOperator.TheVariants as comparison;
ghost use Rattle.meaning.specs.declared.expr.Expr.TheVariants as node;
ghost use Rattle.meaning.specs.Operators.{and_of, arith_of, case_of, cases_of, coalesce_of, compare_of, first_of, is_null_of, like_of, minus_of, not_if, not_of, or_of};
ghost use Rattle.meaning.specs.Expr.{arms_at, eval_arm, outcomes};
ghost use Rattle.meaning.specs.Typing.{Boolean, ExprType, RowTypes, Valued};
ghost use Rattle.vectors.specs.Selection.{Positions, without};
ghost use Rattle.vector_operators.specs.Evaluated.{Evaluates, Held, IsWithin};
ghost use Rattle.primitives.specs.Meant.{meant_at, row_at};
ghost use Rattle.vector_operators.specs.declared.given.Given.{Given};
ghost use Rattle.vector_operators.specs.declared.given.Given.TheVariants as given;
ghost use Rattle.primitives.specs.Fitting.{AreTypedRows, Fits};
ghost use Rattle.vector_operators.specs.Given.{AreNegatedIf, IsLong, IsSpelledIn, are_alike, given_at, is_not_false, is_not_true, is_null_lane, is_of_kind, ArePut};
ghost use Rattle.primitives.specs.Nodes.{Decides, ExprGives, FitsArm, Gives, IsExact, IsNoLater, IsTaken, IsWhere, Passes, one_of_subject};

use meaning::{ArithmeticOperator, Arm, Boxed, ComparisonOperator, Expr, Sequence, Text, Truth};
use std::alloc::{AllocError, Global};
use std::mem::{drop, replace};
use vector_operators::{
    Fault1, Given, LaneSet, and, arithmetic, coalesce, compare, is_null, lent_column, like, minus,
    not, not_if, one_truth, or, put, repeated, unless_false, unless_true, where_null, where_true,
};
use vectors::{Batch, ColumnReference};

/// Where an expression is evaluated: over the rows of a batch, with memory for what it gives.
#[derive(Clone, Copy)]
pub struct Evaluation<'a> {
    pub alloc: Global,
    pub batch: &'a Batch<'a>,
}

/// What the expression gives, node by node.
#[cycle(eval)]
pub fn eval<'a>(
    on: &Evaluation<'a>,
    expr: &'a Expr,
    selection: &LaneSet,
    fault: &mut Fault1,
) -> Result<Given<'a>, AllocError>
    requires { selection.now.below ≡ on.now.batch.now.rows }
    ensures long { IfOk result (IsLong on.now.batch.now.rows) }
    ensures gives { IfOk result (λ g. (types : RowTypes) (type : ExprType) (rows : List JoinedRow)
        → AreTypedRows types on.now.batch.now rows
        → Fits types on.now.batch.now.columns expr.now type
        → Gives type (meant_at expr.now rows) (IsWithin selection.now) fault.old.held fault.new.held
        g) }
{
    // A function clears room for all its locals when it begins, so columns and literals don't begin
    // that of the other nodes.
    match expr {
        Expr::Column(column) => Ok(lent_column(
            on.batch,
            ColumnReference::Fact { column: *column },
        )),
        Expr::Literal(value) => Ok(repeated(value, on.batch.rows())),
        _ => eval_node(on, expr, selection, fault),
    }
}

/// The same of any node.
#[cycle(eval)]
fn eval_node<'a>(
    on: &Evaluation<'a>,
    expr: &'a Expr,
    selection: &LaneSet,
    fault: &mut Fault1,
) -> Result<Given<'a>, AllocError>
    requires { selection.now.below ≡ on.now.batch.now.rows }
    ensures long { IfOk result (IsLong on.now.batch.now.rows) }
    ensures gives { IfOk result (λ g. (types : RowTypes) (type : ExprType) (rows : List JoinedRow)
        → AreTypedRows types on.now.batch.now rows
        → Fits types on.now.batch.now.columns expr.now type
        → Gives type (meant_at expr.now rows) (IsWithin selection.now) fault.old.held fault.new.held
        g) }
{
    match expr {
        Expr::Column(column) => Ok(lent_column(
            on.batch,
            ColumnReference::Fact { column: *column },
        )),
        Expr::Joined { join, column } => Ok(lent_column(
            on.batch,
            ColumnReference::Join {
                join: *join,
                column: *column,
            },
        )),
        Expr::Key(key) => Ok(lent_column(on.batch, ColumnReference::Key { key: *key })),
        Expr::Aggregate(aggregate) => Ok(lent_column(
            on.batch,
            ColumnReference::Aggregate {
                aggregate: *aggregate,
            },
        )),
        Expr::Literal(value) => Ok(repeated(value, on.batch.rows())),
        Expr::Minus(operand) => minus_node(on, operand, selection, fault),
        Expr::Arithmetic(op, left, right) => {
            arithmetic_node(on, *op, left, right, selection, fault)
        }
        Expr::Compare(op, left, right) => compare_node(on, *op, left, right, selection, fault),
        Expr::Not(operand) => not_node(on, operand, selection, fault),
        Expr::And(left, right) => and_node(on, left, right, selection, fault),
        Expr::Or(left, right) => or_node(on, left, right, selection, fault),
        Expr::IsNull { negated, subject } => {
            is_null_node(on, *negated, subject, selection, fault)
        }
        Expr::Between {
            negated,
            subject,
            low,
            high,
        } => between_node(on, *negated, subject, low, high, selection, fault),
        Expr::In {
            negated,
            subject,
            list,
        } => in_node(on, *negated, list, subject, selection, fault),
        Expr::Like {
            negated,
            subject,
            pattern,
        } => like_node(on, *negated, subject, pattern, selection, fault),
        Expr::Coalesce(list) => eval_coalesce(on, list.as_slice(), selection, fault),
        Expr::Case { arms, otherwise } => case_node(on, arms, otherwise, selection, fault),
    }
}

#[cycle(eval)]
fn minus_node<'a>(
    on: &Evaluation<'a>,
    operand: &'a Boxed<Expr>,
    selection: &LaneSet,
    fault: &mut Fault1,
) -> Result<Given<'a>, AllocError>
    requires { selection.now.below ≡ on.now.batch.now.rows }
    ensures long { IfOk result (IsLong on.now.batch.now.rows) }
    ensures gives { IfOk result (ExprGives on.now.batch.now (node.Minus operand.now)
        (IsWithin selection.now) fault.old.held fault.new.held) }
{
    let a = eval(on, operand.get(), selection, fault)?;
    of_minus(on.alloc, a, selection, fault)
}

#[cycle(eval)]
fn arithmetic_node<'a>(
    on: &Evaluation<'a>,
    op: ArithmeticOperator,
    left: &'a Boxed<Expr>,
    right: &'a Boxed<Expr>,
    selection: &LaneSet,
    fault: &mut Fault1,
) -> Result<Given<'a>, AllocError>
    requires { selection.now.below ≡ on.now.batch.now.rows }
    ensures long { IfOk result (IsLong on.now.batch.now.rows) }
    ensures gives { IfOk result (ExprGives on.now.batch.now (node.Arithmetic op left.now right.now)
        (IsWithin selection.now) fault.old.held fault.new.held) }
{
    let left = eval(on, left.get(), selection, fault)?;
    let result = eval_arithmetic(on, op, &left, right.get(), selection, fault);
    drop(left);
    result
}

#[cycle(eval)]
fn compare_node<'a>(
    on: &Evaluation<'a>,
    op: ComparisonOperator,
    left: &'a Boxed<Expr>,
    right: &'a Boxed<Expr>,
    selection: &LaneSet,
    fault: &mut Fault1,
) -> Result<Given<'a>, AllocError>
    requires { selection.now.below ≡ on.now.batch.now.rows }
    ensures long { IfOk result (IsLong on.now.batch.now.rows) }
    ensures gives { IfOk result (ExprGives on.now.batch.now (node.Compare op left.now right.now)
        (IsWithin selection.now) fault.old.held fault.new.held) }
{
    let left = eval(on, left.get(), selection, fault)?;
    let result = eval_compare(on, op, &left, right.get(), selection, fault);
    drop(left);
    result
}

#[cycle(eval)]
fn not_node<'a>(
    on: &Evaluation<'a>,
    operand: &'a Boxed<Expr>,
    selection: &LaneSet,
    fault: &mut Fault1,
) -> Result<Given<'a>, AllocError>
    requires { selection.now.below ≡ on.now.batch.now.rows }
    ensures long { IfOk result (IsLong on.now.batch.now.rows) }
    ensures gives { IfOk result (ExprGives on.now.batch.now (node.Not operand.now)
        (IsWithin selection.now) fault.old.held fault.new.held) }
{
    let a = eval(on, operand.get(), selection, fault)?;
    of_not(on.alloc, a, on.batch.rows())
}

#[cycle(eval)]
fn and_node<'a>(
    on: &Evaluation<'a>,
    left: &'a Boxed<Expr>,
    right: &'a Boxed<Expr>,
    selection: &LaneSet,
    fault: &mut Fault1,
) -> Result<Given<'a>, AllocError>
    requires { selection.now.below ≡ on.now.batch.now.rows }
    ensures long { IfOk result (IsLong on.now.batch.now.rows) }
    ensures gives { IfOk result (ExprGives on.now.batch.now (node.And left.now right.now)
        (IsWithin selection.now) fault.old.held fault.new.held) }
{
    let left = eval(on, left.get(), selection, fault)?;
    let result = eval_and(on, &left, right.get(), selection, fault);
    drop(left);
    result
}

#[cycle(eval)]
fn or_node<'a>(
    on: &Evaluation<'a>,
    left: &'a Boxed<Expr>,
    right: &'a Boxed<Expr>,
    selection: &LaneSet,
    fault: &mut Fault1,
) -> Result<Given<'a>, AllocError>
    requires { selection.now.below ≡ on.now.batch.now.rows }
    ensures long { IfOk result (IsLong on.now.batch.now.rows) }
    ensures gives { IfOk result (ExprGives on.now.batch.now (node.Or left.now right.now)
        (IsWithin selection.now) fault.old.held fault.new.held) }
{
    let left = eval(on, left.get(), selection, fault)?;
    let result = eval_or(on, &left, right.get(), selection, fault);
    drop(left);
    result
}

#[cycle(eval)]
fn is_null_node<'a>(
    on: &Evaluation<'a>,
    negated: bool,
    subject: &'a Boxed<Expr>,
    selection: &LaneSet,
    fault: &mut Fault1,
) -> Result<Given<'a>, AllocError>
    requires { selection.now.below ≡ on.now.batch.now.rows }
    ensures long { IfOk result (IsLong on.now.batch.now.rows) }
    ensures gives { IfOk result (ExprGives on.now.batch.now (node.IsNull negated subject.now)
        (IsWithin selection.now) fault.old.held fault.new.held) }
{
    let subject = eval(on, subject.get(), selection, fault)?;
    of_is_null(on.alloc, negated, subject, on.batch.rows())
}

#[cycle(eval)]
fn between_node<'a>(
    on: &Evaluation<'a>,
    negated: bool,
    subject: &'a Boxed<Expr>,
    low: &'a Boxed<Expr>,
    high: &'a Boxed<Expr>,
    selection: &LaneSet,
    fault: &mut Fault1,
) -> Result<Given<'a>, AllocError>
    requires { selection.now.below ≡ on.now.batch.now.rows }
    ensures long { IfOk result (IsLong on.now.batch.now.rows) }
    ensures gives { IfOk result (ExprGives on.now.batch.now (node.Between negated subject.now low.now high.now)
        (IsWithin selection.now) fault.old.held fault.new.held) }
{
    let subject = eval(on, subject.get(), selection, fault)?;
    let above = eval_compare(
        on,
        ComparisonOperator::GreaterOrEqual,
        &subject,
        low.get(),
        selection,
        fault,
    );
    let within = eval_above(on, &subject, above, high.get(), selection, fault);
    drop(subject);
    not_if_known(on.alloc, negated, within, on.batch.rows())
}

#[cycle(eval)]
fn in_node<'a>(
    on: &Evaluation<'a>,
    negated: bool,
    list: &'a Sequence<Expr>,
    subject: &'a Boxed<Expr>,
    selection: &LaneSet,
    fault: &mut Fault1,
) -> Result<Given<'a>, AllocError>
    requires { selection.now.below ≡ on.now.batch.now.rows }
    ensures long { IfOk result (IsLong on.now.batch.now.rows) }
    ensures gives { IfOk result (ExprGives on.now.batch.now (node.In negated subject.now list.now)
        (IsWithin selection.now) fault.old.held fault.new.held) }
{
    if list.len() == 0 {
        return not_if(
            on.alloc,
            negated,
            one_truth(Truth::False, on.batch.rows()),
            on.batch.rows(),
        );
    }
    let subject = eval(on, subject.get(), selection, fault)?;
    let found = find_in(on, &subject, list.as_slice(), selection, fault);
    drop(subject);
    not_if_known(on.alloc, negated, found, on.batch.rows())
}

#[cycle(eval)]
fn like_node<'a>(
    on: &Evaluation<'a>,
    negated: bool,
    subject: &'a Boxed<Expr>,
    pattern: &Text,
    selection: &LaneSet,
    fault: &mut Fault1,
) -> Result<Given<'a>, AllocError>
    requires { selection.now.below ≡ on.now.batch.now.rows }
    ensures long { IfOk result (IsLong on.now.batch.now.rows) }
    ensures gives { IfOk result (ExprGives on.now.batch.now (node.Like negated subject.now pattern.now)
        (IsWithin selection.now) fault.old.held fault.new.held) }
{
    let subject = eval(on, subject.get(), selection, fault)?;
    let found = of_like(on.alloc, pattern, subject, on.batch.rows());
    not_if_known(on.alloc, negated, found, on.batch.rows())
}

#[cycle(eval)]
fn case_node<'a>(
    on: &Evaluation<'a>,
    arms: &'a Sequence<Arm>,
    otherwise: &'a Boxed<Expr>,
    selection: &LaneSet,
    fault: &mut Fault1,
) -> Result<Given<'a>, AllocError>
    requires { selection.now.below ≡ on.now.batch.now.rows }
    ensures long { IfOk result (IsLong on.now.batch.now.rows) }
    ensures gives { IfOk result (ExprGives on.now.batch.now (node.Case arms.now otherwise.now)
        (IsWithin selection.now) fault.old.held fault.new.held) }
{
    let cases = eval_arms(on, arms.as_slice(), selection, fault)?;
    eval_otherwise(on, cases, otherwise.get(), fault)
}

fn not_if_known<'a>(
    alloc: Global,
    negated: bool,
    given: Result<Given<'a>, AllocError>,
    lanes: usize,
) -> Result<Given<'a>, AllocError>
    requires { IfOk given (IsLong lanes) }
    ensures long { IfOk result (IsLong lanes) }
    ensures value { IfOk result (AreNegatedIf negated lanes given.entry) }
    ensures kind { IfOk given.entry (λ a. is_of_kind Boolean a ≡ true)
        → IfOk result (λ g. is_of_kind Boolean g ≡ true) }
{
    not_if(alloc, negated, given?, lanes)
}

fn of_minus<'a>(
    alloc: Global,
    a: Given<'a>,
    selection: &LaneSet,
    fault: &mut Fault1,
) -> Result<Given<'a>, AllocError>
    requires { IsLong selection.now.below a }
    ensures long { IfOk result (IsLong selection.now.below) }
    ensures exact { is_of_kind (Valued of_type.Int) a.entry ≡ true
        → IfOk result (λ g. Evaluates (λ i. minus_of (given_at a.entry i)) (IsWithin selection.now)
        fault.old.held fault.new.held (given_at g)) }
    ensures kind { IfOk result (λ g. is_of_kind (Valued of_type.Int) g ≡ true) }
{
    let result = minus(alloc, &a, selection, fault);
    drop(a);
    result
}

fn of_not<'a>(alloc: Global, a: Given<'a>, lanes: usize) -> Result<Given<'a>, AllocError>
    requires { IsLong lanes a }
    ensures long { IfOk result (IsLong lanes) }
    ensures value { IfOk result (λ g. (i : ℕ) → i < lanes
        → given_at g i ≡ not_of (given_at a.entry i)) }
    ensures kind { IfOk result (λ g. is_of_kind Boolean g ≡ true) }
{
    let result = not(alloc, &a, lanes);
    drop(a);
    result
}

fn of_is_null<'a>(
    alloc: Global,
    negated: bool,
    a: Given<'a>,
    lanes: usize,
) -> Result<Given<'a>, AllocError>
    requires { IsLong lanes a }
    ensures long { IfOk result (IsLong lanes) }
    ensures value { IfOk result (λ g. (i : ℕ) → i < lanes
        → given_at g i ≡ not_if negated (is_null_of (given_at a.entry i))) }
    ensures kind { IfOk result (λ g. is_of_kind Boolean g ≡ true) }
{
    let result = is_null(alloc, negated, &a, lanes);
    drop(a);
    result
}

fn of_like<'a>(
    alloc: Global,
    pattern: &Text,
    a: Given<'a>,
    lanes: usize,
) -> Result<Given<'a>, AllocError>
    requires { IsLong lanes a }
    ensures long { IfOk result (IsLong lanes) }
    ensures value { is_of_kind (Valued of_type.Text) a.entry ≡ true
        → IfOk result (λ g. (i : ℕ) → i < lanes → IsSpelledIn a.entry i
        → given_at g i ≡ like_of pattern.now (given_at a.entry i)) }
    ensures kind { IfOk result (λ g. is_of_kind Boolean g ≡ true) }
{
    let result = like(alloc, pattern, &a, lanes);
    drop(a);
    result
}

/// Arithmetic: both sides are evaluated on each lane.
#[cycle(eval)]
fn eval_arithmetic<'a>(
    on: &Evaluation<'a>,
    op: ArithmeticOperator,
    left: &Given<'_>,
    right: &'a Expr,
    selection: &LaneSet,
    fault: &mut Fault1,
) -> Result<Given<'a>, AllocError>
    requires below { selection.now.below ≡ on.now.batch.now.rows }
    requires left { IsLong on.now.batch.now.rows left.now }
    ensures long { IfOk result (IsLong on.now.batch.now.rows) }
    ensures gives { IfOk result (λ g. (types : RowTypes) (rows : List JoinedRow) (a : ℕ
        → Outcome) (held : Held)
        → AreTypedRows types on.now.batch.now rows
        → Fits types on.now.batch.now.columns right.now (Valued of_type.Int)
        → is_of_kind (Valued of_type.Int) left.now ≡ true
        → Evaluates a (IsWithin selection.now) held fault.old.held (given_at left.now)
        → Gives (Valued of_type.Int) (λ i. arith_of op (a i) (meant_at right.now rows i))
        (IsWithin selection.now) held fault.new.held g) }
{
    let right = eval(on, right, selection, fault)?;
    let result = arithmetic(on.alloc, op, left, &right, selection, fault);
    drop(right);
    result
}

/// A comparison: both sides are evaluated on each lane.
#[cycle(eval)]
fn eval_compare<'a>(
    on: &Evaluation<'a>,
    op: ComparisonOperator,
    left: &Given<'_>,
    right: &'a Expr,
    selection: &LaneSet,
    fault: &mut Fault1,
) -> Result<Given<'a>, AllocError>
    requires below { selection.now.below ≡ on.now.batch.now.rows }
    requires left { IsLong on.now.batch.now.rows left.now }
    ensures long { IfOk result (IsLong on.now.batch.now.rows) }
    ensures gives { IfOk result
        (λ g. (types : RowTypes) (rows : List JoinedRow) (kind : ColType) (a : ℕ
        → Outcome) (held : Held)
        → AreTypedRows types on.now.batch.now rows
        → Fits types on.now.batch.now.columns right.now (Valued kind)
        → is_of_kind (Valued kind) left.now ≡ true
        → Evaluates a (IsWithin selection.now) held fault.old.held (given_at left.now)
        → Gives Boolean (λ i. compare_of op (a i) (meant_at right.now rows i))
        (IsWithin selection.now) held fault.new.held g × IsNoLater fault.old.held fault.new.held) }
{
    let right = eval(on, right, selection, fault)?;
    let result = compare(on.alloc, op, left, &right, on.batch.rows());
    drop(right);
    result
}

/// The expression on the selected lanes that aren't FALSE.
#[cycle(eval)]
fn eval_unless_false<'a>(
    on: &Evaluation<'a>,
    before: &Given<'_>,
    expr: &'a Expr,
    selection: &LaneSet,
    fault: &mut Fault1,
) -> Result<Given<'a>, AllocError>
    requires below { selection.now.below ≡ on.now.batch.now.rows }
    requires before { IsLong on.now.batch.now.rows before.now }
    ensures long { IfOk result (IsLong on.now.batch.now.rows) }
    ensures gives { IfOk result (λ g. (types : RowTypes) (type : ExprType) (rows : List JoinedRow)
        → AreTypedRows types on.now.batch.now rows
        → Fits types on.now.batch.now.columns expr.now type
        → Gives type (meant_at expr.now rows)
        (IsWhere (λ i. is_not_false (given_at before.now i)) selection.now) fault.old.held
        fault.new.held g) }
{
    let narrowed = unless_false(on.alloc, before, selection)?;
    let result = eval(on, expr, &narrowed, fault);
    drop(narrowed);
    result
}

/// The expression on the selected lanes that aren't TRUE.
#[cycle(eval)]
fn eval_unless_true<'a>(
    on: &Evaluation<'a>,
    before: &Given<'_>,
    expr: &'a Expr,
    selection: &LaneSet,
    fault: &mut Fault1,
) -> Result<Given<'a>, AllocError>
    requires below { selection.now.below ≡ on.now.batch.now.rows }
    requires before { IsLong on.now.batch.now.rows before.now }
    ensures long { IfOk result (IsLong on.now.batch.now.rows) }
    ensures gives { IfOk result (λ g. (types : RowTypes) (type : ExprType) (rows : List JoinedRow)
        → AreTypedRows types on.now.batch.now rows
        → Fits types on.now.batch.now.columns expr.now type
        → Gives type (meant_at expr.now rows)
        (IsWhere (λ i. is_not_true (given_at before.now i)) selection.now) fault.old.held
        fault.new.held g) }
{
    // No lane of a literal faults.
    if let Expr::Literal(value) = expr {
        return Ok(repeated(value, on.batch.rows()));
    }
    let narrowed = unless_true(on.alloc, before, selection)?;
    let result = eval(on, expr, &narrowed, fault);
    drop(narrowed);
    result
}

/// The expression on the selected lanes that are NULL.
#[cycle(eval)]
fn eval_where_null<'a>(
    on: &Evaluation<'a>,
    before: &Given<'_>,
    expr: &'a Expr,
    selection: &LaneSet,
    fault: &mut Fault1,
) -> Result<Given<'a>, AllocError>
    requires below { selection.now.below ≡ on.now.batch.now.rows }
    requires before { IsLong on.now.batch.now.rows before.now }
    ensures long { IfOk result (IsLong on.now.batch.now.rows) }
    ensures gives { IfOk result (λ g. (types : RowTypes) (type : ExprType) (rows : List JoinedRow)
        → AreTypedRows types on.now.batch.now rows
        → Fits types on.now.batch.now.columns expr.now type
        → Gives type (meant_at expr.now rows)
        (IsWhere (λ i. is_null_lane (given_at before.now i)) selection.now) fault.old.held
        fault.new.held g) }
{
    // No lane of a literal faults.
    if let Expr::Literal(value) = expr {
        return Ok(repeated(value, on.batch.rows()));
    }
    let narrowed = where_null(on.alloc, before, selection)?;
    let result = eval(on, expr, &narrowed, fault);
    drop(narrowed);
    result
}

/// AND: the right side is evaluated on the lanes where the left one isn't FALSE.
#[cycle(eval)]
fn eval_and<'a>(
    on: &Evaluation<'a>,
    left: &Given<'_>,
    right: &'a Expr,
    selection: &LaneSet,
    fault: &mut Fault1,
) -> Result<Given<'a>, AllocError>
    requires below { selection.now.below ≡ on.now.batch.now.rows }
    requires left { IsLong on.now.batch.now.rows left.now }
    ensures long { IfOk result (IsLong on.now.batch.now.rows) }
    ensures gives { IfOk result (λ g. (types : RowTypes) (rows : List JoinedRow) (a : ℕ
        → Outcome) (held : Held)
        → AreTypedRows types on.now.batch.now rows
        → Fits types on.now.batch.now.columns right.now Boolean
        → Evaluates a (IsWithin selection.now) held fault.old.held (given_at left.now)
        → Gives Boolean (λ i. and_of (a i) (meant_at right.now rows i)) (IsWithin selection.now)
        held fault.new.held g) }
{
    let right = eval_unless_false(on, left, right, selection, fault)?;
    let result = and(on.alloc, left, &right, on.batch.rows());
    drop(right);
    result
}

/// OR: the right side is evaluated on the lanes where the left one isn't TRUE.
#[cycle(eval)]
fn eval_or<'a>(
    on: &Evaluation<'a>,
    left: &Given<'_>,
    right: &'a Expr,
    selection: &LaneSet,
    fault: &mut Fault1,
) -> Result<Given<'a>, AllocError>
    requires below { selection.now.below ≡ on.now.batch.now.rows }
    requires left { IsLong on.now.batch.now.rows left.now }
    ensures long { IfOk result (IsLong on.now.batch.now.rows) }
    ensures gives { IfOk result (λ g. (types : RowTypes) (rows : List JoinedRow) (a : ℕ
        → Outcome) (held : Held)
        → AreTypedRows types on.now.batch.now rows
        → Fits types on.now.batch.now.columns right.now Boolean
        → Evaluates a (IsWithin selection.now) held fault.old.held (given_at left.now)
        → Gives Boolean (λ i. or_of (a i) (meant_at right.now rows i)) (IsWithin selection.now) held
        fault.new.held g) }
{
    let right = eval_unless_true(on, left, right, selection, fault)?;
    let result = or(on.alloc, left, &right, on.batch.rows());
    drop(right);
    result
}

/// The upper half of BETWEEN: the upper bound is evaluated on the lanes where the lower half isn't
/// FALSE.
#[cycle(eval)]
fn eval_high<'a>(
    on: &Evaluation<'a>,
    subject: &Given<'_>,
    above: &Given<'_>,
    high: &'a Expr,
    selection: &LaneSet,
    fault: &mut Fault1,
) -> Result<Given<'a>, AllocError>
    requires below { selection.now.below ≡ on.now.batch.now.rows }
    requires subject { IsLong on.now.batch.now.rows subject.now }
    requires above { IsLong on.now.batch.now.rows above.now }
    ensures long { IfOk result (IsLong on.now.batch.now.rows) }
    ensures gives { IfOk result
        (λ g. (types : RowTypes) (rows : List JoinedRow) (kind : ColType) (x a : ℕ
        → Outcome) (held : Held)
        → AreTypedRows types on.now.batch.now rows
        → Fits types on.now.batch.now.columns high.now (Valued kind)
        → is_of_kind (Valued kind) subject.now ≡ true
        → IsExact x (IsWithin selection.now) fault.old.held (given_at subject.now)
        → Evaluates a (IsWithin selection.now) held fault.old.held (given_at above.now)
        → Gives Boolean (λ i. and_of (a i)
        (compare_of comparison.LessOrEqual (x i) (meant_at high.now rows i)))
        (IsWithin selection.now) held fault.new.held g) }
{
    let below = eval_at_most(on, subject, above, high, selection, fault)?;
    let result = and(on.alloc, above, &below, on.batch.rows());
    drop(below);
    result
}

/// The same behind what the lower half gave.
#[cycle(eval)]
fn eval_above<'a>(
    on: &Evaluation<'a>,
    subject: &Given<'_>,
    above: Result<Given<'a>, AllocError>,
    high: &'a Expr,
    selection: &LaneSet,
    fault: &mut Fault1,
) -> Result<Given<'a>, AllocError>
    requires below { selection.now.below ≡ on.now.batch.now.rows }
    requires subject { IsLong on.now.batch.now.rows subject.now }
    requires above { IfOk above (IsLong on.now.batch.now.rows) }
    ensures long { IfOk result (IsLong on.now.batch.now.rows) }
    ensures gives { IfOk result
        (λ g. (types : RowTypes) (rows : List JoinedRow) (kind : ColType) (x a : ℕ
        → Outcome) (held : Held)
        → AreTypedRows types on.now.batch.now rows
        → Fits types on.now.batch.now.columns high.now (Valued kind)
        → is_of_kind (Valued kind) subject.now ≡ true
        → IfOk above.entry (λ b. IsExact x (IsWithin selection.now) fault.old.held
        (given_at subject.now)
        × Evaluates a (IsWithin selection.now) held fault.old.held (given_at b))
        → Gives Boolean (λ i. and_of (a i)
        (compare_of comparison.LessOrEqual (x i) (meant_at high.now rows i)))
        (IsWithin selection.now) held fault.new.held g) }
{
    let above = above?;
    let result = eval_high(on, subject, &above, high, selection, fault);
    drop(above);
    result
}

/// `subject <= high` on the lanes where what stands before isn't FALSE.
#[cycle(eval)]
fn eval_at_most<'a>(
    on: &Evaluation<'a>,
    subject: &Given<'_>,
    before: &Given<'_>,
    high: &'a Expr,
    selection: &LaneSet,
    fault: &mut Fault1,
) -> Result<Given<'a>, AllocError>
    requires below { selection.now.below ≡ on.now.batch.now.rows }
    requires subject { IsLong on.now.batch.now.rows subject.now }
    requires before { IsLong on.now.batch.now.rows before.now }
    ensures long { IfOk result (IsLong on.now.batch.now.rows) }
    ensures gives { IfOk result
        (λ g. (types : RowTypes) (rows : List JoinedRow) (kind : ColType) (x : ℕ → Outcome)
        → AreTypedRows types on.now.batch.now rows
        → Fits types on.now.batch.now.columns high.now (Valued kind)
        → is_of_kind (Valued kind) subject.now ≡ true
        → IsExact x (IsWithin selection.now) fault.old.held (given_at subject.now)
        → Gives Boolean (λ i. compare_of comparison.LessOrEqual (x i) (meant_at high.now rows i))
        (IsWhere (λ i. is_not_false (given_at before.now i)) selection.now) fault.old.held
        fault.new.held g) }
{
    let high = eval_unless_false(on, before, high, selection, fault)?;
    let result = compare(
        on.alloc,
        ComparisonOperator::LessOrEqual,
        subject,
        &high,
        on.batch.rows(),
    );
    drop(high);
    result
}

/// IN a list that isn't empty: the subject was evaluated once, and each item is on the lanes where
/// none before it was equal.
#[cycle(eval)]
fn find_in<'a>(
    on: &Evaluation<'a>,
    subject: &Given<'_>,
    list: &'a [Expr],
    selection: &LaneSet,
    fault: &mut Fault1,
) -> Result<Given<'static>, AllocError>
    requires below { selection.now.below ≡ on.now.batch.now.rows }
    requires subject { IsLong on.now.batch.now.rows subject.now }
    ensures long { IfOk result (IsLong on.now.batch.now.rows) }
    ensures gives { IfOk result
        (λ g. (types : RowTypes) (rows : List JoinedRow) (kind : ColType) (x : ℕ
        → Outcome) (held : Held)
        → AreTypedRows types on.now.batch.now rows
        → All (λ e. Fits types on.now.batch.now.columns e (Valued kind)) list.now
        → is_of_kind (Valued kind) subject.now ≡ true
        → Evaluates x (IsWithin selection.now) held fault.old.held (given_at subject.now)
        → Gives Boolean (λ i. one_of_subject (x i) (outcomes list.now (row_at rows i)))
        (IsWithin selection.now) held fault.new.held g) }
{
    let mut found = one_truth(Truth::False, on.batch.rows());
    for item in list {
        find_item(on, subject, &mut found, item, selection, fault)?;
    }
    Ok(found)
}

/// What was found, or whether the subject equals one item more.
#[cycle(eval)]
fn find_item<'a>(
    on: &Evaluation<'a>,
    subject: &Given<'_>,
    found: &mut Given<'static>,
    item: &'a Expr,
    selection: &LaneSet,
    fault: &mut Fault1,
) -> Result<(), AllocError>
    requires below { selection.now.below ≡ on.now.batch.now.rows }
    requires subject { IsLong on.now.batch.now.rows subject.now }
    requires found { IsLong on.now.batch.now.rows found.old }
    ensures long { IsLong on.now.batch.now.rows found.new }
    ensures gives { IfOk result
        (λ _. (types : RowTypes) (rows : List JoinedRow) (kind : ColType) (x a : ℕ
        → Outcome) (held : Held)
        → AreTypedRows types on.now.batch.now rows
        → Fits types on.now.batch.now.columns item.now (Valued kind)
        → is_of_kind (Valued kind) subject.now ≡ true
        → IsExact x (IsWithin selection.now) fault.old.held (given_at subject.now)
        → Evaluates a (IsWithin selection.now) held fault.old.held (given_at found.old)
        → Gives Boolean (λ i. or_of (a i)
        (compare_of comparison.Equal (x i) (meant_at item.now rows i))) (IsWithin selection.now)
        held fault.new.held found.new
        × IsNoLater fault.old.held fault.new.held) }
{
    let next = find_next(on, subject, found, item, selection, fault)?;
    drop(replace(found, next));
    Ok(())
}

/// The same, of what is lent.
#[cycle(eval)]
fn find_next<'a>(
    on: &Evaluation<'a>,
    subject: &Given<'_>,
    found: &Given<'_>,
    item: &'a Expr,
    selection: &LaneSet,
    fault: &mut Fault1,
) -> Result<Given<'static>, AllocError>
    requires below { selection.now.below ≡ on.now.batch.now.rows }
    requires subject { IsLong on.now.batch.now.rows subject.now }
    requires found { IsLong on.now.batch.now.rows found.now }
    ensures long { IfOk result (IsLong on.now.batch.now.rows) }
    ensures gives { IfOk result
        (λ g. (types : RowTypes) (rows : List JoinedRow) (kind : ColType) (x a : ℕ
        → Outcome) (held : Held)
        → AreTypedRows types on.now.batch.now rows
        → Fits types on.now.batch.now.columns item.now (Valued kind)
        → is_of_kind (Valued kind) subject.now ≡ true
        → IsExact x (IsWithin selection.now) fault.old.held (given_at subject.now)
        → Evaluates a (IsWithin selection.now) held fault.old.held (given_at found.now)
        → Gives Boolean (λ i. or_of (a i)
        (compare_of comparison.Equal (x i) (meant_at item.now rows i))) (IsWithin selection.now)
        held fault.new.held g
        × IsNoLater fault.old.held fault.new.held) }
{
    let equal = eval_equal(on, subject, found, item, selection, fault)?;
    let result = or(on.alloc, found, &equal, on.batch.rows());
    drop(equal);
    result
}

/// `subject = item` on the lanes where what stands before isn't TRUE.
#[cycle(eval)]
fn eval_equal<'a>(
    on: &Evaluation<'a>,
    subject: &Given<'_>,
    before: &Given<'_>,
    item: &'a Expr,
    selection: &LaneSet,
    fault: &mut Fault1,
) -> Result<Given<'a>, AllocError>
    requires below { selection.now.below ≡ on.now.batch.now.rows }
    requires subject { IsLong on.now.batch.now.rows subject.now }
    requires before { IsLong on.now.batch.now.rows before.now }
    ensures long { IfOk result (IsLong on.now.batch.now.rows) }
    ensures gives { IfOk result
        (λ g. (types : RowTypes) (rows : List JoinedRow) (kind : ColType) (x : ℕ → Outcome)
        → AreTypedRows types on.now.batch.now rows
        → Fits types on.now.batch.now.columns item.now (Valued kind)
        → is_of_kind (Valued kind) subject.now ≡ true
        → IsExact x (IsWithin selection.now) fault.old.held (given_at subject.now)
        → Gives Boolean (λ i. compare_of comparison.Equal (x i) (meant_at item.now rows i))
        (IsWhere (λ i. is_not_true (given_at before.now i)) selection.now) fault.old.held
        fault.new.held g) }
{
    let item = eval_unless_true(on, before, item, selection, fault)?;
    let result = compare(
        on.alloc,
        ComparisonOperator::Equal,
        subject,
        &item,
        on.batch.rows(),
    );
    drop(item);
    result
}

/// COALESCE: each item is evaluated on the lanes where all before it are NULL.
#[cycle(eval)]
fn eval_coalesce<'a>(
    on: &Evaluation<'a>,
    list: &'a [Expr],
    selection: &LaneSet,
    fault: &mut Fault1,
) -> Result<Given<'a>, AllocError>
    requires below { selection.now.below ≡ on.now.batch.now.rows }
    ensures long { IfOk result (IsLong on.now.batch.now.rows) }
    ensures gives { IfOk result (λ g. (types : RowTypes) (rows : List JoinedRow) (kind : ColType)
        → AreTypedRows types on.now.batch.now rows
        → All (λ e. Fits types on.now.batch.now.columns e (Valued kind)) list.now
        → Gives (Valued kind) (λ i. first_of (outcomes list.now (row_at rows i)))
        (IsWithin selection.now) fault.old.held fault.new.held g) }
{
    let mut so_far = Given::Null;
    for item in list {
        eval_item(on, &mut so_far, item, selection, fault)?;
    }
    Ok(so_far)
}

/// What there is so far, and where that is NULL one item more.
#[cycle(eval)]
fn eval_item<'a>(
    on: &Evaluation<'a>,
    so_far: &mut Given<'a>,
    item: &'a Expr,
    selection: &LaneSet,
    fault: &mut Fault1,
) -> Result<(), AllocError>
    requires below { selection.now.below ≡ on.now.batch.now.rows }
    requires so_far { IsLong on.now.batch.now.rows so_far.old }
    ensures long { IsLong on.now.batch.now.rows so_far.new }
    ensures gives { IfOk result
        (λ _. (types : RowTypes) (rows : List JoinedRow) (kind : ColType) (a : ℕ
        → Outcome) (held : Held)
        → AreTypedRows types on.now.batch.now rows
        → Fits types on.now.batch.now.columns item.now (Valued kind)
        → is_of_kind (Valued kind) so_far.old ≡ true
        → Evaluates a (IsWithin selection.now) held fault.old.held (given_at so_far.old)
        → Gives (Valued kind) (λ i. coalesce_of (a i) (meant_at item.now rows i))
        (IsWithin selection.now) held fault.new.held so_far.new) }
{
    let next = eval_next(on, so_far, item, selection, fault)?;
    drop(replace(so_far, next));
    Ok(())
}

/// The same, of what is lent.
#[cycle(eval)]
fn eval_next<'a>(
    on: &Evaluation<'a>,
    so_far: &Given<'a>,
    item: &'a Expr,
    selection: &LaneSet,
    fault: &mut Fault1,
) -> Result<Given<'a>, AllocError>
    requires below { selection.now.below ≡ on.now.batch.now.rows }
    requires so_far { IsLong on.now.batch.now.rows so_far.now }
    ensures long { IfOk result (IsLong on.now.batch.now.rows) }
    ensures gives { IfOk result
        (λ g. (types : RowTypes) (rows : List JoinedRow) (kind : ColType) (a : ℕ
        → Outcome) (held : Held)
        → AreTypedRows types on.now.batch.now rows
        → Fits types on.now.batch.now.columns item.now (Valued kind)
        → is_of_kind (Valued kind) so_far.now ≡ true
        → Evaluates a (IsWithin selection.now) held fault.old.held (given_at so_far.now)
        → Gives (Valued kind) (λ i. coalesce_of (a i) (meant_at item.now rows i))
        (IsWithin selection.now) held fault.new.held g) }
{
    let item = eval_where_null(on, so_far, item, selection, fault)?;
    coalesce(on.alloc, so_far, item, on.batch.rows())
}

/// What the arms of a CASE gave so far, and the lanes that none of them took.
#[derive(Drop)]
pub struct Cases<'a> {
    given: Given<'a>,
    left: LaneSet,
}

/// The lanes that an arm takes, and what it gives on them.
#[derive(Drop)]
pub struct Taken<'a> {
    then: Given<'a>,
    lanes: LaneSet,
}

/// The arms of CASE: each condition is evaluated on the lanes that no arm before it took, each
/// value where it is chosen.
#[cycle(eval)]
fn eval_arms<'a>(
    on: &Evaluation<'a>,
    arms: &'a [Arm],
    selection: &LaneSet,
    fault: &mut Fault1,
) -> Result<Cases<'a>, AllocError>
    requires below { selection.now.below ≡ on.now.batch.now.rows }
    ensures long { IfOk result (λ c. IsLong on.now.batch.now.rows c.given
        × (c.left.below ≡ on.now.batch.now.rows)) }
    ensures gives { IfOk result
        (λ c. (types : RowTypes) (rows : List JoinedRow) (kind : ColType) (rest : ℕ → Outcome)
        → AreTypedRows types on.now.batch.now rows
        → All (FitsArm types on.now.batch.now.columns kind) arms.now
        → Decides kind (λ i. cases_of (arms_at (row_at rows i) (map eval_arm arms.now)) (rest i))
        rest (IsWithin selection.now) c.left fault.old.held fault.new.held c.given) }
{
    let Some((first, others)) = arms.split_first() else {
        return none_taken(on.alloc, selection);
    };
    let mut cases = eval_first(on, first, selection, fault)?;
    for arm in others {
        eval_arm(on, &mut cases, arm, fault)?;
    }
    Ok(cases)
}

/// No arm took a lane.
fn none_taken<'a>(alloc: Global, selection: &LaneSet) -> Result<Cases<'a>, AllocError>
    ensures given { IfOk result (λ c. c.given ≡ given.Null) }
    ensures left { IfOk result (λ c. c.left ≡ selection.now) }
{
    let left = selection.copy(alloc)?;
    Ok(Cases {
        given: Given::Null,
        left,
    })
}

/// The first arm: before it nothing is decided, so its lanes are taken as they are.
#[cycle(eval)]
fn eval_first<'a>(
    on: &Evaluation<'a>,
    arm: &'a Arm,
    selection: &LaneSet,
    fault: &mut Fault1,
) -> Result<Cases<'a>, AllocError>
    requires { selection.now.below ≡ on.now.batch.now.rows }
    ensures long { IfOk result (λ c. IsLong on.now.batch.now.rows c.given
        × (c.left.below ≡ on.now.batch.now.rows)) }
    ensures gives { IfOk result
        (λ c. (types : RowTypes) (rows : List JoinedRow) (kind : ColType) (rest : ℕ → Outcome)
        → AreTypedRows types on.now.batch.now rows
        → FitsArm types on.now.batch.now.columns kind arm.now
        → Decides kind (λ i. case_of (meant_at arm.now.when rows i) (meant_at arm.now.then rows i)
        (rest i)) rest (IsWithin selection.now) c.left fault.old.held fault.new.held c.given) }
{
    let taken = eval_taken(on, arm, selection, fault)?;
    first_taken(on.alloc, selection, taken)
}

fn first_taken<'a>(
    alloc: Global,
    selection: &LaneSet,
    taken: Taken<'a>,
) -> Result<Cases<'a>, AllocError>
    requires { taken.lanes.below ≡ selection.now.below }
    ensures given { IfOk result (λ c. c.given ≡ taken.entry.then) }
    ensures left { IfOk result
        (λ c. c.left ≡ record {
          below = selection.now.below;
          list = without selection.now.list taken.entry.lanes.list;
        }) }
{
    let Taken { then, lanes } = taken;
    let left = selection.minus(alloc, &lanes);
    drop(lanes);
    match left {
        Ok(left) => Ok(Cases { given: then, left }),
        Err(error) => {
            drop(then);
            Err(error)
        }
    }
}

/// One arm more.
#[cycle(eval)]
fn eval_arm<'a>(
    on: &Evaluation<'a>,
    cases: &mut Cases<'a>,
    arm: &'a Arm,
    fault: &mut Fault1,
) -> Result<(), AllocError>
    requires given { IsLong on.now.batch.now.rows cases.old.given }
    requires left { cases.old.left.below ≡ on.now.batch.now.rows }
    ensures long { IsLong on.now.batch.now.rows cases.new.given
        × (cases.new.left.below ≡ on.now.batch.now.rows) }
    ensures gives { IfOk result
        (λ _. (types : RowTypes) (rows : List JoinedRow) (kind : ColType) (meant rest : ℕ
        → Outcome) (s : Positions) (held : Held)
        → AreTypedRows types on.now.batch.now rows
        → FitsArm types on.now.batch.now.columns kind arm.now
        → Decides kind meant (λ i. case_of (meant_at arm.now.when rows i)
        (meant_at arm.now.then rows i) (rest i)) (IsWithin s) cases.old.left held fault.old.held
        cases.old.given
        → Decides kind meant rest (IsWithin s) cases.new.left held fault.new.held cases.new.given) }
{
    let next = eval_next_arm(on, cases, arm, fault)?;
    drop(replace(cases, next));
    Ok(())
}

/// The same, of what is lent.
#[cycle(eval)]
fn eval_next_arm<'a>(
    on: &Evaluation<'a>,
    cases: &Cases<'a>,
    arm: &'a Arm,
    fault: &mut Fault1,
) -> Result<Cases<'a>, AllocError>
    requires given { IsLong on.now.batch.now.rows cases.now.given }
    requires left { cases.now.left.below ≡ on.now.batch.now.rows }
    ensures long { IfOk result (λ c. IsLong on.now.batch.now.rows c.given
        × (c.left.below ≡ on.now.batch.now.rows)) }
    ensures gives { IfOk result
        (λ c. (types : RowTypes) (rows : List JoinedRow) (kind : ColType) (meant rest : ℕ
        → Outcome) (s : Positions) (held : Held)
        → AreTypedRows types on.now.batch.now rows
        → FitsArm types on.now.batch.now.columns kind arm.now
        → Decides kind meant (λ i. case_of (meant_at arm.now.when rows i)
        (meant_at arm.now.then rows i) (rest i)) (IsWithin s) cases.now.left held fault.old.held
        cases.now.given
        → Decides kind meant rest (IsWithin s) c.left held fault.new.held c.given) }
{
    let taken = eval_taken(on, arm, &cases.left, fault)?;
    let result = put_taken(on.alloc, cases, &taken);
    drop(taken);
    result
}

/// The lanes among these that the arm takes, and what it gives on them.
#[cycle(eval)]
fn eval_taken<'a>(
    on: &Evaluation<'a>,
    arm: &'a Arm,
    left: &LaneSet,
    fault: &mut Fault1,
) -> Result<Taken<'a>, AllocError>
    requires { left.now.below ≡ on.now.batch.now.rows }
    ensures long { IfOk result (λ t. IsLong on.now.batch.now.rows t.then
        × (t.lanes.below ≡ on.now.batch.now.rows)) }
    ensures gives { IfOk result (λ t. (types : RowTypes) (rows : List JoinedRow) (kind : ColType)
        → AreTypedRows types on.now.batch.now rows
        → FitsArm types on.now.batch.now.columns kind arm.now
        → IsTaken kind (meant_at arm.now.when rows) (meant_at arm.now.then rows) left.now t.lanes
        fault.old.held fault.new.held t.then) }
{
    let lanes = eval_when(on, &arm.when, left, fault)?;
    let then = eval(on, &arm.then, &lanes, fault)?;
    Ok(Taken { then, lanes })
}

/// The lanes among these on which the condition is TRUE.
#[cycle(eval)]
fn eval_when<'a>(
    on: &Evaluation<'a>,
    when: &'a Expr,
    left: &LaneSet,
    fault: &mut Fault1,
) -> Result<LaneSet, AllocError>
    requires { left.now.below ≡ on.now.batch.now.rows }
    ensures below { IfOk result (λ lanes. lanes.below ≡ on.now.batch.now.rows) }
    ensures gives { IfOk result (λ lanes. (types : RowTypes) (rows : List JoinedRow)
        → AreTypedRows types on.now.batch.now rows
        → Fits types on.now.batch.now.columns when.now Boolean
        → Passes (meant_at when.now rows) left.now lanes fault.old.held fault.new.held) }
{
    let when = eval(on, when, left, fault)?;
    let lanes = where_true(on.alloc, &when, left);
    drop(when);
    lanes
}

fn put_taken<'a>(
    alloc: Global,
    cases: &Cases<'a>,
    taken: &Taken<'a>,
) -> Result<Cases<'a>, AllocError>
    requires given { IsLong cases.now.left.below cases.now.given }
    requires then { IsLong cases.now.left.below taken.now.then }
    requires lanes { taken.now.lanes.below ≡ cases.now.left.below }
    ensures long { IfOk result (λ c. IsLong cases.now.left.below c.given
        × (c.left.below ≡ cases.now.left.below)) }
    ensures left { IfOk result
        (λ c. c.left ≡ record {
          below = cases.now.left.below;
          list = without cases.now.left.list taken.now.lanes.list;
        }) }
    ensures value { (kind : ColType) → is_of_kind (Valued kind) cases.now.given ≡ true
        → is_of_kind (Valued kind) taken.now.then ≡ true
        → IfOk result (λ c. ArePut taken.now.lanes taken.now.then cases.now.given c.given) }
    ensures kind { (kind : ColType) → is_of_kind (Valued kind) cases.now.given ≡ true
        → is_of_kind (Valued kind) taken.now.then ≡ true
        → IfOk result (λ c. is_of_kind (Valued kind) c.given ≡ true) }
{
    let given = put(alloc, &taken.lanes, &taken.then, &cases.given)?;
    match cases.left.minus(alloc, &taken.lanes) {
        Ok(left) => Ok(Cases { given, left }),
        Err(error) => {
            drop(given);
            Err(error)
        }
    }
}

/// ELSE, on the lanes that no arm took.
#[cycle(eval)]
fn eval_otherwise<'a>(
    on: &Evaluation<'a>,
    cases: Cases<'a>,
    otherwise: &'a Expr,
    fault: &mut Fault1,
) -> Result<Given<'a>, AllocError>
    requires given { IsLong on.now.batch.now.rows cases.given }
    requires left { cases.left.below ≡ on.now.batch.now.rows }
    ensures long { IfOk result (IsLong on.now.batch.now.rows) }
    ensures gives { IfOk result
        (λ g. (types : RowTypes) (rows : List JoinedRow) (kind : ColType) (meant : ℕ
        → Outcome) (s : Positions) (held : Held)
        → AreTypedRows types on.now.batch.now rows
        → Fits types on.now.batch.now.columns otherwise.now (Valued kind)
        → Decides kind meant (meant_at otherwise.now rows) (IsWithin s) cases.entry.left held
        fault.old.held cases.entry.given
        → Gives (Valued kind) meant (IsWithin s) held fault.new.held g) }
{
    let result = eval_rest(on, &cases, otherwise, fault);
    drop(cases);
    result
}

/// The same, of what is lent.
#[cycle(eval)]
fn eval_rest<'a>(
    on: &Evaluation<'a>,
    cases: &Cases<'a>,
    otherwise: &'a Expr,
    fault: &mut Fault1,
) -> Result<Given<'a>, AllocError>
    requires given { IsLong on.now.batch.now.rows cases.now.given }
    requires left { cases.now.left.below ≡ on.now.batch.now.rows }
    ensures long { IfOk result (IsLong on.now.batch.now.rows) }
    ensures gives { IfOk result
        (λ g. (types : RowTypes) (rows : List JoinedRow) (kind : ColType) (meant : ℕ
        → Outcome) (s : Positions) (held : Held)
        → AreTypedRows types on.now.batch.now rows
        → Fits types on.now.batch.now.columns otherwise.now (Valued kind)
        → Decides kind meant (meant_at otherwise.now rows) (IsWithin s) cases.now.left held
        fault.old.held cases.now.given
        → Gives (Valued kind) meant (IsWithin s) held fault.new.held g) }
{
    let otherwise = eval(on, otherwise, &cases.left, fault)?;
    let result = put(on.alloc, &cases.left, &otherwise, &cases.given);
    drop(otherwise);
    result
}
