//! Arithmetic on lanes, with the least fault.
ghost use Rattle.std.specs.Prelude.{◌≡◌, ◌<◌, ℕ, pos, neg_ℤ, length, slice_index_or, slice_index, true, find, IfOk, IfSome};
ghost use Rattle.meaning.specs.declared.value.Value.TheVariants.{Null};
ghost use Rattle.meaning.specs.declared.outcome.Outcome.TheVariants as gives;
ghost use Rattle.meaning.specs.declared.value.ColType.TheVariants as of_type;
ghost use Rattle.meaning.specs.Operators.{arith_of, arith_values, minus_of, minus_value};
ghost use Rattle.meaning.specs.Typing.{Valued};
ghost use Rattle.std.specs.Int.{int_wrap, w64};
ghost use Rattle.std.specs.List.{range_with_len};
ghost use Rattle.vectors.specs.Lanes.{ints_of, nulls_of};
ghost use Rattle.lane_loops.specs.Lanes.{AreLanes, cleared_flag, int_at, is_flagged, null_at, overflow_bit};
ghost use Rattle.lane_loops.specs.Outcomes.{returned_outcome};
ghost use Rattle.vector_operators.specs.Evaluated.{Evaluates, IsWithin, noted};
ghost use Rattle.vector_operators.specs.Given.{IsLong, given_at, is_of_kind};
ghost use Rattle.lane_loops.specs.Small.{AreResults, arith_code, arith_int};
ghost use Rattle.vector_operators.specs.Returned.{coded, fault_of_code, Noted};

use crate::broadcast::{broadcast_ints, either_null, int_parts, same_nulls};
use crate::fault::{Fault1, Faulted};
use crate::given::Given;
use crate::lane_set::LaneSet;
use lane_loops::{
    add_ints, clear_flags, div_ints, first_of_all, has_flag, mul_ints, neg_ints, operate_small,
    operate_small_from, operate_small_to, sub_ints,
};
use meaning::{ArithmeticOperator, Fault};
use std::alloc::{AllocError, Global};
use vectors::{IntCells, Ints, Nulls};

fn fault_of(code: u8) -> Fault
    ensures { result ≡ fault_of_code code }
{
    if code == 1 {
        Fault::Overflow
    } else {
        Fault::DivisionByZero
    }
}

/// Takes the flags off the lanes that are NULL: arithmetic on NULL is NULL.
fn clear_null_lanes(nulls: &Nulls<'_>, codes: &mut [u8])
    requires { length (nulls_of (length codes.old) nulls.now) ≡ length codes.old }
    ensures { AreLanes 0 (length codes.old)
        (cleared_flag (nulls_of (length codes.old) nulls.now) codes.old) codes.new }
{
    match nulls.mask() {
        None => {}
        Some(mask) => clear_flags(mask, codes),
    }
}

/// Notes the fault of the least lane that has one.
fn note_first(codes: &[u8], fault: &mut Fault1)
    ensures { fault.new.held
        ≡ noted fault.old.held (coded codes.now
        (find (is_flagged codes.now) (range_with_len 0 (length codes.now)))) }
{
    if let Some(position) = first_of_all(codes) {
        fault.note(Faulted {
            position,
            fault: fault_of(codes[position]),
        });
    }
}

/// The same, where most often no lane has a fault.
fn note_any(codes: &[u8], fault: &mut Fault1)
    ensures { fault.new.held
        ≡ noted fault.old.held (coded codes.now
        (find (is_flagged codes.now) (range_with_len 0 (length codes.now)))) }
{
    if has_flag(codes) {
        note_first(codes, fault);
    }
}

/// The operator's results in `out`, and the codes of faults in `codes`.
fn operate(op: ArithmeticOperator, left: &[i64], right: &[i64], out: &mut [i64], codes: &mut [u8])
    requires left { length left.now ≡ length out.old }
    requires right { length right.now ≡ length out.old }
    requires codes { length codes.old ≡ length out.old }
    ensures value { AreLanes (pos 0) (length out.old)
        (λ i. arith_int op (int_at left.now i) (int_at right.now i)) out.new }
    ensures code { AreLanes 0 (length out.old)
        (λ i. arith_code op (int_at left.now i) (int_at right.now i)) codes.new }
{
    match op {
        ArithmeticOperator::Add => add_ints(left, right, out, codes),
        ArithmeticOperator::Subtract => sub_ints(left, right, out, codes),
        ArithmeticOperator::Multiply => mul_ints(left, right, out, codes),
        ArithmeticOperator::Divide => div_ints(left, right, out, codes),
    }
}

/// Notes the least fault of these codes, but for lanes that are NULL or not selected.
fn note_codes(codes: &mut [u8], nulls: &Nulls<'_>, selection: &LaneSet, fault: &mut Fault1)
    requires nulls { length (nulls_of (length codes.old) nulls.now) ≡ length codes.old }
    requires below { selection.now.below ≡ length codes.old }
    ensures { Noted (nulls_of (length codes.old) nulls.now) codes.old selection.now fault.old.held
        fault.new.held }
{
    // That positions ascend below the length.
    let _ = selection.below();
    clear_null_lanes(nulls, codes);
    selection.keep_flags(codes);
    note_any(codes, fault);
}

/// Integers, and the code of the fault in each lane, or 0.
#[derive(Drop)]
struct IntResults {
    ints: Vec<i64>,
    codes: Vec<u8>,
}

fn operated(
    alloc: Global,
    op: ArithmeticOperator,
    left: &[i64],
    right: &[i64],
) -> Result<IntResults, AllocError>
    requires { length right.now ≡ length left.now }
    ensures value { IfOk result
        (λ o. AreLanes (pos 0) (length left.now)
        (λ i. arith_int op (int_at left.now i) (int_at right.now i)) o.ints.items) }
    ensures code { IfOk result
        (λ o. AreLanes 0 (length left.now)
        (λ i. arith_code op (int_at left.now i) (int_at right.now i)) o.codes.items) }
{
    let mut ints = vec![in alloc; 0i64; left.len()]?;
    let mut codes = vec![in alloc; 0u8; left.len()]?;
    operate(op, left, right, ints.as_mut_slice(), codes.as_mut_slice());
    Ok(IntResults { ints, codes })
}

fn operated_cells(
    alloc: Global,
    op: ArithmeticOperator,
    left: &IntCells<'_>,
    right: &IntCells<'_>,
) -> Result<IntResults, AllocError>
    requires { length (ints_of right.now) ≡ length (ints_of left.now) }
    ensures value { IfOk result
        (λ o. AreLanes (pos 0) (length (ints_of left.now))
        (λ i. arith_int op (int_at (ints_of left.now) i) (int_at (ints_of right.now) i))
        o.ints.items) }
    ensures code { IfOk result
        (λ o. AreLanes 0 (length (ints_of left.now))
        (λ i. arith_code op (int_at (ints_of left.now) i) (int_at (ints_of right.now) i))
        o.codes.items) }
{
    let left = broadcast_ints(alloc, left)?;
    let right = broadcast_ints(alloc, right)?;
    operated(alloc, op, left.as_slice(), right.as_slice())
}

/// The integers, NULL where the lane is marked so; the least fault of a selected lane that isn't
/// NULL is noted.
fn returned(
    operated: IntResults,
    nulls: Nulls<'static>,
    selection: &LaneSet,
    fault: &mut Fault1,
) -> Given<'static>
    requires ints { length operated.ints.items ≡ selection.now.below }
    requires codes { length operated.codes.items ≡ selection.now.below }
    requires nulls { length (nulls_of selection.now.below nulls) ≡ selection.now.below }
    ensures exact { Evaluates
        (λ i. returned_outcome (null_at (nulls_of selection.now.below nulls.entry) i)
        (slice_index operated.codes.items i) (int_at operated.ints.items i))
        (IsWithin selection.now) fault.old.held fault.new.held (given_at result) }
    ensures long { IsLong selection.now.below result }
    ensures kind { is_of_kind (Valued of_type.Int) result ≡ true }
{
    let IntResults { ints, mut codes } = operated;
    note_codes(codes.as_mut_slice(), &nulls, selection, fault);
    Given::Ints(Ints::new(IntCells::Owned(ints), nulls))
}

/// The results, where none is beyond 64 bits.
fn small_of_two(
    alloc: Global,
    op: ArithmeticOperator,
    left: &[i64],
    right: &[i64],
) -> Result<Option<Vec<i64>>, AllocError>
    requires { length right.now ≡ length left.now }
    ensures { IfOk result (λ small. IfSome small
        (λ ints. AreResults op (length left.now) (length left.now) (int_at left.now)
        (int_at right.now) ints.items)) }
{
    let mut ints = vec![in alloc; 0i64; left.len()]?;
    if operate_small(op, left, right, ints.as_mut_slice()) {
        return Ok(None);
    }
    Ok(Some(ints))
}

fn small_to_one(
    alloc: Global,
    op: ArithmeticOperator,
    left: &[i64],
    right: &i64,
) -> Result<Option<Vec<i64>>, AllocError>
    ensures { IfOk result (λ small. IfSome small
        (λ ints. AreResults op (length left.now) (length left.now) (int_at left.now)
        (λ _. right.now) ints.items)) }
{
    let mut ints = vec![in alloc; 0i64; left.len()]?;
    if operate_small_to(op, left, right, ints.as_mut_slice()) {
        return Ok(None);
    }
    Ok(Some(ints))
}

fn small_from_one(
    alloc: Global,
    op: ArithmeticOperator,
    left: &i64,
    right: &[i64],
) -> Result<Option<Vec<i64>>, AllocError>
    ensures { IfOk result (λ small. IfSome small
        (λ ints. AreResults op (length right.now) (length right.now) (λ _. left.now)
        (int_at right.now) ints.items)) }
{
    let mut ints = vec![in alloc; 0i64; right.len()]?;
    if operate_small_from(op, left, right, ints.as_mut_slice()) {
        return Ok(None);
    }
    Ok(Some(ints))
}

/// The same of cells of either kind on the left.
fn small_of_cells(
    alloc: Global,
    op: ArithmeticOperator,
    left: &IntCells<'_>,
    right: &[i64],
) -> Result<Option<Vec<i64>>, AllocError>
    requires { length right.now ≡ length (ints_of left.now) }
    ensures { IfOk result (λ small. IfSome small
        (λ ints. AreResults op (length (ints_of left.now)) (length (ints_of left.now))
        (int_at (ints_of left.now)) (int_at right.now) ints.items)) }
{
    match left {
        IntCells::Repeated { cell, .. } => small_from_one(alloc, op, cell, right),
        IntCells::Lent(left) => small_of_two(alloc, op, left, right),
        IntCells::Owned(left) => small_of_two(alloc, op, left.as_slice(), right),
    }
}

fn small_cells_to_one(
    alloc: Global,
    op: ArithmeticOperator,
    left: &IntCells<'_>,
    right: &i64,
) -> Result<Option<Vec<i64>>, AllocError>
    ensures { IfOk result (λ small. IfSome small
        (λ ints. AreResults op (length (ints_of left.now)) (length (ints_of left.now))
        (int_at (ints_of left.now)) (λ _. right.now) ints.items)) }
{
    let left = broadcast_ints(alloc, left)?;
    small_to_one(alloc, op, left.as_slice(), right)
}

/// The same of cells of either kind: one integer beside many isn't broadcast.
fn small_cells(
    alloc: Global,
    op: ArithmeticOperator,
    left: &IntCells<'_>,
    right: &IntCells<'_>,
) -> Result<Option<Vec<i64>>, AllocError>
    requires { length (ints_of right.now) ≡ length (ints_of left.now) }
    ensures { IfOk result (λ small. IfSome small
        (λ ints. AreResults op (length (ints_of left.now)) (length (ints_of left.now))
        (int_at (ints_of left.now)) (int_at (ints_of right.now)) ints.items)) }
{
    match right {
        IntCells::Repeated { cell, .. } => small_cells_to_one(alloc, op, left, cell),
        IntCells::Lent(right) => small_of_cells(alloc, op, left, right),
        IntCells::Owned(right) => small_of_cells(alloc, op, left, right.as_slice()),
    }
}

/// The same but for quotients, whose faults are looked for lane by lane.
fn small_results(
    alloc: Global,
    op: ArithmeticOperator,
    left: &IntCells<'_>,
    right: &IntCells<'_>,
) -> Result<Option<Vec<i64>>, AllocError>
    requires { length (ints_of right.now) ≡ length (ints_of left.now) }
    ensures { IfOk result (λ small. IfSome small
        (λ ints. AreResults op (length (ints_of left.now)) (length (ints_of left.now))
        (int_at (ints_of left.now)) (int_at (ints_of right.now)) ints.items)) }
{
    match op {
        ArithmeticOperator::Divide => Ok(None),
        _ => small_cells(alloc, op, left, right),
    }
}

/// The integers, NULL where the lane is marked so.
fn without_fault(ints: Vec<i64>, nulls: Nulls<'static>) -> Given<'static>
    requires { length (nulls_of (length ints.items) nulls) ≡ length ints.items }
    ensures value { (i : ℕ) → i < length ints.items
        → given_at result i ≡ returned_outcome (null_at (nulls_of (length ints.items) nulls.entry) i) 0
        (int_at ints.items i) }
    ensures long { IsLong (length ints.items) result }
    ensures kind { is_of_kind (Valued of_type.Int) result ≡ true }
{
    Given::Ints(Ints::new(IntCells::Owned(ints), nulls))
}

fn of_ints(
    alloc: Global,
    op: ArithmeticOperator,
    left: &Ints<'_>,
    right: &Ints<'_>,
    selection: &LaneSet,
    fault: &mut Fault1,
) -> Result<Given<'static>, AllocError>
    requires left { length left.now ≡ selection.now.below }
    requires right { length right.now ≡ selection.now.below }
    ensures exact { IfOk result
        (λ g. Evaluates (λ i. arith_values op (slice_index_or left.now i Null)
        (slice_index_or right.now i Null)) (IsWithin selection.now) fault.old.held fault.new.held
        (given_at g)) }
    ensures long { IfOk result (IsLong selection.now.below) }
    ensures kind { IfOk result (λ g. is_of_kind (Valued of_type.Int) g ≡ true) }
{
    let (left_cells, left_nulls) = int_parts(left);
    let (right_cells, right_nulls) = int_parts(right);
    let nulls = either_null(alloc, left_nulls, right_nulls, selection.below())?;
    if let Some(ints) = small_results(alloc, op, left_cells, right_cells)? {
        return Ok(without_fault(ints, nulls));
    }
    let operated = operated_cells(alloc, op, left_cells, right_cells)?;
    Ok(returned(operated, nulls, selection, fault))
}

fn of_ints_and(
    alloc: Global,
    op: ArithmeticOperator,
    left: &Ints<'_>,
    right: &Given<'_>,
    selection: &LaneSet,
    fault: &mut Fault1,
) -> Result<Given<'static>, AllocError>
    requires left { length left.now ≡ selection.now.below }
    requires right { IsLong selection.now.below right.now }
    ensures exact { is_of_kind (Valued of_type.Int) right.now ≡ true
        → IfOk result (λ g. Evaluates
        (λ i. arith_of op (gives.Value (slice_index_or left.now i Null)) (given_at right.now i))
        (IsWithin selection.now) fault.old.held fault.new.held (given_at g)) }
    ensures long { IfOk result (IsLong selection.now.below) }
    ensures kind { IfOk result (λ g. is_of_kind (Valued of_type.Int) g ≡ true) }
{
    match right {
        Given::Ints(right) => of_ints(alloc, op, left, right, selection, fault),
        Given::Null => Ok(Given::Null),
        Given::Texts(_) => Ok(Given::Null),
        Given::Truths(_) => Ok(Given::Null),
    }
}

/// Arithmetic on two operands that are integers.
pub fn arithmetic(
    alloc: Global,
    op: ArithmeticOperator,
    left: &Given<'_>,
    right: &Given<'_>,
    selection: &LaneSet,
    fault: &mut Fault1,
) -> Result<Given<'static>, AllocError>
    requires left { IsLong selection.now.below left.now }
    requires right { IsLong selection.now.below right.now }
    ensures exact { is_of_kind (Valued of_type.Int) left.now ≡ true
        → is_of_kind (Valued of_type.Int) right.now ≡ true
        → IfOk result (λ g. Evaluates
        (λ i. arith_of op (given_at left.now i) (given_at right.now i)) (IsWithin selection.now)
        fault.old.held fault.new.held (given_at g)) }
    ensures long { IfOk result (IsLong selection.now.below) }
    ensures kind { IfOk result (λ g. is_of_kind (Valued of_type.Int) g ≡ true) }
{
    match left {
        Given::Ints(left) => of_ints_and(alloc, op, left, right, selection, fault),
        Given::Null => Ok(Given::Null),
        Given::Texts(_) => Ok(Given::Null),
        Given::Truths(_) => Ok(Given::Null),
    }
}

fn negated(alloc: Global, cells: &IntCells<'_>) -> Result<IntResults, AllocError>
    ensures value { IfOk result
        (λ o. AreLanes (pos 0) (length (ints_of cells.now))
        (λ i. int_wrap w64 (neg_ℤ (int_at (ints_of cells.now) i))) o.ints.items) }
    ensures code { IfOk result
        (λ o. AreLanes 0 (length (ints_of cells.now))
        (λ i. overflow_bit (neg_ℤ (int_at (ints_of cells.now) i))) o.codes.items) }
{
    let cells = broadcast_ints(alloc, cells)?;
    let mut ints = vec![in alloc; 0i64; cells.as_slice().len()]?;
    let mut codes = vec![in alloc; 0u8; cells.as_slice().len()]?;
    neg_ints(cells.as_slice(), ints.as_mut_slice(), codes.as_mut_slice());
    Ok(IntResults { ints, codes })
}

fn minus_ints(
    alloc: Global,
    ints: &Ints<'_>,
    selection: &LaneSet,
    fault: &mut Fault1,
) -> Result<Given<'static>, AllocError>
    requires { length ints.now ≡ selection.now.below }
    ensures exact { IfOk result
        (λ g. Evaluates (λ i. minus_value (slice_index_or ints.now i Null)) (IsWithin selection.now)
        fault.old.held fault.new.held (given_at g)) }
    ensures long { IfOk result (IsLong selection.now.below) }
    ensures kind { IfOk result (λ g. is_of_kind (Valued of_type.Int) g ≡ true) }
{
    let (cells, nulls) = int_parts(ints);
    let nulls = same_nulls(alloc, nulls, selection.below())?;
    let operated = negated(alloc, cells)?;
    Ok(returned(operated, nulls, selection, fault))
}

/// Each lane of integers negated.
pub fn minus(
    alloc: Global,
    given: &Given<'_>,
    selection: &LaneSet,
    fault: &mut Fault1,
) -> Result<Given<'static>, AllocError>
    requires { IsLong selection.now.below given.now }
    ensures exact { is_of_kind (Valued of_type.Int) given.now ≡ true
        → IfOk result (λ g. Evaluates (λ i. minus_of (given_at given.now i))
        (IsWithin selection.now) fault.old.held fault.new.held (given_at g)) }
    ensures long { IfOk result (IsLong selection.now.below) }
    ensures kind { IfOk result (λ g. is_of_kind (Valued of_type.Int) g ≡ true) }
{
    match given {
        Given::Ints(ints) => minus_ints(alloc, ints, selection, fault),
        Given::Null => Ok(Given::Null),
        Given::Texts(_) => Ok(Given::Null),
        Given::Truths(_) => Ok(Given::Null),
    }
}
