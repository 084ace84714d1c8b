//! Files scanned in vectors of several lengths, against their columns; and conditions over what is
//! scanned.
use crate::batches::are_rows;
use crate::files::{Shape, file_of, integers, texts};
use columns::Column;
use fragment_file::{FragmentView, open};
use meaning::{ArithmeticOperator, Boxed, ColType, ComparisonOperator, Expr, Value};
use scan_select::{FileGroups, Scan, ScanBatch, ScanFault, select};
use std::alloc::{AllocError, Global};
use std::fmt::Write;
use std::test::Fail;
use vector_operators::Fault1;
use vectors::{ColumnReference, Selection};

/// The rows of a batch, where they are the column's from one on, the batch is no longer than it may
/// be, and says where in its row group it begins.
fn rows_of(scanned: &ScanBatch<'_>, column: &Column, from: usize, most: usize) -> Option<usize> {
    let rows = scanned.batch.rows();
    let lanes = scanned.batch.column(ColumnReference::Fact { column: 0 })?;
    let first = from % 8_192;
    let is_expected = scanned.first_row == first && rows <= most && rows <= 8_192 - first;
    if is_expected && lanes.len() == rows && are_rows(lanes, column, from) {
        Some(rows)
    } else {
        None
    }
}

/// Whether the scan gives the column's rows, each once, and then ends.
fn gives_all<'v>(
    alloc: Global,
    scan: &mut Scan<FileGroups<'v>>,
    column: &Column,
    most: usize,
) -> Result<bool, AllocError> {
    let mut from = 0;
    for _ in 0..=column.len() {
        match scan.advance() {
            Ok(true) => {}
            Ok(false) => return Ok(from == column.len()),
            Err(_) => return Ok(false),
        }
        // Integers are lent, or copied where they stayed packed.
        scan.unpack(&[most == 1_000]);
        let Some(scanned) = scan.batch(alloc)? else {
            return Ok(false);
        };
        match rows_of(&scanned, column, from, most) {
            Some(rows) if rows > 0 => from = from.saturating_add(rows),
            _ => return Ok(false),
        }
    }
    Ok(false)
}

fn is_scanned(alloc: Global, view: &FragmentView<'_>, column: &Column) -> Result<bool, AllocError> {
    for most in [1, 3, 1_000, 1_024, 4_096] {
        match Scan::new(alloc, view, most) {
            Ok(mut scan) => {
                if !gives_all(alloc, &mut scan, column, most)? {
                    return Ok(false);
                }
            }
            Err(_) => return Ok(false),
        }
    }
    Ok(true)
}

/// Whether a scan of a file gives the column's rows.
fn is_file_scanned(alloc: Global, bytes: &[u8], column: &Column) -> Result<bool, AllocError> {
    match open(alloc, bytes) {
        Ok(view) => is_scanned(alloc, &view, column),
        Err(_) => Ok(false),
    }
}

/// Whether a scan of the file that one column is written as gives the rows of the other.
fn is_written_and_scanned(alloc: Global, written: Column, column: &Column) -> Result<bool, Fail> {
    let bytes = file_of(alloc, written)?;
    Ok(is_file_scanned(alloc, &bytes, column)?)
}

/// Each kind of block that integers of this shape are written in.
fn are_integers_scanned(
    alloc: Global,
    shape: Shape,
    nullable: bool,
    rows: u32,
) -> Result<bool, Fail> {
    let column = integers(alloc, shape, nullable, rows)?;
    is_written_and_scanned(alloc, integers(alloc, shape, nullable, rows)?, &column)
}

/// The same of texts.
fn are_texts_scanned(alloc: Global, shape: Shape, nullable: bool, rows: u32) -> Result<bool, Fail> {
    let column = texts(alloc, shape, nullable, rows)?;
    is_written_and_scanned(alloc, texts(alloc, shape, nullable, rows)?, &column)
}

/// Each kind of block that integers and texts of this shape are written in.
fn are_scanned(alloc: Global, shape: Shape, nullable: bool, rows: u32) -> Result<bool, Fail> {
    Ok(
        are_integers_scanned(alloc, shape, nullable, rows)?
            && are_texts_scanned(alloc, shape, nullable, rows)?,
    )
}

#[test]
fn scans_give_each_row_once(rt: HostRuntime) -> Result<(), Fail> {
    for rows in [0, 1, 8_191, 8_192, 8_193, 20_000] {
        for shape in [Shape::Wide, Shape::Two, Shape::Runs, Shape::Small] {
            assert!(rt; are_scanned(rt.alloc(), shape, false, rows)?);
            assert!(rt; are_scanned(rt.alloc(), shape, true, rows)?);
        }
    }
    Ok(())
}

fn is_refused(alloc: Global, view: &FragmentView<'_>, most: usize) -> bool {
    matches!(Scan::new(alloc, view, most), Err(ScanFault::VectorLength))
}

#[test]
fn vectors_have_a_row_and_no_more_than_4096(rt: HostRuntime) -> Result<(), Fail> {
    let bytes = file_of(rt.alloc(), integers(rt.alloc(), Shape::Small, false, 5)?)?;
    if let Ok(view) = open(rt.alloc(), &bytes) {
        assert!(rt; is_refused(rt.alloc(), &view, 0) && is_refused(rt.alloc(), &view, 4_097));
        assert!(rt; !is_refused(rt.alloc(), &view, 1) && !is_refused(rt.alloc(), &view, 4_096));
        assert_eq!(rt; ScanFault::VectorLength.number(), 1);
    }
    Ok(())
}

// ---- conditions

/// One column of integers, some of them NULL, as a file.
fn small_file(alloc: Global, values: &[Option<i64>]) -> Result<Vec<u8>, Fail> {
    let mut column = Column::new(alloc, ColType::Int, true);
    for value in values {
        match value {
            Some(n) => column.push_int(*n)?,
            None => column.push_null()?,
        }
    }
    Ok(file_of(alloc, column)?)
}

fn boxed(alloc: Global, expr: Result<Expr, AllocError>) -> Result<Boxed<Expr>, AllocError> {
    Boxed::new(alloc, expr?)
}

fn integer(n: i64) -> Result<Expr, AllocError> {
    Ok(Expr::Literal(Value::Int(n)))
}

/// The column compared with an integer.
fn compared(alloc: Global, op: ComparisonOperator, n: i64) -> Result<Expr, AllocError> {
    let right = boxed(alloc, integer(n))?;
    let left = boxed(alloc, Ok(Expr::Column(0)))?;
    Ok(Expr::Compare(op, left, right))
}

fn negated(alloc: Global, expr: Result<Expr, AllocError>) -> Result<Expr, AllocError> {
    Ok(Expr::Not(boxed(alloc, expr)?))
}

/// Ten divided by the column.
fn tenth(alloc: Global) -> Result<Expr, AllocError> {
    let right = boxed(alloc, Ok(Expr::Column(0)))?;
    let left = boxed(alloc, integer(10))?;
    Ok(Expr::Arithmetic(ArithmeticOperator::Divide, left, right))
}

fn tenth_above_one(alloc: Global) -> Result<Expr, AllocError> {
    let right = boxed(alloc, integer(1))?;
    let left = boxed(alloc, tenth(alloc))?;
    Ok(Expr::Compare(ComparisonOperator::Greater, left, right))
}

/// The positions that stay, and the fault that is held, if any.
fn shown(alloc: Global, selection: &Selection, fault: &Fault1) -> Result<String, AllocError> {
    let mut text = String::new(alloc);
    for position in 0..selection.below() {
        let is_there = match selection.positions() {
            None => true,
            Some(positions) => positions.iter().any(|p| *p as usize == position),
        };
        if is_there {
            write!(text, "{position} ")?;
        }
    }
    if let Some(held) = fault.held {
        write!(text, "fault {} at {}", held.fault.code(), held.position)?;
    }
    Ok(text)
}

fn selected(
    alloc: Global,
    scanned: &ScanBatch<'_>,
    conditions: &[Expr],
) -> Result<String, AllocError> {
    let Ok(rows) = u32::try_from(scanned.batch.rows()) else {
        return Err(AllocError);
    };
    let mut selection = Selection::all(alloc, rows)?;
    let mut fault = Fault1::new();
    select(alloc, scanned, &mut selection, conditions, &mut fault)?;
    shown(alloc, &selection, &fault)
}

/// What the conditions make of 2, NULL, 0, 4 and 1.
fn kept(alloc: Global, conditions: &[Expr]) -> Result<String, Fail> {
    let bytes = small_file(alloc, &[Some(2), None, Some(0), Some(4), Some(1)])?;
    let Ok(view) = open(alloc, &bytes) else {
        return Ok(String::new(alloc));
    };
    let Ok(mut scan) = Scan::new(alloc, &view, 1_024) else {
        return Ok(String::new(alloc));
    };
    let _more = scan.advance();
    match scan.batch(alloc)? {
        Some(scanned) => Ok(selected(alloc, &scanned, conditions)?),
        None => Ok(String::new(alloc)),
    }
}

#[test]
fn conditions_keep_rows_of_which_they_are_true(rt: HostRuntime) -> Result<(), Fail> {
    let conditions = vec![in rt.alloc(); compared(rt.alloc(), ComparisonOperator::NotEqual, 0)?]?;
    assert_eq!(rt; kept(rt.alloc(), &conditions)?.as_str(), "0 3 4 ");
    Ok(())
}

#[test]
fn unknown_is_not_kept(rt: HostRuntime) -> Result<(), Fail> {
    let equal = compared(rt.alloc(), ComparisonOperator::Equal, 2);
    let conditions = vec![in rt.alloc(); negated(rt.alloc(), equal)?]?;
    assert_eq!(rt; kept(rt.alloc(), &conditions)?.as_str(), "2 3 4 ");
    Ok(())
}

#[test]
fn a_fault_is_reported_at_its_row(rt: HostRuntime) -> Result<(), Fail> {
    let conditions = vec![in rt.alloc(); tenth_above_one(rt.alloc())?]?;
    assert!(rt; kept(rt.alloc(), &conditions)?.ends_with("fault 2 at 2"));
    Ok(())
}

#[test]
fn a_condition_is_asked_where_those_before_it_are_true(rt: HostRuntime) -> Result<(), Fail> {
    let not_zero = compared(rt.alloc(), ComparisonOperator::NotEqual, 0)?;
    let conditions = vec![in rt.alloc(); not_zero, tenth_above_one(rt.alloc())?]?;
    assert_eq!(rt; kept(rt.alloc(), &conditions)?.as_str(), "0 3 4 ");
    Ok(())
}
