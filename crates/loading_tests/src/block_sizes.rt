//! Columns of many sizes and patterns as blocks of each kind, and back.
use columns::{Column, ColumnFault};
use encodings::{BlockView, Kind, VectorBuf, choose, encode_as};
use meaning::{ColType, ValueRef};
use std::alloc::{AllocError, Global};
use std::test::Fail;

const KINDS: [Kind; 4] = [Kind::Plain, Kind::Dict, Kind::Runs, Kind::Frame];

/// Sizes round groups of eight rows and words of 64, and a whole block.
const SIZES: [usize; 7] = [1, 8, 9, 63, 64, 65, 8192];

/// What the rows of a column hold.
#[derive(Clone, Copy)]
enum Pattern {
    /// One value in all rows: a frame's offsets take no bits.
    Equal,
    /// The least and the greatest integer, and others. Offsets take 64 bits.
    Far,
    Small,
    /// No two rows have one value, and the values fall: a dictionary has an entry for each row.
    Different,
    RunsOfEight,
    AllNull,
    EveryThirdNull,
}

/// The integer of a row, or none for NULL.
fn integer(pattern: Pattern, row: usize) -> Option<i64> {
    let n = i64::try_from(row).unwrap_or(0);
    match pattern {
        Pattern::Equal => Some(-77),
        Pattern::Far => match row % 3 {
            0 => Some(i64::MIN),
            1 => Some(i64::MAX),
            _ => Some(n),
        },
        Pattern::Small => Some(n % 13 - 6),
        Pattern::Different => Some(-n),
        Pattern::RunsOfEight => Some(n / 8),
        Pattern::AllNull => None,
        Pattern::EveryThirdNull => { if row % 3 == 0 { None } else { Some(n % 100) } }
    }
}

fn integers(
    alloc: Global,
    nullable: bool,
    pattern: Pattern,
    rows: usize,
) -> Result<Column, ColumnFault> {
    let mut column = Column::new(alloc, ColType::Int, nullable);
    for row in 0..rows {
        match integer(pattern, row) {
            Some(n) => column.push_int(n)?,
            None => column.push_null()?,
        }
    }
    Ok(column)
}

/// The text of a row, or none for NULL.
fn text(pattern: Pattern, row: usize) -> Option<&'static str> {
    match pattern {
        Pattern::Equal => Some(""),
        Pattern::Small | Pattern::Far | Pattern::Different => match row % 5 {
            0 => Some("b"),
            1 => Some(""),
            2 => Some("ab"),
            3 => Some("é"),
            _ => Some("b"),
        },
        Pattern::RunsOfEight => Some(if row / 8 % 2 == 0 { "even" } else { "odd" }),
        Pattern::AllNull => None,
        Pattern::EveryThirdNull => { if row % 3 == 0 { None } else { Some("not null") } }
    }
}

fn texts(
    alloc: Global,
    nullable: bool,
    pattern: Pattern,
    rows: usize,
) -> Result<Column, ColumnFault> {
    let mut column = Column::new(alloc, ColType::Text, nullable);
    for row in 0..rows {
        match text(pattern, row) {
            Some(text) => column.push_text(text)?,
            None => column.push_null()?,
        }
    }
    Ok(column)
}

/// Texts of which no two are equal, from the greatest down.
fn falling_texts(alloc: Global, nullable: bool, rows: usize) -> Result<Column, ColumnFault> {
    let mut column = Column::new(alloc, ColType::Text, nullable);
    for row in 0..rows {
        let text = format!(in alloc; "{}", 99_999usize.saturating_sub(row))?;
        column.push_text(text.as_str())?;
    }
    Ok(column)
}

/// A text of 65,535 bytes.
fn longest(alloc: Global, letter: char) -> Result<String, AllocError> {
    let mut text = String::new(alloc);
    for _ in 0..65535 {
        text.push(letter)?;
    }
    Ok(text)
}

/// The longest texts, two of them by turns.
fn longest_texts(alloc: Global, nullable: bool, rows: usize) -> Result<Column, ColumnFault> {
    let first = longest(alloc, 'f')?;
    let second = longest(alloc, 's')?;
    let mut column = Column::new(alloc, ColType::Text, nullable);
    for row in 0..rows {
        column.push_text(if row % 2 == 0 {
            first.as_str()
        } else {
            second.as_str()
        })?;
    }
    Ok(column)
}

fn is_same(a: ValueRef<'_>, b: ValueRef<'_>) -> bool {
    match (a, b) {
        (ValueRef::Null, ValueRef::Null) => true,
        (ValueRef::Int(a), ValueRef::Int(b)) => a == b,
        (ValueRef::Text(a), ValueRef::Text(b)) => a == b,
        _ => false,
    }
}

/// Whether the block has the column's values row by row.
fn has_rows(view: &BlockView<'_>, column: &Column) -> bool {
    if view.len() != column.len() {
        return false;
    }
    for row in 0..column.len() {
        if !is_same(view.get(row), column.get(row)) || view.is_null(row) != column.is_null(row) {
            return false;
        }
    }
    true
}

/// Whether a value, blank where it is NULL, is in a vector's cell.
fn is_in_cell(value: ValueRef<'_>, vector: &VectorBuf<'_>, i: usize) -> bool {
    let n = vector.ints().and_then(|ints| ints.get(i).copied());
    let text = vector.texts().and_then(|texts| texts.get(i).copied());
    match value {
        ValueRef::Int(m) => n == Some(m),
        ValueRef::Text(other) => text == Some(other),
        ValueRef::Null => n.unwrap_or(0) == 0 && text.unwrap_or(b"").is_empty(),
    }
}

/// Whether a vector holds the column's rows from `from` on.
fn has_part(vector: &VectorBuf<'_>, column: &Column, from: usize) -> bool {
    for (i, is_null) in vector.nulls().iter().enumerate() {
        let row = from.saturating_add(i);
        if row >= column.len() || *is_null != column.is_null(row) {
            return false;
        }
        if !is_in_cell(column.get(row), vector, i) {
            return false;
        }
    }
    true
}

/// Whether vectors with room for `room` rows, one behind the other, give the column.
fn is_read<'a>(
    alloc: Global,
    view: &BlockView<'a>,
    column: &Column,
    room: usize,
) -> Result<bool, AllocError> {
    let mut vector = VectorBuf::new(alloc, room)?;
    let mut from = 0;
    for _ in 0..column.len() {
        view.read_into(from, &mut vector);
        if !has_part(&vector, column, from) {
            return Ok(false);
        }
        from = from.saturating_add(vector.len());
        if from == column.len() {
            return Ok(true);
        }
    }
    Ok(false)
}

/// All rows in a kind.
fn encoded(alloc: Global, kind: Kind, column: &Column) -> Option<Vec<u8>> {
    if column.len() == 0 || column.len() > 8192 {
        return None;
    }
    encode_as(alloc, kind, column, 0, column.len()).ok()
}

/// Whether a payload is a block that encodes the column.
fn stands_for(
    alloc: Global,
    kind: Kind,
    payload: &[u8],
    column: &Column,
) -> Result<bool, AllocError> {
    let rows = column.len();
    match BlockView::new(kind, column.col_type(), column.nullable(), rows, payload) {
        Some(view) => Ok(
            has_rows(&view, column)
                && is_read(alloc, &view, column, 1024)?
                && is_read(alloc, &view, column, 7)?,
        ),
        None => Ok(false),
    }
}

fn is_fit(kind: Kind, col_type: ColType) -> bool {
    match (kind, col_type) {
        (Kind::Frame, ColType::Text) => false,
        _ => true,
    }
}

/// Whether the column comes back out of a block of a kind, and a kind that doesn't fit is refused.
fn comes_back(alloc: Global, kind: Kind, column: &Column) -> Result<bool, AllocError> {
    match encoded(alloc, kind, column) {
        Some(payload) => stands_for(alloc, kind, payload.as_slice(), column),
        None => Ok(!is_fit(kind, column.col_type())),
    }
}

/// The first of the kinds in which the column takes the fewest bytes.
fn smallest(alloc: Global, column: &Column) -> Option<Kind> {
    let mut best = None;
    let mut least = usize::MAX;
    for kind in KINDS {
        let size = encoded(alloc, kind, column).map_or(usize::MAX, |payload| payload.len());
        if size < least {
            best = Some(kind);
            least = size;
        }
    }
    best
}

fn chosen(alloc: Global, column: &Column) -> Option<Kind> {
    if column.len() == 0 || column.len() > 8192 {
        return None;
    }
    choose(alloc, column, 0, column.len()).ok()
}

/// Whether the column comes back out of each kind, and the smallest is chosen.
pub fn passes(alloc: Global, column: &Column) -> Result<bool, AllocError> {
    for kind in KINDS {
        if !comes_back(alloc, kind, column)? {
            return Ok(false);
        }
    }
    Ok(chosen(alloc, column).is_some() && chosen(alloc, column) == smallest(alloc, column))
}

/// The size at which a column of some pattern doesn't pass, if there is one.
fn failing(
    alloc: Global,
    col_type: ColType,
    nullable: bool,
    pattern: Pattern,
) -> Result<Option<usize>, ColumnFault> {
    for rows in SIZES {
        let column = match col_type {
            ColType::Int => integers(alloc, nullable, pattern, rows)?,
            ColType::Text => texts(alloc, nullable, pattern, rows)?,
        };
        if !passes(alloc, &column)? {
            return Ok(Some(rows));
        }
    }
    Ok(None)
}

#[test]
fn integers_come_back(rt: HostRuntime) -> Result<(), Fail> {
    for pattern in [
        Pattern::Equal,
        Pattern::Far,
        Pattern::Small,
        Pattern::Different,
        Pattern::RunsOfEight,
    ] {
        assert_eq!(rt; failing(rt.alloc(), ColType::Int, false, pattern)?, None);
        assert_eq!(rt; failing(rt.alloc(), ColType::Int, true, pattern)?, None);
    }
    Ok(())
}

#[test]
fn texts_come_back(rt: HostRuntime) -> Result<(), Fail> {
    for pattern in [Pattern::Equal, Pattern::Small, Pattern::RunsOfEight] {
        assert_eq!(rt; failing(rt.alloc(), ColType::Text, false, pattern)?, None);
        assert_eq!(rt; failing(rt.alloc(), ColType::Text, true, pattern)?, None);
    }
    Ok(())
}

#[test]
fn nulls_come_back(rt: HostRuntime) -> Result<(), Fail> {
    for pattern in [Pattern::AllNull, Pattern::EveryThirdNull] {
        assert_eq!(rt; failing(rt.alloc(), ColType::Int, true, pattern)?, None);
        assert_eq!(rt; failing(rt.alloc(), ColType::Text, true, pattern)?, None);
    }
    Ok(())
}

/// Whether so many different texts come back, and their dictionary has as many entries. Each is a
/// text of five bytes.
fn dictionary_comes_back(alloc: Global, rows: usize) -> Result<bool, ColumnFault> {
    let column = falling_texts(alloc, false, rows)?;
    let size = encoded(alloc, Kind::Dict, &column).map_or(0, |payload| payload.len());
    Ok(passes(alloc, &column)? && size == rows.saturating_mul(4 + 5 + 2).saturating_add(4))
}

#[test]
fn dictionaries_of_up_to_8192_texts_come_back(rt: HostRuntime) -> Result<(), Fail> {
    for rows in [1_024, 1_025, 8_192] {
        assert!(rt; dictionary_comes_back(rt.alloc(), rows)?);
    }
    Ok(())
}

#[test]
fn the_longest_texts_come_back(rt: HostRuntime) -> Result<(), Fail> {
    for rows in [1, 8, 9] {
        let column = longest_texts(rt.alloc(), rows == 8, rows)?;
        assert!(rt; passes(rt.alloc(), &column)?);
    }
    Ok(())
}
