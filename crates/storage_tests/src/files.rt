//! Files of every kind of block, and writers that fail at each write.
ghost use Rattle.std.specs.Prelude.{◌≡◌, ◌≤◌, ◌∷◌, [], codes, length, IfOk};

use columns::{Column, ColumnFault};
use encodings::{BlockView, Kind};
use fragment_file::{FileFault, FragmentView, Header, open, read_columns, write};
use meaning::{ColType, Column as Declared, Sequence, Text, ValueRef};
use std::alloc::{AllocError, Global};
use std::io;
use std::io::Write;
use std::test::Fail;

// ---- files of one column

/// Load 7, table `n`, the column `v`.
fn header_of(
    alloc: Global,
    col_type: ColType,
    nullable: bool,
    rows: u32,
) -> Result<Header, AllocError>
    ensures { IfOk result (λ h. h ≡ record { load = 7; table = codes "n"; fragment = 0; first_row = 0; rows = rows; columns = record { name = codes "v"; col_type = col_type; nullable = nullable } ∷ [] }) }
{
    let name = Text::new(alloc, "v")?;
    let mut columns = Vec::new(alloc);
    columns.push(Declared {
        name,
        col_type,
        nullable,
    })?;
    Ok(Header {
        load: 7,
        table: Text::new(alloc, "n")?,
        fragment: 0,
        first_row: 0,
        rows,
        columns: Sequence::from_vec(columns),
    })
}

/// Writes a table of this column alone.
fn write_one<W: Write>(alloc: Global, column: Column, out: &mut W) -> Result<(), FileFault> {
    let rows = column.len();
    if rows > 1_048_576 {
        return Err(FileFault::Limit);
    }
    let header = header_of(alloc, column.col_type(), column.nullable(), rows as u32)?;
    write(alloc, &header, &[column], out)
}

pub fn file_of(alloc: Global, column: Column) -> Result<Vec<u8>, FileFault> {
    let mut bytes = Vec::new(alloc);
    write_one(alloc, column, &mut bytes)?;
    Ok(bytes)
}

// ---- columns

/// How the rows of a column go.
#[derive(Clone, Copy)]
pub enum Shape {
    /// Integers over all 64 bits.
    Wide,
    /// Two integers that are far apart.
    Two,
    /// A few runs of integers that are far apart.
    Runs,
    /// Small integers.
    Small,
}

/// How many rows a run has where there are so many in all.
fn run_length(rows: u32) -> u32 {
    if rows < 1_000 { 16 } else { 1_000 }
}

fn integer(shape: Shape, row: u32, run: u32) -> i64 {
    let (row, run) = (i64::from(row), i64::from(run));
    let mixed = row.wrapping_add(1).wrapping_mul(0x1e37_79b9_7f4a_7c15);
    match shape {
        Shape::Wide => mixed,
        Shape::Two if row % 2 == 0 => i64::MIN,
        Shape::Two => i64::MAX,
        Shape::Runs => run.wrapping_mul(0x1234_5678_9abc_def),
        Shape::Small => mixed & 7,
    }
}

/// Every fifth row of a nullable column is NULL; of runs, every third run.
fn is_blank(shape: Shape, nullable: bool, row: u32, run: u32) -> bool {
    match shape {
        Shape::Runs => nullable && run % 3 == 2,
        _ => nullable && row % 5 == 4,
    }
}

pub fn integers(
    alloc: Global,
    shape: Shape,
    nullable: bool,
    rows: u32,
) -> Result<Column, ColumnFault> {
    let mut column = Column::new(alloc, ColType::Int, nullable);
    let length = run_length(rows);
    for row in 0..rows {
        let run = row.checked_div(length).unwrap_or(0);
        if is_blank(shape, nullable, row, run) {
            column.push_null()?;
        } else {
            column.push_int(integer(shape, row, run))?;
        }
    }
    Ok(column)
}

const WORDS: [&str; 4] = ["", "granite", "marble and slate", "chalk"];

/// Texts that differ from row to row, that come in turn, or in long runs.
fn text(alloc: Global, shape: Shape, row: u32, run: u32) -> Result<String, AllocError> {
    match shape {
        Shape::Wide | Shape::Small => format!(in alloc; "row {row}"),
        Shape::Two => String::from_str(alloc, WORDS[row as usize % 4]),
        Shape::Runs => String::from_str(alloc, WORDS[run as usize % 4]),
    }
}

pub fn texts(
    alloc: Global,
    shape: Shape,
    nullable: bool,
    rows: u32,
) -> Result<Column, ColumnFault> {
    let mut column = Column::new(alloc, ColType::Text, nullable);
    let length = run_length(rows);
    for row in 0..rows {
        let run = row.checked_div(length).unwrap_or(0);
        if is_blank(shape, nullable, row, run) {
            column.push_null()?;
        } else {
            column.push_text(text(alloc, shape, row, run)?.as_str())?;
        }
    }
    Ok(column)
}

pub fn zeros(alloc: Global, rows: u64) -> Result<Column, ColumnFault> {
    let mut column = Column::new(alloc, ColType::Int, false);
    for _ in 0..rows {
        column.push_int(0)?;
    }
    Ok(column)
}

// ---- what is read back

fn is_same(a: ValueRef<'_>, b: ValueRef<'_>) -> bool {
    match (a, b) {
        (ValueRef::Null, ValueRef::Null) => true,
        (ValueRef::Int(a), ValueRef::Int(b)) => a == b,
        (ValueRef::Text(a), ValueRef::Text(b)) => a == b,
        _ => false,
    }
}

/// Whether a block has the rows of a column from one on.
fn has_rows(block: &BlockView<'_>, column: &Column, from: usize) -> bool {
    for row in 0..block.len() {
        let index = from.saturating_add(row);
        if index >= column.len() || !is_same(block.get(row), column.get(index)) {
            return false;
        }
    }
    true
}

/// Whether the row groups have the rows of a column, in blocks of a kind.
fn has_column(view: &FragmentView<'_>, kind: Kind, column: &Column) -> bool {
    let mut from: usize = 0;
    for group_index in 0..view.group_count() {
        let group = view.group(group_index);
        if group.column_count() != 1 {
            return false;
        }
        let block = group.column(0);
        if block.kind() != kind || !has_rows(&block, column, from) {
            return false;
        }
        from = from.saturating_add(block.len());
    }
    from == column.len()
}

fn is_same_column(a: &Column, b: &Column) -> bool {
    if a.len() != b.len() {
        return false;
    }
    for row in 0..a.len() {
        if !is_same(a.get(row), b.get(row)) {
            return false;
        }
    }
    true
}

/// Whether the file's columns are this one alone.
fn reads_as(alloc: Global, view: &FragmentView<'_>, column: &Column) -> bool {
    match read_columns(alloc, view) {
        Ok(columns) => columns.len() == 1 && is_same_column(&columns[0], column),
        Err(_) => false,
    }
}

fn opens_to(alloc: Global, bytes: &[u8], kind: Kind, column: &Column) -> bool {
    match open(alloc, bytes) {
        Ok(view) => {
            view.header().load == 7
                && has_column(&view, kind, column)
                && reads_as(alloc, &view, column)
        }
        Err(_) => false,
    }
}

/// How many row groups a file has.
pub fn groups_in(alloc: Global, bytes: &[u8]) -> Option<usize> {
    match open(alloc, bytes) {
        Ok(view) => Some(view.group_count()),
        Err(_) => None,
    }
}

/// The kind of a file's first block.
pub fn first_kind(alloc: Global, bytes: &[u8]) -> Option<Kind> {
    match open(alloc, bytes) {
        Ok(view) if view.group_count() > 0 && view.group(0).column_count() > 0 => {
            Some(view.group(0).column(0).kind())
        }
        _ => None,
    }
}

/// How many rows a table of three row groups has.
const ROWS: u32 = 19_400;

fn comes_back(alloc: Global, kind: Kind, written: Column, column: &Column) -> bool {
    match file_of(alloc, written) {
        Ok(bytes) => opens_to(alloc, &bytes, kind, column),
        Err(_) => false,
    }
}

fn integers_come_back(
    alloc: Global,
    shape: Shape,
    nullable: bool,
    kind: Kind,
    rows: u32,
) -> Result<bool, ColumnFault> {
    let written = integers(alloc, shape, nullable, rows)?;
    let column = integers(alloc, shape, nullable, rows)?;
    Ok(comes_back(alloc, kind, written, &column))
}

fn texts_come_back(
    alloc: Global,
    shape: Shape,
    nullable: bool,
    kind: Kind,
) -> Result<bool, ColumnFault> {
    let written = texts(alloc, shape, nullable, ROWS)?;
    let column = texts(alloc, shape, nullable, ROWS)?;
    Ok(comes_back(alloc, kind, written, &column))
}

#[test]
fn integers_of_each_kind(rt: HostRuntime) -> Result<(), Fail> {
    for nullable in [false, true] {
        for (shape, kind) in [
            (Shape::Wide, Kind::Plain),
            (Shape::Two, Kind::Dict),
            (Shape::Small, Kind::Frame),
        ] {
            assert!(rt; integers_come_back(rt.alloc(), shape, nullable, kind, ROWS)?);
        }
    }
    for nullable in [false, true] {
        assert!(rt; integers_come_back(rt.alloc(), Shape::Runs, nullable, Kind::Runs, ROWS)?);
    }
    Ok(())
}

#[test]
fn a_fragment_has_up_to_128_row_groups(rt: HostRuntime) -> Result<(), Fail> {
    for (shape, kind) in [(Shape::Small, Kind::Frame), (Shape::Runs, Kind::Runs)] {
        assert!(rt; integers_come_back(rt.alloc(), shape, false, kind, 1_048_576)?);
    }
    let bytes = file_of(rt.alloc(), zeros(rt.alloc(), 1_048_576)?)?;
    assert_eq!(rt; groups_in(rt.alloc(), &bytes), Some(128));
    Ok(())
}

#[test]
fn texts_of_each_kind(rt: HostRuntime) -> Result<(), Fail> {
    for nullable in [false, true] {
        for (shape, kind) in [(Shape::Wide, Kind::Plain), (Shape::Two, Kind::Dict)] {
            assert!(rt; texts_come_back(rt.alloc(), shape, nullable, kind)?);
        }
    }
    for nullable in [false, true] {
        assert!(rt; texts_come_back(rt.alloc(), Shape::Runs, nullable, Kind::Runs)?);
    }
    Ok(())
}

// ---- a device that fails

/// Takes so many writes, and then fails.
#[derive(Drop)]
struct Failing {
    left: u32,
}

impl Write for Failing {
    fn write(&mut self, buf: &[u8]) -> io::Result<usize> {
        if self.left == 0 {
            return Err(io::Error::from(io::ErrorKind::Other));
        }
        self.left -= 1;
        Ok(buf.len())
    }

    fn flush(&mut self) -> io::Result<()> {
        Ok(())
    }
}

/// By which number writing is refused where the device takes so many writes; `None` where it is
/// not.
fn refusal_after(alloc: Global, writes: u32) -> Result<Option<u8>, ColumnFault> {
    let mut out = Failing { left: writes };
    match write_one(alloc, integers(alloc, Shape::Small, false, ROWS)?, &mut out) {
        Ok(()) => Ok(None),
        Err(fault) => Ok(Some(fault.number())),
    }
}

/// The first number of writes after which the refusal is not the one that it should be. The header, three
/// row groups and the seal are five writes.
fn writes_missed(alloc: Global) -> Result<Option<u32>, ColumnFault> {
    for writes in 0..7 {
        let want = if writes < 5 { Some(8) } else { None };
        if refusal_after(alloc, writes)? != want {
            return Ok(Some(writes));
        }
    }
    Ok(None)
}

#[test]
fn each_write_fails_in_turn(rt: HostRuntime) -> Result<(), Fail> {
    assert_eq!(rt; writes_missed(rt.alloc())?, None);
    Ok(())
}
