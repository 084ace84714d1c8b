//! A reader of row groups beside `open`, over the same bytes.
ghost use Rattle.std.specs.Prelude.{◌≡◌, ◌∷◌, [], codes, IfOk};

use columns::{Column, ColumnFault};
use fragment_file::{FileFault, FragmentView, GroupView, Header, open, write};
use group_reader::GroupReader;
use meaning::{ColType, Column as Declared, Sequence, Text};
use std::alloc::{AllocError, Global};
use std::io;
use std::io::Read;
use std::test::Fail;

// ---- files

/// Load 7, table `n`, the column `v`.
fn header_of(
    alloc: Global,
    col_type: ColType,
    nullable: bool,
    rows: u32,
) -> Result<Header, AllocError>
    ensures { IfOk result (λ h. h ≡ record { load = 7; table = codes "n"; fragment = 0; first_row = 0; rows = rows; columns = record { name = codes "v"; col_type = col_type; nullable = nullable } ∷ [] }) }
{
    let name = Text::new(alloc, "v")?;
    let mut columns = Vec::new(alloc);
    columns.push(Declared {
        name,
        col_type,
        nullable,
    })?;
    Ok(Header {
        load: 7,
        table: Text::new(alloc, "n")?,
        fragment: 0,
        first_row: 0,
        rows,
        columns: Sequence::from_vec(columns),
    })
}

fn numbers(alloc: Global, rows: u32) -> Result<Column, ColumnFault> {
    let mut column = Column::new(alloc, ColType::Int, false);
    for row in 0..rows {
        column.push_int(i64::from(row & 7))?;
    }
    Ok(column)
}

fn file_of(alloc: Global, rows: u32) -> Result<Vec<u8>, Fail> {
    let column = numbers(alloc, rows)?;
    let mut bytes = Vec::new(alloc);
    write_file(alloc, column, &mut bytes)?;
    Ok(bytes)
}

fn write_file(alloc: Global, column: Column, bytes: &mut Vec<u8>) -> Result<(), FileFault> {
    let rows = column.len();
    if rows > 1_048_576 {
        return Err(FileFault::Limit);
    }
    let header = header_of(alloc, column.col_type(), column.nullable(), rows as u32)?;
    write(alloc, &header, &[column], bytes)
}

// ---- readers

/// Gives so many bytes a call. One call fails, those behind it don't.
#[derive(Drop)]
struct Pieces<'a> {
    rest: &'a [u8],
    most: usize,
    until_failure: u32,
}

impl Read for Pieces<'_> {
    fn read(&mut self, buf: &mut [u8]) -> io::Result<usize> {
        if self.until_failure == 0 {
            self.until_failure = u32::MAX;
            return Err(io::Error::from(io::ErrorKind::Other));
        }
        self.until_failure -= 1;
        let n = self.rest.len().min(self.most).min(buf.len());
        let (here, rest) = self.rest.split_at(n);
        buf[..n].copy_from_slice(here);
        self.rest = rest;
        Ok(n)
    }
}

fn in_pieces(bytes: &[u8], most: usize) -> Pieces<'_> {
    Pieces {
        rest: bytes,
        most,
        until_failure: u32::MAX,
    }
}

// ---- what is read

fn is_same_group(a: &GroupView<'_>, b: &GroupView<'_>) -> bool {
    let columns = a.column_count();
    if columns != b.column_count() {
        return false;
    }
    for column in 0..columns {
        let (left, right) = (a.column(column), b.column(column));
        if left.kind() != right.kind() || left.payload() != right.payload() {
            return false;
        }
    }
    a.rows() == b.rows()
}

/// Whether the same row groups come in turn, and then the end, twice.
fn gives_groups(view: &FragmentView<'_>, reader: &mut GroupReader<Pieces<'_>>) -> bool {
    for index in 0..view.group_count() {
        if !lends_next(reader, &view.group(index)) {
            return false;
        }
        let Some(again) = reader.group() else {
            return false;
        };
        if !is_same_group(&view.group(index), &again) {
            return false;
        }
    }
    has_ended(reader) && has_ended(reader)
}

fn lends_next(reader: &mut GroupReader<Pieces<'_>>, meant: &GroupView<'_>) -> bool {
    match reader.next_group() {
        Ok(Some(group)) => is_same_group(meant, &group),
        _ => false,
    }
}

fn has_ended(reader: &mut GroupReader<Pieces<'_>>) -> bool {
    match reader.advance() {
        Ok(more) => !more && reader.group().is_none(),
        Err(_) => false,
    }
}

/// The number of the refusal, where it is returned twice and no row group then stands.
fn refusal_of(reader: &mut GroupReader<Pieces<'_>>) -> Option<u8> {
    for _ in 0..200 {
        match reader.advance() {
            Ok(true) => {}
            Ok(false) => return None,
            Err(fault) => return repeated(reader, fault),
        }
    }
    None
}

fn repeated(reader: &mut GroupReader<Pieces<'_>>, first: FileFault) -> Option<u8> {
    match reader.advance() {
        Ok(_) => None,
        Err(again) if again.number() == first.number() && reader.group().is_none() => {
            Some(first.number())
        }
        Err(_) => None,
    }
}

/// Whether the reader and `open` do the same.
fn agrees(alloc: Global, bytes: &[u8], most: usize) -> bool {
    match GroupReader::open(alloc, in_pieces(bytes, most)) {
        Ok(mut reader) => match open(alloc, bytes) {
            Ok(view) => gives_groups(&view, &mut reader),
            Err(fault) => refusal_of(&mut reader) == Some(fault.number()),
        },
        Err(fault) => match open(alloc, bytes) {
            Ok(_) => false,
            Err(opened) => fault.number() == opened.number(),
        },
    }
}

#[test]
fn row_groups_are_those_of_the_opened_file(rt: HostRuntime) -> Result<(), Fail> {
    let bytes = file_of(rt.alloc(), 20_000)?;
    for most in [1, 7, 65_536] {
        assert!(rt; agrees(rt.alloc(), bytes.as_slice(), most));
    }
    Ok(())
}

// ---- damaged files

/// The first byte that can be changed so that the reader and `open` do not the same.
fn missed_change(alloc: Global, bytes: &mut Vec<u8>) -> Option<usize> {
    for index in 0..bytes.len() {
        for mask in [1, 128, 255] {
            bytes[index] ^= mask;
            let alike = agrees(alloc, bytes.as_slice(), 7);
            bytes[index] ^= mask;
            if !alike {
                return Some(index);
            }
        }
    }
    None
}

/// The first length, from one on, at which the file can be cut so that they do not the same.
fn missed_cut(alloc: Global, bytes: &[u8], from: usize) -> Option<usize> {
    for length in from..bytes.len() {
        let (front, _) = bytes.split_at(length);
        if !agrees(alloc, front, 64) {
            return Some(length);
        }
    }
    None
}

#[test]
fn damaged_files_are_refused_alike(rt: HostRuntime) -> Result<(), Fail> {
    let mut small = file_of(rt.alloc(), 50)?;
    assert_eq!(rt; missed_change(rt.alloc(), &mut small), None);
    assert_eq!(rt; missed_cut(rt.alloc(), small.as_slice(), 0), None);
    small.push(0)?;
    assert!(rt; agrees(rt.alloc(), small.as_slice(), 64));
    // The last row group has 37 bytes: its rows in 4, a block's kind and length in 5, a payload of 28.
    let two = file_of(rt.alloc(), 8_242)?;
    assert_eq!(rt;
        missed_cut(rt.alloc(), two.as_slice(), two.len().saturating_sub(69)),
        None
    );
    Ok(())
}

// ---- readers that fail

/// The number of the refusal where one call fails; `None` where no refusal is returned.
fn refusal_after(alloc: Global, bytes: &[u8], calls: u32) -> Option<u8> {
    let source = Pieces {
        rest: bytes,
        most: 256,
        until_failure: calls,
    };
    match GroupReader::open(alloc, source) {
        Ok(mut reader) => refusal_of(&mut reader),
        Err(fault) => Some(fault.number()),
    }
}

/// The first call that is not made. Where an earlier one fails, the refusal is the device's.
fn calls_made(alloc: Global, bytes: &[u8]) -> Option<u32> {
    for calls in 0..1_000 {
        match refusal_after(alloc, bytes, calls) {
            Some(8) => {}
            Some(_) => return None,
            None => return Some(calls),
        }
    }
    None
}

#[test]
fn each_call_fails_in_turn(rt: HostRuntime) -> Result<(), Fail> {
    let bytes = file_of(rt.alloc(), 8_242)?;
    // Twelve for the header, 16 and 4 for the row groups, one for the seal and one for the end.
    assert_eq!(rt; calls_made(rt.alloc(), bytes.as_slice()), Some(34));
    Ok(())
}
