//! CSV readers that give pieces or fail.
use crate::block_sizes::passes;
use catalog_reader::read_catalog;
use columns::Column;
use loader::{LoadFault, count_rows, has_dim, load_dim, load_fact};
use meaning::{Cut, ValueRef};
use std::alloc::{AllocError, Global};
use std::fmt::Write;
use std::io;
use std::io::Read;
use std::test::Fail;

const CATALOG: &[u8] =
    b"fact sales\ncol q int null\ncol name text\ndim store key k\ncol k int\ncol region text null\n";

/// Two rows, of which a text has a quoted line end.
const CSV: &[u8] = b"\xEF\xBB\xBFname,q\r\n\"a\r\nb\",10\r\nc,-7";

// ---- in pieces

/// Gives so many bytes a call.
#[derive(Drop)]
struct Pieces<'a> {
    rest: &'a [u8],
    most: usize,
}

impl Read for Pieces<'_> {
    fn read(&mut self, buf: &mut [u8]) -> io::Result<usize> {
        let n = self.rest.len().min(self.most).min(buf.len());
        let (here, rest) = self.rest.split_at(n);
        buf[..n].copy_from_slice(here);
        self.rest = rest;
        Ok(n)
    }
}

fn integer(column: Option<&Column>, row: usize) -> Option<i64> {
    match column {
        Some(column) if row < column.len() => match column.get(row) {
            ValueRef::Int(n) => Some(n),
            _ => None,
        },
        _ => None,
    }
}

fn has_text(column: Option<&Column>, row: usize, text: &[u8]) -> bool {
    match column {
        Some(column) if row < column.len() => match column.get(row) {
            ValueRef::Text(bytes) => bytes == text,
            _ => false,
        },
        _ => false,
    }
}

fn are_both_rows(columns: &[Column]) -> bool {
    let (numbers, names) = (columns.first(), columns.get(1));
    integer(numbers, 0) == Some(10)
        && integer(numbers, 1) == Some(-7)
        && has_text(names, 0, b"a\r\nb")
        && has_text(names, 1, b"c")
}

/// Whether both rows are loaded from pieces of so many bytes.
fn loads_pieces(alloc: Global, most: usize) -> Result<bool, Fail> {
    let cut = Cut::even(alloc, 2, 8)?;
    let catalog = read_catalog(alloc, CATALOG)?;
    let reader = Pieces { rest: CSV, most };
    match load_fact(alloc, &catalog, reader, &cut) {
        Ok(fragments) => match fragments.as_slice() {
            [columns] => Ok(are_both_rows(columns.as_slice())),
            _ => Ok(false),
        },
        Err(_) => Ok(false),
    }
}

/// The first size of pieces from which both rows are not loaded and counted.
fn pieces_missed(alloc: Global) -> Result<Option<usize>, Fail> {
    for most in [1, 7, 65_536] {
        let rows = count_rows(alloc, Pieces { rest: CSV, most })?;
        if rows != 2 || !loads_pieces(alloc, most)? {
            return Ok(Some(most));
        }
    }
    Ok(None)
}

#[test]
fn bytes_come_in_pieces(rt: HostRuntime) -> Result<(), Fail> {
    assert_eq!(rt; pieces_missed(rt.alloc())?, None);
    Ok(())
}

// ---- into blocks of each kind

/// A header and so many rows, of which every seventh has no number.
fn long_csv(alloc: Global, rows: u32) -> Result<String, AllocError> {
    let mut csv = String::from_str(alloc, "name,q\n")?;
    for row in 0..rows {
        if row % 7 == 6 {
            write!(csv, "{row} in all,\n")?;
        } else {
            write!(csv, "granite,{row}\n")?;
        }
    }
    Ok(csv)
}

fn are_in_each_kind(alloc: Global, columns: &[Column], rows: usize) -> Result<bool, AllocError> {
    for column in columns {
        if column.len() != rows || !passes(alloc, column)? {
            return Ok(false);
        }
    }
    Ok(columns.len() == 2)
}

/// Whether so many rows are loaded, and the columns come back out of each kind of block.
fn loads_into_each_kind(alloc: Global, rows: u32) -> Result<bool, Fail> {
    let cut = Cut::even(alloc, u64::from(rows), 8_192)?;
    let catalog = read_catalog(alloc, CATALOG)?;
    let csv = long_csv(alloc, rows)?;
    match load_fact(alloc, &catalog, csv.as_bytes(), &cut) {
        Ok(fragments) => match fragments.as_slice() {
            [columns] => Ok(are_in_each_kind(alloc, columns.as_slice(), rows as usize)?),
            _ => Ok(false),
        },
        Err(_) => Ok(false),
    }
}

#[test]
fn loaded_columns_come_back_in_each_kind(rt: HostRuntime) -> Result<(), Fail> {
    for rows in [1, 100, 8_192] {
        assert!(rt; loads_into_each_kind(rt.alloc(), rows)?);
    }
    Ok(())
}

// ---- readers that fail

/// Gives three bytes a call, and fails after so many calls.
#[derive(Drop)]
struct Failing<'a> {
    rest: &'a [u8],
    left: u32,
}

impl Read for Failing<'_> {
    fn read(&mut self, buf: &mut [u8]) -> io::Result<usize> {
        if self.left == 0 {
            return Err(io::Error::from(io::ErrorKind::Other));
        }
        self.left -= 1;
        let n = self.rest.len().min(3).min(buf.len());
        let (here, rest) = self.rest.split_at(n);
        buf[..n].copy_from_slice(here);
        self.rest = rest;
        Ok(n)
    }
}

/// By which number loading is refused where so many calls are answered; `None` where it is not.
fn refusal_after(alloc: Global, calls: u32) -> Result<Option<u8>, Fail> {
    let cut = Cut::even(alloc, 2, 8)?;
    let catalog = read_catalog(alloc, CATALOG)?;
    let reader = Failing {
        rest: CSV,
        left: calls,
    };
    match load_fact(alloc, &catalog, reader, &cut) {
        Ok(_) => Ok(None),
        Err(fault) => Ok(Some(fault.number())),
    }
}

fn count_after(alloc: Global, calls: u32) -> Option<u8> {
    let reader = Failing {
        rest: CSV,
        left: calls,
    };
    match count_rows(alloc, reader) {
        Ok(_) => None,
        Err(fault) => Some(fault.number()),
    }
}

/// The first number of calls after which the refusal is not the one that it should be. Nine calls give
/// the 26 bytes, and one more their end.
fn calls_missed(alloc: Global) -> Result<Option<u32>, Fail> {
    for calls in [0, 1, 2, 3, 4, 5, 6, 7, 8, 9, 20] {
        let want = if calls < 10 { Some(10) } else { None };
        if count_after(alloc, calls) != want || refusal_after(alloc, calls)? != want {
            return Ok(Some(calls));
        }
    }
    Ok(None)
}

#[test]
fn each_call_fails_in_turn(rt: HostRuntime) -> Result<(), Fail> {
    assert_eq!(rt; calls_missed(rt.alloc())?, None);
    Ok(())
}

// ---- a dimension of many rows

/// The header of the dimension, and then rows with the keys 0, 1 and so on.
#[derive(Drop)]
struct ManyRows {
    left: u32,
    line: [u8; 9],
    given: usize,
}

/// The number of seven digits in front that is next.
fn count_on(line: &mut [u8]) {
    for index in [6, 5, 4, 3, 2, 1, 0] {
        let Some(digit) = line.get_mut(index) else {
            return;
        };
        match *digit {
            b'0'..=b'8' => {
                *digit += 1;
                return;
            }
            _ => *digit = b'0',
        }
    }
}

impl Read for ManyRows {
    fn read(&mut self, buf: &mut [u8]) -> io::Result<usize> {
        if self.given >= 9 {
            if self.left == 0 {
                return Ok(0);
            }
            self.left -= 1;
            if self.line[7] == b',' {
                count_on(&mut self.line);
            } else {
                self.line = *b"0000000,\n";
            }
            self.given = 0;
        }
        let rest = &self.line[self.given..];
        let n = rest.len().min(buf.len());
        buf[..n].copy_from_slice(&rest[..n]);
        self.given += n;
        Ok(n)
    }
}

fn many_rows(rows: u32) -> ManyRows {
    ManyRows {
        left: rows,
        line: *b"k,region\n",
        given: 0,
    }
}

/// The last key of a dimension of so many rows, or the refusal's number.
fn last_key(alloc: Global, rows: u32) -> Result<Option<i64>, Fail> {
    let catalog = read_catalog(alloc, CATALOG)?;
    if !has_dim(&catalog, "store") {
        return Ok(None);
    }
    match load_dim(alloc, &catalog, "store", many_rows(rows)) {
        Ok(columns) => match columns.as_slice().first() {
            Some(keys) if keys.len() > 0 => Ok(integer(Some(keys), keys.len() - 1)),
            _ => Ok(None),
        },
        Err(LoadFault::Memory) => Ok(None),
        Err(fault) => Ok(Some(-i64::from(fault.number()))),
    }
}

#[test]
fn a_dimension_has_up_to_1048576_rows(rt: HostRuntime) -> Result<(), Fail> {
    assert_eq!(rt; last_key(rt.alloc(), 3)?, Some(2));
    assert_eq!(rt; last_key(rt.alloc(), 1_048_576)?, Some(1_048_575));
    // Too many rows are reported as 8.
    assert_eq!(rt; last_key(rt.alloc(), 1_048_577)?, Some(-8));
    Ok(())
}
