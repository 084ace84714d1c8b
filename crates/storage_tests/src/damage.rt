//! Files of which each byte is changed in turn.
use crate::files::{Shape, file_of, first_kind, integers, texts, zeros};
use columns::Column;
use encodings::{BlockView, Kind};
use fragment_file::{FileFault, open};
use meaning::ColType;
use sha2::{Digest, Sha256};
use std::alloc::{AllocError, Global};
use std::test::Fail;

// ---- the plain reading

/// What is left of a file.
#[derive(Drop)]
struct Cursor<'a> {
    rest: &'a [u8],
}

impl<'a> Cursor<'a> {
    fn take(&mut self, n: usize) -> Result<&'a [u8], FileFault> {
        if n > self.rest.len() {
            return Err(FileFault::Truncated);
        }
        let (front, rest) = self.rest.split_at(n);
        self.rest = rest;
        Ok(front)
    }

    fn byte(&mut self) -> Result<u8, FileFault> {
        match self.take(1)?.first() {
            Some(byte) => Ok(*byte),
            None => Err(FileFault::Truncated),
        }
    }

    fn number(&mut self, n: usize) -> Result<u64, FileFault> {
        let bytes = self.take(n)?;
        let mut number: u64 = 0;
        for byte in bytes.iter().rev() {
            number = number.wrapping_mul(256).wrapping_add(u64::from(*byte));
        }
        Ok(number)
    }

    /// A number within bounds.
    fn within(&mut self, n: usize, least: u64, most: u64) -> Result<u64, FileFault> {
        let number = self.number(n)?;
        if number < least || number > most {
            return Err(FileFault::Limit);
        }
        Ok(number)
    }

    /// A name. No reserved word has one letter, as the names here have.
    fn name(&mut self) -> Result<(), FileFault> {
        let length = self.within(2, 1, 64)?;
        let name = self.take(length as usize)?;
        let is_word = |byte: &u8| matches!(*byte, b'a'..=b'z' | b'0'..=b'9' | b'_');
        let begins = name.first().is_some_and(|byte| !byte.is_ascii_digit());
        if !begins || !name.iter().all(is_word) {
            return Err(FileFault::Header);
        }
        Ok(())
    }

    /// A byte that has one of a few values.
    fn one_of(&mut self, least: u64, most: u64) -> Result<u64, FileFault> {
        let number = self.number(1)?;
        if number < least || number > most {
            return Err(FileFault::Header);
        }
        Ok(number)
    }

    /// A column's type and whether NULL may stand in it.
    fn column(&mut self) -> Result<(ColType, bool), FileFault> {
        self.name()?;
        let col_type = match self.one_of(1, 2)? {
            1 => ColType::Int,
            _ => ColType::Text,
        };
        Ok((col_type, self.one_of(0, 1)? == 1))
    }

    fn block(&mut self, of: (ColType, bool), rows: usize) -> Result<(), FileFault> {
        let code = self.byte()?;
        let length = self.number(4)? as usize;
        let payload = self.take(length)?;
        let ill_formed = FileFault::Block {
            group: 0,
            column: 0,
        };
        let Some(kind) = Kind::from_byte(code) else {
            return Err(ill_formed);
        };
        match BlockView::new(kind, of.0, of.1, rows, payload) {
            Some(_) => Ok(()),
            None => Err(ill_formed),
        }
    }

    fn group(&mut self, columns: &[(ColType, bool)], rows: u64) -> Result<(), FileFault> {
        if self.number(4)? != rows {
            return Err(FileFault::Header);
        }
        for column in columns {
            self.block(*column, rows as usize)?;
        }
        Ok(())
    }

    fn groups(&mut self, columns: &[(ColType, bool)], rows: u64) -> Result<(), FileFault> {
        for _ in 0..rows / 8_192 {
            self.group(columns, 8_192)?;
        }
        if rows % 8_192 == 0 {
            return Ok(());
        }
        self.group(columns, rows % 8_192)
    }

    /// How many rows the file has.
    fn front(&mut self) -> Result<u64, FileFault> {
        if self.take(4)? != b"XCF1".as_slice() {
            return Err(FileFault::Magic);
        }
        self.take(8)?;
        self.name()?;
        self.take(12)?;
        self.within(4, 0, 1_048_576)
    }

    fn columns(&mut self, alloc: Global) -> Result<Vec<(ColType, bool)>, FileFault> {
        let count = self.within(2, 1, 64)?;
        let mut columns = Vec::new(alloc);
        for _ in 0..count {
            columns.push(self.column()?)?;
        }
        Ok(columns)
    }
}

/// The first obstacle in bytes, if there is one.
fn obstacle(alloc: Global, bytes: &[u8]) -> Result<(), FileFault> {
    let mut cursor = Cursor { rest: bytes };
    let rows = cursor.front()?;
    let columns = cursor.columns(alloc)?;
    cursor.groups(&columns, rows)?;
    let seal = cursor.take(32)?;
    if !cursor.rest.is_empty() {
        return Err(FileFault::TrailingBytes);
    }
    let (sealed, _) = bytes.split_at(bytes.len().saturating_sub(32));
    if seal != Sha256::digest(sealed).as_slice() {
        return Err(FileFault::Seal);
    }
    Ok(())
}

// ---- the damage

fn number_of(judged: Result<(), FileFault>) -> Option<u8> {
    match judged {
        Ok(()) => None,
        Err(fault) => Some(fault.number()),
    }
}

fn refusal(alloc: Global, bytes: &[u8]) -> Option<u8> {
    match open(alloc, bytes) {
        Ok(_) => None,
        Err(fault) => Some(fault.number()),
    }
}

/// Whether the bytes are refused, by their first obstacle.
fn is_refused(alloc: Global, bytes: &[u8]) -> bool {
    let returned = refusal(alloc, bytes);
    returned.is_some() && returned == number_of(obstacle(alloc, bytes))
}

/// Whether the bytes are refused where any bit of the byte at an offset is another, or all are.
fn is_refused_with_others(alloc: Global, bytes: &mut [u8], offset: usize) -> bool {
    if offset >= bytes.len() {
        return false;
    }
    let byte = bytes[offset];
    for change in [1, 2, 4, 8, 16, 32, 64, 128, 255] {
        bytes[offset] = byte ^ change;
        if !is_refused(alloc, bytes) {
            return false;
        }
    }
    bytes[offset] = byte;
    true
}

/// The first offset at which a change is not refused by the first obstacle.
fn offset_missed(alloc: Global, bytes: &mut [u8]) -> Option<usize> {
    for offset in 0..bytes.len() {
        if !is_refused_with_others(alloc, bytes, offset) {
            return Some(offset);
        }
    }
    None
}

#[test]
fn each_byte_changed(rt: HostRuntime) -> Result<(), Fail> {
    let mut bytes = file_of(rt.alloc(), zeros(rt.alloc(), 8_193)?)?;
    assert_eq!(rt; refusal(rt.alloc(), &bytes), None);
    assert_eq!(rt; number_of(obstacle(rt.alloc(), &bytes)), None);
    assert_eq!(rt; offset_missed(rt.alloc(), &mut bytes), None);
    Ok(())
}

/// Whether a column is written in blocks of a kind, and each change of a byte is refused.
fn is_safe(alloc: Global, column: Column, kind: Kind) -> bool {
    match file_of(alloc, column) {
        Ok(mut bytes) => {
            first_kind(alloc, &bytes) == Some(kind)
                && number_of(obstacle(alloc, &bytes)).is_none()
                && offset_missed(alloc, &mut bytes).is_none()
        }
        Err(_) => false,
    }
}

/// How many rows a column has of which each byte is changed.
const FEW_ROWS: u32 = 64;

#[test]
fn each_byte_changed_of_integers_in_each_kind(rt: HostRuntime) -> Result<(), Fail> {
    for nullable in [false, true] {
        for (shape, kind) in [
            (Shape::Wide, Kind::Plain),
            (Shape::Two, Kind::Dict),
            (Shape::Runs, Kind::Runs),
            (Shape::Small, Kind::Frame),
        ] {
            let column = integers(rt.alloc(), shape, nullable, FEW_ROWS)?;
            assert!(rt; is_safe(rt.alloc(), column, kind));
        }
    }
    Ok(())
}

#[test]
fn each_byte_changed_of_texts_in_each_kind(rt: HostRuntime) -> Result<(), Fail> {
    for nullable in [false, true] {
        for (shape, kind) in [
            (Shape::Wide, Kind::Plain),
            (Shape::Two, Kind::Dict),
            (Shape::Runs, Kind::Runs),
        ] {
            let column = texts(rt.alloc(), shape, nullable, FEW_ROWS)?;
            assert!(rt; is_safe(rt.alloc(), column, kind));
        }
    }
    Ok(())
}

/// The length of the first front that is not refused as one.
fn front_missed(alloc: Global, bytes: &[u8]) -> Option<usize> {
    for n in 0..bytes.len() {
        if refusal(alloc, &bytes[..n]) != Some(2) {
            return Some(n);
        }
    }
    None
}

#[test]
fn each_front_of_two_row_groups(rt: HostRuntime) -> Result<(), Fail> {
    let bytes = file_of(rt.alloc(), zeros(rt.alloc(), 8_193)?)?;
    assert_eq!(rt; front_missed(rt.alloc(), &bytes), None);
    Ok(())
}
