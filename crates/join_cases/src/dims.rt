//! A dimension that the lines of a case spell: its keys as column 4, and where they are
//! spelled integers as column 2 and texts as column 7.
ghost use Rattle.std.specs.Prelude.{◌≡◌, length, true, All, option_map};
ghost use Rattle.hash_join.specs.Dim.{IsDim, column_at};

use crate::looks;
use columns::{Column, ColumnFault};
use hash_join::{DimColumn, DimFault, DimTable};
use meaning::ColType;
use std::alloc::{AllocError, Global};
use std::fmt::Write;
use std::mem::drop;
use vector_cases::{Steps, Word, digits_of, steps_of, word_of};

/// The most rows that a dimension has.
const MOST_ROWS: usize = 1_048_576;

const KEY: usize = 4;

/// The columns that are spelled.
#[derive(Drop)]
struct Spelled {
    keys: Column,
    ints: Column,
    texts: Column,
}

fn passed(pushed: Result<(), ColumnFault>) -> Result<(), AllocError> {
    match pushed {
        Err(ColumnFault::Memory) => Err(AllocError),
        _ => Ok(()),
    }
}

fn push_word(column: &mut Column, word: &str) -> Result<(), AllocError> {
    let pushed = match word_of(word) {
        Word::Null => column.push_null(),
        Word::Int(int) => column.push_int(int),
        Word::Text(text) => column.push_text(text),
    };
    passed(pushed)
}

fn push_words(column: &mut Column, words: &[&str]) -> Result<(), AllocError> {
    for word in words {
        push_word(column, word)?;
    }
    Ok(())
}

fn push_digits(alloc: Global, column: &mut Column, int: i64) -> Result<(), AllocError> {
    let text = digits_of(alloc, int)?;
    passed(column.push_text(text.as_str()))
}

fn push_int(alloc: Global, column: &mut Column, is_text: bool, int: i64) -> Result<(), AllocError> {
    if is_text {
        return push_digits(alloc, column, int);
    }
    passed(column.push_int(int))
}

fn push_steps(
    alloc: Global,
    column: &mut Column,
    is_text: bool,
    steps: Steps,
) -> Result<(), AllocError> {
    for k in 0..steps.count {
        push_int(alloc, column, is_text, steps.at(k))?;
    }
    Ok(())
}

fn push_keys(
    alloc: Global,
    column: &mut Column,
    is_text: bool,
    words: &[&str],
) -> Result<(), AllocError> {
    match steps_of(words) {
        None => push_words(column, words),
        Some(steps) => push_steps(alloc, column, is_text, steps),
    }
}

impl Spelled {
    fn new(alloc: Global, is_text: bool) -> Spelled {
        let key_type = if is_text { ColType::Text } else { ColType::Int };
        Spelled {
            keys: Column::new(alloc, key_type, true),
            ints: Column::new(alloc, ColType::Int, true),
            texts: Column::new(alloc, ColType::Text, true),
        }
    }

    fn take(&mut self, alloc: Global, is_text: bool, words: &[&str]) -> Result<(), AllocError> {
        match words {
            ["keys", words @ ..] => push_keys(alloc, &mut self.keys, is_text, words),
            ["ints", words @ ..] => push_words(&mut self.ints, words),
            ["texts", words @ ..] => push_words(&mut self.texts, words),
            _ => Ok(()),
        }
    }
}

fn take_line(
    alloc: Global,
    spelled: &mut Spelled,
    is_text: bool,
    line: &str,
) -> Result<(), AllocError> {
    let words: Vec<&str> = line.split(' ').collect(alloc)?;
    spelled.take(alloc, is_text, words.as_slice())
}

fn take_all(
    alloc: Global,
    spelled: &mut Spelled,
    is_text: bool,
    body: &str,
) -> Result<(), AllocError> {
    for line in body.lines() {
        take_line(alloc, spelled, is_text, line)?;
    }
    Ok(())
}

fn push_spelled(
    columns: &mut Vec<DimColumn>,
    number: usize,
    column: Column,
) -> Result<(), AllocError> {
    if column.len() == 0 {
        drop(column);
        return Ok(());
    }
    columns.push(DimColumn { number, column })?;
    Ok(())
}

fn columns_of(alloc: Global, spelled: Spelled) -> Result<Vec<DimColumn>, AllocError> {
    let Spelled { keys, ints, texts } = spelled;
    let mut columns = Vec::with_capacity(alloc, 3)?;
    push_spelled(&mut columns, 2, ints)?;
    columns.push(DimColumn {
        number: KEY,
        column: keys,
    })?;
    push_spelled(&mut columns, 7, texts)?;
    Ok(columns)
}

fn key_rows(columns: &[DimColumn], key: usize) -> Option<usize>
    ensures { result ≡ option_map (λ c. length c.column.values) (column_at key columns.now) }
{
    let found = columns.iter().find(|c| c.number == key)?;
    Some(found.column.len())
}

fn are_long(columns: &[DimColumn], rows: usize) -> bool
    ensures { result ≡ true → All (λ c. length c.column.values ≡ rows) columns.now }
{
    columns.iter().all(|c| c.column.len() == rows)
}

/// Whether these are the columns of a dimension.
fn is_dim(columns: &[DimColumn], key: usize) -> bool
    ensures { result ≡ true → IsDim (record { key = key; columns = columns.now }) }
{
    match key_rows(columns, key) {
        None => false,
        Some(rows) => rows <= MOST_ROWS && are_long(columns, rows),
    }
}

fn show_fault(shown: &mut String, fault: &DimFault) -> Result<(), AllocError> {
    match fault {
        DimFault::Memory => Err(AllocError),
        DimFault::KeyTwice => writeln!(shown, "refused {}", fault.number()),
    }
}

fn show_built(
    alloc: Global,
    shown: &mut String,
    built: Result<DimTable, DimFault>,
    body: &str,
) -> Result<(), AllocError> {
    match built {
        Err(fault) => show_fault(shown, &fault),
        Ok(table) => {
            let ended = looks::show_all(alloc, shown, &table, body);
            drop(table);
            ended
        }
    }
}

fn show_columns(
    alloc: Global,
    shown: &mut String,
    columns: Vec<DimColumn>,
    body: &str,
) -> Result<(), AllocError> {
    if !is_dim(columns.as_slice(), KEY) {
        drop(columns);
        return shown.push_str("no dimension\n");
    }
    show_built(alloc, shown, DimTable::build(alloc, columns, KEY), body)
}

/// Whether the dimension is built, and what each lookup in it shows.
pub fn show(
    alloc: Global,
    shown: &mut String,
    is_text: bool,
    body: &str,
) -> Result<(), AllocError> {
    let mut spelled = Spelled::new(alloc, is_text);
    match take_all(alloc, &mut spelled, is_text, body) {
        Ok(()) => {
            let columns = columns_of(alloc, spelled)?;
            show_columns(alloc, shown, columns, body)
        }
        Err(error) => {
            drop(spelled);
            Err(error)
        }
    }
}
