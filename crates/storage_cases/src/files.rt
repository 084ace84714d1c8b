//! Cases about fragment files and cut files.
ghost use Rattle.std.specs.Prelude.{◌≡◌, ◌∷◌, [], codes, IfOk};

use crate::block_values::show_block_values;
use crate::values::{column_of, type_of, type_word};
use case_files::bytes_of;
use columns::Column;
use fragment_file::{FileFault, FragmentView, GroupView, Header, open, read_cut, write, write_cut};
use meaning::{ColType, Column as Declared, Cut, Sequence, Text};
use sha2::{Digest, Sha256};
use std::alloc::{AllocError, Global};
use std::fmt::Write;
use std::mem::drop;

fn show_refusal(shown: &mut String, fault: &FileFault) -> Result<(), AllocError> {
    let number = fault.number();
    match fault {
        FileFault::Block { group, column } => writeln!(shown, "refused {number} {group} {column}"),
        _ => writeln!(shown, "refused {number}"),
    }
}

// ---- reading

fn show_header(shown: &mut String, header: &Header) -> Result<(), AllocError> {
    writeln!(
        shown,
        "load {}, table {}, fragment {}, from row {}, {} rows",
        header.load,
        header.table.as_str(),
        header.fragment,
        header.first_row,
        header.rows
    )
}

fn show_declared(shown: &mut String, columns: &[Declared]) -> Result<(), AllocError> {
    for column in columns {
        let null = if column.nullable { " null" } else { "" };
        let word = type_word(column.col_type);
        writeln!(shown, "col {} {word}{null}", column.name.as_str())?;
    }
    Ok(())
}

fn show_group(shown: &mut String, group: &GroupView<'_>) -> Result<(), AllocError> {
    writeln!(shown, "group of {} rows", group.rows())?;
    for index in 0..group.column_count() {
        let block = group.column(index);
        show_block_values(shown, &block)?;
    }
    Ok(())
}

fn show_file(shown: &mut String, view: &FragmentView<'_>) -> Result<(), AllocError> {
    show_header(shown, view.header())?;
    show_declared(shown, view.header().columns.as_slice())?;
    for index in 0..view.group_count() {
        let group = view.group(index);
        show_group(shown, &group)?;
    }
    Ok(())
}

fn show_opened(alloc: Global, shown: &mut String, bytes: &[u8]) -> Result<(), AllocError> {
    match open(alloc, bytes) {
        Ok(view) => {
            let done = show_file(shown, &view);
            drop(view);
            done
        }
        Err(fault) => show_refusal(shown, &fault),
    }
}

/// What the bytes are a fragment file of, or the refusal.
pub fn show_fragment(alloc: Global, shown: &mut String, body: &str) -> Result<(), AllocError> {
    let Some(bytes) = bytes_of(alloc, body)? else {
        return shown.push_str("(no bytes)\n");
    };
    let done = show_opened(alloc, shown, bytes.as_slice());
    drop(bytes);
    done
}

fn show_cut(shown: &mut String, load: u64, lengths: &[u32]) -> Result<(), AllocError> {
    write!(shown, "load {load}, cut")?;
    for length in lengths {
        write!(shown, " {length}")?;
    }
    shown.push_str("\n")
}

fn show_read_cut(alloc: Global, shown: &mut String, bytes: &[u8]) -> Result<(), AllocError> {
    match read_cut(alloc, bytes) {
        Ok((load, cut)) => {
            let done = show_cut(shown, load, cut.lengths());
            drop(cut);
            done
        }
        Err(fault) => show_refusal(shown, &fault),
    }
}

/// The load and the cut that the bytes are a file of, or the refusal.
pub fn show_cut_file(alloc: Global, shown: &mut String, body: &str) -> Result<(), AllocError> {
    let Some(bytes) = bytes_of(alloc, body)? else {
        return shown.push_str("(no bytes)\n");
    };
    let done = show_read_cut(alloc, shown, bytes.as_slice());
    drop(bytes);
    done
}

// ---- writing

// The seal is shown as a word, where it is that of the bytes before it.
fn show_sealed(alloc: Global, shown: &mut String, bytes: &[u8]) -> Result<(), AllocError> {
    let (front, seal) = bytes.split_at(bytes.len().saturating_sub(32));
    let digits = hex::encode(alloc, front)?;
    let word = if seal == Sha256::digest(front).as_slice() {
        "seal"
    } else {
        "(another seal)"
    };
    let done = writeln!(shown, "{} bytes\n{digits}\n{word}", bytes.len());
    drop(digits);
    done
}

// The header of a table `n` of one column `v`.
fn header_of(
    alloc: Global,
    load: u64,
    col_type: ColType,
    nullable: bool,
    rows: u32,
) -> Result<Header, AllocError>
    ensures { IfOk result (λ h. h ≡ record { load = load; table = codes "n"; fragment = 0; first_row = 0; rows = rows; columns = record { name = codes "v"; col_type = col_type; nullable = nullable } ∷ [] }) }
{
    let name = Text::new(alloc, "v")?;
    let mut columns = Vec::new(alloc);
    columns.push(Declared {
        name,
        col_type,
        nullable,
    })?;
    Ok(Header {
        load,
        table: Text::new(alloc, "n")?,
        fragment: 0,
        first_row: 0,
        rows,
        columns: Sequence::from_vec(columns),
    })
}

fn write_one(alloc: Global, load: u64, column: Column, out: &mut Vec<u8>) -> Result<(), FileFault> {
    let rows = column.len();
    if rows > 1_048_576 {
        return Err(FileFault::Limit);
    }
    let header = header_of(
        alloc,
        load,
        column.col_type(),
        column.nullable(),
        rows as u32,
    )?;
    write(alloc, &header, &[column], out)
}

fn show_written(
    alloc: Global,
    shown: &mut String,
    load: u64,
    column: Column,
) -> Result<(), AllocError> {
    let mut out = Vec::new(alloc);
    match write_one(alloc, load, column, &mut out) {
        Ok(()) => show_sealed(alloc, shown, out.as_slice()),
        Err(fault) => show_refusal(shown, &fault),
    }
}

/// The bytes of a file of a table `n` with one column `v` of these values.
pub fn show_write(
    alloc: Global,
    shown: &mut String,
    words: &[&str],
    body: &str,
) -> Result<(), AllocError> {
    let Some((load, (col_type, nullable, _))) = words.split_first().and_then(|(word, words)| Some((
        word.parse().ok()?,
        type_of(words)?,
    )))
    else {
        return shown.push_str("(no load and type)\n");
    };
    let column = column_of(alloc, col_type, nullable, body)?;
    show_written(alloc, shown, load, column)
}

/// The lengths that some words spell. A word that spells none is 0.
pub fn lengths_of(alloc: Global, words: &[&str]) -> Result<Vec<u32>, AllocError> {
    words
        .iter()
        .map(|word| word.parse().unwrap_or(0))
        .collect(alloc)
}

fn show_written_cut(
    alloc: Global,
    shown: &mut String,
    load: u64,
    cut: &Cut,
) -> Result<(), AllocError> {
    let mut out = Vec::new(alloc);
    let done = match write_cut(load, cut, &mut out) {
        Ok(()) => show_sealed(alloc, shown, out.as_slice()),
        Err(fault) => show_refusal(shown, &fault),
    };
    drop(out);
    done
}

/// The bytes of the file of a load and a cut.
pub fn show_write_cut(alloc: Global, shown: &mut String, words: &[&str]) -> Result<(), AllocError> {
    let Some((load, words)) = words.split_first() else {
        return shown.push_str("(no load)\n");
    };
    let load = load.parse().unwrap_or(0);
    match Cut::new(lengths_of(alloc, words)?) {
        Ok(cut) => {
            let done = show_written_cut(alloc, shown, load, &cut);
            drop(cut);
            done
        }
        Err(fault) => writeln!(shown, "no cut: {fault}"),
    }
}

fn show_alike(
    alloc: Global,
    shown: &mut String,
    cut: &Cut,
    bytes: &[u8],
) -> Result<(), AllocError> {
    match read_cut(alloc, bytes) {
        Ok((load, back)) => {
            let alike = if back.lengths() == cut.lengths() {
                "alike"
            } else {
                "others"
            };
            let (length, count) = (bytes.len(), back.lengths().len());
            let done = writeln!(
                shown,
                "{length} bytes, load {load}, {count} lengths, {alike}"
            );
            drop(back);
            done
        }
        Err(fault) => show_refusal(shown, &fault),
    }
}

fn show_written_and_read(
    alloc: Global,
    shown: &mut String,
    load: u64,
    cut: &Cut,
) -> Result<(), AllocError> {
    let mut out = Vec::new(alloc);
    let done = match write_cut(load, cut, &mut out) {
        Ok(()) => show_alike(alloc, shown, cut, out.as_slice()),
        Err(fault) => show_refusal(shown, &fault),
    };
    drop(out);
    done
}

/// What is read back of the file of a load and an even cut, by its rows and each fragment's.
pub fn show_cut_back(alloc: Global, shown: &mut String, words: &[&str]) -> Result<(), AllocError> {
    let [load, rows, length] = words else {
        return shown.push_str("(no load, rows and length)\n");
    };
    let length = length.parse().unwrap_or(1);
    if length == 0 {
        return shown.push_str("(no length)\n");
    }
    match Cut::even(alloc, rows.parse().unwrap_or(0), length) {
        Ok(cut) => {
            let done = show_written_and_read(alloc, shown, load.parse().unwrap_or(0), &cut);
            drop(cut);
            done
        }
        Err(fault) => writeln!(shown, "no cut: {fault}"),
    }
}
