//! Cases of blocks: the values that bytes encode, and the bytes that values are written as.
use crate::lengths;
use crate::values::{column_of, show_value, type_of};
use case_files::bytes_of;
use columns::Column;
use encodings::{BlockView, DictionaryView, Kind, RunsView, VectorBuf, choose, encode_as, unpack};
use meaning::ColType;
use std::alloc::{AllocError, Global};
use std::fmt::Write;
use std::mem::drop;

const KINDS: [Kind; 4] = [Kind::Plain, Kind::Dict, Kind::Runs, Kind::Frame];

/// A block's kind by a word, or by its byte.
fn kind_of(word: &str) -> Option<Kind> {
    match word {
        "plain" => Some(Kind::Plain),
        "dict" => Some(Kind::Dict),
        "runs" => Some(Kind::Runs),
        "frame" => Some(Kind::Frame),
        _ => Kind::from_byte(word.parse().ok()?),
    }
}

pub fn kind_word(kind: Kind) -> &'static str {
    match kind {
        Kind::Plain => "plain",
        Kind::Dict => "dict",
        Kind::Runs => "runs",
        Kind::Frame => "frame",
    }
}

// ---- what a block's bytes encode

/// A block as a record's words describe it, and for how many rows the vectors have room by which it
/// is read.
#[derive(Clone, Copy)]
struct Asked {
    kind: Kind,
    col_type: ColType,
    nullable: bool,
    rows: usize,
    room: usize,
}

/// A block's rows, and the rows for which a vector has room, or none.
fn rows_and_room(words: &[&str]) -> Option<(usize, usize)> {
    match words {
        [rows] => Some((rows.parse().ok()?, 0)),
        [rows, "by", room] => Some((rows.parse().ok()?, room.parse().ok()?)),
        _ => None,
    }
}

fn block_asked(words: &[&str]) -> Option<Asked> {
    let (word, words) = words.split_first()?;
    let kind = kind_of(word)?;
    let (col_type, nullable, words) = type_of(words)?;
    let (rows, room) = rows_and_room(words)?;
    Some(Asked {
        kind,
        col_type,
        nullable,
        rows,
        room,
    })
}

/// Appends a line of a block's values behind its kind.
pub fn show_block_values(shown: &mut String, view: &BlockView<'_>) -> Result<(), AllocError> {
    shown.push_str(kind_word(view.kind()))?;
    for row in 0..view.len() {
        show_value(shown, view.get(row))?;
    }
    shown.push_str("\n")
}

fn show_entries(shown: &mut String, dictionary: &DictionaryView<'_>) -> Result<(), AllocError> {
    shown.push_str("entries")?;
    for entry in 0..dictionary.len() {
        show_value(shown, dictionary.entry(entry))?;
    }
    shown.push_str("\n")
}

fn show_runs(shown: &mut String, runs: &RunsView<'_>) -> Result<(), AllocError> {
    shown.push_str("runs")?;
    for run in 0..runs.len() {
        write!(shown, " {} of", runs.length(run))?;
        show_value(shown, runs.value(run))?;
    }
    shown.push_str("\n")
}

fn show_vector(shown: &mut String, vector: &VectorBuf<'_>) -> Result<(), AllocError> {
    shown.push_str("read")?;
    for i in 0..vector.len() {
        show_value(shown, vector.get(i))?;
    }
    shown.push_str("\n")
}

fn show_vectors<'a>(
    shown: &mut String,
    view: &BlockView<'a>,
    vector: &mut VectorBuf<'a>,
) -> Result<(), AllocError> {
    let mut from: usize = 0;
    for _ in 0..view.len() {
        if from >= view.len() {
            break;
        }
        view.read_into(from, vector);
        show_vector(shown, vector)?;
        from = from.saturating_add(vector.len());
    }
    Ok(())
}

fn show_read(
    alloc: Global,
    shown: &mut String,
    view: &BlockView<'_>,
    room: usize,
) -> Result<(), AllocError> {
    if room == 0 {
        return Ok(());
    }
    let mut vector = VectorBuf::new(alloc, room)?;
    let read = show_vectors(shown, view, &mut vector);
    drop(vector);
    read
}

fn show_parts(shown: &mut String, view: &BlockView<'_>) -> Result<(), AllocError> {
    if let Some(dictionary) = view.dictionary() {
        show_entries(shown, &dictionary)?;
    }
    if let Some(runs) = view.runs() {
        show_runs(shown, &runs)?;
    }
    Ok(())
}

fn show_payload(
    alloc: Global,
    shown: &mut String,
    asked: Asked,
    payload: &[u8],
) -> Result<(), AllocError> {
    let Asked { kind, rows, .. } = asked;
    match BlockView::new(kind, asked.col_type, asked.nullable, rows, payload) {
        Some(view) => {
            show_block_values(shown, &view)?;
            show_parts(shown, &view)?;
            show_read(alloc, shown, &view, asked.room)
        }
        None => shown.push_str("refused\n"),
    }
}

/// The values that the bytes encode, or that they are refused.
pub fn show_block(
    alloc: Global,
    shown: &mut String,
    words: &[&str],
    body: &str,
) -> Result<(), AllocError> {
    let Some(asked) = block_asked(words) else {
        return shown.push_str("(no block of a kind)\n");
    };
    let Some(payload) = bytes_of(alloc, body)? else {
        return shown.push_str("(no bytes)\n");
    };
    let done = show_payload(alloc, shown, asked, payload.as_slice());
    drop(payload);
    done
}

// ---- the bytes of values

fn show_hex(alloc: Global, shown: &mut String, bytes: &[u8]) -> Result<(), AllocError> {
    let digits = hex::encode(alloc, bytes)?;
    let done = writeln!(shown, "{digits}");
    drop(digits);
    done
}

fn show_encoded(
    alloc: Global,
    shown: &mut String,
    kind: Kind,
    column: &Column,
) -> Result<(), AllocError> {
    let rows = column.len();
    if rows == 0 || rows > 8192 {
        return shown.push_str("(a block has 1 to 8192 rows)\n");
    }
    match encode_as(alloc, kind, column, 0, rows) {
        Ok(payload) => {
            let done = show_hex(alloc, shown, payload.as_slice());
            drop(payload);
            done
        }
        Err(fault) => writeln!(shown, "refused {}: {fault}", fault.number()),
    }
}

/// The bytes of the values in a kind, or the refusal.
pub fn show_encode(
    alloc: Global,
    shown: &mut String,
    words: &[&str],
    body: &str,
) -> Result<(), AllocError> {
    let Some((kind, (col_type, nullable, _))) = words
        .split_first()
        .and_then(|(word, words)| Some((kind_of(word)?, type_of(words)?)))
    else {
        return shown.push_str("(no kind and type)\n");
    };
    let column = column_of(alloc, col_type, nullable, body)?;
    let done = show_encoded(alloc, shown, kind, &column);
    drop(column);
    done
}

fn show_size(
    alloc: Global,
    shown: &mut String,
    kind: Kind,
    column: &Column,
) -> Result<(), AllocError> {
    let rows = column.len();
    if rows == 0 || rows > 8192 {
        return Ok(());
    }
    match encode_as(alloc, kind, column, 0, rows) {
        Ok(payload) => {
            let size = payload.len();
            drop(payload);
            writeln!(shown, "{} {size}", kind_word(kind))
        }
        Err(fault) => writeln!(shown, "{} refused {}", kind_word(kind), fault.number()),
    }
}

fn show_chosen(alloc: Global, shown: &mut String, column: &Column) -> Result<(), AllocError> {
    let rows = column.len();
    if rows == 0 || rows > 8192 {
        return shown.push_str("(a block has 1 to 8192 rows)\n");
    }
    match choose(alloc, column, 0, rows) {
        Ok(kind) => writeln!(shown, "chosen {}", kind_word(kind)),
        Err(fault) => writeln!(shown, "refused {}: {fault}", fault.number()),
    }
}

fn show_sizes(alloc: Global, shown: &mut String, column: &Column) -> Result<(), AllocError> {
    for kind in KINDS {
        show_size(alloc, shown, kind, column)?;
    }
    show_chosen(alloc, shown, column)
}

/// How many bytes the values take in each kind, and which kind is chosen.
pub fn show_choose(
    alloc: Global,
    shown: &mut String,
    words: &[&str],
    body: &str,
) -> Result<(), AllocError> {
    let Some((col_type, nullable, _)) = type_of(words) else {
        return shown.push_str("(no type of a column)\n");
    };
    let column = column_of(alloc, col_type, nullable, body)?;
    let done = show_sizes(alloc, shown, &column);
    drop(column);
    done
}

// ---- packed numbers

/// Whether so many numbers from one on lie within the bytes.
pub fn unpack_into(bytes: &[u8], width: u8, from: usize, out: &mut [u64]) -> bool {
    let Some(end) = from.checked_add(out.len()) else {
        return false;
    };
    if width > 64 || end > 8192 || bytes.len() > 65_536 {
        return false;
    }
    if end * usize::from(width) > 8 * bytes.len() {
        return false;
    }
    unpack(bytes, width, from, out);
    true
}

fn show_numbers(shown: &mut String, numbers: &[u64]) -> Result<(), AllocError> {
    shown.push_str("numbers")?;
    for number in numbers {
        write!(shown, " {number}")?;
    }
    shown.push_str("\n")
}

fn show_unpacked(
    alloc: Global,
    shown: &mut String,
    width: u8,
    range: (usize, usize),
    bytes: &[u8],
) -> Result<(), AllocError> {
    let (from, count) = range;
    let mut out = vec![in alloc; 0; count]?;
    let done = if unpack_into(bytes, width, from, out.as_mut_slice()) {
        show_numbers(shown, out.as_slice())
    } else {
        shown.push_str("(not within the bytes)\n")
    };
    drop(out);
    done
}

fn show_lengths(
    alloc: Global,
    shown: &mut String,
    width: &str,
    body: &str,
) -> Result<(), AllocError> {
    let Some(bytes) = bytes_of(alloc, body)? else {
        return shown.push_str("(no bytes)\n");
    };
    let done = lengths::show(shown, width.parse().unwrap_or(0), bytes.as_slice());
    drop(bytes);
    done
}

/// Packed numbers of a width in bits, from one on so many; or how often these are those of a plain
/// loop.
pub fn show_unpack(
    alloc: Global,
    shown: &mut String,
    words: &[&str],
    body: &str,
) -> Result<(), AllocError> {
    if let ["lengths", width] = words {
        return show_lengths(alloc, shown, width, body);
    }
    let [width, from, count] = words else {
        return shown.push_str("(no width, index and number)\n");
    };
    let width = width.parse().unwrap_or(0);
    let range = (from.parse().unwrap_or(0), count.parse().unwrap_or(0));
    let Some(bytes) = bytes_of(alloc, body)? else {
        return shown.push_str("(no bytes)\n");
    };
    let done = show_unpacked(alloc, shown, width, range, bytes.as_slice());
    drop(bytes);
    done
}
