//! A line of a query with a caret under a place.
use std::io;
use std::io::Write;

/// The line that has the byte of an offset, and the byte's offset in it.
fn line_at(query: &str, offset: usize) -> (&str, usize) {
    let mut first = 0usize;
    for line in query.split('\n') {
        let end = first.saturating_add(line.len());
        if offset <= end {
            return (line, offset.saturating_sub(first));
        }
        first = end.saturating_add(1);
    }
    ("", 0)
}

/// What is under a byte before the place: nothing under those of a character but its first, and a tab
/// under a tab.
fn padding(byte: u8) -> &'static str {
    match byte {
        b'\t' => "\t",
        0x80..=0xBF => "",
        _ => " ",
    }
}

/// Writes the query's line that has the byte of an offset, with a caret under it.
pub fn put_caret<E: Write>(query: &str, offset: usize, err: &mut E) -> io::Result<()> {
    let (line, at) = line_at(query, offset);
    writeln!(err, "{line}")?;
    for byte in line.bytes().take(at) {
        err.write_all(padding(byte).as_bytes())?;
    }
    err.write_all(b"^\n")
}
