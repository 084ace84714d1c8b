//! Lines of what a case shows.
use std::alloc::{AllocError, Global};
use std::fmt::Write;

/// Appends a line.
pub fn show_line(shown: &mut String, line: &str) -> Result<(), AllocError> {
    shown.push_str(line)?;
    shown.push_str("\n")
}

/// Appends lines, each behind a word.
pub fn show_lines(shown: &mut String, word: &str, text: &str) -> Result<(), AllocError> {
    for line in text.lines() {
        let gap = if line.is_empty() { "" } else { " " };
        writeln!(shown, "{word}{gap}{line}")?;
    }
    Ok(())
}

fn show_text(shown: &mut String, word: &str, text: &str) -> Result<(), AllocError> {
    show_lines(shown, word, text)?;
    if text.is_empty() || text.ends_with('\n') {
        return Ok(());
    }
    writeln!(shown, "{word} (ends without a line end)")
}

/// Appends the lines that were printed, each behind a word.
pub fn show_printed(
    alloc: Global,
    shown: &mut String,
    word: &str,
    bytes: &[u8],
) -> Result<(), AllocError> {
    let text = String::from_utf8_lossy(alloc, bytes)?;
    show_text(shown, word, text.as_str())
}
