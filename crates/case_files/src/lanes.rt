//! What a lane of a vector has, as cases show it: each behind a blank.
use std::alloc::AllocError;
use std::fmt::Write;

/// Appends an integer, or `\N` where there is none.
pub fn show_int(shown: &mut String, int: Option<i64>) -> Result<(), AllocError> {
    match int {
        None => shown.push_str(" \\N"),
        Some(int) => write!(shown, " {int}"),
    }
}

/// Appends a text in quotes, or `\N` where there is none.
pub fn show_text(shown: &mut String, text: Option<&[u8]>) -> Result<(), AllocError> {
    match text {
        None => shown.push_str(" \\N"),
        Some(text) => write!(shown, " '{}'", std::str::from_utf8(text).unwrap_or("?")),
    }
}
