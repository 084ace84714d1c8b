//! A field as it is shown in a message.
use meaning::text_of;
use std::alloc::{AllocError, Global};
use std::fmt::Write;

/// How many characters of a field are shown.
const MOST_SHOWN: usize = 60;

// A character as it is, or so that it can be seen.
fn add_char(text: &mut String, character: char) -> Result<(), AllocError> {
    match character {
        '\n' => text.push_str("\\n"),
        '\r' => text.push_str("\\r"),
        '\t' => text.push_str("\\t"),
        _ => {
            if character.is_control() {
                text.push_str("\u{FFFD}")
            } else {
                text.push(character)
            }
        }
    }
}

fn add_text(text: &mut String, field: &str) -> Result<(), AllocError> {
    let mut left = MOST_SHOWN;
    for character in field.chars() {
        if left == 0 {
            return text.push_str("..");
        }
        add_char(text, character)?;
        left -= 1;
    }
    Ok(())
}

// A byte of a field that is no text: a letter as it is, any other by its number.
fn add_byte(text: &mut String, byte: u8) -> Result<(), AllocError> {
    if byte.is_ascii_graphic() || byte == b' ' {
        return text.push(char::from(byte));
    }
    match write!(text, "\\x{byte:02X}") {
        Ok(()) => Ok(()),
        Err(_) => Err(AllocError),
    }
}

fn add_bytes(text: &mut String, field: &[u8]) -> Result<(), AllocError> {
    let mut left = MOST_SHOWN;
    for byte in field {
        if left == 0 {
            return text.push_str("..");
        }
        add_byte(text, *byte)?;
        left -= 1;
    }
    Ok(())
}

// The characters of a field.
fn add_field(text: &mut String, field: &[u8]) -> Result<(), AllocError> {
    match text_of(field) {
        Some(characters) => add_text(text, characters),
        None => add_bytes(text, field),
    }
}

/// A field between quotes: its first 60 characters, control characters so that they can be seen, and
/// the bytes of one that isn't UTF-8 by their numbers.
pub fn shown_field(alloc: Global, field: &[u8]) -> Result<String, AllocError> {
    let mut text = String::from_str(alloc, "\"")?;
    add_field(&mut text, field)?;
    text.push_str("\"")?;
    Ok(text)
}
