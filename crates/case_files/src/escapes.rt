//! Texts with escapes, and back.
use std::alloc::{AllocError, Global};

// What was read of an escape.
#[derive(Clone, Copy)]
enum Escape {
    None,
    Backslash,
    Hex,
    HexDigit(u8),
}

fn hex_digit(byte: u8) -> Option<u8> {
    match byte {
        b'0'..=b'9' => Some(byte - b'0'),
        b'a'..=b'f' => Some(byte - b'a' + 10),
        b'A'..=b'F' => Some(byte - b'A' + 10),
        _ => None,
    }
}

// What stands behind a backslash, where it is one byte's name.
fn named(byte: u8) -> Option<u8> {
    match byte {
        b'n' => Some(b'\n'),
        b'r' => Some(b'\r'),
        b't' => Some(b'\t'),
        b'\\' | b'"' => Some(byte),
        _ => None,
    }
}

fn take_named(bytes: &mut Vec<u8>, byte: u8) -> Result<Escape, AllocError> {
    if byte == b'x' {
        return Ok(Escape::Hex);
    }
    match named(byte) {
        Some(byte) => bytes.push(byte)?,
        None => {
            bytes.push(b'\\')?;
            bytes.push(byte)?;
        }
    }
    Ok(Escape::None)
}

fn take(bytes: &mut Vec<u8>, escape: Escape, byte: u8) -> Result<Escape, AllocError> {
    match escape {
        Escape::None if byte == b'\\' => Ok(Escape::Backslash),
        Escape::None => {
            bytes.push(byte)?;
            Ok(Escape::None)
        }
        Escape::Backslash => take_named(bytes, byte),
        Escape::Hex => Ok(Escape::HexDigit(hex_digit(byte).unwrap_or(0))),
        Escape::HexDigit(high) => {
            bytes.push(high.wrapping_mul(16) | hex_digit(byte).unwrap_or(0))?;
            Ok(Escape::None)
        }
    }
}

/// Appends the bytes of a text in which `\n`, `\r`, `\t`, `\\`, `\"` and `\x` with two hexadecimal
/// digits encode one byte each. Another backslash is a byte like any other.
pub fn unescape(text: &str, bytes: &mut Vec<u8>) -> Result<(), AllocError> {
    let mut escape = Escape::None;
    for byte in text.bytes() {
        escape = take(bytes, escape, byte)?;
    }
    Ok(())
}

// A line with how often it stands: `*3 text` is the text three times.
fn repeated(line: &str) -> (usize, &str) {
    let Some(rest) = line.strip_prefix('*') else {
        return (1, line);
    };
    let Some((count, text)) = rest.split_once(' ') else {
        return (1, line);
    };
    match count.parse::<usize>() {
        Ok(count) => (count, text),
        Err(_) => (1, line),
    }
}

/// The bytes of escaped lines, of which one that begins with `*` and a number stands so often. No
/// line end is a byte.
pub fn escaped_bytes(alloc: Global, lines: &str) -> Result<Vec<u8>, AllocError> {
    let mut bytes = Vec::new(alloc);
    for line in lines.lines() {
        let (count, text) = repeated(line);
        for _ in 0..count {
            unescape(text, &mut bytes)?;
        }
    }
    Ok(bytes)
}
