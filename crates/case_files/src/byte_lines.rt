//! Bytes spelled as lines of words.
use crate::word_list::{Word, words};
use hex::FromHexError;
use sha2::{Digest, Sha256};
use std::alloc::{AllocError, Global};

// How many bytes a number of a type has.
fn width_of(number_type: &str) -> Option<usize> {
    match number_type {
        "u8" => Some(1),
        "u16" => Some(2),
        "u32" => Some(4),
        "u64" | "i64" => Some(8),
        "i128" => Some(16),
        _ => None,
    }
}

// A type, a colon and a number: the number, and how many bytes it has.
fn number_of(word: &str) -> Option<(usize, i128)> {
    let (number_type, digits) = word.split_once(':')?;
    let width = width_of(number_type)?;
    let number = digits.parse::<i128>().ok()?;
    Some((width, number))
}

// In little endian.
fn put_number(bytes: &mut Vec<u8>, width: usize, number: i128) -> Result<(), AllocError> {
    let number = number.to_le_bytes();
    for byte in number.iter().take(width) {
        bytes.push(*byte)?;
    }
    Ok(())
}

fn put_hex(alloc: Global, bytes: &mut Vec<u8>, word: &str) -> Result<bool, AllocError> {
    match hex::decode(alloc, word) {
        Ok(decoded) => {
            bytes.extend_from_slice(decoded.as_slice())?;
            Ok(true)
        }
        Err(FromHexError::OutOfMemory) => Err(AllocError),
        Err(_) => Ok(false),
    }
}

fn put_seal(bytes: &mut Vec<u8>) -> Result<(), AllocError> {
    let seal = Sha256::digest(bytes.as_slice());
    bytes.extend_from_slice(seal.as_slice())
}

fn put_plain(alloc: Global, bytes: &mut Vec<u8>, word: &str) -> Result<bool, AllocError> {
    if word == "seal" {
        put_seal(bytes)?;
        return Ok(true);
    }
    match number_of(word) {
        Some((width, number)) => {
            put_number(bytes, width, number)?;
            Ok(true)
        }
        None => put_hex(alloc, bytes, word),
    }
}

// Whether the word spells bytes, which are then appended.
fn put_word(alloc: Global, bytes: &mut Vec<u8>, word: &Word) -> Result<bool, AllocError> {
    let text = word.text.as_str();
    if word.is_quoted {
        bytes.extend_from_slice(text.as_bytes())?;
        Ok(true)
    } else {
        put_plain(alloc, bytes, text)
    }
}

fn put_words(alloc: Global, bytes: &mut Vec<u8>, words: &[Word]) -> Result<bool, AllocError> {
    for word in words {
        if !put_word(alloc, bytes, word)? {
            return Ok(false);
        }
    }
    Ok(true)
}

// How often a line's bytes stand, by its first word.
fn count_of(words: &[Word]) -> Option<usize> {
    let count = words.first()?.text.as_str().strip_prefix('*')?;
    count.parse::<usize>().ok()
}

fn put_line(alloc: Global, bytes: &mut Vec<u8>, line: &str) -> Result<bool, AllocError> {
    let words = words(alloc, line)?;
    let words = words.as_slice();
    let (count, words) = match (count_of(words), words.split_first()) {
        (Some(count), Some((_, behind))) => (count, behind),
        _ => (1, words),
    };
    for _ in 0..count {
        if !put_words(alloc, bytes, words)? {
            return Ok(false);
        }
    }
    Ok(true)
}

/// The bytes that lines spell, or `None` where a word spells none. A word is hexadecimal digits, a
/// number behind its type as in `u32:5` (in little endian), a text in double quotes, or `seal`,
/// which is the SHA-256 of all bytes before it. A line that begins with a word like `*8192` stands
/// so often.
pub fn bytes_of(alloc: Global, body: &str) -> Result<Option<Vec<u8>>, AllocError> {
    let mut bytes = Vec::new(alloc);
    for line in body.lines() {
        if !put_line(alloc, &mut bytes, line)? {
            return Ok(None);
        }
    }
    Ok(Some(bytes))
}
