//! What is wrong with a name, and which would do.
use meaning::{MAX_NAME_BYTES, is_name};
use std::alloc::{AllocError, Global};

/// What a name may not be or have.
#[derive(Clone, Copy)]
pub enum Flaw {
    Empty,
    TooLong,
    Digit,
    Word,
    Blank,
    Capital,
    Other,
}

impl Flaw {
    /// The rule that the name breaks.
    pub fn words(self) -> &'static str {
        match self {
            Flaw::Empty => "it is empty",
            Flaw::TooLong => "it has over 64 characters",
            Flaw::Digit => "it begins with a digit",
            Flaw::Word => "it is a word of SQL",
            Flaw::Blank => "it has a blank",
            Flaw::Capital => "it has a capital letter",
            Flaw::Other => "it has a character other than letters, digits and underscores",
        }
    }
}

fn is_letter(byte: u8) -> bool {
    byte.is_ascii_lowercase() || byte.is_ascii_digit() || byte == b'_'
}

// The flaw of a name's characters.
fn flaw_in(name: &[u8]) -> Option<Flaw> {
    for byte in name {
        if *byte == b' ' {
            return Some(Flaw::Blank);
        }
        if byte.is_ascii_uppercase() {
            return Some(Flaw::Capital);
        }
        if !is_letter(*byte) {
            return Some(Flaw::Other);
        }
    }
    None
}

/// The first rule that a name breaks, if it breaks one.
pub fn flaw_of(name: &[u8]) -> Option<Flaw> {
    let first = match name.first() {
        Some(first) => *first,
        None => return Some(Flaw::Empty),
    };
    if let Some(flaw) = flaw_in(name) {
        return Some(flaw);
    }
    if first.is_ascii_digit() {
        return Some(Flaw::Digit);
    }
    if name.len() > MAX_NAME_BYTES {
        return Some(Flaw::TooLong);
    }
    if is_name(name) {
        None
    } else {
        Some(Flaw::Word)
    }
}

// Letters and digits in lower case, and one underscore for all between.
fn add_letters(text: &mut String, name: &[u8]) -> Result<(), AllocError> {
    let mut between = false;
    for byte in name {
        let byte = byte.to_ascii_lowercase();
        if !byte.is_ascii_lowercase() && !byte.is_ascii_digit() {
            between = !text.is_empty();
            continue;
        }
        if text.len() >= 48 {
            return Ok(());
        }
        if between {
            text.push('_')?;
        }
        between = false;
        text.push(char::from(byte))?;
    }
    Ok(())
}

/// A name that would do in its place.
pub fn other_name(alloc: Global, name: &[u8], kind: &str) -> Result<String, AllocError> {
    let mut letters = String::new(alloc);
    add_letters(&mut letters, name)?;
    if is_name(letters.as_bytes()) {
        return Ok(letters);
    }
    let letters = letters.as_str();
    if letters.is_empty() {
        return String::from_str(alloc, kind);
    }
    format!(in alloc; "{kind}_{letters}")
}
