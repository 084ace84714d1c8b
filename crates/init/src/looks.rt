//! What the fields of a column look like.
use crate::findings::{is_integer, is_padded, spells_null};
use meaning::text_of;

/// What a field looks like.
#[derive(Clone, Copy, PartialEq, Eq)]
pub enum Look {
    Null,
    Integer,
    /// Digits that begin with a zero, which an integer would lose.
    Padded,
    /// As 19.90.
    Decimal,
    /// As 2026-01-31, and perhaps a time.
    Date,
    Other,
}

fn are_digits(text: &str) -> bool {
    !text.is_empty() && text.bytes().all(|byte| byte.is_ascii_digit())
}

fn without_sign(text: &str) -> &str {
    match text.strip_prefix('-') {
        Some(digits) => digits,
        None => text,
    }
}

fn is_decimal(text: &str) -> bool {
    match text.split_once('.') {
        Some((whole, parts)) => are_digits(without_sign(whole)) && are_digits(parts),
        None => false,
    }
}

// Whether four digits, two and two stand there, with a line between.
fn is_day(text: &str) -> bool {
    match text.split_once('-') {
        Some((year, others)) => match others.split_once('-') {
            Some((month, day)) => {
                are_digits(year)
                    && year.len() == 4
                    && are_digits(month)
                    && month.len() == 2
                    && are_digits(day)
                    && day.len() == 2
            }
            None => false,
        },
        None => false,
    }
}

// The same, where a time may follow.
fn is_date(text: &str) -> bool {
    match text.split_at_checked(10) {
        Some((day, time)) => {
            is_day(day) && (time.is_empty() || time.starts_with('T') || time.starts_with(' '))
        }
        None => false,
    }
}

fn look_of_text(text: &str) -> Look {
    if is_decimal(text) {
        return Look::Decimal;
    }
    if is_date(text) {
        return Look::Date;
    }
    Look::Other
}

/// What a field looks like.
pub fn look_of(field: &[u8]) -> Look {
    if spells_null(field) {
        return Look::Null;
    }
    if is_integer(field) {
        return Look::Integer;
    }
    if is_padded(field) {
        return Look::Padded;
    }
    match text_of(field) {
        Some(text) => look_of_text(text),
        None => Look::Other,
    }
}

/// Why a column is a text, as far as its file was read.
#[derive(Clone, Copy)]
pub struct Evidence {
    /// The first record with a field that is neither NULL nor an integer, and what it looks like. The
    /// header is that of index 0.
    pub first: Option<(u64, Look)>,
    /// Each field that isn't NULL is an integer or a decimal.
    pub decimals: bool,
    /// Each field that isn't NULL is a date.
    pub dates: bool,
}

impl Evidence {
    /// That of no field.
    pub const NONE: Evidence = Evidence {
        first: None,
        decimals: true,
        dates: true,
    };

    /// With a field of a record more.
    pub fn with(self, record: u64, look: Look) -> Evidence {
        if look == Look::Null {
            return self;
        }
        let is_first = self.first.is_none() && look != Look::Integer;
        Evidence {
            first: if is_first {
                Some((record, look))
            } else {
                self.first
            },
            decimals: self.decimals && (look == Look::Integer || look == Look::Decimal),
            dates: self.dates && look == Look::Date,
        }
    }
}
