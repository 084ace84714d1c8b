//! What the fields of a column show of its type.
ghost use Rattle.std.specs.Prelude.{◌≡◌, ◌&&◌, if◌then◌else◌, is_some};
ghost use Rattle.std.specs.Str.Parse.{without_leading_sign};
ghost use Rattle.meaning.specs.declared.value.ColType.TheVariants as of_type;
ghost use Rattle.meaning.specs.Records as records;
ghost use Rattle.init.specs.Findings.{has_integer, leads_zero, shows_integer, with_field};

use meaning::{ColType, text_of};

/// What the fields of a column have in common.
#[derive(Clone, Copy, Debug, Drop, PartialEq, Eq)]
pub struct Findings {
    /// Each field that isn't NULL is an integer of 64 bits, without zeros in front.
    pub integers: bool,
    /// Some field is NULL.
    pub nulls: bool,
}

/// Whether a field is NULL.
pub fn spells_null(field: &[u8]) -> bool
    ensures { result ≡ records.spells_null field.now }
{
    field.is_empty() || field == b"\\N".as_slice()
}

fn integer_in(text: &str) -> Option<i64>
    ensures { result ≡ records.integer_of text.now }
{
    text.parse::<i64>().ok()
}

// The digits behind a sign or none.
fn without_sign(text: &[u8]) -> &[u8]
    ensures { result.now ≡ without_leading_sign text.now }
{
    let Some((first, digits)) = text.split_first() else {
        return text;
    };
    if *first == b'+' || *first == b'-' {
        return digits;
    }
    text
}

// Whether a zero stands in front of other bytes.
fn leads_zero(digits: &[u8]) -> bool
    ensures { result ≡ leads_zero digits.now }
{
    let Some((first, others)) = digits.split_first() else {
        return false;
    };
    *first == b'0' && !others.is_empty()
}

fn is_text_of_integer(text: &str) -> bool
    ensures { result ≡ is_some (records.integer_of text.now) }
{
    integer_in(text).is_some()
}

// An integer of 64 bits, with zeros in front or not.
fn has_integer(field: &[u8]) -> bool
    ensures { result ≡ has_integer field.now }
{
    match text_of(field) {
        Some(text) => is_text_of_integer(text),
        None => false,
    }
}

/// Whether a field is an integer with zeros in front.
pub fn is_padded(field: &[u8]) -> bool
    ensures { result ≡ (has_integer field.now && leads_zero (without_leading_sign field.now)) }
{
    has_integer(field) && leads_zero(without_sign(field))
}

/// Whether a field is an integer without zeros in front.
pub fn is_integer(field: &[u8]) -> bool
    ensures { result ≡ shows_integer field.now }
{
    has_integer(field) && !leads_zero(without_sign(field))
}

impl Findings {
    /// Those of no field.
    pub const NONE: Findings = Findings {
        integers: true,
        nulls: false,
    };

    /// The same with one field more.
    pub fn with(self, field: &[u8]) -> Findings
        ensures { result ≡ with_field self field.now }
    {
        if spells_null(field) {
            return Findings {
                integers: self.integers,
                nulls: true,
            };
        }
        Findings {
            integers: self.integers && is_integer(field),
            nulls: self.nulls,
        }
    }

    /// The type of a column that has such fields.
    pub fn col_type(self) -> ColType
        ensures { result ≡ (if self.integers then of_type.Int else of_type.Text) }
    {
        if self.integers {
            ColType::Int
        } else {
            ColType::Text
        }
    }
}
