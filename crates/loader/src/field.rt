//! One field: the value that it encodes in its column.
ghost use Rattle.std.specs.Prelude.{◌≡◌, true, IfSome, Some};
ghost use Rattle.std.specs.Str.{is_utf8};
ghost use Rattle.meaning.specs.declared.value.ColType.TheVariants as of_type;
ghost use Rattle.meaning.specs.Records as declared;
ghost use Rattle.loader.specs.Steps.{IsShortNumber, ReadsField};

use meaning::{ColType, Column, MAX_TEXT_BYTES, TableFault, text_of};

/// The most digits that surely stay within 64 bits.
const SURE_DIGITS: usize = 18;

/// The value of a field. A text is the field itself, which is then UTF-8.
#[derive(Clone, Copy)]
pub enum Parsed {
    Null,
    Int(i64),
    Text,
}

#[inline(always)]
fn spells_null(field: &[u8]) -> bool
    ensures { result ≡ declared.spells_null field.now }
{
    field.is_empty() || field == b"\\N".as_slice()
}

/// The number of 1 to 18 digits; none where something else stands.
#[inline(always)]
fn short_number(digits: &[u8]) -> Option<u64>
    ensures { IfSome result (IsShortNumber digits.now) }
{
    let count = digits.len();
    if count == 0 || count > SURE_DIGITS {
        return None;
    }
    let mut number = 0u64;
    for digit in digits {
        if !digit.is_ascii_digit() {
            return None;
        }
        number = number * 10 + u64::from(*digit - b'0');
    }
    Some(number)
}

/// The integer of a text of 1 to 18 digits, with a minus in front or none. Most integers are so.
#[inline(always)]
fn short_integer(text: &[u8]) -> Option<i64>
    ensures { IfSome result (λ n. declared.integer_of text.now ≡ Some n) }
{
    match text.first() {
        Some(b'-') => Some(-(short_number(&text[1..])? as i64)),
        _ => Some(short_number(text)? as i64),
    }
}

/// The same for a column of a kind; none in a column of texts.
#[inline(always)]
fn short_value(kind: ColType, text: &[u8]) -> Option<i64>
    ensures { IfSome result (λ n. (kind ≡ of_type.Int) × (declared.integer_of text.now ≡ Some n)) }
{
    match kind {
        ColType::Int => short_integer(text),
        ColType::Text => None,
    }
}

fn integer_in(text: &str) -> Option<i64>
    ensures { result ≡ declared.integer_of text.now }
{
    text.parse::<i64>().ok()
}

#[cold]
#[inline(never)]
fn integer_of(field: &[u8]) -> Option<i64>
    requires { is_utf8 field.now ≡ true }
    ensures { result ≡ declared.integer_of field.now }
{
    let Some(text) = text_of(field) else {
        unreachable!()
    };
    integer_in(text)
}

#[inline(always)]
fn present_value(kind: ColType, row: u64, column: u64, field: &[u8]) -> Result<Parsed, TableFault>
    requires { is_utf8 field.now ≡ true }
    ensures { ReadsField field.now result (declared.present_value kind row column field.now) }
{
    match kind {
        ColType::Int => match integer_of(field) {
            Some(number) => Ok(Parsed::Int(number)),
            None => Err(TableFault::NotAnInteger { row, column }),
        },
        ColType::Text if field.len() > MAX_TEXT_BYTES => {
            Err(TableFault::TextTooLong { row, column })
        }
        ColType::Text => Ok(Parsed::Text),
    }
}

#[inline(always)]
fn not_null_value(kind: ColType, row: u64, column: u64, field: &[u8]) -> Result<Parsed, TableFault>
    ensures { ReadsField field.now result (declared.not_null_value kind row column field.now) }
{
    match kind {
        ColType::Int => Err(TableFault::NullNotAllowed { row, column }),
        ColType::Text => Ok(Parsed::Text),
    }
}

/// The value of a field that is UTF-8. Rows and columns count from 0, columns in the order of
/// the catalogue.
#[inline(always)]
pub fn judge_text(row: u64, index: u64, column: &Column, field: &[u8]) -> Result<Parsed, TableFault>
    requires { is_utf8 field.now ≡ true }
    ensures { ReadsField field.now result (declared.field_value row index column.now field.now) }
{
    if let Some(number) = short_value(column.col_type, field) {
        return Ok(Parsed::Int(number));
    }
    if !spells_null(field) {
        return present_value(column.col_type, row, index, field);
    }
    if column.nullable {
        return Ok(Parsed::Null);
    }
    not_null_value(column.col_type, row, index, field)
}

/// The same of a field that may be no text.
pub fn judge_field(
    row: u64,
    index: u64,
    column: &Column,
    field: &[u8],
) -> Result<Parsed, TableFault>
    ensures { ReadsField field.now result (declared.field_value row index column.now field.now) }
{
    if text_of(field).is_none() {
        return Err(TableFault::NotUtf8 { row, column: index });
    }
    judge_text(row, index, column, field)
}
