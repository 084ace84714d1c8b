//! Shares, and numbers in ranges.
ghost use Rattle.std.specs.Prelude.{◌≡◌, ◌++◌, ◌+◌, ◌∷◌, ◌==◌, [], ℕ, IfOk, List, OnOk, Some, codes, decimal, flat_map, string_bytes};
ghost use Rattle.answer_text.specs.Ranges.{pending, range_text, ranges, ranges_line};
ghost use Rattle.answer_text.specs.Shares.{share_text, thousandths_text};

use std::alloc::AllocError;

fn put_thousandths(out: &mut String, number: u64) -> Result<(), AllocError>
    ensures { OnOk result (string_bytes out.new ≡ string_bytes out.old
        ++ thousandths_text number) }
{
    let whole = number / 1000;
    let tenth = number / 100 % 10;
    let hundredth = number / 10 % 10;
    let thousandth = number % 10;
    write!(out, ", {whole}.{tenth}{hundredth}{thousandth} a row")
}

/// Writes how many bytes a row takes, with three digits behind the point.
pub fn put_share(out: &mut String, bytes: u64, rows: u32) -> Result<(), AllocError>
    ensures { OnOk result (string_bytes out.new ≡ string_bytes out.old ++ share_text bytes rows) }
{
    if rows == 0 {
        return Ok(());
    }
    put_thousandths(out, bytes.saturating_mul(1000) / u64::from(rows))
}

/// Writes a range by its first and its last number.
fn put_range(out: &mut String, first: u32, last: u32) -> Result<(), AllocError>
    ensures { OnOk result (string_bytes out.new ≡ string_bytes out.old
        ++ range_text (first, last)) }
{
    if first == last {
        write!(out, " {first}")
    } else {
        write!(out, " {first}-{last}")
    }
}

fn is_neighbour(last: u32, number: u32) -> bool
    ensures { result ≡ (last + 1 == number) }
{
    u64::from(last) + 1 == u64::from(number)
}

/// The range that a number is in: the one before it where it is its neighbour, which is written else.
fn go_on(out: &mut String, first: u32, last: u32, number: u32) -> Result<(u32, u32), AllocError>
    ensures { IfOk result (λ range. (behind : List ℕ)
        → string_bytes out.new ++ pending (Some range) behind
        ≡ string_bytes out.old ++ pending (Some (first, last)) (number ∷ behind)) }
{
    if is_neighbour(last, number) {
        return Ok((first, number));
    }
    put_range(out, first, last)?;
    Ok((number, number))
}

/// The range that a number is in, behind this one if there is one.
fn with_number(
    out: &mut String,
    range: Option<(u32, u32)>,
    number: u32,
) -> Result<(u32, u32), AllocError>
    ensures { IfOk result (λ now. (behind : List ℕ)
        → string_bytes out.new ++ pending (Some now) behind
        ≡ string_bytes out.old ++ pending range (number ∷ behind)) }
{
    match range {
        None => Ok((number, number)),
        Some((first, last)) => go_on(out, first, last, number),
    }
}

fn put_last(out: &mut String, range: Option<(u32, u32)>) -> Result<(), AllocError>
    ensures { OnOk result (string_bytes out.new ≡ string_bytes out.old ++ pending range []) }
{
    match range {
        None => Ok(()),
        Some((first, last)) => put_range(out, first, last),
    }
}

fn put_each(out: &mut String, numbers: &[u32]) -> Result<(), AllocError>
    ensures { OnOk result (string_bytes out.new ≡ string_bytes out.old
        ++ flat_map range_text (ranges numbers.now)) }
{
    let mut range = None;
    for number in numbers {
        range = Some(with_number(out, range, *number)?);
    }
    put_last(out, range)
}

fn put_count(out: &mut String, word: &str, count: usize) -> Result<(), AllocError>
    ensures { OnOk result (string_bytes out.new ≡ string_bytes out.old ++ (word.now
        ++ codes " " ++ decimal count ++ codes ":")) }
{
    write!(out, "{word} {count}:")
}

/// Writes ascending numbers behind a word and how many they are, neighbours as a range.
pub fn put_ranges(out: &mut String, word: &str, numbers: &[u32]) -> Result<(), AllocError>
    ensures { OnOk result (string_bytes out.new ≡ string_bytes out.old
        ++ ranges_line word.now numbers.now) }
{
    put_count(out, word, numbers.len())?;
    put_each(out, numbers)?;
    out.push_str("\n")
}
