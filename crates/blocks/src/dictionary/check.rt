//! Whether bytes are entries that ascend, and a code for each row.
ghost use Rattle.std.specs.Prelude.{◌≡◌, ◌/◌, ◌≤◌, true, length, nat_lt};
ghost use Rattle.std.specs.List.{list_all};
ghost use Rattle.meaning.specs.Limits.{row_group_rows};
ghost use Rattle.blocks.specs.Dictionary.{is_dictionary};
ghost use Rattle.blocks.specs.Plain.{values_form, is_values_form};
ghost use Rattle.bit_packing.specs.Bytes.{shorts};
ghost use Rattle.std.specs.Ordering.{is_lt};
ghost use Rattle.meaning.specs.Order.{value_cmp, is_ascending, value_in, rank as value_rank};

use crate::dictionary::view::{code_bytes, entry_bytes};
use crate::numbers::leading_count;
use crate::plain::check::is_values_form;
use crate::plain::values::value_at;
use bit_packing::short_at;
use meaning::{ColType, ValueRef};

/// Whether `rows` codes are below the number of entries. All are looked at, eight at a time as it
/// is compiled.
fn are_codes(rows: usize, bytes: &[u8], count: u16) -> bool
    requires { rows ≤ length bytes.now / 2 }
    ensures { result ≡ list_all (λ code. nat_lt code count) (shorts rows bytes.now) }
{
    let mut all = true;
    for i in 0..rows {
        all &= short_at(bytes, i) < count;
    }
    all
}

fn rank(value: ValueRef<'_>) -> u8
    ensures { result ≡ value_rank (value_in value.entry) }
{
    match value {
        ValueRef::Null => 0,
        ValueRef::Int(_) => 1,
        ValueRef::Text(_) => 2,
    }
}

fn is_less(a: ValueRef<'_>, b: ValueRef<'_>) -> bool
    ensures { result ≡ is_lt (value_cmp (value_in a.entry) (value_in b.entry)) }
{
    match (a, b) {
        (ValueRef::Int(m), ValueRef::Int(n)) => m < n,
        (ValueRef::Text(s), ValueRef::Text(t)) => s.cmp(t).is_lt(),
        _ => rank(a) < rank(b),
    }
}

/// Whether each of `count` values is less than the next.
pub fn is_ascending(col_type: ColType, count: usize, bytes: &[u8]) -> bool
    requires { is_values_form col_type count bytes.now ≡ true }
    ensures { result ≡ is_ascending value_cmp (values_form col_type count bytes.now) }
{
    for i in 1..count {
        if !is_less(
            value_at(col_type, count, bytes, i - 1),
            value_at(col_type, count, bytes, i),
        ) {
            return false;
        }
    }
    true
}

/// Whether bytes are a dictionary and `rows` codes, and no more.
pub fn is_dictionary(col_type: ColType, rows: usize, body: &[u8]) -> bool
    requires { rows ≤ row_group_rows }
    ensures { result ≡ is_dictionary col_type rows body.now }
{
    if body.len() < 4 + 2 * rows {
        return false;
    }
    let count = leading_count(body);
    if count < 1 || rows < count {
        return false;
    }
    let entries = entry_bytes(rows, body);
    if !is_values_form(col_type, count, entries) {
        return false;
    }
    if !is_ascending(col_type, count, entries) {
        return false;
    }
    are_codes(rows, code_bytes(rows, body), count as u16)
}
