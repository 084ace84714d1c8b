//! What stands in the cell of each row, NULL or not, and whether the blank stands where a row is
//! NULL.
ghost use Rattle.std.specs.Prelude.{◌≡◌, ◌+◌, ◌*◌, ◌<◌, ◌≤◌, ◌&&◌, true, false, length, ◌||◌, not, if◌then◌else◌, replicate, slice_index_or, map, zip};
ghost use Rattle.std.specs.List.{list_all, range_with_len};
ghost use Rattle.meaning.specs.Limits.{row_group_rows};
ghost use Rattle.blocks.specs.Block.{mask_length, body_cells, is_body, is_blank};
ghost use Rattle.meaning.specs.Order.{value_in};
ghost use Rattle.meaning.specs.declared.value.Value.TheVariants.{Null};
ghost use Rattle.bit_packing.specs.Bits.{bit_at, bytes_of_bits};
ghost use Rattle.blocks.specs.Block.{are_blank_from};

use crate::dictionary::check::is_dictionary;
use crate::dictionary::view::dictionary_cell;
use crate::frame::check::{are_null_offsets_blank, is_frame};
use crate::frame::read::frame_cell;
use crate::kind::Kind;
use crate::plain::check::is_values_form;
use crate::plain::values::value_at;
use crate::runs::check::{are_null_runs_blank, are_runs};
use crate::runs::view::run_cell;
use bit_packing::window_at;
use meaning::{ColType, ValueRef};

/// How many bytes the mask takes.
pub fn mask_length(nullable: bool, rows: usize) -> usize
    requires { rows ≤ row_group_rows }
    ensures { result ≡ mask_length nullable rows }
{
    if nullable { (rows + 7) / 8 } else { 0 }
}

/// Whether bytes are a body of a kind, with a cell for each of `rows` rows.
pub fn is_body(kind: Kind, col_type: ColType, rows: usize, body: &[u8]) -> bool
    requires { rows ≤ row_group_rows }
    ensures { result ≡ is_body kind col_type rows body.now }
{
    match (kind, col_type) {
        (Kind::Plain, _) => is_values_form(col_type, rows, body),
        (Kind::Dict, _) => is_dictionary(col_type, rows, body),
        (Kind::Runs, _) => are_runs(col_type, rows, body),
        (Kind::Frame, ColType::Int) => is_frame(rows, body),
        (Kind::Frame, ColType::Text) => false,
    }
}

/// What stands in the cell of a row.
pub fn cell_at(kind: Kind, col_type: ColType, rows: usize, body: &[u8], row: usize) -> ValueRef<'_>
    requires form { is_body kind col_type rows body.now ≡ true }
    requires within { row < rows }
    requires few { rows ≤ row_group_rows }
    ensures { value_in result ≡ slice_index_or (body_cells kind col_type rows body.now) row Null }
{
    match kind {
        Kind::Plain => value_at(col_type, rows, body, row),
        Kind::Dict => dictionary_cell(col_type, rows, body, row),
        Kind::Runs => run_cell(col_type, rows, body, row),
        Kind::Frame => ValueRef::Int(frame_cell(rows, body, row)),
    }
}

/// Whether the value is what stands in the cell of a NULL row.
pub fn is_blank(value: ValueRef<'_>) -> bool
    ensures { result ≡ is_blank (value_in value.entry) }
{
    match value {
        ValueRef::Null => false,
        ValueRef::Int(n) => n == 0,
        ValueRef::Text(text) => text.is_empty(),
    }
}

/// Whether the blank of the type stands in the cells of the 64 rows of a word of the mask, which
/// begins at a byte of it, as far as their bits are set.
#[inline(always)]
fn are_marked_blank(
    kind: Kind,
    col_type: ColType,
    rows: usize,
    mask: &[u8],
    body: &[u8],
    byte: usize,
) -> bool
    requires form { is_body kind col_type rows body.now ≡ true }
    requires few { rows ≤ row_group_rows }
    requires within { byte ≤ length mask.now }
    requires covered { length mask.now ≡ bytes_of_bits rows }
    ensures { let cells = body_cells kind col_type rows body.now in
        (result && are_blank_from (8 * byte + 64) rows mask.now cells)
        ≡ are_blank_from (8 * byte) rows mask.now cells }
{
    let mut marks = window_at(mask, byte);
    let mut row = 8 * byte;
    while marks != 0 {
        let clear = marks.trailing_zeros();
        row += clear as usize;
        if rows <= row {
            return true;
        }
        if !is_blank(cell_at(kind, col_type, rows, body, row)) {
            return false;
        }
        row += 1;
        marks = marks >> clear >> 1;
    }
    true
}

// Whether the blank of the type stands in the cell of each row whose bit is set.
#[inline(always)]
fn are_null_cells_blank(
    kind: Kind,
    col_type: ColType,
    rows: usize,
    mask: &[u8],
    body: &[u8],
) -> bool
    requires form { is_body kind col_type rows body.now ≡ true }
    requires few { rows ≤ row_group_rows }
    requires covered { length mask.now ≡ bytes_of_bits rows }
    ensures { result ≡ are_blank_from 0 rows mask.now (body_cells kind col_type rows body.now) }
{
    for k in 0..(rows + 63) / 64 {
        if !are_marked_blank(kind, col_type, rows, mask, body, 8 * k) {
            return false;
        }
    }
    true
}

/// Whether the blank of the type stands in the cell of each NULL row, of which only a nullable
/// column has any.
pub fn are_nulls_blank(
    kind: Kind,
    col_type: ColType,
    nullable: bool,
    rows: usize,
    mask: &[u8],
    body: &[u8],
) -> bool
    requires form { is_body kind col_type rows body.now ≡ true }
    requires few { rows ≤ row_group_rows }
    requires covered { length mask.now ≡ mask_length nullable rows }
    ensures { result ≡ list_all (λ p. not p.0 || is_blank p.1)
        (zip (if nullable then map (bit_at mask.now) (range_with_len 0 rows) else replicate rows
        false) (body_cells kind col_type rows body.now)) }
{
    if !nullable {
        return true;
    }
    match kind {
        Kind::Runs => are_null_runs_blank(col_type, rows, mask, body),
        Kind::Frame => are_null_offsets_blank(rows, mask, body),
        // By its name, so that each loop over rows is for one kind.
        Kind::Plain => are_null_cells_blank(Kind::Plain, col_type, rows, mask, body),
        Kind::Dict => are_null_cells_blank(Kind::Dict, col_type, rows, mask, body),
    }
}
