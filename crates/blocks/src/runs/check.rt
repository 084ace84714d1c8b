//! Whether bytes are values with the lengths of their runs, and whether the blank stands in each
//! run that has a NULL row.
ghost use Rattle.std.specs.Prelude.{◌≡◌, ◌*◌, ◌/◌, ◌<◌, ◌≤◌, ◌==◌, ◌&&◌, true, length, nat_le, sum, ◌-◌, ◌||◌, not, slice_index_or, map, zip};
ghost use Rattle.std.specs.List.{list_all, range_with_len};
ghost use Rattle.meaning.specs.Limits.{row_group_rows};
ghost use Rattle.blocks.specs.Runs.{are_runs, run_cells};
ghost use Rattle.blocks.specs.Block.{is_blank};
ghost use Rattle.bit_packing.specs.Bytes.{shorts};
ghost use Rattle.meaning.specs.declared.value.Value.TheVariants.{Null};
ghost use Rattle.bit_packing.specs.Bits.{bit_at, bytes_of_bits};

use crate::cells::is_blank;
use crate::numbers::leading_count;
use crate::plain::check::is_values_form;
use crate::runs::view::{RunsView, lend_runs, length_bytes, run_value_bytes};
use bit_packing::{are_bits_clear, short_at};
use meaning::ColType;

/// Whether `count` lengths of runs are at least 1, and `rows` together.
fn are_lengths(count: usize, bytes: &[u8], rows: usize) -> bool
    requires within { count ≤ length bytes.now / 2 }
    requires few { count ≤ row_group_rows }
    ensures { result ≡ (list_all (λ n. nat_le 1 n) (shorts count bytes.now)
        && sum (shorts count bytes.now) == rows) }
{
    let mut total = 0;
    for i in 0..count {
        let run = short_at(bytes, i) as usize;
        if run == 0 {
            return false;
        }
        total += run;
    }
    total == rows
}

/// Whether bytes are runs over `rows` rows, and no more.
pub fn are_runs(col_type: ColType, rows: usize, body: &[u8]) -> bool
    requires { rows ≤ row_group_rows }
    ensures { result ≡ are_runs col_type rows body.now }
{
    if body.len() < 4 {
        return false;
    }
    let count = leading_count(body);
    if count < 1 || rows < count || body.len() < 4 + 2 * count {
        return false;
    }
    if !are_lengths(count, length_bytes(body), rows) {
        return false;
    }
    is_values_form(col_type, count, run_value_bytes(body, count))
}

/// Whether a run's value is blank, or none of its rows is NULL.
fn is_run_blank_if_null(
    runs: &RunsView<'_>,
    run: usize,
    mask: &[u8],
    start: usize,
    end: usize,
) -> bool
    requires within { run < length runs.now.values }
    requires covered { end ≤ 8 * length mask.now }
    ensures { result ≡ (is_blank (slice_index_or runs.now.values run Null) || list_all
        (λ j. not (bit_at mask.now j)) (range_with_len start (end - start))) }
{
    if is_blank(runs.value(run)) {
        return true;
    }
    are_bits_clear(mask, start, end)
}

/// Whether the blank stands in the cell of each row whose bit is set.
pub fn are_null_runs_blank(col_type: ColType, rows: usize, mask: &[u8], body: &[u8]) -> bool
    requires form { are_runs col_type rows body.now ≡ true }
    requires few { rows ≤ row_group_rows }
    requires covered { length mask.now ≡ bytes_of_bits rows }
    ensures { result ≡ list_all (λ p. not p.0 || is_blank p.1)
        (zip (map (bit_at mask.now) (range_with_len 0 rows)) (run_cells col_type body.now)) }
{
    let runs = lend_runs(col_type, rows, body);
    let mut start = 0;
    for run in 0..runs.len() {
        let end = start + runs.length(run) as usize;
        if !is_run_blank_if_null(&runs, run, mask, start, end) {
            return false;
        }
        start = end;
    }
    true
}
