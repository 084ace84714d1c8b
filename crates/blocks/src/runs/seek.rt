//! In which run a row is.
ghost use Rattle.std.specs.Prelude.{◌≡◌, ◌+◌, ◌≤◌, ◌<◌, length, take, sum, slice_index_or};
ghost use Rattle.meaning.specs.Limits.{row_group_rows};
ghost use Rattle.blocks.specs.Dictionary.{codes_in};

/// How many rows some runs have together, of which some may be long.
#[cold]
#[inline(never)]
fn rows_of(lengths: &[[u8; 2]]) -> usize
    requires { length lengths.now ≤ row_group_rows }
    ensures { result ≡ sum (codes_in lengths.now) }
{
    let mut rows = 0;
    for length in lengths {
        rows += u16::from_le_bytes(*length) as usize;
    }
    rows
}

/// The same for a few runs: in 16 bits, unless some run is long.
#[inline(always)]
fn rows_of_few(lengths: &[[u8; 2]]) -> usize
    requires { length lengths.now ≤ 32 }
    ensures { result ≡ sum (codes_in lengths.now) }
{
    let mut rows = 0u16;
    let mut greatest = 0u16;
    for length in lengths {
        let n = u16::from_le_bytes(*length);
        rows = rows.wrapping_add(n);
        greatest = greatest.max(n);
    }
    if greatest < 2048 {
        return rows as usize;
    }
    rows_of(lengths)
}

/// How many runs are passed over before row `from`, 32 at a time, and how many rows are left to
/// pass over.
pub fn pass_over(lengths: &[[u8; 2]], from: usize) -> (usize, usize)
    ensures within { result.0 ≤ length lengths.now }
    ensures rows { result.1 + sum (take result.0 (codes_in lengths.now)) ≡ from }
{
    let mut skip = from;
    for k in 0..lengths.len() / 32 {
        let rows = rows_of_few(&lengths[32 * k..32 * k + 32]);
        if skip < rows {
            return (32 * k, skip);
        }
        skip -= rows;
    }
    (lengths.len() / 32 * 32, skip)
}

/// The run in which row `from` is, and how many of its rows stand before that one.
pub fn run_at(lengths: &[[u8; 2]], from: usize) -> (usize, usize)
    ensures within { result.0 ≤ length lengths.now }
    ensures rows { result.1 + sum (take result.0 (codes_in lengths.now)) ≡ from }
    ensures inside { result.0 < length lengths.now
        → result.1 < slice_index_or (codes_in lengths.now) result.0 0 }
{
    let (start, left) = pass_over(lengths, from);
    let mut skip = left;
    for run in start..lengths.len() {
        let rows = u16::from_le_bytes(lengths[run]) as usize;
        if skip < rows {
            return (run, skip);
        }
        skip -= rows;
    }
    (lengths.len(), skip)
}
