//! The records that end in a block of bytes.
ghost use Rattle.std.specs.Prelude.{◌≡◌, ◌<◌, ◌^◌, true, false, length, None, IfSome};
ghost use Rattle.std.specs.List.{list_any};
ghost use Rattle.loader.specs.Counting.{EndsLine, IsOneLine, ended_in, is_quote, is_unquoted, state_at, state_behind};

use crate::record_state::{RecordState, behind_plain};
use memchr::{memchr, memchr2};

/// How many records end in a block, and the state behind it.
#[derive(Clone, Copy)]
pub struct Ended {
    pub records: u32,
    pub state: RecordState,
}

/// Whether a quote is among the bytes.
fn has_quote(block: &[u8]) -> bool
    ensures { result ≡ list_any is_quote block.now }
{
    memchr(b'"', block).is_some()
}

/// The bytes behind the next line end, and whether others stand before it; none where no line end
/// is left.
fn behind_line(block: &[u8]) -> Option<(bool, &[u8])>
    ensures none { result ≡ None → IsOneLine block.now }
    ensures split { IfSome result (λ line. EndsLine block.now line.0 line.1.now) }
{
    let end = memchr2(b'\r', b'\n', block)?;
    Some((end > 0, &block[end + 1..]))
}

/// How many records end in a block without quotes: as many as there are line ends behind another
/// byte.
fn count_plain(state: RecordState, block: &[u8]) -> u32
    requires few { length block.now < 2 ^ 32 }
    requires plain { list_any is_quote block.now ≡ false }
    requires unquoted { is_unquoted (state_at state) ≡ true }
    ensures { result ≡ ended_in (state_at state) block.now }
{
    let mut within = state.is_open();
    let mut records = 0u32;
    let mut rest = block;
    while let Some((has_bytes, others)) = behind_line(rest) {
        records += u32::from(within | has_bytes);
        within = false;
        rest = others;
    }
    records
}

/// The state behind a block without quotes.
fn behind_block(state: RecordState, block: &[u8]) -> RecordState
    requires plain { list_any is_quote block.now ≡ false }
    requires unquoted { is_unquoted (state_at state) ≡ true }
    ensures { state_at result ≡ state_behind (state_at state) block.now }
{
    match block.last() {
        Some(byte) => behind_plain(*byte),
        None => state,
    }
}

/// The same of any block, byte by byte.
fn count_each(state: RecordState, block: &[u8]) -> Ended
    requires { length block.now < 2 ^ 32 }
    ensures records { result.records ≡ ended_in (state_at state) block.now }
    ensures state { state_at result.state ≡ state_behind (state_at state) block.now }
{
    let mut here = state;
    let mut records = 0u32;
    for byte in block {
        records += u32::from(here.ends_record(*byte));
        here = here.behind(*byte);
    }
    Ended {
        records,
        state: here,
    }
}

/// How many records end in a block that begins in a state.
pub fn count_block(state: RecordState, block: &[u8]) -> Ended
    requires { length block.now < 2 ^ 32 }
    ensures records { result.records ≡ ended_in (state_at state) block.now }
    ensures state { state_at result.state ≡ state_behind (state_at state) block.now }
{
    if !state.is_unquoted() || has_quote(block) {
        return count_each(state, block);
    }
    Ended {
        records: count_plain(state, block),
        state: behind_block(state, block),
    }
}
