//! Files of cuts.
ghost use Rattle.std.specs.Prelude.{◌≡◌, ◌++◌, ◌+◌, ◌∷◌, ℕ, [], IfOk, List, OnOk, Some, string_bytes, sum};
ghost use Rattle.wire.specs.Reading.{repeat_at};
ghost use Rattle.answer_text.specs.Reading.{IsSamePart, Shows, Takes, capped};
ghost use Rattle.table_text.specs.CutText.{alike_text, alone_line, count_at, count_line, cut_at, cut_text, each_text, length_at, lengths_at, lengths_text, load_line, pending, rows_line, sealed_lengths_at, together_line};
ghost use Rattle.table_text.specs.Fields.{ShowsAs};

use answer_text::{Cursor, Stop, Wrong};
use fragment_file::is_1_to;
use meaning::{MAX_FRAGMENTS, MAX_ROWS};
use std::alloc::AllocError;

fn take_count(cursor: &mut Cursor<'_>) -> Result<u32, Stop>
    ensures read { Takes (λ n. n) result cursor.new.rest.now (count_at cursor.old.rest.now) }
    ensures part { IsSamePart cursor.old cursor.new }
{
    let field = "the number of fragments";
    let count = cursor.take_u32(field)?;
    if !is_1_to(MAX_FRAGMENTS, count) {
        return Err(cursor.refuse(Wrong::Limit, field));
    }
    Ok(count)
}

fn take_length(cursor: &mut Cursor<'_>) -> Result<u32, Stop>
    ensures read { Takes (λ n. n) result cursor.new.rest.now (length_at cursor.old.rest.now) }
    ensures part { IsSamePart cursor.old cursor.new }
{
    let field = "a fragment's number of rows";
    let length = cursor.take_u32(field)?;
    if length > MAX_ROWS {
        return Err(cursor.refuse(Wrong::Limit, field));
    }
    Ok(length)
}

/// Neighbouring fragments of as many rows each.
#[derive(Clone, Copy)]
struct Alike {
    first: u32,
    last: u32,
    rows: u32,
}

fn put_alone(out: &mut String, fragment: u32, rows: u32) -> Result<(), AllocError>
    ensures { OnOk result (string_bytes out.new ≡ string_bytes out.old
        ++ alone_line fragment rows) }
{
    writeln!(out, "fragment {fragment}: {rows} rows")
}

fn put_together(out: &mut String, first: u32, last: u32, rows: u32) -> Result<(), AllocError>
    ensures { OnOk result (string_bytes out.new ≡ string_bytes out.old
        ++ together_line first last rows) }
{
    writeln!(out, "fragments {first}-{last}: {rows} rows each")
}

fn put_alike(out: &mut String, alike: Alike) -> Result<(), AllocError>
    ensures { OnOk result (string_bytes out.new ≡ string_bytes out.old ++ alike_text alike) }
{
    let Alike { first, last, rows } = alike;
    if first == last {
        put_alone(out, first, rows)
    } else {
        put_together(out, first, last, rows)
    }
}

fn put_last(out: &mut String, alike: Option<Alike>) -> Result<(), AllocError>
    ensures { OnOk result ((k : ℕ)
        → string_bytes out.new ≡ string_bytes out.old ++ pending alike k []) }
{
    match alike {
        Some(alike) => put_alike(out, alike),
        None => Ok(()),
    }
}

/// Those that a fragment is among: its neighbours where it has as many rows, which are shown else.
fn go_on(out: &mut String, alike: Alike, fragment: u32, rows: u32) -> Result<Alike, AllocError>
    ensures { IfOk result (λ now. (behind : List ℕ)
        → string_bytes out.new ++ pending (Some now) (fragment + 1) behind
        ≡ string_bytes out.old ++ pending (Some alike) fragment (rows ∷ behind)) }
{
    if alike.rows == rows {
        return Ok(Alike {
            first: alike.first,
            last: fragment,
            rows,
        });
    }
    put_alike(out, alike)?;
    Ok(Alike {
        first: fragment,
        last: fragment,
        rows,
    })
}

/// Those that a fragment is among, behind these if there are some.
fn with_length(
    out: &mut String,
    before: Option<Alike>,
    fragment: u32,
    rows: u32,
) -> Result<Alike, AllocError>
    ensures { IfOk result (λ now. (behind : List ℕ)
        → string_bytes out.new ++ pending (Some now) (fragment + 1) behind
        ≡ string_bytes out.old ++ pending before fragment (rows ∷ behind)) }
{
    match before {
        Some(alike) => go_on(out, alike, fragment, rows),
        None => Ok(Alike {
            first: fragment,
            last: fragment,
            rows,
        }),
    }
}

/// The number of all rows, where each fragment's is shown.
fn show_lengths(cursor: &mut Cursor<'_>, count: u32, out: &mut String) -> Result<u64, Stop>
    ensures shown { ShowsAs (λ all cut. all ≡ capped (sum cut)) each_text result
        (string_bytes out.old) (string_bytes out.new) cursor.new.rest.now
        (repeat_at length_at count cursor.old.rest.now) }
    ensures part { IsSamePart cursor.old cursor.new }
{
    let mut all = 0u64;
    let mut alike = None;
    for fragment in 0..count {
        let rows = take_length(cursor)?;
        all = all.saturating_add(u64::from(rows));
        alike = Some(with_length(out, alike, fragment, rows)?);
    }
    put_last(out, alike)?;
    Ok(all)
}

fn put_load(out: &mut String, load: u64) -> Result<(), AllocError>
    ensures { OnOk result (string_bytes out.new ≡ string_bytes out.old ++ load_line load) }
{
    writeln!(out, "load {load}")
}

fn put_count(out: &mut String, count: u32) -> Result<(), AllocError>
    ensures { OnOk result (string_bytes out.new ≡ string_bytes out.old ++ count_line count) }
{
    writeln!(out, "fragments {count}")
}

fn put_rows(out: &mut String, rows: u64) -> Result<(), AllocError>
    ensures { OnOk result (string_bytes out.new ≡ string_bytes out.old ++ rows_line rows) }
{
    writeln!(out, "rows {rows}")
}

/// Shows how many fragments there are, and how many rows they have.
fn show_counted(cursor: &mut Cursor<'_>, out: &mut String) -> Result<(), Stop>
    ensures shown { Shows lengths_text result (string_bytes out.old) (string_bytes out.new)
        cursor.new.rest.now (lengths_at cursor.old.rest.now) }
    ensures part { IsSamePart cursor.old cursor.new }
{
    let count = take_count(cursor)?;
    put_count(out, count)?;
    let rows = show_lengths(cursor, count, out)?;
    put_rows(out, rows)?;
    Ok(())
}

/// Shows the cut, behind which the seal stands.
fn show_sealed(cursor: &mut Cursor<'_>, out: &mut String) -> Result<(), Stop>
    ensures shown { Shows lengths_text result (string_bytes out.old) (string_bytes out.new)
        cursor.new.rest.now
        (sealed_lengths_at cursor.old.bytes.now cursor.old.rest.now) }
    ensures part { IsSamePart cursor.old cursor.new }
{
    show_counted(cursor, out)?;
    cursor.take_seal()
}

/// Shows the file of a cut, behind its magic.
pub fn show_cut_file(cursor: &mut Cursor<'_>, out: &mut String) -> Result<(), Stop>
    ensures shown { Shows cut_text result (string_bytes out.old) (string_bytes out.new)
        cursor.new.rest.now (cut_at cursor.old.bytes.now cursor.old.rest.now) }
    ensures part { IsSamePart cursor.old cursor.new }
{
    let load = cursor.take_u64("the load")?;
    put_load(out, load)?;
    show_sealed(cursor, out)
}
