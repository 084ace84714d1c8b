//! A code for each row, and the entries that codes name, into a buffer.
ghost use Rattle.std.specs.Prelude.{◌≡◌, ◌≤◌, ◌<◌, ◌+◌, ◌-◌, ◌*◌, nat_lt, length, map, take, drop, true, slice_index_or, pos, []};
ghost use Rattle.std.specs.Simd.{first_chunks};
ghost use Rattle.meaning.specs.declared.value.Value.TheVariants.{Int, Text};
ghost use Rattle.blocks.specs.Dictionary.{entry_bytes, dictionary_cells, is_dictionary};
ghost use Rattle.std.specs.List.{list_all};
ghost use Rattle.bit_packing.specs.Bytes.{integer_of};
ghost use Rattle.blocks.specs.Dictionary.{codes_in};
ghost use Rattle.blocks.specs.Plain.{texts_in, are_texts};
ghost use Rattle.meaning.specs.declared.value.ColType.TheVariants as of_type;

use crate::numbers::{chunks, leading_count};
use crate::plain::texts::{Texts, text_at, texts_form};

fn code_at(codes: &[[u8; 2]], i: usize) -> usize
    requires { i < length codes.now }
    ensures { result ≡ slice_index_or (codes_in codes.now) i 0 }
{
    u16::from_le_bytes(codes[i]) as usize
}

/// The entries that the codes from `from` on name.
pub fn fill_coded_integers(entries: &[[u8; 8]], codes: &[[u8; 2]], from: usize, out: &mut [i64])
    requires within { from + length out.old ≤ length codes.now }
    requires valid { list_all (λ code. nat_lt code (length entries.now)) (codes_in codes.now)
        ≡ true }
    ensures { out.new ≡ take (length out.old)
        (drop from (map (λ code. slice_index_or (map integer_of entries.now) code (pos 0))
        (codes_in codes.now))) }
{
    for (i, cell) in out.iter_mut().enumerate() {
        *cell = i64::from_le_bytes(entries[code_at(codes, from + i)]);
    }
}

/// The entries that the codes from `from` on name.
pub fn fill_coded_texts<'a>(
    entries: Texts<'a>,
    codes: &[[u8; 2]],
    from: usize,
    out: &mut [&'a [u8]],
)
    requires within { from + length out.old ≤ length codes.now }
    requires valid { list_all (λ code. nat_lt code (length entries.ends.now)) (codes_in codes.now)
        ≡ true }
    requires entries { are_texts entries.ends.now entries.joined.now ≡ true }
    ensures { map (λ t. t.now) out.new ≡ take (length out.old)
        (drop from (map (λ code. slice_index_or
        (texts_in entries.entry.ends.now entries.entry.joined.now) code [])
        (codes_in codes.now))) }
{
    for (i, cell) in out.iter_mut().enumerate() {
        *cell = text_at(entries, code_at(codes, from + i));
    }
}

/// The bytes of the entries, and the codes.
fn dictionary_parts(rows: usize, body: &[u8]) -> (&[u8], &[[u8; 2]])
    requires { 4 + 2 * rows ≤ length body.now }
    ensures entries { result.0.now ≡ entry_bytes rows body.now }
    ensures codes { result.1.now
        ≡ first_chunks 2 rows (drop (length body.now - 2 * rows) body.now) }
    ensures len { length result.1.now ≡ rows }
{
    let (front, codes) = body.split_at(body.len() - 2 * rows);
    (&front[4..], chunks::<2>(codes, rows))
}

/// The integers from row `from` on.
pub fn read_coded_integers(rows: usize, body: &[u8], from: usize, out: &mut [i64])
    requires form { is_dictionary of_type.Int rows body.now ≡ true }
    requires within { from + length out.old ≤ rows }
    ensures { map Int out.new
        ≡ take (length out.old) (drop from (dictionary_cells of_type.Int rows body.now)) }
{
    let (bytes, codes) = dictionary_parts(rows, body);
    fill_coded_integers(chunks::<8>(bytes, leading_count(body)), codes, from, out);
}

/// The texts from row `from` on.
pub fn read_coded_texts<'a>(rows: usize, body: &'a [u8], from: usize, out: &mut [&'a [u8]])
    requires form { is_dictionary of_type.Text rows body.now ≡ true }
    requires within { from + length out.old ≤ rows }
    ensures { map Text (map (λ t. t.now) out.new)
        ≡ take (length out.old) (drop from (dictionary_cells of_type.Text rows body.now)) }
{
    let (bytes, codes) = dictionary_parts(rows, body);
    fill_coded_texts(texts_form(bytes, leading_count(body)), codes, from, out);
}
