//! Texts that are keys alone, as they stand in a vector.
ghost use Rattle.std.specs.Prelude.{◌≡◌, length, map, true, All, IfSome};
ghost use Rattle.std.specs.Str.{is_utf8};
ghost use Rattle.meaning.specs.declared.value.Value.TheVariants.{Text};
ghost use Rattle.aggregate_states.specs.Values.{selected};
ghost use Rattle.vectors.specs.Vector.{values_of};
ghost use Rattle.group_keys.specs.Rows.{rows_at, text_keys, AreLanesOf};

use vectors::{Selection, TextCells, Texts, Vector};

fn plain_cells<'v, 'a>(texts: &'v Texts<'a>) -> Option<&'v [&'a [u8]]>
    ensures { IfSome result (λ cells. map Text (map (λ t. t.now) cells.now) ≡ texts.now) }
{
    let (cells, nulls) = texts.parts();
    let None = nulls.mask() else {
        return None;
    };
    match cells {
        TextCells::Lent(cells) => Some(*cells),
        TextCells::Owned(cells) => Some(cells.as_slice()),
        TextCells::Repeated { .. } => None,
    }
}

/// The texts of all lanes, where all are selected and none is NULL.
pub fn plain_texts<'v, 'a>(lanes: &'v Vector<'a>, selection: &Selection) -> Option<&'v [&'a [u8]]>
    requires { length (values_of lanes.now) ≡ selection.now.below }
    ensures value { IfSome result (λ texts. map Text (map (λ t. t.now) texts.now)
        ≡ selected (values_of lanes.now) selection.now.list) }
    ensures whole { IfSome result (λ texts. map Text (map (λ t. t.now) texts.now)
        ≡ values_of lanes.now) }
    ensures long { IfSome result (λ texts. length texts.now ≡ length selection.now.list) }
{
    let None = selection.positions() else {
        return None;
    };
    let Vector::Texts(texts) = lanes else {
        return None;
    };
    let cells = plain_cells(texts)?;
    Some(cells)
}

/// The texts of one key, where all rows are selected and none is NULL.
pub fn plain_text_key<'v, 'a>(
    lanes: &'v [Vector<'a>],
    selection: &Selection,
) -> Option<&'v [&'a [u8]]>
    requires { AreLanesOf selection.now.below lanes.now }
    ensures value { IfSome result (λ texts. text_keys texts.now
        ≡ rows_at lanes.now selection.now.list) }
    ensures long { IfSome result (λ texts. length texts.now ≡ length selection.now.list) }
    ensures spelled { IfSome result (λ texts. All (λ t. is_utf8 t.now ≡ true) texts.now) }
{
    if lanes.len() != 1 {
        return None;
    }
    let texts = plain_texts(&lanes[0], selection)?;
    Some(texts)
}
