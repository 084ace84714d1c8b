//! Vectors that have texts at the selected positions alone.
ghost use Rattle.std.specs.Prelude.{◌≡◌, ◌<◌, ℕ, length, All, IfOk, if◌then◌else◌};
ghost use Rattle.meaning.specs.declared.value.Value.TheVariants.{Null};
ghost use Rattle.vectors.specs.Selection.{is_among};
ghost use Rattle.vectors.specs.Vector.{outcomes_of, values_of};
ghost use Rattle.worker.specs.Evaluated.{AreOnly, IsOnly};

use std::alloc::{AllocError, Global};
use vectors::{Nulls, Selection, TextCells, Texts, Vector};

/// The texts at these positions; NULL in the other lanes.
fn texts_at<'a>(
    alloc: Global,
    texts: &Texts<'a>,
    positions: &[u32],
) -> Result<Texts<'a>, AllocError>
    requires { All (λ p. p < length texts.now) positions.now }
    ensures { IfOk result (λ only. AreOnly positions.now texts.now only) }
{
    let lanes = texts.len();
    let blank: &'a [u8] = &[];
    let mut cells = vec![in alloc; blank; lanes]?;
    let mut nulls = vec![in alloc; true; lanes]?;
    for position in positions {
        let lane = *position as usize;
        let text = texts.get(lane);
        nulls[lane] = text.is_none();
        cells[lane] = text.unwrap_or(blank);
    }
    Ok(Texts::new(TextCells::Owned(cells), Nulls::Owned(nulls)))
}

/// The texts at the selected positions; NULL in the other lanes.
fn selected_texts<'a>(
    alloc: Global,
    texts: Texts<'a>,
    selection: &Selection,
) -> Result<Texts<'a>, AllocError>
    requires { length texts ≡ selection.now.below }
    ensures { IfOk result (λ only. IsOnly selection.now.list texts.entry only) }
{
    match selection.positions() {
        None => Ok(texts),
        Some(positions) => texts_at(alloc, &texts, positions),
    }
}

/// A vector with the same values at the selected positions. What texts stand in other lanes is
/// open, and may be bytes that no column has: there is NULL then.
pub fn only_selected<'a>(
    alloc: Global,
    lanes: Vector<'a>,
    selection: &Selection,
) -> Result<Vector<'a>, AllocError>
    requires { length (outcomes_of lanes) ≡ selection.now.below }
    ensures { IfOk result (λ only. IsOnly selection.now.list (values_of lanes.entry)
        (values_of only)) }
{
    match lanes {
        Vector::Texts(texts) => Ok(Vector::Texts(selected_texts(alloc, texts, selection)?)),
        Vector::Ints(ints) => {
            // That the values are integers.
            let _parts = ints.parts();
            Ok(Vector::Ints(ints))
        }
        Vector::Truths(truths) => Ok(Vector::Truths(truths)),
    }
}
