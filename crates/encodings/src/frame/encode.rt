//! A frame of reference: the least integer, and how far each integer is above it.
ghost use Rattle.std.specs.Prelude.{◌≡◌, ◌≤◌, true, length, map, false, OnOk};
ghost use Rattle.std.specs.List.{list_all};
ghost use Rattle.meaning.specs.Limits.{row_group_rows};
ghost use Rattle.meaning.specs.declared.value.Value.TheVariants.{Int};
ghost use Rattle.encodings.specs.Choosing.{body_size};
ghost use Rattle.columns.specs.Column.{is_of};
ghost use Rattle.encodings.specs.Encoded.{PutsBody};
ghost use Rattle.meaning.specs.declared.value.ColType.TheVariants as of_type;
ghost use Rattle.blocks.specs.declared.kind.Kind.TheVariants as kind;

use crate::frame::bounds::bounds_of;
use crate::numbers::put_integer;
use bit_packing::{make_room, put_offsets, width_of};
use std::alloc::AllocError;

pub fn frame_size(ints: &[i64]) -> usize
    requires some { 1 ≤ length ints.now }
    requires few { length ints.now ≤ row_group_rows }
    ensures { result ≡ body_size kind.Frame of_type.Int (map Int ints.now) }
{
    let bounds = bounds_of(ints);
    let width = width_of(bounds.greatest.abs_diff(bounds.least)) as usize;
    9 + (ints.len() * width + 7) / 8
}

pub fn put_frame(out: &mut Vec<u8>, ints: &[i64]) -> Result<(), AllocError>
    requires fit { list_all (is_of of_type.Int false) (map Int ints.now) ≡ true }
    requires some { 1 ≤ length ints.now }
    requires few { length ints.now ≤ row_group_rows }
    ensures { OnOk result (PutsBody out.old.items out.new.items kind.Frame of_type.Int
        (map Int ints.now)) }
{
    let bounds = bounds_of(ints);
    let width = width_of(bounds.greatest.abs_diff(bounds.least));
    make_room(out, 9 + (ints.len() * width as usize + 7) / 8)?;
    put_integer(out, bounds.least)?;
    out.push(width as u8)?;
    put_offsets(out, ints, bounds.least, width)?;
    Ok(())
}
