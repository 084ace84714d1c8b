//! Rows that can be printed: those that are made, and those of lanes.
ghost use Rattle.std.specs.Prelude.{◌≡◌, ◌<◌, ◌++◌, ◌∷◌, [], get_or, length, map, OnOk};
ghost use Rattle.csv.specs.Records.{fields_of, partial_of};
ghost use Rattle.meaning.specs.Order.{value_in};
ghost use Rattle.meaning.specs.Print.{value_text};
ghost use Rattle.last_step.specs.Batches.{lane_row};

use crate::lanes::lane_value;
use csv::ByteRecord;
use itoa::Buffer;
use meaning::{Row, Value, ValueRef};
use std::alloc::AllocError;
use vectors::Vector;

/// Rows that can be printed, by their numbers.
pub trait PrintableRows {
    ghost use Rattle.std.specs.Prelude.{List};
    ghost use Rattle.meaning.specs.Order.{Row as ARow};

    ghost rows: { Self → List ARow };

    fn len(&self) -> usize
        ensures { result ≡ length (rows self.now) };

    /// Puts the texts of a row's values in place of the fields of a record.
    fn fill(&self, fields: &mut ByteRecord, at: usize) -> Result<(), AllocError>
        requires { at < length (rows self.now) }
        ensures { OnOk result (fields_of fields.new
            ≡ map value_text (get_or (rows self.now) at [])) };
}

/// Rows that are made.
#[derive(Clone, Copy)]
pub struct MadeRows<'a> {
    pub rows: &'a [Row],
}

/// The rows of lanes, at some positions one after the other. None is made.
#[derive(Clone, Copy)]
pub struct LaneRows<'a> {
    pub items: &'a [Vector<'a>],
    pub positions: &'a [u32],
}

impl<'a> PrintableRows for MadeRows<'a> {
    ghost rows = { λ r. r.rows.now };

    fn len(&self) -> usize {
        self.rows.len()
    }

    fn fill(&self, fields: &mut ByteRecord, at: usize) -> Result<(), AllocError> {
        fill_with_values(fields, self.rows[at].as_slice())
    }
}

impl<'a> PrintableRows for LaneRows<'a> {
    ghost rows = { λ r. map (lane_row r.items.now) r.positions.now };

    fn len(&self) -> usize {
        self.positions.len()
    }

    fn fill(&self, fields: &mut ByteRecord, at: usize) -> Result<(), AllocError> {
        fill_with_lane(fields, self.items, self.positions[at] as usize)
    }
}

fn fill_with_values(fields: &mut ByteRecord, row: &[Value]) -> Result<(), AllocError>
    ensures { OnOk result (fields_of fields.new ≡ map value_text row.now) }
{
    fields.clear();
    for value in row {
        push_value(fields, value.as_value_ref())?;
    }
    Ok(())
}

fn fill_with_lane(
    fields: &mut ByteRecord,
    items: &[Vector<'_>],
    lane: usize,
) -> Result<(), AllocError>
    ensures { OnOk result (fields_of fields.new ≡ map value_text (lane_row items.now lane)) }
{
    fields.clear();
    for item in items {
        push_value(fields, lane_value(item, lane))?;
    }
    Ok(())
}

fn push_value(fields: &mut ByteRecord, value: ValueRef<'_>) -> Result<(), AllocError>
    requires { partial_of fields.old ≡ [] }
    ensures fields { OnOk result (fields_of fields.new ≡ fields_of fields.old
        ++ value_text (value_in value.entry) ∷ []) }
    ensures partial { OnOk result (partial_of fields.new ≡ []) }
{
    match value {
        ValueRef::Null => fields.push_field(b"\\N"),
        ValueRef::Int(n) => fields.push_field(Buffer::new().format(n).as_bytes()),
        ValueRef::Text(text) => fields.push_field(text),
    }
}
