//! A dimension.
ghost use Rattle.std.specs.Prelude.{◌≡◌, ℕ, List, Some, option_copied, ◌↔◌, IfOk, IsTrue};
ghost use Rattle.meaning.specs.declared.catalog.Dimension.{Dimension as ADimension};
ghost use Rattle.meaning.specs.Limits.{max_rows};
ghost use Rattle.loader.specs.Columns.{AreAtMost, HasDimension, dimension_columns, dimension_named};
ghost use Rattle.meaning.specs.Wanting.{ReportsIfMemory};
ghost use Rattle.loader.specs.Fault.{fault_returned};
ghost use Rattle.loader.specs.Source.{csv_records};

use crate::fault::LoadFault;
use crate::table::open_rows;
use columns::Column;
use meaning::{Catalog, Dimension, MAX_ROWS, Sequence};
use std::alloc::Global;
use std::io::Read;
use std::mem::drop;

/// A dimension's columns, in the order of the catalogue, from its CSV file. No two rows have the
/// same key, unless it is NULL, and there are at most 1,048,576 rows.
///
/// # Errors
///
/// Out of memory, the reader's own, or the first fault from record to record.
pub fn load_dimension<R: Read + Drop>(
    alloc: Global,
    dimension: &Dimension,
    reader: R,
) -> Result<Sequence<Column>, LoadFault>
    ensures declared { IfOk result (AreAtMost dimension.now.table.columns max_rows) }
    ensures loaded { (bytes : List ℕ) → R.remaining reader ≡ Some bytes
        → ReportsIfMemory fault_returned (λ columns. columns) result
        (dimension_columns dimension.now (csv_records bytes)) }
{
    let mut rows = open_rows(alloc, dimension.table.columns.as_slice(), reader)?;
    let columns = rows.keyed_columns(alloc, dimension.key, u64::from(MAX_ROWS));
    drop(rows);
    columns
}

/// The dimension of a name.
pub fn dimension_named<'a>(catalog: &'a Catalog, name: &str) -> Option<&'a Dimension>
    ensures { option_copied result ≡ dimension_named catalog.now name.now }
{
    let dims = catalog.dims.as_slice();
    dims.iter().find(|d| d.table.name.as_str() == name)
}

/// Whether the catalogue has a dimension of this name.
pub fn has_dim(catalog: &Catalog, name: &str) -> bool
    ensures { IsTrue result ↔ (HasDimension catalog.now name.now) }
{
    dimension_named(catalog, name).is_some()
}

/// The columns of the dimension of a name, which the catalogue has, as `load_dimension` gives them.
pub fn load_dim<R: Read + Drop>(
    alloc: Global,
    catalog: &Catalog,
    name: &str,
    reader: R,
) -> Result<Sequence<Column>, LoadFault>
    requires { HasDimension catalog.now name.now }
    ensures declared { (d : ADimension) → dimension_named catalog.now name.now ≡ Some d
        → IfOk result (AreAtMost d.table.columns max_rows) }
    ensures loaded { (d : ADimension) (bytes : List ℕ) → dimension_named catalog.now name.now ≡ Some d
        → R.remaining reader ≡ Some bytes
        → ReportsIfMemory fault_returned (λ columns. columns) result
        (dimension_columns d (csv_records bytes)) }
{
    let Some(dimension) = dimension_named(catalog, name) else {
        unreachable!()
    };
    load_dimension(alloc, dimension, reader)
}
