//! The fact table.
ghost use Rattle.std.specs.Prelude.{◌≡◌, [], ℕ, List, None, Some, IfOk, OnOk, Result};
ghost use Rattle.meaning.specs.declared.table.TableFault.{TableFault as Fault};
ghost use Rattle.columns.specs.Column.{ColumnSpec};
ghost use Rattle.loader.specs.Columns.{AreFragmentsOf, fact_fragments};
ghost use Rattle.loader.specs.Handing.{HandsOn, IsNextOf, IsToCome, OpensFact, declared_in, lengths_ahead};
ghost use Rattle.meaning.specs.Wanting.{ReportsIfMemory};
ghost use Rattle.loader.specs.Fault.{fault_returned};
ghost use Rattle.loader.specs.Source.{csv_records};

use crate::ahead::Ahead;
use crate::fault::LoadFault;
use crate::table::{Rows, open_rows};
use columns::Column;
use meaning::{Catalog, Cut, Sequence, TableFault};
use std::alloc::Global;
use std::io::Read;
use std::mem::drop;

/// The fact table's fragments, on their way from its CSV file: one at a time is in memory.
#[derive(Drop)]
pub struct FactReader<'c, R> {
    rows: Rows<'c, R>,
    ahead: Ahead<'c>,
}

/// Reads the header of the fact table's CSV file.
///
/// # Errors
///
/// Out of memory, the reader's own, or no header.
pub fn open_fact<'c, R: Read + Drop>(
    alloc: Global,
    catalog: &'c Catalog,
    reader: R,
    cut: &'c Cut,
) -> Result<FactReader<'c, R>, LoadFault>
    ensures ahead { IfOk result (λ reader. (declared_in reader ≡ catalog.now.fact.columns)
        × (lengths_ahead reader ≡ cut.now)) }
    ensures opened { (bytes : List ℕ) → R.remaining reader ≡ Some bytes
        → OpensFact R.remaining (fact_fragments catalog.now cut.now (csv_records bytes)) result }
{
    let rows = open_rows(alloc, catalog.fact.columns.as_slice(), reader)?;
    Ok(FactReader {
        rows,
        ahead: Ahead::of(cut),
    })
}

impl<R: Read> FactReader<'_, R> {
    /// The next fragment's columns, in the order of the catalogue. None once each fragment of the
    /// cut was handed on, and no row is left over.
    ///
    /// # Errors
    ///
    /// Out of memory, the reader's own, or the first fault from record to record. Nothing is
    /// promised of what is read behind it.
    pub fn next_fragment(&mut self, alloc: Global) -> Result<Option<Sequence<Column>>, LoadFault>
        ensures declared { declared_in self.new ≡ declared_in self.old }
        ensures next { IfOk result
            (IsNextOf (declared_in self.old) (lengths_ahead self.old) (lengths_ahead self.new)) }
        ensures taken { (meant : Result (List (List ColumnSpec)) Fault)
            → IsToCome R.remaining self.old meant
            → HandsOn R.remaining meant self.new result }
    {
        let ahead = self.ahead;
        let Some((length, others)) = ahead.lengths.split_first() else {
            return self.end();
        };
        let fragment = self.rows.fragment(alloc, ahead.first, *length)?;
        self.ahead = Ahead {
            lengths: others,
            first: ahead.first + u64::from(*length),
        };
        Ok(Some(fragment))
    }

    /// Refuses a row behind the last fragment.
    fn end(&mut self) -> Result<Option<Sequence<Column>>, LoadFault>
        requires { lengths_ahead self.old ≡ [] }
        ensures declared { declared_in self.new ≡ declared_in self.old }
        ensures next { IfOk result (λ found. found ≡ None) }
        ensures taken { (meant : Result (List (List ColumnSpec)) Fault)
            → IsToCome R.remaining self.old meant
            → HandsOn R.remaining meant self.new result }
    {
        if self.rows.has_more()? {
            return Err(LoadFault::Table(TableFault::TooManyRows));
        }
        Ok(None)
    }
}

/// Puts all fragments that are to come behind no others.
fn add_fragments<R: Read>(
    alloc: Global,
    reader: &mut FactReader<'_, R>,
    fragments: &mut Vec<Sequence<Column>>,
) -> Result<(), LoadFault>
    requires { fragments.old.items ≡ [] }
    ensures declared { OnOk result
        (AreFragmentsOf (declared_in reader.old) (lengths_ahead reader.old) fragments.new.items) }
    ensures loaded { (meant : Result (List (List ColumnSpec)) Fault)
        → IsToCome R.remaining reader.old meant
        → ReportsIfMemory fault_returned (λ _. fragments.new.items) result meant }
{
    while let Some(fragment) = reader.next_fragment(alloc)? {
        fragments.push(fragment)?;
    }
    Ok(())
}

fn all_fragments<R: Read>(
    alloc: Global,
    reader: &mut FactReader<'_, R>,
    cut: &Cut,
) -> Result<Vec<Sequence<Column>>, LoadFault>
    ensures declared { IfOk result
        (λ fragments. AreFragmentsOf (declared_in reader.old) (lengths_ahead reader.old)
        fragments.items) }
    ensures loaded { (meant : Result (List (List ColumnSpec)) Fault)
        → IsToCome R.remaining reader.old meant
        → ReportsIfMemory fault_returned (λ fragments. fragments.items) result meant }
{
    let mut fragments = Vec::with_capacity(alloc, cut.lengths().len())?;
    match add_fragments(alloc, reader, &mut fragments) {
        Ok(()) => Ok(fragments),
        Err(fault) => {
            drop(fragments);
            Err(fault)
        }
    }
}

/// Each fragment's columns, in the order of the catalogue, from the fact table's CSV file. There
/// are just as many rows as the cut has.
///
/// # Errors
///
/// Out of memory, the reader's own, or the first fault from record to record.
pub fn load_fact<R: Read + Drop>(
    alloc: Global,
    catalog: &Catalog,
    reader: R,
    cut: &Cut,
) -> Result<Vec<Sequence<Column>>, LoadFault>
    ensures declared { IfOk result
        (λ fragments. AreFragmentsOf catalog.now.fact.columns cut.now fragments.items) }
    ensures loaded { (bytes : List ℕ) → R.remaining reader ≡ Some bytes
        → ReportsIfMemory fault_returned (λ fragments. fragments.items) result
        (fact_fragments catalog.now cut.now (csv_records bytes)) }
{
    let mut reader = open_fact(alloc, catalog, reader, cut)?;
    let fragments = all_fragments(alloc, &mut reader, cut);
    drop(reader);
    fragments
}
