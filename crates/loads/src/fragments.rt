//! The fact table, loaded and written a fragment at a time.
ghost use Rattle.std.specs.Prelude.{◌≡◌, ◌≤◌, ◌<◌, ℕ, List, [], ◌∷◌, ◌++◌, Some, Ok, Err, IfErr, IfOk, IfSome, Result, length, sum};
ghost use Rattle.meaning.specs.Limits.{max_rows};
ghost use Rattle.meaning.specs.Catalog.{IsWellFormedTable};
ghost use Rattle.meaning.specs.declared.table.TableFault.{TableFault as Fault};
ghost use Rattle.columns.specs.Column.{ColumnSpec};
ghost use Rattle.fragment_file.specs.Writing.{AreColumns};
ghost use Rattle.loader.specs.Columns.{fact_fragments};
ghost use Rattle.loader.specs.Fault.{fault_returned};
ghost use Rattle.loader.specs.Handing.{IsToCome, declared_in, lengths_ahead};
ghost use Rattle.loader.specs.Source.{csv_records};
ghost use Rattle.folders.specs.Each.{AreEach};
ghost use Rattle.folders.specs.Folder.{AsksOf, csv_path};
ghost use Rattle.loads.specs.Loading.{AreFragmentColumns, AreFragmentsClosed, IsFactCounted, IsFactLoaded, IsNextSlice};
ghost use Rattle.loads.specs.Refusing.{AreFragmentsUnwritten, IsFactRefused, IsFactUnloaded, IsTriedOr};
ghost use Rattle.folders.specs.Refused.{IsAskedFor, IsTriedFor, IsUnread};

use crate::counting::even_cut;
use crate::saving::write_fragment;
use crate::target::Target;
use columns::Column;
use folders::{Folder, Refusal, csv_path, load_refusal, open_file};
use fragment_file::Slice;
use loader::{FactReader, LoadFault, count_rows, open_fact};
use meaning::Cut;
use std::alloc::Global;
use std::collections::VecDeque;
use std::mem::drop;

/// The fact table, cut into fragments.
#[derive(Drop)]
pub struct Fact<P> {
    /// How many rows all fragments have.
    pub rows: u64,
    pub cut: Cut,
    /// Each fragment's file, which stands under no path yet; or why the first that can't be written
    /// isn't.
    pub files: Result<VecDeque<P>, Refusal>,
}

// ---- counting

/// How many rows stand behind the header of the fact's CSV file.
fn count_fact<F: Folder>(alloc: Global, folder: &F, target: &Target<'_>) -> Result<u64, Refusal>
    ensures counted { IfOk result
        (IsFactCounted (F.holds folder.now) target.now.directory.now target.now.catalog.now) }
    ensures refused { IfErr result
        (IsUnread (csv_path target.now.directory.now target.now.catalog.now.fact.name)) }
    ensures unread { IfErr result (IsAskedFor (F.asks folder.now)) }
{
    let name = target.catalog.fact.name.as_str();
    let path = csv_path(alloc, target.directory, name)?;
    let file = open_file(folder, &path)?;
    match count_rows(alloc, file) {
        Ok(rows) => Ok(rows),
        Err(fault) => Err(load_refusal(alloc, target.directory, name, fault)),
    }
}

// ---- loading and writing

/// Writes the file of a fragment behind those before it, unless one of these couldn't be written.
fn with_fragment<F: Folder>(
    alloc: Global,
    folder: &mut F,
    target: &Target<'_>,
    slice: Slice,
    columns: &[Column],
    files: Result<VecDeque<F::Closed>, Refusal>,
) -> Result<VecDeque<F::Closed>, Refusal>
    requires table { IsWellFormedTable target.now.catalog.now.fact }
    requires few { slice.rows ≤ max_rows }
    requires columns { AreColumns target.now.catalog.now.fact.columns slice.rows columns.now }
    ensures closed { (cut : List ℕ) (fragments : List (List ColumnSpec))
        → IsNextSlice cut fragments slice
        → IfOk files (λ before. AreFragmentsClosed F.enclosed (F.wrote folder.old) target.now.load
        target.now.catalog.now.fact cut fragments before.items)
        → IfOk result (λ after. AreFragmentsClosed F.enclosed (F.wrote folder.old) target.now.load
        target.now.catalog.now.fact cut (fragments ++ columns.now ∷ []) after.items) }
    ensures same { F.wrote folder.new ≡ F.wrote folder.old }
    ensures held { F.holds folder.new ≡ F.holds folder.old }
    ensures refused { (most : ℕ) → slice.fragment < most
        → IfErr files (AreFragmentsUnwritten target.now.directory.now
        target.now.catalog.now.fact.name most)
        → IfErr result (AreFragmentsUnwritten target.now.directory.now
        target.now.catalog.now.fact.name most) }
    ensures asking { AsksOf (F.asks folder.old) (F.asks folder.new) }
    ensures unwritten { IfErr result (IsTriedOr (F.tries folder.old) files) }
    ensures trying { AsksOf (F.tries folder.old) (F.tries folder.new) }
{
    let mut files = files?;
    let file = write_fragment(alloc, folder, target, slice, columns)?;
    files.push_back(file)?;
    Ok(files)
}

/// Loads the fragments that are to come, and writes and closes the file of each before the next is
/// loaded.
fn write_fragments<F: Folder>(
    alloc: Global,
    folder: &mut F,
    target: &Target<'_>,
    cut: &Cut,
    reader: &mut FactReader<'_, F::Reader>,
) -> Result<Result<VecDeque<F::Closed>, Refusal>, LoadFault>
    requires table { IsWellFormedTable target.now.catalog.now.fact }
    requires declared { declared_in reader.old ≡ target.now.catalog.now.fact.columns }
    requires lengths { lengths_ahead reader.old ≡ cut.now }
    ensures loaded { IfOk result (λ files. (fragments : List (List ColumnSpec))
        × AreEach (AreFragmentColumns target.now.catalog.now.fact) cut.now fragments
        × ((meant : Result (List (List ColumnSpec)) Fault)
        → IsToCome F.Reader.remaining reader.old meant → meant ≡ Ok fragments)
        × IfOk files (λ closed. AreFragmentsClosed F.enclosed (F.wrote folder.old) target.now.load
        target.now.catalog.now.fact cut.now fragments closed.items)
        × IfErr files (AreFragmentsUnwritten target.now.directory.now
        target.now.catalog.now.fact.name (length cut.now))) }
    ensures same { F.wrote folder.new ≡ F.wrote folder.old }
    ensures held { F.holds folder.new ≡ F.holds folder.old }
    ensures refused { IfErr result (λ e. (meant : Result (List (List ColumnSpec)) Fault)
        → IsToCome F.Reader.remaining reader.old meant
        → IfSome (fault_returned e) (λ f. meant ≡ Err f)) }
    ensures asking { AsksOf (F.asks folder.old) (F.asks folder.new) }
    ensures unwritten { IfOk result (λ files. IfErr files (IsTriedFor (F.tries folder.old))) }
    ensures trying { AsksOf (F.tries folder.old) (F.tries folder.new) }
{
    let lengths = cut.lengths();
    let mut files = Ok(VecDeque::new(alloc));
    let mut fragment: u32 = 0;
    let mut first_row = 0;
    while let Some(columns) = reader.next_fragment(alloc)? {
        let rows = lengths[fragment as usize];
        let slice = Slice {
            fragment,
            first_row,
            rows,
        };
        files = with_fragment(alloc, folder, target, slice, columns.as_slice(), files);
        first_row += u64::from(rows);
        fragment += 1;
    }
    Ok(files)
}

/// The same of all fragments of a CSV file.
fn write_read<F: Folder>(
    alloc: Global,
    folder: &mut F,
    target: &Target<'_>,
    cut: &Cut,
    file: F::Reader,
) -> Result<Result<VecDeque<F::Closed>, Refusal>, LoadFault>
    requires table { IsWellFormedTable target.now.catalog.now.fact }
    ensures loaded { IfOk result (λ files. (fragments : List (List ColumnSpec))
        × AreEach (AreFragmentColumns target.now.catalog.now.fact) cut.now fragments
        × ((bytes : List ℕ) → F.Reader.remaining file ≡ Some bytes
        → fact_fragments target.now.catalog.now cut.now (csv_records bytes) ≡ Ok fragments)
        × IfOk files (λ closed. AreFragmentsClosed F.enclosed (F.wrote folder.old) target.now.load
        target.now.catalog.now.fact cut.now fragments closed.items)
        × IfErr files (AreFragmentsUnwritten target.now.directory.now
        target.now.catalog.now.fact.name (length cut.now))) }
    ensures same { F.wrote folder.new ≡ F.wrote folder.old }
    ensures held { F.holds folder.new ≡ F.holds folder.old }
    ensures refused { IfErr result (λ e. (bytes : List ℕ) → F.Reader.remaining file ≡ Some bytes
        → IfSome (fault_returned e) (λ f. fact_fragments target.now.catalog.now cut.now
        (csv_records bytes) ≡ Err f)) }
    ensures asking { AsksOf (F.asks folder.old) (F.asks folder.new) }
    ensures unwritten { IfOk result (λ files. IfErr files (IsTriedFor (F.tries folder.old))) }
    ensures trying { AsksOf (F.tries folder.old) (F.tries folder.new) }
{
    let mut reader = open_fact(alloc, target.catalog, file, cut)?;
    let files = write_fragments(alloc, folder, target, cut, &mut reader);
    drop(reader);
    files
}

/// The same of the fact's CSV file.
fn write_fact<F: Folder>(
    alloc: Global,
    folder: &mut F,
    target: &Target<'_>,
    cut: &Cut,
) -> Result<Result<VecDeque<F::Closed>, Refusal>, Refusal>
    requires table { IsWellFormedTable target.now.catalog.now.fact }
    ensures loaded { IfOk result (λ files. (fragments : List (List ColumnSpec))
        × AreEach (AreFragmentColumns target.now.catalog.now.fact) cut.now fragments
        × ((csv : List ℕ) → F.holds folder.old
        (csv_path target.now.directory.now target.now.catalog.now.fact.name) ≡ Some csv
        → fact_fragments target.now.catalog.now cut.now (csv_records csv) ≡ Ok fragments)
        × IfOk files (λ closed. AreFragmentsClosed F.enclosed (F.wrote folder.old) target.now.load
        target.now.catalog.now.fact cut.now fragments closed.items)
        × IfErr files (AreFragmentsUnwritten target.now.directory.now
        target.now.catalog.now.fact.name (length cut.now))) }
    ensures same { F.wrote folder.new ≡ F.wrote folder.old }
    ensures held { F.holds folder.new ≡ F.holds folder.old }
    ensures refused { IfErr result
        (IsFactUnloaded (F.holds folder.old) target.now.directory.now target.now.catalog.now
        cut.now) }
    ensures asking { AsksOf (F.asks folder.old) (F.asks folder.new) }
    ensures unread { IfErr result (IsAskedFor (F.asks folder.old)) }
    ensures unwritten { IfOk result (λ files. IfErr files (IsTriedFor (F.tries folder.old))) }
    ensures trying { AsksOf (F.tries folder.old) (F.tries folder.new) }
{
    let name = target.catalog.fact.name.as_str();
    let path = csv_path(alloc, target.directory, name)?;
    let file = open_file(folder, &path)?;
    match write_read(alloc, folder, target, cut, file) {
        Ok(files) => Ok(files),
        Err(fault) => Err(load_refusal(alloc, target.directory, name, fault)),
    }
}

/// The fact table, cut into fragments of `rows` rows, each of whose files is written and closed and
/// stands under no path yet. One fragment's columns at a time are in memory. The CSV file is read
/// twice, once to count its rows.
///
/// # Errors
///
/// Out of memory, a file that cannot be read, a cut over its limits, and the table's first fault,
/// whichever comes first. A file that cannot be written is none of them: it is returned once all tables
/// are known to be well.
pub fn load_fact<F: Folder>(
    alloc: Global,
    folder: &mut F,
    target: &Target<'_>,
    rows: u32,
) -> Result<Fact<F::Closed>, Refusal>
    requires rows { 1 ≤ rows }
    requires table { IsWellFormedTable target.now.catalog.now.fact }
    ensures loaded { IfOk result (λ fact. (fragments : List (List ColumnSpec))
        × IsFactLoaded (F.holds folder.old) target.now.directory.now target.now.catalog.now rows
        fact.cut fragments
        × IfOk fact.files (λ closed. AreFragmentsClosed F.enclosed (F.wrote folder.old)
        target.now.load target.now.catalog.now.fact fact.cut fragments closed.items)
        × IfErr fact.files (AreFragmentsUnwritten target.now.directory.now
        target.now.catalog.now.fact.name (length fact.cut))) }
    ensures counted { IfOk result (λ fact. fact.rows ≡ sum fact.cut) }
    ensures same { F.wrote folder.new ≡ F.wrote folder.old }
    ensures held { F.holds folder.new ≡ F.holds folder.old }
    ensures refused { IfErr result
        (IsFactRefused (F.holds folder.old) target.now.directory.now target.now.catalog.now rows) }
    ensures asking { AsksOf (F.asks folder.old) (F.asks folder.new) }
    ensures unread { IfErr result (IsAskedFor (F.asks folder.old)) }
    ensures unwritten { IfOk result (λ fact. IfErr fact.files (IsTriedFor (F.tries folder.old))) }
    ensures trying { AsksOf (F.tries folder.old) (F.tries folder.new) }
{
    let counted = count_fact(alloc, folder, target)?;
    let cut = even_cut(alloc, counted, rows)?;
    let files = write_fact(alloc, folder, target, &cut)?;
    Ok(Fact {
        rows: counted,
        cut,
        files,
    })
}
