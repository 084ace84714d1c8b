//! The command `load`.
ghost use Rattle.std.specs.Prelude.{◌≡◌, ◌≤◌, List, ◌⊎◌, IfErr, IfOk, OnErr, OnOk, length, sum};
ghost use Rattle.std.specs.Io.KnownBytes.{Appends};
ghost use Rattle.meaning.specs.Catalog.{IsWellFormed};
ghost use Rattle.columns.specs.Column.{ColumnSpec};
ghost use Rattle.folders.specs.Each.{AreEach};
ghost use Rattle.folders.specs.Folder.{Writes};
ghost use Rattle.folders.specs.Refused.{IsAskedFor, IsTriedFor};
ghost use Rattle.loads.specs.Loading.{AreDimensionColumns, AreFiles, AreFilesBegun, AreFragmentsClosed, IsCatalogLoaded, IsDimensionLoaded, IsLoadDone, loaded_line};
ghost use Rattle.loads.specs.Refusing.{AreFilesUnwritten, AreFragmentsUnwritten, IsCatalogLoadLeft, IsCatalogLoadRefused, IsLoadLeft, IsLoadRefused, IsQuiet, IsStuck, IsTriedOr, IsUnfinished, IsUnsaved, IsUntouched, IsWholeUnlessStuck, IsWrittenSoFar};

use crate::fragments::{Fact, load_fact};
use crate::loading::load_dimensions;
use crate::saving::save;
use crate::target::Target;
use columns::Column;
use folders::{Folder, Refusal, read_tables};
use meaning::{Cut, Sequence};
use std::alloc::Global;
use std::collections::VecDeque;
use std::io;
use std::io::Write;
use std::mem::drop;

fn print_loaded<O: Write>(rows: u64, fragments: usize, out: &mut O) -> io::Result<()>
    ensures { OnOk result (Appends (O.contents out.old) (O.contents out.new)
        (loaded_line rows fragments)) }
{
    writeln!(out, "loaded {rows} rows in {fragments} fragments")
}

fn print_line<O: Write>(rows: u64, fragments: usize, out: &mut O) -> Result<(), Refusal>
    ensures printed { OnOk result (Appends (O.contents out.old) (O.contents out.new)
        (loaded_line rows fragments)) }
    ensures refused { IfErr result (λ e. e ≡ Refusal.CannotPrint) }
{
    match print_loaded(rows, fragments, out) {
        Ok(()) => Ok(()),
        Err(_) => Err(Refusal::CannotPrint),
    }
}

/// Puts the files of fragments under their paths, if all could be written, and writes the others.
fn save_written<F: Folder>(
    alloc: Global,
    folder: &mut F,
    target: &Target<'_>,
    cut: &Cut,
    files: Result<VecDeque<F::Closed>, Refusal>,
    dims: &[Sequence<Column>],
) -> Result<(), Refusal>
    requires well_formed { IsWellFormed target.now.catalog.now }
    requires closed { IfOk files (λ files. length files.items ≡ length cut.now) }
    requires unwritten { IfErr files
        (AreFragmentsUnwritten target.now.directory.now target.now.catalog.now.fact.name
        (length cut.now)) }
    requires dims { AreEach AreDimensionColumns target.now.catalog.now.dims dims.now }
    ensures written { OnOk result ((fragments : List (List ColumnSpec))
        → IfOk files (λ files. AreFragmentsClosed F.enclosed (F.wrote folder.old)
        target.now.load target.now.catalog.now.fact cut.now fragments files.items)
        → Writes (AreFiles target.now.directory.now target.now.load target.now.catalog.now cut.now
        fragments dims.now) (F.wrote folder.old) (F.wrote folder.new)) }
    ensures refused { IfErr result
        (AreFilesUnwritten target.now.directory.now target.now.catalog.now cut.now) }
    ensures left { OnErr result ((F.wrote folder.new ≡ F.wrote folder.old)
        ⊎ ((fragments : List (List ColumnSpec))
        → IfOk files (λ files. AreFragmentsClosed F.enclosed (F.wrote folder.old)
        target.now.load target.now.catalog.now.fact cut.now fragments files.items)
        → Writes (AreFilesBegun target.now.directory.now target.now.load target.now.catalog.now
        cut.now fragments dims.now) (F.wrote folder.old) (F.wrote folder.new))) }
    ensures whole { IfErr result (λ e. (F.wrote folder.new ≡ F.wrote folder.old)
        ⊎ IsStuck F.stays e) }
    ensures unwritten { IfErr result (IsTriedOr (F.tries folder.old) files) }
{
    let files = files?;
    save(alloc, folder, target, cut, files, dims)
}

/// Saves all files of a load, and prints its line.
fn save_and_print<F: Folder, O: Write>(
    alloc: Global,
    folder: &mut F,
    target: &Target<'_>,
    fact: Fact<F::Closed>,
    dims: &[Sequence<Column>],
    out: &mut O,
) -> Result<(), Refusal>
    requires well_formed { IsWellFormed target.now.catalog.now }
    requires counted { fact.rows ≡ sum fact.cut }
    requires closed { IfOk fact.files (λ files. length files.items ≡ length fact.cut) }
    requires unwritten { IfErr fact.files
        (AreFragmentsUnwritten target.now.directory.now target.now.catalog.now.fact.name
        (length fact.cut)) }
    requires dims { AreEach AreDimensionColumns target.now.catalog.now.dims dims.now }
    ensures saved { OnOk result ((fragments : List (List ColumnSpec))
        → IfOk fact.files (λ files. AreFragmentsClosed F.enclosed (F.wrote folder.old)
        target.now.load target.now.catalog.now.fact fact.cut fragments files.items)
        → Appends (O.contents out.old) (O.contents out.new)
        (loaded_line (sum fact.cut) (length fact.cut))
        × Writes (AreFiles target.now.directory.now target.now.load target.now.catalog.now fact.cut
        fragments dims.now) (F.wrote folder.old) (F.wrote folder.new)) }
    ensures refused { IfErr result
        (IsUnsaved target.now.directory.now target.now.catalog.now fact.cut) }
    ensures quiet { IfErr result (λ e. IsQuiet e (O.contents out.old) (O.contents out.new)) }
    ensures left { IfErr result (λ e. IsUntouched e (F.wrote folder.old) (F.wrote folder.new)
        ⊎ ((fragments : List (List ColumnSpec))
        → IfOk fact.files (λ files. AreFragmentsClosed F.enclosed (F.wrote folder.old)
        target.now.load target.now.catalog.now.fact fact.cut fragments files.items)
        → IsWrittenSoFar target.now.directory.now target.now.load target.now.catalog.now fact.cut
        fragments dims.now e (F.wrote folder.old) (F.wrote folder.new))) }
    ensures whole { IfErr result (λ e. IsWholeUnlessStuck F.stays e (F.wrote folder.old)
        (F.wrote folder.new)) }
    ensures unwritten { IfErr result (IsTriedOr (F.tries folder.old) fact.files) }
{
    let Fact { rows, cut, files } = fact;
    let saved = save_written(alloc, folder, target, &cut, files, dims);
    let fragments = cut.lengths().len();
    drop(cut);
    saved?;
    print_line(rows, fragments, out)
}

/// Loads the dimensions behind the fact, and only then puts files under their paths.
fn finish_load<F: Folder, O: Write>(
    alloc: Global,
    folder: &mut F,
    target: &Target<'_>,
    fact: Fact<F::Closed>,
    out: &mut O,
) -> Result<(), Refusal>
    requires well_formed { IsWellFormed target.now.catalog.now }
    requires counted { fact.rows ≡ sum fact.cut }
    requires closed { IfOk fact.files (λ files. length files.items ≡ length fact.cut) }
    requires unwritten { IfErr fact.files
        (AreFragmentsUnwritten target.now.directory.now target.now.catalog.now.fact.name
        (length fact.cut)) }
    ensures finished { OnOk result ((fragments : List (List ColumnSpec))
        → IfOk fact.files (λ files. AreFragmentsClosed F.enclosed (F.wrote folder.old)
        target.now.load target.now.catalog.now.fact fact.cut fragments files.items)
        → (dims : List (List ColumnSpec))
        × AreEach (IsDimensionLoaded (F.holds folder.old) target.now.directory.now)
        target.now.catalog.now.dims dims
        × Appends (O.contents out.old) (O.contents out.new)
        (loaded_line (sum fact.cut) (length fact.cut))
        × Writes (AreFiles target.now.directory.now target.now.load target.now.catalog.now fact.cut
        fragments dims) (F.wrote folder.old) (F.wrote folder.new)) }
    ensures refused { IfErr result
        (IsUnfinished (F.holds folder.old) target.now.directory.now target.now.catalog.now
        fact.cut) }
    ensures quiet { IfErr result (λ e. IsQuiet e (O.contents out.old) (O.contents out.new)) }
    ensures left { IfErr result (λ e. IsUntouched e (F.wrote folder.old) (F.wrote folder.new)
        ⊎ ((fragments : List (List ColumnSpec))
        → IfOk fact.files (λ files. AreFragmentsClosed F.enclosed (F.wrote folder.old)
        target.now.load target.now.catalog.now.fact fact.cut fragments files.items)
        → (dims : List (List ColumnSpec))
        × AreEach (IsDimensionLoaded (F.holds folder.old) target.now.directory.now)
        target.now.catalog.now.dims dims
        × IsWrittenSoFar target.now.directory.now target.now.load target.now.catalog.now fact.cut
        fragments dims e (F.wrote folder.old) (F.wrote folder.new))) }
    ensures whole { IfErr result (λ e. IsWholeUnlessStuck F.stays e (F.wrote folder.old)
        (F.wrote folder.new)) }
    ensures unread { IfErr result (IsAskedFor (F.asks folder.old)) }
    ensures unwritten { IfErr result (IsTriedOr (F.tries folder.old) fact.files) }
{
    match load_dimensions(alloc, folder, target.directory, target.catalog) {
        Ok(dims) => {
            let saved = save_and_print(alloc, folder, target, fact, dims.as_slice(), out);
            drop(dims);
            saved
        }
        Err(refusal) => {
            drop(fact);
            Err(refusal)
        }
    }
}

fn load_declared<F: Folder, O: Write>(
    alloc: Global,
    folder: &mut F,
    target: &Target<'_>,
    rows: u32,
    out: &mut O,
) -> Result<(), Refusal>
    requires rows { 1 ≤ rows }
    requires well_formed { IsWellFormed target.now.catalog.now }
    ensures loaded { OnOk result
        (IsCatalogLoaded (F.holds folder.old) target.now.directory.now target.now.load rows
        target.now.catalog.now
        (O.contents out.old) (O.contents out.new) (F.wrote folder.old) (F.wrote folder.new)) }
    ensures refused { IfErr result
        (IsCatalogLoadRefused (F.holds folder.old) target.now.directory.now target.now.catalog.now
        rows) }
    ensures quiet { IfErr result (λ e. IsQuiet e (O.contents out.old) (O.contents out.new)) }
    ensures left { IfErr result (λ e. IsCatalogLoadLeft (F.holds folder.old)
        target.now.directory.now target.now.load rows target.now.catalog.now e
        (F.wrote folder.old) (F.wrote folder.new)) }
    ensures whole { IfErr result (λ e. IsWholeUnlessStuck F.stays e (F.wrote folder.old)
        (F.wrote folder.new)) }
    ensures unread { IfErr result (IsAskedFor (F.asks folder.old)) }
    ensures unwritten { IfErr result (IsTriedFor (F.tries folder.old)) }
{
    let fact = load_fact(alloc, folder, target, rows)?;
    finish_load(alloc, folder, target, fact, out)
}

/// Loads a folder's tables: its CSV files, as the catalogue declares them, become the files of
/// fragments and dimensions and that of the cut, and a line on `out` says how many rows there were.
///
/// # Errors
///
/// Out of memory, or the first of these: the catalogue's, the fact's, a dimension's, a file that
/// can't be written or taken away, the line that can't be printed. Each file of the folder is then as
/// it was, unless a closed file can't be put under its path or one can't be taken away: that happens
/// once all tables are loaded, and all their files closed.
pub fn load_tables<F: Folder, O: Write>(
    alloc: Global,
    folder: &mut F,
    directory: &str,
    load: u64,
    rows: u32,
    out: &mut O,
) -> Result<(), Refusal>
    requires { 1 ≤ rows }
    ensures loaded { OnOk result
        (IsLoadDone (F.holds folder.old) directory.now load rows (O.contents out.old)
        (O.contents out.new) (F.wrote folder.old) (F.wrote folder.new)) }
    ensures refused { IfErr result (IsLoadRefused (F.holds folder.old) directory.now rows) }
    ensures quiet { IfErr result (λ e. IsQuiet e (O.contents out.old) (O.contents out.new)) }
    ensures left { IfErr result (λ e. IsLoadLeft (F.holds folder.old) directory.now load rows e
        (F.wrote folder.old) (F.wrote folder.new)) }
    // A refusal before the first file was put under its path or taken away leaves every file as it was.
    ensures whole { IfErr result (λ e. IsWholeUnlessStuck F.stays e (F.wrote folder.old)
        (F.wrote folder.new)) }
    // A file that can't be read was asked for.
    ensures unread { IfErr result (IsAskedFor (F.asks folder.old)) }
    // One that can't be written was to be created, put under its path or taken away.
    ensures unwritten { IfErr result (IsTriedFor (F.tries folder.old)) }
{
    let catalog = read_tables(alloc, folder, directory)?;
    let target = Target {
        directory,
        load,
        catalog: &catalog,
    };
    let loaded = load_declared(alloc, folder, &target, rows, out);
    drop(catalog);
    loaded
}
