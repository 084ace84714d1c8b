//! Writes the files of `load`.
ghost use Rattle.std.specs.Prelude.{◌≡◌, ◌≤◌, ◌∷◌, ◌++◌, [], ◌⊎◌, List, IfErr, IfOk, OnErr, OnOk, length, map, zip};
ghost use Rattle.std.specs.List.{enumerate_from};
ghost use Rattle.meaning.specs.Limits.{max_fragments, max_rows};
ghost use Rattle.meaning.specs.Catalog.{IsWellFormed, IsWellFormedTable};
ghost use Rattle.columns.specs.Column.{ColumnSpec};
ghost use Rattle.fragment_file.specs.Fragment.{IsHeader, Stands, table_header};
ghost use Rattle.wire.specs.Bytes.{sealed};
ghost use Rattle.fragment_file.specs.Writing.{AreColumns, AreColumnsOf};
ghost use Rattle.fragment_file.specs.CutFile.{cut_bytes};
ghost use Rattle.folders.specs.Folder.{AsksOf, Encloses, Finishes, Writes, cut_path, dimension_path, fragment_path};
ghost use Rattle.folders.specs.Refused.{IsTriedFor, IsUnwritten};
ghost use Rattle.folders.specs.Each.{AreEach};
ghost use Rattle.loads.specs.Refusing.{AreDimensionsUnwritten, AreFilesUnwritten, IsNotGone, IsNotPut, IsStuck};
ghost use Rattle.loads.specs.Loading.{AreDimensionColumns, AreFiles, AreFilesBegun, AreFirst, AreFirstOfThree, AreFragmentsClosed, AreKnown, IsCutReady, IsDimensionReady, IsReadyUnder, StandsForFragment, gone, header_of, put, removal_paths, rows_in};

use crate::ready::Ready;
use crate::target::Target;
use columns::Column;
use folders::{
    Folder, Refusal, close_file, create_file, cut_path, dimension_path, fragment_path, put_file,
    refusal_of_file, remove_file,
};
use fragment_file::{Header, Slice, write, write_cut};
use meaning::{Cut, Dimension, MAX_FRAGMENTS, Sequence, Text};
use std::alloc::{AllocError, Global};
use std::collections::VecDeque;

/// Writes a file of columns, and closes it.
fn write_rows<F: Folder>(
    alloc: Global,
    folder: &mut F,
    path: &Text,
    header: &Header,
    columns: &[Column],
) -> Result<F::Closed, Refusal>
    requires header { IsHeader header.now }
    requires columns { AreColumnsOf header.now columns.now }
    ensures written { IfOk result
        (λ file. Encloses (λ bytes. Stands bytes header.now columns.now) (F.wrote folder.old)
        (F.enclosed file)) }
    ensures created { OnOk result (F.creates folder.old path.now) }
    ensures same { F.wrote folder.new ≡ F.wrote folder.old }
    ensures held { F.holds folder.new ≡ F.holds folder.old }
    ensures refused { IfErr result (IsUnwritten path.now) }
    ensures asking { AsksOf (F.asks folder.old) (F.asks folder.new) }
    ensures unwritten { IfErr result (IsTriedFor (F.tries folder.old)) }
    ensures trying { AsksOf (F.tries folder.old) (F.tries folder.new) }
{
    let mut file = create_file(folder, path)?;
    match write(alloc, header, columns, &mut file) {
        Ok(()) => close_file(folder, path, file),
        Err(fault) => Err(refusal_of_file(path, fault)),
    }
}

// ---- fragments

/// Writes the file of a fragment, and closes it. It stands under no path yet.
///
/// # Errors
///
/// Out of memory, or the file cannot be written.
pub fn write_fragment<F: Folder>(
    alloc: Global,
    folder: &mut F,
    target: &Target<'_>,
    slice: Slice,
    columns: &[Column],
) -> Result<F::Closed, Refusal>
    requires table { IsWellFormedTable target.now.catalog.now.fact }
    requires few { slice.rows ≤ max_rows }
    requires columns { AreColumns target.now.catalog.now.fact.columns slice.rows columns.now }
    ensures written { IfOk result
        (λ file. Encloses (λ bytes. Stands bytes
        (table_header target.now.load target.now.catalog.now.fact slice) columns.now)
        (F.wrote folder.old) (F.enclosed file)) }
    ensures created { OnOk result (F.creates folder.old
        (fragment_path target.now.directory.now target.now.catalog.now.fact.name slice.fragment)) }
    ensures same { F.wrote folder.new ≡ F.wrote folder.old }
    ensures held { F.holds folder.new ≡ F.holds folder.old }
    ensures refused { IfErr result
        (IsUnwritten (fragment_path target.now.directory.now target.now.catalog.now.fact.name
        slice.fragment)) }
    ensures asking { AsksOf (F.asks folder.old) (F.asks folder.new) }
    ensures unwritten { IfErr result (IsTriedFor (F.tries folder.old)) }
    ensures trying { AsksOf (F.tries folder.old) (F.tries folder.new) }
{
    let table = &target.catalog.fact;
    let path = fragment_path(alloc, target.directory, table.name.as_str(), slice.fragment)?;
    let header = Header::of_table(alloc, target.load, table, slice)?;
    write_rows(alloc, folder, &path, &header, columns)
}

/// The fragments' closed files, each with its path.
fn ready_fragments<P: Drop>(
    alloc: Global,
    target: &Target<'_>,
    files: VecDeque<P>,
) -> Result<VecDeque<Ready<P>>, AllocError>
    requires { length files.items ≤ max_fragments }
    ensures { IfOk result
        (λ ready. AreEach
        (IsReadyUnder target.now.directory.now target.now.catalog.now.fact)
        (enumerate_from 0 files.items) ready.items) }
{
    let name = target.catalog.fact.name.as_str();
    let mut files = files;
    let mut ready = VecDeque::new(alloc);
    let mut fragment = 0;
    while let Some(file) = files.pop_front() {
        let path = fragment_path(alloc, target.directory, name, fragment)?;
        ready.push_back(Ready { path, file })?;
        fragment += 1;
    }
    Ok(ready)
}

/// The paths of the files of fragments that the cut doesn't have, which an earlier load may have
/// left.
fn removal_paths(alloc: Global, target: &Target<'_>, cut: &Cut) -> Result<Vec<Text>, AllocError>
    ensures { IfOk result
        (λ paths. paths.items
        ≡ removal_paths target.now.directory.now target.now.catalog.now.fact cut.now) }
{
    let name = target.catalog.fact.name.as_str();
    let mut paths = Vec::new(alloc);
    for fragment in cut.lengths().len()..MAX_FRAGMENTS {
        paths.push(fragment_path(alloc, target.directory, name, fragment as u32)?)?;
    }
    Ok(paths)
}

// ---- dimensions

/// How many rows columns have.
fn rows_in(columns: &[Column]) -> usize
    ensures { result ≡ rows_in columns.now }
{
    match columns.first() {
        Some(column) => column.len(),
        None => 0,
    }
}

/// Writes a file of columns, and closes it. It stands under no path yet.
fn write_ready<F: Folder>(
    alloc: Global,
    folder: &mut F,
    path: Text,
    header: &Header,
    columns: &[Column],
) -> Result<Ready<F::Closed>, Refusal>
    requires header { IsHeader header.now }
    requires columns { AreColumnsOf header.now columns.now }
    ensures path { IfOk result (λ ready. ready.path ≡ path) }
    ensures written { IfOk result
        (λ ready. Encloses (λ bytes. Stands bytes header.now columns.now) (F.wrote folder.old)
        (F.enclosed ready.file)) }
    ensures same { F.wrote folder.new ≡ F.wrote folder.old }
    ensures refused { IfErr result (IsUnwritten path) }
    ensures unwritten { IfErr result (IsTriedFor (F.tries folder.old)) }
    ensures trying { AsksOf (F.tries folder.old) (F.tries folder.new) }
{
    let file = write_rows(alloc, folder, &path, header, columns)?;
    Ok(Ready { path, file })
}

/// Writes the file of a dimension, and closes it. It stands under no path yet.
fn write_dimension<F: Folder>(
    alloc: Global,
    folder: &mut F,
    target: &Target<'_>,
    dim: &Dimension,
    columns: &[Column],
) -> Result<Ready<F::Closed>, Refusal>
    requires table { IsWellFormedTable dim.now.table }
    requires columns { AreDimensionColumns dim.now columns.now }
    ensures ready { IfOk result
        (IsDimensionReady F.enclosed (F.wrote folder.old) target.now.directory.now target.now.load
        (dim.now, columns.now)) }
    ensures same { F.wrote folder.new ≡ F.wrote folder.old }
    ensures refused { IfErr result
        (IsUnwritten (dimension_path target.now.directory.now dim.now.table.name)) }
    ensures unwritten { IfErr result (IsTriedFor (F.tries folder.old)) }
    ensures trying { AsksOf (F.tries folder.old) (F.tries folder.new) }
{
    let path = dimension_path(alloc, target.directory, dim.table.name.as_str())?;
    let slice = Slice {
        fragment: 0,
        first_row: 0,
        rows: rows_in(columns) as u32,
    };
    let header = Header::of_table(alloc, target.load, &dim.table, slice)?;
    write_ready(alloc, folder, path, &header, columns)
}

/// Writes the files of the dimensions, and closes them. They stand under no path yet.
fn write_dimensions<F: Folder>(
    alloc: Global,
    folder: &mut F,
    target: &Target<'_>,
    dims: &[Sequence<Column>],
) -> Result<VecDeque<Ready<F::Closed>>, Refusal>
    requires well_formed { IsWellFormed target.now.catalog.now }
    requires columns { AreEach AreDimensionColumns target.now.catalog.now.dims dims.now }
    ensures ready { IfOk result
        (λ ready. AreEach (IsDimensionReady F.enclosed (F.wrote folder.old)
        target.now.directory.now target.now.load)
        (zip target.now.catalog.now.dims dims.now) ready.items) }
    ensures same { F.wrote folder.new ≡ F.wrote folder.old }
    ensures refused { IfErr result
        (AreDimensionsUnwritten target.now.directory.now target.now.catalog.now.dims) }
    ensures unwritten { IfErr result (IsTriedFor (F.tries folder.old)) }
    ensures trying { AsksOf (F.tries folder.old) (F.tries folder.new) }
{
    let declared = target.catalog.dims.as_slice();
    let mut ready = VecDeque::new(alloc);
    for i in 0..declared.len() {
        let dim = write_dimension(alloc, folder, target, &declared[i], dims[i].as_slice())?;
        ready.push_back(dim)?;
    }
    Ok(ready)
}

// ---- the cut

/// Writes the file of the cut, and closes it. It stands under no path yet.
fn write_cut_file<F: Folder>(
    alloc: Global,
    folder: &mut F,
    target: &Target<'_>,
    cut: &Cut,
) -> Result<Ready<F::Closed>, Refusal>
    ensures ready { IfOk result
        (IsCutReady F.enclosed (F.wrote folder.old) target.now.directory.now target.now.load
        cut.now) }
    ensures same { F.wrote folder.new ≡ F.wrote folder.old }
    ensures refused { IfErr result (IsUnwritten (cut_path target.now.directory.now)) }
    ensures unwritten { IfErr result (IsTriedFor (F.tries folder.old)) }
    ensures trying { AsksOf (F.tries folder.old) (F.tries folder.new) }
{
    let path = cut_path(alloc, target.directory)?;
    let mut file = create_file(folder, &path)?;
    match write_cut(target.load, cut, &mut file) {
        Ok(()) => close_ready(folder, path, file),
        Err(fault) => Err(refusal_of_file(&path, fault)),
    }
}

fn close_ready<F: Folder>(
    folder: &mut F,
    path: Text,
    file: F::Writer,
) -> Result<Ready<F::Closed>, Refusal>
    ensures path { IfOk result (λ ready. ready.path ≡ path) }
    ensures closed { IfOk result (λ ready. F.enclosed ready.file ≡ F.Writer.contents file) }
    ensures same { F.wrote folder.new ≡ F.wrote folder.old }
    ensures refused { IfErr result (IsUnwritten path) }
    ensures trying { AsksOf (F.tries folder.old) (F.tries folder.new) }
{
    let file = close_file(folder, &path, file)?;
    Ok(Ready { path, file })
}

// ---- all of them

/// Puts a closed file under its path.
fn put_ready<F: Folder>(folder: &mut F, ready: Ready<F::Closed>) -> Result<(), Refusal>
    ensures written { OnOk result
        (Finishes (F.wrote folder.old) (F.wrote folder.new) ready.path (F.enclosed ready.file)) }
    ensures left { OnErr result (F.wrote folder.new ≡ F.wrote folder.old) }
    ensures refused { IfErr result (IsUnwritten ready.path) }
    ensures stuck { IfErr result (IsStuck F.stays) }
    ensures unwritten { IfErr result (IsTriedFor (F.tries folder.old)) }
    ensures trying { AsksOf (F.tries folder.old) (F.tries folder.new) }
{
    let Ready { path, file } = ready;
    put_file(folder, &path, file)
}

/// Puts closed files under their paths, one after the other.
fn put_all<F: Folder>(folder: &mut F, files: VecDeque<Ready<F::Closed>>) -> Result<(), Refusal>
    ensures written { OnOk result (AreKnown F.enclosed files.items
        → Writes (λ changes. changes ≡ map (put F.enclosed) files.items) (F.wrote folder.old)
        (F.wrote folder.new)) }
    ensures left { OnErr result (AreKnown F.enclosed files.items
        → Writes (AreFirst (map (put F.enclosed) files.items)) (F.wrote folder.old)
        (F.wrote folder.new)) }
    ensures refused { IfErr result (IsNotPut files.items) }
    ensures stuck { IfErr result (IsStuck F.stays) }
    ensures unwritten { IfErr result (IsTriedFor (F.tries folder.old)) }
    ensures trying { AsksOf (F.tries folder.old) (F.tries folder.new) }
{
    let mut files = files;
    while let Some(ready) = files.pop_front() {
        put_ready(folder, ready)?;
    }
    Ok(())
}

/// Takes the files of these paths away, where there are such.
fn remove_all<F: Folder>(folder: &mut F, paths: &[Text]) -> Result<(), Refusal>
    ensures removed { OnOk result (Writes (λ changes. changes ≡ map gone paths.now)
        (F.wrote folder.old) (F.wrote folder.new)) }
    ensures left { OnErr result (Writes (AreFirst (map gone paths.now)) (F.wrote folder.old)
        (F.wrote folder.new)) }
    ensures refused { IfErr result (IsNotGone paths.now) }
    ensures stuck { IfErr result (IsStuck F.stays) }
    ensures unwritten { IfErr result (IsTriedFor (F.tries folder.old)) }
    ensures trying { AsksOf (F.tries folder.old) (F.tries folder.new) }
{
    for path in paths {
        remove_file(folder, path)?;
    }
    Ok(())
}

/// Puts the files of the fragments and of the dimensions under their paths, takes those of these
/// paths away, and then puts that of the cut under its path.
fn put_files<F: Folder>(
    folder: &mut F,
    fragments: VecDeque<Ready<F::Closed>>,
    dims: VecDeque<Ready<F::Closed>>,
    others: &[Text],
    cut: Ready<F::Closed>,
) -> Result<(), Refusal>
    ensures written { OnOk result (AreKnown F.enclosed fragments.items
        → AreKnown F.enclosed dims.items → AreKnown F.enclosed (cut ∷ [])
        → Writes (λ changes. changes ≡ ((map (put F.enclosed) fragments.items
        ++ map (put F.enclosed) dims.items) ++ map gone others.now) ++ put F.enclosed cut ∷ [])
        (F.wrote folder.old) (F.wrote folder.new)) }
    ensures left { OnErr result (AreKnown F.enclosed fragments.items
        → AreKnown F.enclosed dims.items
        → Writes (AreFirstOfThree (map (put F.enclosed) fragments.items)
        (map (put F.enclosed) dims.items) (map gone others.now))
        (F.wrote folder.old) (F.wrote folder.new)) }
    ensures refused { IfErr result (λ e. IsNotPut fragments.items e ⊎ IsNotPut dims.items e
        ⊎ IsNotGone others.now e ⊎ IsUnwritten cut.path e) }
    ensures stuck { IfErr result (IsStuck F.stays) }
    ensures unwritten { IfErr result (IsTriedFor (F.tries folder.old)) }
{
    put_all(folder, fragments)?;
    put_all(folder, dims)?;
    remove_all(folder, others)?;
    put_ready(folder, cut)
}

/// The same with the fragments' closed files. All paths are made first, so that memory can't run out
/// in the middle.
fn put_under_paths<F: Folder>(
    alloc: Global,
    folder: &mut F,
    target: &Target<'_>,
    cut: &Cut,
    files: VecDeque<F::Closed>,
    dims: VecDeque<Ready<F::Closed>>,
    cut_file: Ready<F::Closed>,
) -> Result<(), Refusal>
    requires files { length files.items ≡ length cut.now }
    requires cut_ready { IsCutReady F.enclosed (F.wrote folder.old) target.now.directory.now
        target.now.load cut.now cut_file }
    ensures written { OnOk result ((fragments columns : List (List ColumnSpec))
        → AreFragmentsClosed F.enclosed (F.wrote folder.old) target.now.load
        target.now.catalog.now.fact cut.now fragments files.items
        → AreEach (IsDimensionReady F.enclosed (F.wrote folder.old) target.now.directory.now
        target.now.load) (zip target.now.catalog.now.dims columns) dims.items
        → Writes (AreFiles target.now.directory.now target.now.load target.now.catalog.now cut.now
        fragments columns) (F.wrote folder.old) (F.wrote folder.new)) }
    ensures left { OnErr result ((fragments columns : List (List ColumnSpec))
        → AreFragmentsClosed F.enclosed (F.wrote folder.old) target.now.load
        target.now.catalog.now.fact cut.now fragments files.items
        → AreEach (IsDimensionReady F.enclosed (F.wrote folder.old) target.now.directory.now
        target.now.load) (zip target.now.catalog.now.dims columns) dims.items
        → Writes (AreFilesBegun target.now.directory.now target.now.load target.now.catalog.now
        cut.now fragments columns) (F.wrote folder.old) (F.wrote folder.new)) }
    ensures refused { IfErr result (λ e. (columns : List (List ColumnSpec))
        → AreEach (IsDimensionReady F.enclosed (F.wrote folder.old) target.now.directory.now
        target.now.load) (zip target.now.catalog.now.dims columns) dims.items
        → AreFilesUnwritten target.now.directory.now target.now.catalog.now cut.now e) }
    ensures whole { IfErr result (λ e. (F.wrote folder.new ≡ F.wrote folder.old)
        ⊎ IsStuck F.stays e) }
    ensures unwritten { IfErr result (IsTriedFor (F.tries folder.old)) }
{
    // No effect at run time. The proof reads from this call the limits of a cut.
    let _lengths = cut.lengths();
    let fragments = ready_fragments(alloc, target, files)?;
    let others = removal_paths(alloc, target, cut)?;
    put_files(folder, fragments, dims, others.as_slice(), cut_file)
}

/// Writes and closes the files of the dimensions and that of the cut. Then all files are put under
/// their paths: those of the fragments, those of the dimensions and, once the files of fragments are
/// taken away that the cut doesn't have, that of the cut.
///
/// # Errors
///
/// Out of memory, or the first file that cannot be written or taken away. No path has changed then,
/// unless a closed file could not be put under its path, or one could not be taken away: those before
/// it stay as they are.
pub fn save<F: Folder>(
    alloc: Global,
    folder: &mut F,
    target: &Target<'_>,
    cut: &Cut,
    files: VecDeque<F::Closed>,
    dims: &[Sequence<Column>],
) -> Result<(), Refusal>
    requires well_formed { IsWellFormed target.now.catalog.now }
    requires files { length files.items ≡ length cut.now }
    requires dims { AreEach AreDimensionColumns target.now.catalog.now.dims dims.now }
    ensures written { OnOk result ((fragments : List (List ColumnSpec))
        → AreFragmentsClosed F.enclosed (F.wrote folder.old) target.now.load
        target.now.catalog.now.fact cut.now fragments files.items
        → Writes (AreFiles target.now.directory.now target.now.load target.now.catalog.now cut.now
        fragments dims.now) (F.wrote folder.old) (F.wrote folder.new)) }
    ensures left { OnErr result ((fragments : List (List ColumnSpec))
        → AreFragmentsClosed F.enclosed (F.wrote folder.old) target.now.load
        target.now.catalog.now.fact cut.now fragments files.items
        → Writes (AreFilesBegun target.now.directory.now target.now.load target.now.catalog.now
        cut.now fragments dims.now) (F.wrote folder.old) (F.wrote folder.new)) }
    ensures refused { IfErr result
        (AreFilesUnwritten target.now.directory.now target.now.catalog.now cut.now) }
    ensures whole { IfErr result (λ e. (F.wrote folder.new ≡ F.wrote folder.old)
        ⊎ IsStuck F.stays e) }
    ensures unwritten { IfErr result (IsTriedFor (F.tries folder.old)) }
{
    let ready = write_dimensions(alloc, folder, target, dims)?;
    let cut_file = write_cut_file(alloc, folder, target, cut)?;
    put_under_paths(alloc, folder, target, cut, files, ready, cut_file)
}
