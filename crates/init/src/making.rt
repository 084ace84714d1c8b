//! The catalogue of a folder's CSV files.
ghost use Rattle.std.specs.Prelude.{◌≡◌, ◌⊎◌, true, ℕ, List, [], map, string_bytes, IfErr, IfOk, IfSome, OnErr, OnOk, option_map};
ghost use Rattle.std.specs.Io.KnownBytes.{Appends};
ghost use Rattle.folders.specs.Folder.{WritesOne, catalog_path, csv_path};
ghost use Rattle.init.specs.Guessed.{AreDimensionsOf, AreShown, DeclaresFiles, IsFirstKey, IsGuess, others};
ghost use Rattle.init.specs.Guessing.{AreDimensionsUnmade, IsAskedOrHidden, IsDimensionUnmade, IsFactOf, IsFactUnfound, IsGuessable, IsGuessRefused, IsListed, IsMakeRefused, IsNoCatalog, IsTableRefused, IsTextRefused, IsTextUndeclared, IsUnlisted, IsUnreported};
ghost use Rattle.init.specs.Making.{Declares, IsAsAsked, IsCatalogFor};
ghost use Rattle.init.specs.Refusing.{IsAskedFor, IsNotAbsent, IsTriedFor, IsUnwritten};
ghost use Rattle.init.specs.Saying.{AddsNotes, AreKeysOf, AreSaid, SaysChoices, SaysDimensions, SaysTables, dimension_line, fact_line, reason_of};
ghost use Rattle.init.specs.Shown.{is_short_name};

use crate::checking::{check_catalog, check_declared, opened};
use crate::choosing::{has_file, largest};
use crate::fault::{InitFault, PathFault, of_path};
use crate::keys::{Keyed, with_key};
use crate::listing::{CsvFile, Listing};
use crate::naming::check_table_name;
use crate::noting::{report_columns, report_others};
use crate::paths::catalog_path;
use crate::reading::read_table;
use crate::reporting::{Reason, report_dimension, report_fact};
use crate::telling::report_flaws;
use crate::writing::catalog_text;
use folders::{Folder, csv_path, write_file};
use meaning::{MAX_DIMENSIONS, Table, Text};
use std::alloc::Global;
use std::io::{ErrorKind, Write};
use std::mem::drop;

// The folder's CSV files, by their names.
fn listed<F: Listing>(alloc: Global, folder: &F, directory: &str) -> Result<Vec<CsvFile>, InitFault>
    ensures listed { IfOk result
        (λ files. IsListed (F.lists folder.now) directory.now files.items) }
    ensures refused { IfErr result (IsUnlisted (F.hides folder.now) directory.now) }
{
    match folder.csv_files(alloc, directory) {
        Ok(mut files) => {
            files.sort()?;
            Ok(files)
        }
        Err(_) => Err(of_path(alloc, directory, PathFault::CannotRead)),
    }
}

// The table of the file with this path.
fn table_at<F: Folder>(
    alloc: Global,
    folder: &F,
    path: &Text,
    table: &str,
) -> Result<Table, InitFault>
    ensures named { IfOk result (λ made. made.name ≡ table.now) }
    ensures short { OnOk result (is_short_name table.now ≡ true) }
    ensures shown { IfOk result (λ made. AreShown (F.holds folder.now) path.now made.columns) }
    ensures refused { IfErr result (IsTableRefused (F.holds folder.now) path.now table.now) }
    ensures unread { IfErr result (IsAskedFor (F.asks folder.now)) }
{
    check_table_name(alloc, path.as_str(), table)?;
    let name = Text::new(alloc, table)?;
    let file = opened(folder, path)?;
    read_table(alloc, path, name, file)
}

// The table of a file.
fn table_of<F: Folder>(
    alloc: Global,
    folder: &F,
    directory: &str,
    table: &str,
) -> Result<Table, InitFault>
    ensures named { IfOk result (λ made. made.name ≡ table.now) }
    ensures short { OnOk result (is_short_name table.now ≡ true) }
    ensures shown { IfOk result
        (λ made. AreShown (F.holds folder.now) (csv_path directory.now table.now) made.columns) }
    ensures refused { IfErr result
        (IsTableRefused (F.holds folder.now) (csv_path directory.now table.now) table.now) }
    ensures unread { IfErr result (IsAskedFor (F.asks folder.now)) }
{
    let path = csv_path(alloc, directory, table)?;
    table_at(alloc, folder, &path, table)
}

// The dimension of a file, whose key is said on `err`.
fn dimension_of<F: Folder, E: Write>(
    alloc: Global,
    folder: &F,
    directory: &str,
    table: &str,
    err: &mut E,
) -> Result<Keyed, InitFault>
    ensures made { IfOk result (λ keyed. (keyed.dimension.table.name ≡ table.now)
        × (is_short_name table.now ≡ true)
        × AreShown (F.holds folder.now) (csv_path directory.now table.now)
        keyed.dimension.table.columns
        × IsFirstKey (F.holds folder.now) (csv_path directory.now table.now) keyed.dimension) }
    ensures keys { IfOk result (λ keyed.
        AreKeysOf (F.holds folder.now) (csv_path directory.now table.now) keyed.dimension
        keyed.others.items) }
    ensures said { IfOk result (λ keyed. Appends (E.contents err.old) (E.contents err.new)
        (dimension_line keyed.dimension keyed.others.items)) }
    ensures refused { IfErr result
        (IsDimensionUnmade (F.holds folder.now) (csv_path directory.now table.now) table.now) }
    ensures unread { IfErr result (IsAskedFor (F.asks folder.now)) }
{
    let table = table_of(alloc, folder, directory, table)?;
    let dimension = with_key(alloc, folder, directory, table)?;
    match report_dimension(alloc, &dimension, err) {
        Ok(()) => Ok(dimension),
        Err(fault) => {
            drop(dimension);
            Err(fault)
        }
    }
}

fn add_dimensions<F: Folder, E: Write>(
    alloc: Global,
    folder: &F,
    directory: &str,
    files: &[CsvFile],
    fact: &str,
    dims: &mut Vec<Keyed>,
    err: &mut E,
) -> Result<(), InitFault>
    ensures made { OnOk result ((dims.old.items ≡ [])
        → AreDimensionsOf (F.holds folder.now) directory.now (others fact.now files.now)
        (map (λ keyed. keyed.dimension) dims.new.items)) }
    ensures said { OnOk result ((dims.old.items ≡ []) → (text : List ℕ)
        × AreSaid (F.holds folder.now) directory.now
        (map (λ keyed. keyed.dimension) dims.new.items) text
        × Appends (E.contents err.old) (E.contents err.new) text) }
    ensures refused { IfErr result (λ e. (dims.old.items ≡ [])
        → AreDimensionsUnmade (F.holds folder.now) directory.now files.now fact.now e) }
    ensures unread { IfErr result (IsAskedFor (F.asks folder.now)) }
{
    for file in files {
        if file.table.as_str() == fact {
            continue;
        }
        let dimension = dimension_of(alloc, folder, directory, file.table.as_str(), err)?;
        dims.push(dimension)?;
    }
    Ok(())
}

// The dimensions, of all files but the fact's.
fn dimensions_of<F: Folder, E: Write>(
    alloc: Global,
    folder: &F,
    directory: &str,
    files: &[CsvFile],
    fact: &str,
    err: &mut E,
) -> Result<Vec<Keyed>, InitFault>
    ensures made { IfOk result
        (λ dims. AreDimensionsOf (F.holds folder.now) directory.now (others fact.now files.now)
        (map (λ keyed. keyed.dimension) dims.items)) }
    ensures said { IfOk result (λ dims. (text : List ℕ)
        × AreSaid (F.holds folder.now) directory.now (map (λ keyed. keyed.dimension) dims.items)
        text
        × Appends (E.contents err.old) (E.contents err.new) text) }
    ensures refused { IfErr result
        (AreDimensionsUnmade (F.holds folder.now) directory.now files.now fact.now) }
    ensures unread { IfErr result (IsAskedFor (F.asks folder.now)) }
{
    let mut dims = Vec::new(alloc);
    match add_dimensions(alloc, folder, directory, files, fact, &mut dims, err) {
        Ok(()) => Ok(dims),
        Err(fault) => {
            drop(dims);
            Err(fault)
        }
    }
}

// Which of the files is the fact's.
fn fact_of<'a, E: Write>(
    alloc: Global,
    directory: &str,
    files: &'a [CsvFile],
    asked: Option<&'a str>,
    err: &mut E,
) -> Result<&'a str, InitFault>
    ensures named { IfOk result (λ name. IfSome asked.entry (λ asked. name.now ≡ asked.now)) }
    ensures found { IfOk result
        (λ name. IsFactOf (option_map (λ asked. asked.now) asked.entry) files.entry.now name.now) }
    ensures said { IfOk result (λ name. Appends (E.contents err.old) (E.contents err.new)
        (fact_line (reason_of (option_map (λ asked. asked.now) asked.entry)) name.now)) }
    ensures refused { IfErr result
        (IsFactUnfound (option_map (λ asked. asked.now) asked.entry) files.entry.now
        directory.now) }
{
    if let Some(asked) = asked {
        if !has_file(files, asked) {
            let path = csv_path(alloc, directory, asked)?;
            return Err(of_path(alloc, path.as_str(), PathFault::NoFact));
        }
        return match report_fact(asked, Reason::Asked, err) {
            Ok(()) => Ok(asked),
            Err(_) => Err(InitFault::CannotReport),
        };
    }
    let Some(fact) = largest(files) else {
        return Err(of_path(alloc, directory, PathFault::NoFile));
    };
    match report_fact(fact, Reason::Largest, err) {
        Ok(()) => Ok(fact),
        Err(_) => Err(InitFault::CannotReport),
    }
}

// The text of a catalogue that has these tables.
fn text_of(alloc: Global, fact: &Table, dims: &[Keyed]) -> Result<String, InitFault>
    ensures declared { IfOk result
        (λ text. Declares fact.now (map (λ keyed. keyed.dimension) dims.now) (string_bytes text)) }
    ensures refused { IfErr result (λ e. (text : List ℕ) × IsNoCatalog text e) }
{
    let text = catalog_text(alloc, fact, dims)?;
    match check_declared(alloc, text.as_bytes(), fact, dims) {
        Ok(()) => Ok(text),
        Err(fault) => {
            drop(text);
            Err(fault)
        }
    }
}

// The text of a catalogue with this fact and the dimensions of all other files.
fn text_with<F: Folder, E: Write>(
    alloc: Global,
    folder: &F,
    directory: &str,
    files: &[CsvFile],
    fact: &Table,
    err: &mut E,
) -> Result<String, InitFault>
    ensures declared { IfOk result
        (λ text. DeclaresFiles (F.holds folder.now) directory.now files.now fact.now
        (string_bytes text)) }
    ensures said { IfOk result (λ text. SaysDimensions (F.holds folder.now) directory.now
        (string_bytes text) (E.contents err.old) (E.contents err.new)) }
    ensures refused { IfErr result
        (λ e. AreDimensionsUnmade (F.holds folder.now) directory.now files.now fact.now.name e
        ⊎ ((text : List ℕ) × IsNoCatalog text e)) }
    ensures unread { IfErr result (IsAskedFor (F.asks folder.now)) }
{
    let dims = dimensions_of(alloc, folder, directory, files, fact.name.as_str(), err)?;
    let text = text_of(alloc, fact, dims.as_slice());
    drop(dims);
    text
}

fn text_for<F: Folder, E: Write>(
    alloc: Global,
    folder: &F,
    directory: &str,
    files: &[CsvFile],
    fact: &str,
    err: &mut E,
) -> Result<String, InitFault>
    ensures guess { IfOk result
        (λ text. IsGuess (F.holds folder.now) directory.now files.now fact.now
        (string_bytes text)) }
    ensures said { IfOk result (λ text. SaysDimensions (F.holds folder.now) directory.now
        (string_bytes text) (E.contents err.old) (E.contents err.new)) }
    ensures refused { IfErr result
        (IsTextUndeclared (F.holds folder.now) directory.now files.now fact.now) }
    ensures unread { IfErr result (IsAskedFor (F.asks folder.now)) }
{
    let table = table_of(alloc, folder, directory, fact)?;
    let text = text_with(alloc, folder, directory, files, &table, err);
    drop(table);
    text
}

// The text of a catalogue with this fact, under which the files load.
fn checked_text<F: Folder, E: Write>(
    alloc: Global,
    folder: &F,
    directory: &str,
    files: &[CsvFile],
    fact: &str,
    err: &mut E,
) -> Result<Text, InitFault>
    ensures fit { IfOk result (IsCatalogFor (F.holds folder.now) directory.now) }
    ensures guess { IfOk result
        (IsGuess (F.holds folder.now) directory.now files.now fact.now) }
    ensures said { IfOk result (λ text. SaysDimensions (F.holds folder.now) directory.now
        text (E.contents err.old) (E.contents err.new)) }
    ensures refused { IfErr result
        (IsTextRefused (F.holds folder.now) directory.now files.now fact.now) }
    ensures unread { IfErr result (IsAskedFor (F.asks folder.now)) }
{
    let text = text_for(alloc, folder, directory, files, fact, err)?;
    check_catalog(alloc, folder, directory, text.as_bytes())?;
    Ok(Text::from_string(text))
}

// The text of a catalogue for a folder's CSV files. The tables and their keys are said on `err`.
fn guessed<F: Folder + Listing, E: Write>(
    alloc: Global,
    folder: &F,
    directory: &str,
    fact: Option<&str>,
    err: &mut E,
) -> Result<Text, InitFault>
    ensures fit { IfOk result (IsCatalogFor (F.holds folder.now) directory.now) }
    ensures named { IfOk result (IsAsAsked (option_map (λ fact. fact.now) fact.entry)) }
    ensures guessable { IfOk result
        (IsGuessable (F.holds folder.now) (F.lists folder.now) directory.now
        (option_map (λ fact. fact.now) fact.entry)) }
    ensures said { IfOk result (λ text. SaysTables (F.holds folder.now) directory.now
        (option_map (λ fact. fact.now) fact.entry) text (E.contents err.old)
        (E.contents err.new)) }
    ensures refused { IfErr result
        (IsGuessRefused (F.holds folder.now) (F.lists folder.now) (F.hides folder.now)
        directory.now
        (option_map (λ fact. fact.now) fact.entry)) }
    ensures unread { IfErr result
        (IsAskedFor (IsAskedOrHidden (F.asks folder.now) (F.hides folder.now) directory.now)) }
{
    let files = listed(alloc, folder, directory)?;
    let fact = fact_of(alloc, directory, files.as_slice(), fact, err)?;
    if files.len() > MAX_DIMENSIONS + 1 {
        return Err(InitFault::TooManyDimensions);
    }
    checked_text(alloc, folder, directory, files.as_slice(), fact, err)
}

// Says why columns are texts, and which files are passed over.
fn report_notes<F: Folder + Listing, E: Write>(
    alloc: Global,
    folder: &F,
    directory: &str,
    text: &Text,
    err: &mut E,
) -> Result<(), InitFault>
    ensures said { OnOk result (AddsNotes (E.contents err.old) (E.contents err.new)) }
    ensures refused { IfErr result IsUnreported }
{
    report_columns(alloc, folder, directory, text, err)?;
    report_others(alloc, folder, directory, err)
}

/// The text of a catalogue under which a folder's CSV files load. The fact is the table of this
/// name, or that of the largest file; all others are dimensions. What was chosen is said on `err`, and why columns are texts.
///
/// # Errors
///
/// Out of memory, a file that can't be read, a name that no catalogue takes, and a table that is
/// over a limit, has a fault in its records or, of a dimension, has no key.
pub fn guess_catalog<F: Folder + Listing, E: Write>(
    alloc: Global,
    folder: &F,
    directory: &str,
    fact: Option<&str>,
    err: &mut E,
) -> Result<Text, InitFault>
    ensures fit { IfOk result (IsCatalogFor (F.holds folder.now) directory.now) }
    ensures named { IfOk result (IsAsAsked (option_map (λ fact. fact.now) fact.entry)) }
    ensures guessable { IfOk result
        (IsGuessable (F.holds folder.now) (F.lists folder.now) directory.now
        (option_map (λ fact. fact.now) fact.entry)) }
    ensures said { IfOk result (λ text. SaysChoices (F.holds folder.now) directory.now
        (option_map (λ fact. fact.now) fact.entry) text (E.contents err.old)
        (E.contents err.new)) }
    ensures refused { IfErr result
        (IsGuessRefused (F.holds folder.now) (F.lists folder.now) (F.hides folder.now)
        directory.now
        (option_map (λ fact. fact.now) fact.entry)) }
    ensures unread { IfErr result
        (IsAskedFor (IsAskedOrHidden (F.asks folder.now) (F.hides folder.now) directory.now)) }
{
    let text = guessed(alloc, folder, directory, fact, err)?;
    match report_notes(alloc, folder, directory, &text, err) {
        Ok(()) => Ok(text),
        Err(fault) => {
            drop(text);
            Err(fault)
        }
    }
}

// Refuses a path under which there is a file, or may be one.
fn check_absent<F: Folder>(alloc: Global, folder: &F, path: &Text) -> Result<(), InitFault>
    ensures absent { OnOk result (F.lacks folder.now path.now) }
    ensures refused { IfErr result (IsNotAbsent (F.opens folder.now) path.now) }
    ensures unread { IfErr result (IsAskedFor (F.asks folder.now)) }
{
    match folder.open(path.as_str()) {
        Ok(_) => Err(of_path(alloc, path.as_str(), PathFault::CatalogThere)),
        Err(error) => match error.kind() {
            ErrorKind::NotFound => Ok(()),
            ErrorKind::OutOfMemory => Err(InitFault::Memory),
            _ => Err(of_path(alloc, path.as_str(), PathFault::CannotRead)),
        },
    }
}

fn write_text<F: Folder>(folder: &mut F, path: &Text, text: &Text) -> Result<(), InitFault>
    ensures written { OnOk result
        (WritesOne path.now (λ given. given ≡ text.now) (F.wrote folder.old) (F.wrote folder.new)) }
    ensures refused { IfErr result (IsUnwritten path.now) }
    ensures unchanged { OnErr result (F.wrote folder.new ≡ F.wrote folder.old) }
    ensures unwritten { IfErr result (IsTriedFor (F.tries folder.old)) }
{
    match write_file(folder, path, text.as_bytes()) {
        Ok(()) => Ok(()),
        Err(refusal) => Err(InitFault::from(refusal)),
    }
}

// The same, and where there is none, more is said of what is wrong.
fn guess_or_tell<F: Folder + Listing, E: Write>(
    alloc: Global,
    folder: &F,
    directory: &str,
    fact: Option<&str>,
    err: &mut E,
) -> Result<Text, InitFault>
    ensures fit { IfOk result (IsCatalogFor (F.holds folder.now) directory.now) }
    ensures named { IfOk result (IsAsAsked (option_map (λ fact. fact.now) fact.entry)) }
    ensures guessable { IfOk result
        (IsGuessable (F.holds folder.now) (F.lists folder.now) directory.now
        (option_map (λ fact. fact.now) fact.entry)) }
    ensures said { IfOk result (λ text. SaysChoices (F.holds folder.now) directory.now
        (option_map (λ fact. fact.now) fact.entry) text (E.contents err.old)
        (E.contents err.new)) }
    ensures refused { IfErr result
        (IsGuessRefused (F.holds folder.now) (F.lists folder.now) (F.hides folder.now)
        directory.now
        (option_map (λ fact. fact.now) fact.entry)) }
    ensures unread { IfErr result
        (IsAskedFor (IsAskedOrHidden (F.asks folder.now) (F.hides folder.now) directory.now)) }
{
    match guess_catalog(alloc, folder, directory, fact, err) {
        Ok(text) => Ok(text),
        Err(fault) => {
            // The refusal says the first of it, and a closed standard error leaves nobody to tell.
            let _ = report_others(alloc, folder, directory, err);
            let _ = report_flaws(alloc, folder, directory, &fault, err);
            Err(fault)
        }
    }
}

/// Writes the catalogue of a folder's CSV files, as `guess_catalog` gives it, where there is none.
///
/// # Errors
///
/// As those of `guess_catalog`, a catalogue that is there, or one that can't be written. No file
/// has changed then.
pub fn make_catalog<F: Folder + Listing, E: Write>(
    alloc: Global,
    folder: &mut F,
    directory: &str,
    fact: Option<&str>,
    err: &mut E,
) -> Result<(), InitFault>
    ensures absent { OnOk result (F.lacks folder.old (catalog_path directory.now)) }
    ensures made { OnOk result ((text : List ℕ)
        × IsCatalogFor (F.holds folder.old) directory.now text
        × IsAsAsked (option_map (λ fact. fact.now) fact.entry) text
        × IsGuessable (F.holds folder.old) (F.lists folder.old) directory.now
        (option_map (λ fact. fact.now) fact.entry) text
        × WritesOne (catalog_path directory.now) (λ given. given ≡ text) (F.wrote folder.old)
        (F.wrote folder.new)
        × SaysChoices (F.holds folder.old) directory.now
        (option_map (λ fact. fact.now) fact.entry) text (E.contents err.old)
        (E.contents err.new)) }
    ensures refused { IfErr result
        (IsMakeRefused (F.holds folder.old) (F.opens folder.old) (F.lacks folder.old)
        (F.lists folder.old) (F.hides folder.old) directory.now (option_map (λ fact. fact.now) fact.entry)) }
    ensures unchanged { OnErr result (F.wrote folder.new ≡ F.wrote folder.old) }
    ensures unread { IfErr result
        (IsAskedFor (IsAskedOrHidden (F.asks folder.old) (F.hides folder.old) directory.now)) }
    ensures unwritten { IfErr result (IsTriedFor (F.tries folder.old)) }
{
    let path = catalog_path(alloc, directory)?;
    check_absent(alloc, folder, &path)?;
    let text = guess_or_tell(alloc, folder, directory, fact, err)?;
    write_text(folder, &path, &text)
}
