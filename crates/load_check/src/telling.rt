//! The command `check`.
ghost use Rattle.std.specs.Prelude.{◌≡◌, ◌⊎◌, not, true, IfOk, OnOk};
ghost use Rattle.std.specs.Io.KnownBytes.{Appends};
ghost use Rattle.load_check.specs.Checking.{IsFolderFit, IsTold, Tells, TellsTables, fit_line, is_fault, told_text};

use crate::catalog_fault::catalog_advice;
use crate::checking::{Unfit, first_unfit};
use crate::sentence::sentence;
use crate::site::Site;
use folders::{Folder, Refusal, csv_path, read_tables};
use init::{InitFault, PathFault};
use meaning::{Catalog, CatalogFault, Table, TableFault};
use std::alloc::{AllocError, Global};
use std::io;
use std::io::Write;
use std::mem::drop;

/// What is told of a folder.
#[derive(Drop)]
pub enum Told {
    NoFault,
    /// Some lines: the fault's place, and what to do.
    Fault(String),
}

fn catalog_text(
    alloc: Global,
    directory: &str,
    fault: &CatalogFault,
) -> Result<String, AllocError> {
    let advice = catalog_advice(fault);
    format!(in alloc; "{directory}: catalog.txt: {fault}\n{advice}\n")
}

fn unread_text(alloc: Global, path: &str) -> Result<String, AllocError> {
    format!(in alloc;
        "{path}: the file can't be read\nThe folder has a file catalog.txt, and a file NAME.csv for each table that it declares.\n"
    )
}

fn rows_text(alloc: Global, path: &str) -> Result<String, AllocError> {
    format!(in alloc;
        "{path}: the file has over 4,294,967,296 rows\nDivide it into several files, each in a folder of its own.\n"
    )
}

// Why the catalogue declares no tables.
fn text_of_refusal(
    alloc: Global,
    directory: &str,
    refusal: &Refusal,
) -> Result<String, AllocError> {
    match refusal {
        Refusal::Catalog(fault) => catalog_text(alloc, directory, fault),
        Refusal::CannotRead(path) => unread_text(alloc, path.as_str()),
        _ => Err(AllocError),
    }
}

// What is wrong with the records of a table.
fn text_of_table<F: Folder>(
    alloc: Global,
    folder: &F,
    directory: &str,
    table: &Table,
    key: Option<usize>,
    fault: TableFault,
) -> Result<String, Refusal> {
    let path = csv_path(alloc, directory, table.name.as_str())?;
    let site = Site {
        directory,
        path: &path,
        table,
        key,
    };
    sentence(alloc, folder, &site, fault)
}

fn text_of_path(alloc: Global, path: &str, fault: PathFault) -> Result<String, AllocError> {
    match fault {
        PathFault::TooManyRows => rows_text(alloc, path),
        _ => unread_text(alloc, path),
    }
}

// Why a table's file isn't loaded.
fn text_of_fault<F: Folder>(
    alloc: Global,
    folder: &F,
    directory: &str,
    table: &Table,
    key: Option<usize>,
    fault: &InitFault,
) -> Result<String, Refusal> {
    match fault {
        InitFault::Table { fault, .. } => {
            text_of_table(alloc, folder, directory, table, key, *fault)
        }
        InitFault::Path { path, fault } => Ok(text_of_path(alloc, path.as_str(), *fault)?),
        _ => Err(Refusal::Memory),
    }
}

// Which table is the first that isn't loaded, and why.
fn text_of_unfit<F: Folder>(
    alloc: Global,
    folder: &F,
    directory: &str,
    catalog: &Catalog,
    unfit: &Unfit,
) -> Result<String, Refusal> {
    let Some(index) = unfit.dimension else {
        return text_of_fault(alloc, folder, directory, &catalog.fact, None, &unfit.fault);
    };
    match catalog.dims.get(index) {
        Some(dim) => {
            text_of_fault(
                alloc,
                folder,
                directory,
                &dim.table,
                Some(dim.key),
                &unfit.fault,
            )
        }
        None => Err(Refusal::Memory),
    }
}

fn fault_of_text(text: Result<String, Refusal>) -> Result<Told, Refusal>
    ensures { IfOk result (λ told. is_fault told ≡ true) }
{
    match text {
        Ok(text) => Ok(Told::Fault(text)),
        Err(refusal) => Err(refusal),
    }
}

// The first fault of the tables that are declared, or that there is none.
#[tactic(auto, using(crate::proofs::FirstUnfit::fault_told))]
fn told_of_tables<F: Folder>(
    alloc: Global,
    folder: &F,
    directory: &str,
    catalog: &Catalog,
) -> Result<Told, Refusal>
    ensures told { IfOk result (TellsTables (F.holds folder.now) directory.now catalog.now) }
{
    match first_unfit(alloc, folder, directory, catalog) {
        Ok(()) => Ok(Told::NoFault),
        Err(unfit) => {
            let text = text_of_unfit(alloc, folder, directory, catalog, &unfit);
            drop(unfit);
            fault_of_text(text)
        }
    }
}

/// The first fault that a load of the folder's tables would have, or that there is none.
///
/// # Errors
///
/// Out of memory, or a file that can't be read for the second time.
#[tactic(auto, using(crate::proofs::FirstUnfit::folder_told))]
pub fn first_fault<F: Folder>(alloc: Global, folder: &F, directory: &str) -> Result<Told, Refusal>
    ensures told { IfOk result (IsTold (F.holds folder.now) directory.now) }
{
    match read_tables(alloc, folder, directory) {
        Ok(catalog) => {
            let told = told_of_tables(alloc, folder, directory, &catalog);
            drop(catalog);
            told
        }
        Err(refusal) => match text_of_refusal(alloc, directory, &refusal) {
            Ok(text) => {
                drop(refusal);
                Ok(Told::Fault(text))
            }
            Err(AllocError) => {
                drop(refusal);
                Err(Refusal::Memory)
            }
        },
    }
}

fn print_fit<O: Write>(directory: &str, out: &mut O) -> io::Result<()>
    ensures { OnOk result (Appends (O.contents out.old) (O.contents out.new)
        (fit_line directory.now)) }
{
    writeln!(
        out,
        "{directory}: no fault; each file loads as catalog.txt declares it"
    )
}

// Prints what is told, and whether there is no fault.
fn print_told<O: Write>(directory: &str, told: &Told, out: &mut O) -> io::Result<bool>
    ensures { IfOk result (λ fit. (is_fault told.now ≡ not fit)
        × Appends (O.contents out.old) (O.contents out.new)
        (told_text directory.now told.now)) }
{
    match told {
        Told::NoFault => {
            print_fit(directory, out)?;
            Ok(true)
        }
        Told::Fault(text) => {
            out.write_all(text.as_bytes())?;
            Ok(false)
        }
    }
}

// Tells the first fault that a load would have, and whether there is none.
#[tactic(auto, using(crate::proofs::FirstUnfit::printed))]
fn tell<F: Folder, O: Write>(
    alloc: Global,
    folder: &F,
    directory: &str,
    out: &mut O,
) -> Result<bool, Refusal>
    ensures told { IfOk result (λ fit. Tells (F.holds folder.now) directory.now fit
        (O.contents out.old) (O.contents out.new)) }
{
    let told = first_fault(alloc, folder, directory)?;
    let printed = print_told(directory, &told, out);
    drop(told);
    match printed {
        Ok(fit) => Ok(fit),
        Err(_) => Err(Refusal::CannotPrint),
    }
}

fn report<E: Write>(refusal: &Refusal, err: &mut E) -> io::Result<()> {
    match refusal {
        Refusal::CannotPrint => err.write_all(b"xcols: cannot write standard output\n"),
        Refusal::CannotRead(path) => writeln!(err, "xcols: cannot read {}", path.as_str()),
        _ => err.write_all(b"xcols: memory\n"),
    }
}

/// Prints the first fault that a load of the folder's tables would have, with the line of the file,
/// the column and what to do, or a line that there is none. Gives the exit status: 0 without a fault, 1
/// with one, or where memory or standard output is wanting, and then a line on `err` says so.
pub fn check<F: Folder, O: Write, E: Write>(
    alloc: Global,
    folder: &F,
    directory: &str,
    out: &mut O,
    err: &mut E,
) -> u8
    ensures status { (result ≡ 0) ⊎ (result ≡ 1) }
    ensures fit { result ≡ 0 → IsFolderFit (F.holds folder.now) directory.now }
    ensures said { result ≡ 0 → Appends (O.contents out.old) (O.contents out.new)
        (fit_line directory.now) }
    ensures silent { result ≡ 0 → E.contents err.new ≡ E.contents err.old }
{
    match tell(alloc, folder, directory, out) {
        Ok(true) => 0,
        Ok(false) => 1,
        Err(refusal) => {
            // A closed standard error leaves nobody to print to.
            let _ = report(&refusal, err);
            1
        }
    }
}
