//! More of why no catalogue was made.
use crate::fault::{InitFault, PathFault};
use crate::listing::{CsvFile, Listing};
use csv_names::{report_file, report_place};
use folders::{Folder, Refusal};
use std::alloc::Global;
use std::io::Write;
use std::mem::drop;

fn report_files<F: Folder, E: Write>(
    alloc: Global,
    folder: &F,
    directory: &str,
    files: &[CsvFile],
    err: &mut E,
) -> Result<(), Refusal> {
    for file in files {
        report_file(alloc, folder, directory, file.table.as_str(), err)?;
    }
    Ok(())
}

fn report_names<F: Folder + Listing, E: Write>(
    alloc: Global,
    folder: &F,
    directory: &str,
    err: &mut E,
) -> Result<(), Refusal> {
    let Ok(mut files) = folder.csv_files(alloc, directory) else {
        return Ok(());
    };
    if files.sort().is_err() {
        drop(files);
        return Err(Refusal::Memory);
    }
    let reported = report_files(alloc, folder, directory, files.as_slice(), err);
    drop(files);
    reported
}

/// Says more of a refusal: all names of files and columns that are none, or where the record is that is
/// no row.
///
/// # Errors
///
/// Out of memory, a file that can't be read, or a standard error that fails.
pub fn report_flaws<F: Folder + Listing, E: Write>(
    alloc: Global,
    folder: &F,
    directory: &str,
    fault: &InitFault,
    err: &mut E,
) -> Result<(), Refusal> {
    match fault {
        InitFault::Column { .. } => report_names(alloc, folder, directory, err),
        InitFault::Path { fault, .. } => match fault {
            PathFault::NoTableName => report_names(alloc, folder, directory, err),
            _ => Ok(()),
        },
        InitFault::Table { file, fault } => {
            report_place(alloc, folder, file.as_str(), *fault, err)
        }
        _ => Ok(()),
    }
}
