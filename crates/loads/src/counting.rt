//! The fact's rows, counted and cut.
ghost use Rattle.std.specs.Prelude.{◌≡◌, ◌≤◌, Ok, IfErr, IfOk, length, drop, sum};
ghost use Rattle.meaning.specs.Cut.{cut_of, even_lengths};
ghost use Rattle.loader.specs.Source.{csv_records};
ghost use Rattle.folders.specs.Folder.{csv_path};
ghost use Rattle.folders.specs.Refused.{IsUnread};
ghost use Rattle.loads.specs.Refusing.{IsUneven};

use folders::{Refusal, load_refusal};
use loader::count_rows;
use meaning::{Cut, Text};
use std::alloc::Global;

/// How many rows stand behind the header of a table's CSV file.
pub fn counted_rows(
    alloc: Global,
    directory: &str,
    table: &Text,
    csv: &[u8],
) -> Result<u64, Refusal>
    ensures counted { IfOk result (λ n. n ≡ length (drop 1 (csv_records csv.now))) }
    ensures refused { IfErr result (IsUnread (csv_path directory.now table.now)) }
{
    match count_rows(alloc, csv) {
        Ok(rows) => Ok(rows),
        Err(fault) => Err(load_refusal(alloc, directory, table.as_str(), fault)),
    }
}

/// The even cut of so many rows into fragments of `rows` rows.
pub fn even_cut(alloc: Global, counted: u64, rows: u32) -> Result<Cut, Refusal>
    requires { 1 ≤ rows }
    ensures evenly { IfOk result (λ cut. cut_of (even_lengths counted rows) ≡ Ok cut) }
    ensures whole { IfOk result (λ cut. sum cut ≡ counted) }
    ensures refused { IfErr result (IsUneven counted rows) }
{
    match Cut::even(alloc, counted, rows) {
        Ok(cut) => Ok(cut),
        Err(fault) => Err(Refusal::from(fault)),
    }
}
