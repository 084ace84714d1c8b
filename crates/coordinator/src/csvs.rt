//! The CSV files that a query is given, by the names of their tables.
ghost use Rattle.std.specs.Prelude.{◌≡◌, ◌≢◌, ℕ, List, map, find, option_map, Ok, Err, OnOk, IfErr};
ghost use Rattle.std.specs.Str.{bytes_eq};
ghost use Rattle.meaning.specs.Results.{all_ok};
ghost use Rattle.meaning.specs.Wanting.{GivesIfMemory};
ghost use Rattle.coordinator.specs.Whole.{csv_of, files_in, joined_csvs};
ghost use Rattle.coordinator.specs.declared.fault.WholeFault.TheVariants as fault;

use crate::fault::WholeFault;
use meaning::{Join, Text};

fn find_csv<'a>(csvs: &[(&'a str, &'a [u8])], table: &str) -> Option<&'a [u8]>
    ensures { option_map (λ csv. csv.now) result
        ≡ option_map (λ file. file.1.now) (find (λ file. bytes_eq file.0.now table.now) csvs.now) }
{
    let (_, csv) = csvs.iter().find(|(name, _)| *name == table)?;
    Some(csv)
}

/// The CSV file of a table.
pub fn csv_of<'a>(csvs: &[(&'a str, &'a [u8])], table: &Text) -> Result<&'a [u8], WholeFault>
    ensures { GivesIfMemory fault.Memory (λ csv. csv.now) result
        (csv_of (files_in csvs.now) table.now) }
{
    match find_csv(csvs, table.as_str()) {
        Some(csv) => Ok(csv),
        None => Err(WholeFault::MissingCsv(table.clone()?)),
    }
}

/// Finds the CSV file of each join's dimension.
pub fn check_csvs<'a>(csvs: &[(&'a str, &'a [u8])], joins: &[Join]) -> Result<(), WholeFault>
    ensures found { OnOk result ((found : List (List ℕ))
        × (joined_csvs (files_in csvs.now) joins.now ≡ Ok found)) }
    ensures refused { IfErr result (λ e. e ≢ fault.Memory
        → joined_csvs (files_in csvs.now) joins.now ≡ Err e) }
{
    for join in joins {
        csv_of(csvs, &join.dim.name)?;
    }
    Ok(())
}
