//! Which of the files is the fact's.
ghost use Rattle.std.specs.Prelude.{◌≡◌, [], MatchOption};
ghost use Rattle.init.specs.Guessing as guessing;
ghost use Rattle.init.specs.Guessing.{IsLargest};

use crate::listing::CsvFile;

/// Whether there is a file of this table.
pub fn has_file(files: &[CsvFile], table: &str) -> bool
    ensures { result ≡ guessing.has_file files.now table.now }
{
    files.iter().any(|file| file.table.as_str() == table)
}

/// The table of the largest file, and of several so large of the first.
pub fn largest(files: &[CsvFile]) -> Option<&str>
    ensures { MatchOption result (files.now ≡ []) (λ name. IsLargest files.now name.now) }
{
    let mut most = files.first()?;
    for file in files {
        if file.bytes > most.bytes {
            most = file;
        }
    }
    Some(most.table.as_str())
}
