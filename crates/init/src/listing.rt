//! The CSV files of a folder.
ghost use Rattle.std.specs.Prelude.{ℕ, List, IfOk, OnErr, ⊤};
ghost use Rattle.init.specs.declared.listing.CsvFile.{CsvFile as ACsvFile};

use std::alloc::Global;
use std::io;

/// A CSV file of a folder.
#[derive(Debug, Drop, PartialEq, Eq, PartialOrd, Ord)]
pub struct CsvFile {
    /// The file's name without `.csv`.
    pub table: String,
    /// How many bytes it has.
    pub bytes: u64,
}

/// A folder whose files can be listed. It may say in its contracts which files there are.
pub trait Listing {
    // What the files of a folder meet once they were listed.
    ghost lists: { Self → List ℕ → List ACsvFile → Type 0 } = { λ _ _ _. ⊤ };

    // What a folder meets whose files can't be listed.
    ghost hides: { Self → List ℕ → Type 0 } = { λ _ _. ⊤ };

    /// The files `NAME.csv` that lie right in a folder, in any order.
    fn csv_files(&self, alloc: Global, directory: &str) -> io::Result<Vec<CsvFile>>
        ensures listed { IfOk result (λ files. lists self.now directory.now files.items) }
        ensures hidden { OnErr result (hides self.now directory.now) };

    /// The names of the other files that lie right in a folder, in any order.
    fn other_files(&self, alloc: Global, directory: &str) -> io::Result<Vec<String>> {
        Ok(Vec::new(alloc))
    }
}
