//! The laws of reading in turn. A body does nothing: the clause is a theorem on the definitions.
ghost use Rattle.std.specs.Prelude.{◌≡◌, ℕ, List};
ghost use Rattle.meaning.specs.declared.catalog.Column.{Column as AColumn};
ghost use Rattle.fragment_file.specs.FragmentReading.{groups_at, read_fragment};
ghost use Rattle.group_reader.specs.Coming.{coming_at, ended, file_in_turn, whole};

/// Row groups that come one after the other, and then the end, are those of the file that is read
/// whole.
pub fn streams_are_files()
    ensures { (group : ℕ) (columns : List AColumn) (sizes all rest : List ℕ)
        → whole (coming_at group columns sizes all rest)
        ≡ ended all (groups_at group columns sizes rest) }
{}

/// A header, row groups in turn and then the end are what the bytes are a file of, or the first thing
/// that is wrong with them.
pub fn row_groups_in_turn_are_the_file()
    ensures { (bytes : List ℕ) → file_in_turn bytes ≡ read_fragment bytes }
{}
