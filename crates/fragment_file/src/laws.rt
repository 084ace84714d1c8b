//! The laws of the formats. A body does nothing: the clause is a theorem on the definitions.
ghost use Rattle.std.specs.Prelude.{◌≡◌, ℕ, List};
ghost use Rattle.columns.specs.Column.{ColumnSpec};
ghost use Rattle.fragment_file.specs.declared.header.Header.{Header as AHeader};
ghost use Rattle.fragment_file.specs.Fragment.{FragmentSpec, IsFileOf, Stands};
ghost use Rattle.fragment_file.specs.CutFile.{CutFileSpec, IsCutFileOf};
ghost use Rattle.fragment_file.specs.Rows.{RowsAreColumns, RowsAreCounted};

/// Bytes are the file of one header with one list of row groups at most.
pub fn one_file()
    ensures { (bytes : List ℕ) (f g : FragmentSpec) → IsFileOf bytes f → IsFileOf bytes g → f ≡ g }
{}

/// Bytes encode one header with one list of columns at most.
pub fn one_table_slice()
    ensures { (bytes : List ℕ) (h k : AHeader) (cs ds : List ColumnSpec) → Stands bytes h cs
        → Stands bytes k ds → (h ≡ k) × (cs ≡ ds) }
{}

/// Bytes are the file of one cut of one load at most.
pub fn one_cut()
    ensures { (bytes : List ℕ) (f g : CutFileSpec) → IsCutFileOf bytes f → IsCutFileOf bytes g
        → f ≡ g }
{}

/// The rows of a file's row groups have in each column what the file's column holds.
pub fn rows_are_columns()
    ensures { RowsAreColumns }
{}

/// A file has as many rows as its header declares.
pub fn rows_are_counted()
    ensures { RowsAreCounted }
{}
