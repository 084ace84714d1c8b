//! What to do about a catalogue that declares no tables.
use meaning::CatalogFault;

/// What to write in its place.
pub fn catalog_advice(fault: &CatalogFault) -> &'static str {
    match fault {
        CatalogFault::Memory => "",
        CatalogFault::NotUtf8 => "Save the file as UTF-8.",
        CatalogFault::UnknownLine { .. } => {
            "A line is `fact NAME`, `dim NAME key COLUMN`, `col NAME int` or `col NAME text`, with ` null` at the end where the column takes NULL, or a comment with # in front."
        }
        CatalogFault::NameTwice { .. } => {
            "Each table has a name of its own, and each column of a table: remove the line, or change the name there and in the header of the file."
        }
        CatalogFault::NotOneFact => {
            "Write one line `fact NAME` for the large table, and `dim NAME key COLUMN` for each of the others."
        }
        CatalogFault::UnfitKey => {
            "The key of a dimension is one of its own columns, declared without `null`."
        }
        CatalogFault::OverLimit => {
            "A table has 1 to 64 columns, a catalogue at most 16 dimensions, and a name at most 64 bytes."
        }
    }
}
