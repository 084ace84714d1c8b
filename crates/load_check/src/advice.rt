//! What to do about a fault of a file.
use meaning::TableFault;

/// What to do about a field.
pub fn field_advice(fault: TableFault) -> &'static str {
    match fault {
        TableFault::NotAnInteger { .. } => {
            "Correct the field, or declare the column as text in catalog.txt."
        }
        TableFault::NullNotAllowed { .. } => {
            "Fill in the field, or declare the column as null in catalog.txt."
        }
        TableFault::TextTooLong { .. } => "Shorten the field.",
        TableFault::NotUtf8 { .. } => {
            "Save the file as UTF-8, as with `iconv -f LATIN1 -t UTF-8`."
        }
        _ => "",
    }
}

/// What is wrong with a field.
pub fn field_words(fault: TableFault) -> &'static str {
    match fault {
        TableFault::NotAnInteger { .. } => "is not an integer of 64 bits",
        TableFault::NullNotAllowed { .. } => "is NULL, which the column does not take",
        TableFault::TextTooLong { .. } => "is longer than 65,535 bytes",
        TableFault::NotUtf8 { .. } => "is not UTF-8",
        _ => "",
    }
}

/// What to do about a header.
pub const HEADER_ADVICE: &str =
    "The header names each column of the table once, in any order: change it, or the columns of the table in catalog.txt.";

/// What to do about a record with too many fields, or too few.
pub const COUNT_ADVICE: &str =
    "Give the row one field for each column; a field that has a comma, a quote or a line end is written between quotes.";

/// What to do about a key that is there twice.
pub const KEY_ADVICE: &str =
    "The key of a dimension has another value in each row: remove one of the two rows, or declare another key in catalog.txt.";

/// What to do about a dimension with too many rows.
pub const ROWS_ADVICE: &str =
    "A dimension has at most 1,048,576 rows: declare this table as the fact, or remove rows.";
