//! Files that aren't read, though they look like tables.

fn ends_with(name: &[u8], ending: &[u8]) -> bool {
    match name.len().checked_sub(ending.len()) {
        Some(front) => name[front..].eq_ignore_ascii_case(ending),
        None => false,
    }
}

/// What to do about a file that is no `NAME.csv` and looks like a table, by its ending.
pub fn advice_by_ending(name: &str) -> Option<&'static str> {
    let name = name.as_bytes();
    if ends_with(name, b".csv") {
        return Some("rename it, so that it ends with .csv");
    }
    if ends_with(name, b".tsv") || ends_with(name, b".tab") {
        return Some("xcols reads commas; convert it, as by `mlr --icsv --ifs tab --ocsv cat`");
    }
    if ends_with(name, b".csv.gz") || ends_with(name, b".csv.zst") || ends_with(name, b".csv.xz") {
        return Some("unpack it first");
    }
    None
}
