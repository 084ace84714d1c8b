//! Lines and words of a case.
use crate::words::comparison_of;
use meaning::ComparisonOperator;

pub const LANES: usize = 8;

/// The lines of a case, and how many there are.
#[derive(Drop)]
pub struct Lines<'a> {
    pub lines: [&'a str; 8],
    pub count: usize,
}

pub fn lines_of(body: &str) -> Lines<'_> {
    let mut lines = [""; 8];
    let mut count = 0;
    let mut rest = body.lines();
    for i in 0..LANES {
        let Some(line) = rest.next() else {
            break;
        };
        lines[i] = line;
        count = i + 1;
    }
    Lines { lines, count }
}

pub fn first_word(line: &str) -> &str {
    match line.split_once(' ') {
        None => line,
        Some((first, _)) => first,
    }
}

pub fn second_word(line: &str) -> &str {
    match line.split_once(' ') {
        None => "",
        Some((_, second)) => second,
    }
}

pub fn is_null(word: &str) -> bool {
    word == "\\N"
}

pub fn int_of(word: &str) -> i64 {
    word.parse().unwrap_or(0)
}

/// The comparison; any other word is `>=`.
pub fn operator_of(word: &str) -> ComparisonOperator {
    comparison_of(word).unwrap_or(ComparisonOperator::GreaterOrEqual)
}
