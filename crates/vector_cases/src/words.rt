//! Words of a case: values, truths, comparisons, and integers that stand a step apart.
use meaning::{ComparisonOperator, Truth};
use std::alloc::{AllocError, Global};
use std::fmt::Write;

/// A value: an integer, a text in single quotes, or `\N`.
#[derive(Clone, Copy)]
pub enum Word<'a> {
    Null,
    Int(i64),
    Text(&'a str),
}

/// The text between single quotes.
pub fn quoted(word: &str) -> Option<&str> {
    word.strip_prefix('\'')?.strip_suffix('\'')
}

pub fn word_of(word: &str) -> Word<'_> {
    if let Some(text) = quoted(word) {
        return Word::Text(text);
    }
    match word.parse::<i64>() {
        Ok(int) => Word::Int(int),
        Err(_) => Word::Null,
    }
}

pub fn comparison_of(word: &str) -> Option<ComparisonOperator> {
    match word {
        "=" => Some(ComparisonOperator::Equal),
        "<>" => Some(ComparisonOperator::NotEqual),
        "<" => Some(ComparisonOperator::Less),
        "<=" => Some(ComparisonOperator::LessOrEqual),
        ">" => Some(ComparisonOperator::Greater),
        ">=" => Some(ComparisonOperator::GreaterOrEqual),
        _ => None,
    }
}

pub fn truth_of(word: &str) -> Truth {
    match word {
        "TRUE" => Truth::True,
        "FALSE" => Truth::False,
        _ => Truth::Unknown,
    }
}

pub fn truth_word(truth: Truth) -> &'static str {
    match truth {
        Truth::True => "TRUE",
        Truth::False => "FALSE",
        Truth::Unknown => "UNKNOWN",
    }
}

/// Integers that stand a step apart.
#[derive(Clone, Copy)]
pub struct Steps {
    pub from: i64,
    pub step: i64,
    pub count: usize,
}

/// `from A step B count N`.
pub fn steps_of(words: &[&str]) -> Option<Steps> {
    match words {
        ["from", from, "step", step, "count", count] => Some(Steps {
            from: from.parse().unwrap_or(0),
            step: step.parse().unwrap_or(0),
            count: count.parse().unwrap_or(0),
        }),
        _ => None,
    }
}

impl Steps {
    pub fn at(self, k: usize) -> i64 {
        self.from
            .wrapping_add(self.step.wrapping_mul((k as u64).cast_signed()))
    }
}

/// An integer as a text: its digits.
pub fn digits_of(alloc: Global, int: i64) -> Result<String, AllocError> {
    let mut text = String::new(alloc);
    write!(text, "{int}")?;
    Ok(text)
}
