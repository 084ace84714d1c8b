//! Values, types and aggregates as words.
ghost use Rattle.std.specs.Prelude.{◌≡◌, ◌++◌, ◌<◌, ◌==◌, OnOk, length, string_bytes};
ghost use Rattle.std.specs.List.{before_first, after_first, position_or_len};
ghost use Rattle.sql_syntax.specs.CanonicalTokens.{doubled};
ghost use Rattle.sql_syntax.specs.Quoting.{IsCutAtQuote};
ghost use Rattle.answer_text.specs.Texts.{aggregate_word, before_argument, quoted, type_word, value_text};
ghost use Rattle.answer_text.specs.Values.{value_of};

use meaning::{AggregateKind, ColType};
use std::alloc::AllocError;

/// A type, in the catalogue's word.
pub fn type_word(col_type: ColType) -> &'static str
    ensures { result.now ≡ type_word col_type }
{
    match col_type {
        ColType::Int => "int",
        ColType::Text => "text",
    }
}

/// An aggregate's word.
pub fn aggregate_word(kind: AggregateKind) -> &'static str
    ensures { result.now ≡ aggregate_word kind }
{
    match kind {
        AggregateKind::CountRows | AggregateKind::Count | AggregateKind::CountDistinct => "COUNT",
        AggregateKind::Sum | AggregateKind::SumDistinct => "SUM",
        AggregateKind::Min => "MIN",
        AggregateKind::Max => "MAX",
        AggregateKind::Avg => "AVG",
    }
}

/// What stands before an aggregate's argument.
pub fn before_argument(kind: AggregateKind) -> &'static str
    ensures { result.now ≡ before_argument kind }
{
    match kind {
        AggregateKind::CountDistinct | AggregateKind::SumDistinct => "DISTINCT ",
        AggregateKind::CountRows
        | AggregateKind::Count
        | AggregateKind::Sum
        | AggregateKind::Min
        | AggregateKind::Max
        | AggregateKind::Avg => "",
    }
}

/// A value whose text is lent.
#[derive(Clone, Copy)]
pub enum LentValue<'a> {
    Null,
    Int(i64),
    Text(&'a str),
}

/// What stands before the first quote, and what behind it.
fn at_quote(text: &str) -> Option<(&str, &str)>
    ensures { IsCutAtQuote text.now result }
{
    text.split_once('\'')
}

/// Appends a text with each quote twice.
#[tactic(auto, using(sql_syntax::proofs::Doubling::doubled_cut, sql_syntax::proofs::Doubling::doubled_same, sql_syntax::proofs::Doubling::shorter_cut))]
fn put_doubled(out: &mut String, content: &str) -> Result<(), AllocError>
    ensures { OnOk result (string_bytes out.new ≡ string_bytes out.old ++ doubled content.now) }
{
    let mut rest = content;
    while let Some((front, behind)) = at_quote(rest) {
        out.push_str(front)?;
        out.push_str("''")?;
        rest = behind;
    }
    out.push_str(rest)
}

/// Appends a text between quotes, with each quote in it twice.
#[tactic(auto, unfolding(crate::specs::Texts::quoted))]
fn put_text(out: &mut String, content: &str) -> Result<(), AllocError>
    ensures { OnOk result (string_bytes out.new ≡ string_bytes out.old ++ quoted content.now) }
{
    out.push_str("'")?;
    put_doubled(out, content)?;
    out.push_str("'")
}

/// Appends a value: a text between quotes, each quote in it twice.
pub fn put_value(out: &mut String, value: LentValue<'_>) -> Result<(), AllocError>
    ensures { OnOk result (string_bytes out.new ≡ string_bytes out.old
        ++ value_text (value_of value.entry)) }
{
    match value {
        LentValue::Null => out.push_str("NULL"),
        LentValue::Int(number) => write!(out, "{number}"),
        LentValue::Text(content) => put_text(out, content),
    }
}
