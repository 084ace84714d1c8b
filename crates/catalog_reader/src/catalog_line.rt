//! What one line of a catalogue says.
ghost use Rattle.std.specs.Prelude.{◌≡◌, IfOk, map};
ghost use Rattle.catalog_reader.specs.CatalogLine.{is_blank, words, name_of, type_of, fact_line, dimension_line, column_of, two_words, three_words, four_words, statement_of, line_of};

use meaning::{ColType, Column, Text, is_name};
use std::alloc::{AllocError, Global};

/// What a line declares. Names are in lower case.
#[derive(Drop)]
pub enum Statement {
    Fact(Text),
    Dim { name: Text, key: Text },
    Col(Column),
}

/// What a line is.
#[derive(Drop)]
pub enum Line {
    /// A comment, or no word.
    Passed,
    /// Of no known form.
    Unknown,
    Declares(Statement),
}

/// The word as a name, if it can be one.
fn name_of(alloc: Global, word: &[u8]) -> Result<Option<Text>, AllocError>
    ensures { IfOk result (λ name. name ≡ name_of word.now) }
{
    if !is_name(word) {
        return Ok(None);
    }
    let Ok(name) = std::str::from_utf8(word) else {
        return Ok(None);
    };
    Ok(Some(Text::new(alloc, name)?))
}

fn type_of(word: &[u8]) -> Option<ColType>
    ensures { result ≡ type_of word.now }
{
    if word == b"int".as_slice() {
        Some(ColType::Int)
    } else if word == b"text".as_slice() {
        Some(ColType::Text)
    } else {
        None
    }
}

fn is_blank(byte: u8) -> bool
    ensures { result ≡ is_blank byte }
{
    byte == b' ' || byte == b'\t'
}

fn words(alloc: Global, line: &[u8]) -> Result<Vec<&[u8]>, AllocError>
    ensures { IfOk result (λ found. map (λ word. word.now) found.items ≡ words line.now) }
{
    line.split(|byte| is_blank(*byte))
        .filter(|word| !word.is_empty())
        .collect(alloc)
}

fn column_of(
    alloc: Global,
    name: &[u8],
    type_word: &[u8],
    nullable: bool,
) -> Result<Option<Statement>, AllocError>
    ensures { IfOk result (λ found. found ≡ column_of name.now type_word.now nullable) }
{
    let Some(name) = name_of(alloc, name)? else {
        return Ok(None);
    };
    let Some(col_type) = type_of(type_word) else {
        return Ok(None);
    };
    Ok(Some(Statement::Col(Column {
        name,
        col_type,
        nullable,
    })))
}

fn fact_line(alloc: Global, name: &[u8]) -> Result<Option<Statement>, AllocError>
    ensures { IfOk result (λ found. found ≡ fact_line name.now) }
{
    let Some(name) = name_of(alloc, name)? else {
        return Ok(None);
    };
    Ok(Some(Statement::Fact(name)))
}

fn dimension_line(alloc: Global, name: &[u8], key: &[u8]) -> Result<Option<Statement>, AllocError>
    ensures { IfOk result (λ found. found ≡ dimension_line name.now key.now) }
{
    let Some(name) = name_of(alloc, name)? else {
        return Ok(None);
    };
    let Some(key) = name_of(alloc, key)? else {
        return Ok(None);
    };
    Ok(Some(Statement::Dim { name, key }))
}

fn two_words(alloc: Global, keyword: &[u8], name: &[u8]) -> Result<Option<Statement>, AllocError>
    ensures { IfOk result (λ found. found ≡ two_words keyword.now name.now) }
{
    if keyword == b"fact".as_slice() {
        return fact_line(alloc, name);
    }
    Ok(None)
}

fn three_words(
    alloc: Global,
    keyword: &[u8],
    name: &[u8],
    type_word: &[u8],
) -> Result<Option<Statement>, AllocError>
    ensures { IfOk result (λ found. found ≡ three_words keyword.now name.now type_word.now) }
{
    if keyword == b"col".as_slice() {
        return column_of(alloc, name, type_word, false);
    }
    Ok(None)
}

fn four_words(
    alloc: Global,
    keyword: &[u8],
    name: &[u8],
    third: &[u8],
    fourth: &[u8],
) -> Result<Option<Statement>, AllocError>
    ensures { IfOk result (λ found. found ≡ four_words keyword.now name.now third.now fourth.now) }
{
    if keyword == b"dim".as_slice() && third == b"key".as_slice() {
        return dimension_line(alloc, name, fourth);
    }
    if keyword == b"col".as_slice() && fourth == b"null".as_slice() {
        return column_of(alloc, name, third, true);
    }
    Ok(None)
}

/// What the words declare, if they have a known form.
fn statement_of(alloc: Global, words: &[&[u8]]) -> Result<Option<Statement>, AllocError>
    ensures { IfOk result (λ found. found ≡ statement_of (map (λ word. word.now) words.now)) }
{
    if words.len() == 2 {
        two_words(alloc, words[0], words[1])
    } else if words.len() == 3 {
        three_words(alloc, words[0], words[1], words[2])
    } else if words.len() == 4 {
        four_words(alloc, words[0], words[1], words[2], words[3])
    } else {
        Ok(None)
    }
}

/// What a line in lower case says.
pub fn line_of(alloc: Global, line: &[u8]) -> Result<Line, AllocError>
    ensures { IfOk result (λ found. found ≡ line_of line.now) }
{
    if line.first() == Some(&b'#') {
        return Ok(Line::Passed);
    }
    let words = words(alloc, line)?;
    if words.is_empty() {
        return Ok(Line::Passed);
    }
    match statement_of(alloc, &words)? {
        Some(statement) => Ok(Line::Declares(statement)),
        None => Ok(Line::Unknown),
    }
}
