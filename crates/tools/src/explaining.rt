//! What is known of a refusal, by the words of its line.
ghost use Rattle.std.specs.Prelude.{◌≡◌, ◌<◌, ◌∷◌, ℕ, [], IfOk, IfSome, None, OnOk, Some, map, string_bytes, vec_items};
ghost use Rattle.std.specs.Str.Parse.{without_leading_plus};
ghost use Rattle.command_line.specs.Words.{IsNumber};
ghost use Rattle.refusals.specs.Codes.{word_of};
ghost use Rattle.refusals.specs.declared.entries.Entry.{Entry};
ghost use Rattle.refusals.specs.declared.layers.Layer.{Layer};
ghost use Rattle.tools.specs.declared.explaining.Explanation.{Explanation};
ghost use Rattle.tools.specs.Explained.{AreUnexplained, BeginsPlain, BeginsWithCode, Explains, IsEntryOf, IsExplained, behind_name, with_word, with_words, words_between};

use command_line::texts;
use meaning::{Sequence, Text};
use refusals::{Entry, Layer, entry, of_words};
use std::alloc::{AllocError, Global};

/// What explains the words of a line.
#[derive(Clone, Copy, Drop)]
pub enum Explanation {
    /// The entry of a line that they begin.
    Entry(Entry),
    /// The error codes of the layer whose word they are.
    Codes(Layer),
}

fn add_word(line: &mut String, word: &str) -> Result<(), AllocError>
    ensures { OnOk result (string_bytes line.new ≡ with_word (string_bytes line.old) word.now) }
{
    if line.is_empty() {
        return line.push_str(word);
    }
    line.push_str(" ")?;
    line.push_str(word)
}

// The words with blanks between them.
fn line_of(alloc: Global, words: &[Text]) -> Result<String, AllocError>
    ensures { IfOk result (λ line. string_bytes line ≡ with_words [] words.now) }
{
    let mut line = String::new(alloc);
    for word in words {
        add_word(&mut line, word.as_str())?;
    }
    Ok(line)
}

fn pieces_between(alloc: Global, line: &str) -> Result<Vec<&str>, AllocError>
    ensures { IfOk result
        (λ found. map (λ word. word.now) (vec_items found) ≡ words_between line.now) }
{
    line.split(' ')
        .filter(|word| !word.is_empty())
        .collect(alloc)
}

fn words_between(alloc: Global, line: &str) -> Result<Sequence<Text>, AllocError>
    ensures { IfOk result (λ found. found ≡ words_between line.now) }
{
    let pieces = pieces_between(alloc, line)?;
    texts(alloc, pieces.as_slice())
}

// The words behind the program's name, where the whole line is given.
fn behind_name(words: &[Text]) -> &[Text]
    ensures { result.now ≡ behind_name words.now }
{
    match words.split_first() {
        Some((first, others)) if first.as_str() == "xcols:" => others,
        _ => words,
    }
}

// The number that a word's digits say, where it may be an error code.
fn code_of(word: &str) -> Option<u8>
    ensures said { IfSome result (IsNumber (without_leading_plus word.now)) }
    ensures only { (n : ℕ) → n < 256 → IsNumber (without_leading_plus word.now) n → result ≡ Some n }
{
    word.parse::<u8>().ok()
}

// Of a word and an error code behind it.
fn numbered(words: &[Text]) -> Option<Entry>
    ensures said { IfSome result (BeginsWithCode words.now) }
    ensures only { result ≡ None → (e : Entry) → BeginsWithCode words.now e → ⊥ }
{
    let (word, others) = words.split_first()?;
    let (number, _) = others.split_first()?;
    let number = code_of(number.as_str())?;
    entry(word.as_str(), number)
}

// Of as many words as such a line has, whatever stands behind.
fn plain(alloc: Global, words: &[Text]) -> Result<Option<Entry>, AllocError>
    ensures said { IfOk result (λ found. IfSome found (BeginsPlain words.now)) }
    ensures only { IfOk result
        (λ found. found ≡ None → (e : Entry) → BeginsPlain words.now e → ⊥) }
{
    let mut found = None;
    let mut line = String::new(alloc);
    for word in words {
        add_word(&mut line, word.as_str())?;
        found = of_words(line.as_str()).or(found);
    }
    Ok(found)
}

// The entry of the line that the words begin.
fn entry_in(alloc: Global, words: &[Text]) -> Result<Option<Entry>, AllocError>
    ensures said { IfOk result (λ found. IfSome found (IsEntryOf words.now)) }
    ensures only { IfOk result
        (λ found. found ≡ None → (e : Entry) → IsEntryOf words.now e → ⊥) }
{
    match numbered(words) {
        Some(entry) => Ok(Some(entry)),
        None => plain(alloc, words),
    }
}

// The layer whose word is the only one.
fn layer_in(words: &[Text]) -> Option<Layer>
    ensures said { IfSome result (λ layer. words.now ≡ word_of layer ∷ []) }
    ensures only { (layer : Layer) → words.now ≡ word_of layer ∷ [] → result ≡ Some layer }
{
    match words {
        [word] => Layer::of_word(word.as_str()),
        _ => None,
    }
}

// What explains the words behind the program's name.
fn of_spoken(alloc: Global, words: &[Text]) -> Result<Option<Explanation>, AllocError>
    ensures said { IfOk result (λ found. IfSome found (Explains words.now)) }
    ensures only { IfOk result
        (λ found. found ≡ None → (f : Explanation) → Explains words.now f → ⊥) }
{
    if let Some(layer) = layer_in(words) {
        return Ok(Some(Explanation::Codes(layer)));
    }
    match entry_in(alloc, words)? {
        Some(entry) => Ok(Some(Explanation::Entry(entry))),
        None => Ok(None),
    }
}

/// What explains these words: the entry of the refusal whose line begins with them, or the layer whose
/// word they are, behind `xcols:` or not, and in quotes or not.
pub fn explanation_of(alloc: Global, words: &[Text]) -> Result<Option<Explanation>, AllocError>
    ensures said { IfOk result (λ found. IfSome found (IsExplained words.now)) }
    ensures only { IfOk result (λ found. found ≡ None → AreUnexplained words.now) }
{
    let line = line_of(alloc, words)?;
    let words = words_between(alloc, line.as_str())?;
    of_spoken(alloc, behind_name(words.as_slice()))
}
