//! Words of a line, some of them in quotes.
use crate::escapes::unescape;
use std::alloc::{AllocError, Global};
use std::mem;

/// A word of a line, without its quotes.
#[derive(Drop)]
pub struct Word {
    pub text: String,
    pub is_quoted: bool,
}

#[derive(Clone, Copy, PartialEq, Eq)]
enum WordState {
    Between,
    Bare,
    Quoted,
    // Behind a backslash within quotes.
    Escaped,
}

#[derive(Drop)]
struct Splitter {
    alloc: Global,
    words: Vec<Word>,
    // What was read of the word that isn't ended.
    raw: String,
    state: WordState,
}

impl Splitter {
    // Within quotes a byte that is no text's is read as the sign for such.
    fn end(&mut self) -> Result<(), AllocError> {
        let is_quoted = self.state == WordState::Quoted;
        let raw = mem::replace(&mut self.raw, String::new(self.alloc));
        let text = if is_quoted {
            unquoted(self.alloc, raw.as_str())?
        } else {
            raw
        };
        self.state = WordState::Between;
        self.words.push(Word { text, is_quoted })?;
        Ok(())
    }

    fn take(&mut self, letter: char) -> Result<(), AllocError> {
        match (self.state, letter) {
            (WordState::Between, ' ') => Ok(()),
            (WordState::Between, '"') => {
                self.state = WordState::Quoted;
                Ok(())
            }
            (WordState::Bare, ' ') | (WordState::Quoted, '"') => self.end(),
            (state, letter) => {
                self.state = behind(state, letter);
                self.raw.push(letter)
            }
        }
    }
}

fn behind(state: WordState, letter: char) -> WordState {
    match state {
        WordState::Between | WordState::Bare => WordState::Bare,
        WordState::Quoted if letter == '\\' => WordState::Escaped,
        WordState::Quoted | WordState::Escaped => WordState::Quoted,
    }
}

fn unquoted(alloc: Global, raw: &str) -> Result<String, AllocError> {
    let mut bytes = Vec::new(alloc);
    unescape(raw, &mut bytes)?;
    String::from_utf8_lossy(alloc, bytes.as_slice())
}

/// The words of a line. They stand apart by blanks; one in double quotes may have blanks and
/// escapes in it.
pub fn words(alloc: Global, line: &str) -> Result<Vec<Word>, AllocError> {
    let mut splitter = Splitter {
        alloc,
        words: Vec::new(alloc),
        raw: String::new(alloc),
        state: WordState::Between,
    };
    for letter in line.chars() {
        splitter.take(letter)?;
    }
    if splitter.state != WordState::Between {
        splitter.end()?;
    }
    Ok(splitter.words)
}
