//! The words behind a command's name: options with their values, flags, and plain words.
ghost use Rattle.std.specs.Prelude.{◌≡◌, ◌<◌, ◌≤◌, ◌^◌, ◌++◌, ℕ, Bool, Decides, IfOk, IfSome, IsSomeAnd, Option, Some, [], ◌∷◌, if◌then◌else◌, map, nat_eq, option_map};
ghost use Rattle.std.specs.Cmp.Lexicographic.{pointwise};
ghost use Rattle.std.specs.List.{list_all, list_any};
ghost use Rattle.std.specs.Vec.{vec_items};
ghost use Rattle.meaning.specs.Limits.{max_vector_rows};
ghost use Rattle.command_line.specs.Found.{IsFound};
ghost use Rattle.command_line.specs.Said.{HasNumber, HasNumberOrNone, HasText, HasTextOrNone, HasVector};
ghost use Rattle.command_line.specs.Steps.{flags_of, given_of, plain_of};
ghost use Rattle.command_line.specs.Words.{IsNumber, Word, values};

use crate::found::Found;
use meaning::is_vector_length;
use std::alloc::{AllocError, Global};

const DEFAULT_VECTOR_ROWS: u32 = 1024;

/// An option with its value.
#[derive(Drop)]
pub struct Given<'a> {
    pub name: &'a str,
    pub value: &'a str,
}

/// Options with their values, flags, and plain words.
#[derive(Drop)]
pub struct Parts<'a> {
    given: Vec<Given<'a>>,
    flags: Vec<&'a str>,
    plain: Vec<&'a str>,
}

impl<'a> Parts<'a> {
    pub fn new(alloc: Global) -> Parts<'a>
        ensures { (vec_items result.given ≡ []) × (vec_items result.flags ≡ [])
            × (vec_items result.plain ≡ []) }
    {
        Parts {
            given: Vec::new(alloc),
            flags: Vec::new(alloc),
            plain: Vec::new(alloc),
        }
    }

    pub fn add(&mut self, name: &'a str, value: &'a str) -> Result<(), AllocError>
        ensures { IfOk result (λ _. (given_of self.new ≡ given_of self.old
            ++ ((name.now, value.now) ∷ [])) × (flags_of self.new ≡ flags_of self.old)
            × (plain_of self.new ≡ plain_of self.old)) }
    {
        self.given.push(Given { name, value })?;
        Ok(())
    }

    pub fn add_flag(&mut self, name: &'a str) -> Result<(), AllocError>
        ensures { IfOk result (λ _. (given_of self.new ≡ given_of self.old)
            × (flags_of self.new ≡ flags_of self.old ++ (name.now ∷ []))
            × (plain_of self.new ≡ plain_of self.old)) }
    {
        self.flags.push(name)?;
        Ok(())
    }

    pub fn add_plain(&mut self, word: &'a str) -> Result<(), AllocError>
        ensures { IfOk result (λ _. (given_of self.new ≡ given_of self.old)
            × (flags_of self.new ≡ flags_of self.old)
            × (plain_of self.new ≡ plain_of self.old ++ (word.now ∷ []))) }
    {
        self.plain.push(word)?;
        Ok(())
    }

    fn find(&self, name: &str) -> Found<'a>
        ensures { IsFound (values name.now (given_of self.now)) result }
    {
        let mut found = Found::Nothing;
        for given in self.given.as_slice() {
            found = found.after(given, name);
        }
        found
    }

    /// The plain words.
    pub fn plain_words(&self) -> &[&'a str]
        ensures { result.now ≡ vec_items self.now.plain }
    {
        self.plain.as_slice()
    }

    /// The plain word, where there is one alone.
    pub fn only_word(&self) -> Option<&'a str>
        ensures word { IfSome result (λ w. plain_of self.now ≡ w.now ∷ []) }
        ensures only { (w : Word) → plain_of self.now ≡ w ∷ [] → IsSomeAnd result (λ s. s.now ≡ w) }
    {
        only(self.plain.as_slice())
    }

    /// Whether each option is one of these.
    pub fn has_only(&self, names: &[&str]) -> bool
        ensures { result ≡ list_all
            (λ g. list_any (λ n. pointwise nat_eq g.name.now n.now) names.now)
            (vec_items self.now.given) }
    {
        self.given.iter().all(|given| is_among(given.name, names))
    }

    /// Whether no flag stands there.
    pub fn has_no_flag(&self) -> bool
        ensures { Decides result (flags_of self.now ≡ []) }
    {
        self.flags.is_empty()
    }

    /// Whether this flag stands there, alone and once; nothing where another does, or it does often.
    pub fn only_flag(&self, name: &str) -> Option<bool>
        ensures flag { IfSome result (λ given. flags_of self.now
            ≡ (if given then name.now ∷ [] else [])) }
        ensures only { (given : Bool) → flags_of self.now
            ≡ (if given then name.now ∷ [] else []) → result ≡ Some given }
    {
        if self.has_no_flag() {
            return Some(false);
        }
        if only(self.flags.as_slice())? != name {
            return None;
        }
        Some(true)
    }

    /// The value of an option that stands there once.
    pub fn text(&self, name: &str) -> Option<&'a str>
        ensures said { IfSome result (λ t. HasText name.now (given_of self.now) t.now) }
        ensures only { (t : Word) → HasText name.now (given_of self.now) t
            → IsSomeAnd result (λ s. s.now ≡ t) }
    {
        match self.find(name) {
            Found::Once(value) => Some(value),
            Found::Nothing => None,
            Found::Often => None,
        }
    }

    /// The value of an option that stands there once, or that it doesn't; else nothing.
    pub fn text_if_any(&self, name: &str) -> Option<Option<&'a str>>
        ensures said { IfSome result (λ o. HasTextOrNone name.now (given_of self.now)
            (option_map (λ s. s.now) o)) }
        ensures only { (t : Option Word) → HasTextOrNone name.now (given_of self.now) t
            → IsSomeAnd result (λ o. option_map (λ s. s.now) o ≡ t) }
    {
        match self.find(name) {
            Found::Nothing => Some(None),
            Found::Once(value) => Some(Some(value)),
            Found::Often => None,
        }
    }

    /// The number that an option's digits say.
    pub fn number(&self, name: &str) -> Option<u64>
        ensures said { IfSome result (HasNumber name.now (given_of self.now)) }
        ensures fits { IfSome result (λ n. n < 2 ^ 64) }
        ensures only { (n : ℕ) → n < 2 ^ 64 → HasNumber name.now (given_of self.now) n
            → result ≡ Some n }
    {
        number_of(self.text(name)?)
    }

    /// The number that an option's digits say, in this range.
    pub fn number_within(&self, name: &str, least: u32, most: u32) -> Option<u32>
        ensures said { IfSome result (λ n. HasNumber name.now (given_of self.now) n × (least ≤ n)
            × (n ≤ most)) }
        ensures only { (n : ℕ) → least ≤ n → n ≤ most → HasNumber name.now (given_of self.now) n
            → result ≡ Some n }
    {
        let number = self.number(name)?;
        if number < u64::from(least) || number > u64::from(most) {
            return None;
        }
        Some(number as u32)
    }

    /// The number of 32 bits that the digits of an option say that stands there once, or that it doesn't
    /// stand there; else nothing.
    pub fn number_if_any(&self, name: &str) -> Option<Option<u32>>
        ensures said { IfSome result (HasNumberOrNone name.now (given_of self.now)) }
        ensures only { (n : Option ℕ) → HasNumberOrNone name.now (given_of self.now) n
            → result ≡ Some n }
    {
        match self.find(name) {
            Found::Nothing => Some(None),
            Found::Once(_) => Some(Some(self.number_within(name, 0, u32::MAX)?)),
            Found::Often => None,
        }
    }

    /// How many rows a vector has: 1,024 where no word says it.
    pub fn vector(&self) -> Option<u32>
        ensures said { IfSome result (λ n. HasVector (given_of self.now) n × (1 ≤ n)
            × (n ≤ max_vector_rows)) }
        ensures only { (n : ℕ) → 1 ≤ n → n ≤ max_vector_rows → HasVector (given_of self.now) n
            → result ≡ Some n }
    {
        match self.find("vector") {
            Found::Nothing => Some(DEFAULT_VECTOR_ROWS),
            Found::Once(_) => self.vector_length("vector"),
            Found::Often => None,
        }
    }

    /// The number that an option's digits say, if a vector may have so many rows.
    fn vector_length(&self, name: &str) -> Option<u32>
        ensures said { IfSome result (λ n. HasNumber name.now (given_of self.now) n × (1 ≤ n)
            × (n ≤ max_vector_rows)) }
        ensures only { (n : ℕ) → 1 ≤ n → n ≤ max_vector_rows
            → HasNumber name.now (given_of self.now) n → result ≡ Some n }
    {
        let number = self.number(name)?;
        if !is_vector_length(number as usize) {
            return None;
        }
        Some(number as u32)
    }
}

// The word, where there is one alone.
fn only<'a>(words: &[&'a str]) -> Option<&'a str>
    ensures word { IfSome result (λ w. map (λ w. w.now) words.now ≡ w.now ∷ []) }
    ensures only { (w : Word) → map (λ w. w.now) words.now ≡ w ∷ []
        → IsSomeAnd result (λ s. s.now ≡ w) }
{
    match words {
        [word] => Some(word),
        _ => None,
    }
}

fn is_among(name: &str, names: &[&str]) -> bool
    ensures { result ≡ list_any (λ n. pointwise nat_eq name.now n.now) names.now }
{
    names.iter().any(|one| name == *one)
}

// The number that digits alone say; `parse` takes a sign before them.
fn number_of(text: &str) -> Option<u64>
    ensures number { IfSome result (IsNumber text.now) }
    ensures fits { IfSome result (λ n. n < 2 ^ 64) }
    ensures only { (n : ℕ) → n < 2 ^ 64 → IsNumber text.now n → result ≡ Some n }
{
    if text.starts_with('+') {
        return None;
    }
    text.parse::<u64>().ok()
}
