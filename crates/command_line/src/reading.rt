//! How the words behind a command's name are read.
ghost use Rattle.std.specs.Prelude.{◌≡◌, ◌≢◌, ◌++◌, IfOk, IfSome, [], codes, false, map, true};
ghost use Rattle.command_line.specs.Steps.{AreOnly, Moves, Takes, flags_of, given_of, plain_of};
ghost use Rattle.command_line.specs.Words.{AreParts, IsFlag, IsName, IsPlain, MayBeValue};
ghost use Rattle.command_line.specs.declared.reading.Next.TheVariants.{Any, ValueOf};

use crate::parts::Parts;
use std::alloc::{AllocError, Global};

// What the next word is.
#[derive(Copy, Clone, Drop)]
enum Next<'a> {
    Any,
    ValueOf(&'a str),
    Plain,
}

/// The parts of the words behind a command's name, where they have parts.
pub fn parts_of<'a>(alloc: Global, words: &[&'a str]) -> Result<Option<Parts<'a>>, AllocError>
    ensures parts { IfOk result (λ o. IfSome o
        (λ p. AreParts (map (λ w. w.now) words.now) (given_of p) (flags_of p) (plain_of p))) }
    ensures only { IfOk result (AreOnly (map (λ w. w.now) words.now)) }
{
    let mut parts = Parts::new(alloc);
    let mut next = Next::Any;
    for word in words {
        let Some(after) = take(&mut parts, next, word)? else {
            return Ok(None);
        };
        next = after;
    }
    match next {
        Next::ValueOf(_) => Ok(None),
        Next::Any => Ok(Some(parts)),
        Next::Plain => Ok(Some(parts)),
    }
}

fn take<'a>(
    parts: &mut Parts<'a>,
    next: Next<'a>,
    word: &'a str,
) -> Result<Option<Next<'a>>, AllocError>
    ensures { IfOk result (Takes parts.old parts.new next.entry word.now) }
{
    match next {
        Next::Any => take_any(parts, word),
        Next::ValueOf(name) => take_value(parts, name, word),
        Next::Plain => {
            parts.add_plain(word)?;
            Ok(Some(Next::Plain))
        }
    }
}

// Whether a word can't be taken for an option.
fn is_plain(word: &str) -> bool
    ensures plain { result ≡ true → IsPlain word.now }
    ensures other { result ≡ false → IsPlain word.now → ⊥ }
{
    match word.strip_prefix("-") {
        Some(rest) => rest.is_empty(),
        None => true,
    }
}

fn may_be_value(name: &str, word: &str) -> bool
    ensures value { result ≡ true → MayBeValue name.now word.now }
    ensures other { result ≡ false → MayBeValue name.now word.now → ⊥ }
{
    name == "query" || is_plain(word)
}

// The word behind an option's name.
fn take_value<'a>(
    parts: &mut Parts<'a>,
    name: &'a str,
    word: &'a str,
) -> Result<Option<Next<'a>>, AllocError>
    ensures { IfOk result (Takes parts.old parts.new (ValueOf name.entry) word.now) }
{
    if !may_be_value(name, word) {
        return Ok(None);
    }
    parts.add(name, word)?;
    Ok(Some(Next::Any))
}

// Whether an option has no value.
fn is_flag(name: &str) -> bool
    ensures flag { result ≡ true → IsFlag name.now }
    ensures valued { result ≡ false → IsFlag name.now → ⊥ }
{
    name == "preview" || name == "groups"
}

// A name with no `=`.
fn take_name<'a>(parts: &mut Parts<'a>, name: &'a str) -> Result<Next<'a>, AllocError>
    ensures { IsName name.now → name.now ≢ []
        → IfOk result (Moves parts.old parts.new Any (codes "--" ++ name.now)) }
{
    if is_flag(name) {
        parts.add_flag(name)?;
        return Ok(Next::Any);
    }
    Ok(Next::ValueOf(name))
}

fn take_any<'a>(parts: &mut Parts<'a>, word: &'a str) -> Result<Option<Next<'a>>, AllocError>
    ensures { IfOk result (Takes parts.old parts.new Any word.now) }
{
    if is_plain(word) {
        parts.add_plain(word)?;
        return Ok(Some(Next::Any));
    }
    let Some(option) = word.strip_prefix("--") else {
        return Ok(None);
    };
    if option.is_empty() {
        return Ok(Some(Next::Plain));
    }
    match option.split_once('=') {
        Some((name, value)) => {
            parts.add(name, value)?;
            Ok(Some(Next::Any))
        }
        None => Ok(Some(take_name(parts, option)?)),
    }
}
