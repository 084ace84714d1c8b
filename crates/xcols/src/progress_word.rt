//! The word that asks for progress.
ghost use Rattle.std.specs.Prelude.{◌≡◌, ◌∷◌, ◌++◌, ℕ, List, IfOk, if◌then◌else◌, length, map, nat_lt};
ghost use Rattle.xcols.specs.Progress.{awaits_value, takes_progress, unflagged_from, without_progress};
ghost use Rattle.xcols.specs.declared.progress_word.Next.TheVariants.{Any};

use std::alloc::{AllocError, Global};

const WORD: &str = "--progress";

/// What the next word is.
#[derive(Clone, Copy)]
enum Next {
    Any,
    /// The value of the option before it.
    Value,
    /// One behind `--`, or of a command that doesn't take the word.
    Plain,
}

/// A command's words without those that ask for progress, and whether there was one.
pub fn without_progress<'w>(
    alloc: Global,
    words: &[&'w str],
) -> Result<(Vec<&'w str>, bool), AllocError>
    ensures kept { IfOk result (λ given. map (λ w. w.now) given.0.items
        ≡ without_progress (map (λ w. w.now) words.now)) }
    ensures found { IfOk result
        (λ given. given.1 ≡ nat_lt (length given.0.items) (length words.now)) }
{
    let mut kept = Vec::new(alloc);
    let mut next = first_of(words);
    for word in words {
        next = keep(&mut kept, next, word)?;
    }
    let found = kept.len() < words.len();
    Ok((kept, found))
}

fn takes_progress(word: &str) -> bool
    ensures { result ≡ takes_progress word.now }
{
    word == "load" || word == "whole" || word == "gather"
}

fn first_of(words: &[&str]) -> Next
    ensures { unflagged_from result (map (λ w. w.now) words.now)
        ≡ without_progress (map (λ w. w.now) words.now) }
{
    let Some((command, _)) = words.split_first() else {
        return Next::Any;
    };
    if takes_progress(command) {
        Next::Any
    } else {
        Next::Plain
    }
}

fn awaits_value(word: &str) -> bool
    ensures { result ≡ awaits_value word.now }
{
    word == "--query"
        || word == "--save"
        || word == "--journal"
        || word == "--load"
        || word == "--rows"
        || word == "--vector"
}

// Keeps a word, unless it is the flag, and says what the one behind it is.
fn keep<'w>(kept: &mut Vec<&'w str>, next: Next, word: &'w str) -> Result<Next, AllocError>
    ensures { IfOk result (λ after. (words : List (List ℕ)) → map (λ w. w.now) kept.old.items
        ++ unflagged_from next (word.now ∷ words)
        ≡ map (λ w. w.now) kept.new.items ++ unflagged_from after words) }
{
    let (stays, after) = judge(next, word);
    if !stays {
        return Ok(after);
    }
    kept.push(word)?;
    Ok(after)
}

// Whether a word stays, and what the one behind it is.
fn judge(next: Next, word: &str) -> (bool, Next)
    ensures { (words : List (List ℕ)) → unflagged_from next (word.now ∷ words)
        ≡ (if result.0 then word.now ∷ unflagged_from result.1 words
        else unflagged_from result.1 words) }
{
    match next {
        Next::Any => judge_any(word),
        Next::Value => (true, Next::Any),
        Next::Plain => (true, Next::Plain),
    }
}

fn judge_any(word: &str) -> (bool, Next)
    ensures { (words : List (List ℕ)) → unflagged_from Any (word.now ∷ words)
        ≡ (if result.0 then word.now ∷ unflagged_from result.1 words
        else unflagged_from result.1 words) }
{
    if word == "--" {
        return (true, Next::Plain);
    }
    if word == WORD {
        return (false, Next::Any);
    }
    if awaits_value(word) {
        return (true, Next::Value);
    }
    (true, Next::Any)
}
