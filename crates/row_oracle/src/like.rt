//! LIKE, over characters.

ghost use Rattle.std.specs.Prelude.{◌≡◌, IfOk};
ghost use Rattle.meaning.specs.Like.{after_any_run, fits_one, characters_fit, is_like};

use meaning::Text;
use std::alloc::{AllocError, Global};

fn fits_one(p: char, c: char) -> bool
    ensures { result ≡ fits_one p c }
{
    p == '_' || c == p
}

/// Whether the characters fit the pattern.
#[cycle(fits)]
fn fits(pattern: &[char], text: &[char]) -> bool
    ensures { result ≡ characters_fit pattern.now text.now }
{
    let Some((p, rest)) = pattern.split_first() else {
        return text.is_empty();
    };
    if *p == '%' {
        return fits_after_any_run(rest, text);
    }
    match text.split_first() {
        None => false,
        Some((c, more)) => fits_one(*p, *c) && fits(rest, more),
    }
}

/// Whether the pattern fits behind some run of characters.
#[cycle(fits)]
fn fits_after_any_run(pattern: &[char], text: &[char]) -> bool
    ensures { result ≡ after_any_run (characters_fit pattern.now) text.now }
{
    let mut rest = text;
    loop {
        if fits(pattern, rest) {
            return true;
        }
        match rest.split_first() {
            None => return false,
            Some((_, more)) => rest = more,
        }
    }
}

/// `text LIKE pattern`.
pub fn is_like(alloc: Global, pattern: &Text, text: &Text) -> Result<bool, AllocError>
    ensures { IfOk result (λ b. b ≡ is_like pattern.now text.now) }
{
    let pattern: Vec<char> = pattern.as_str().chars().collect(alloc)?;
    let text: Vec<char> = text.as_str().chars().collect(alloc)?;
    Ok(fits(&pattern, &text))
}
