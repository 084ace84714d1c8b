//! Selections of positions.
ghost use Rattle.std.specs.Prelude.{◌≡◌, IfOk, length};

use std::alloc::{AllocError, Global};
use std::fmt::Write;
use vectors::Selection;

fn mark(mask: &mut [bool], word: &str) {
    if let Ok(position) = word.parse::<usize>() {
        if position < mask.len() {
            mask[position] = true;
        }
    }
}

/// A mask of the positions that stand in the text, apart by this character.
pub fn mask_of(
    alloc: Global,
    below: usize,
    positions: &str,
    apart: char,
) -> Result<Vec<bool>, AllocError>
    ensures { IfOk result (λ mask. length mask.items ≡ below) }
{
    let mut mask = vec![in alloc; false; below]?;
    for word in positions.split(apart) {
        mark(mask.as_mut_slice(), word);
    }
    Ok(mask)
}

fn show_positions(shown: &mut String, positions: &[u32]) -> Result<(), AllocError> {
    shown.push_str("positions")?;
    for position in positions {
        write!(shown, " {position}")?;
    }
    shown.push_str("\n")
}

fn show_selected(shown: &mut String, selection: &Selection) -> Result<(), AllocError> {
    match selection.positions() {
        None => writeln!(shown, "all {}", selection.len()),
        Some(positions) => show_positions(shown, positions),
    }
}

fn minus(alloc: Global, selection: &Selection, words: &str) -> Result<Selection, AllocError> {
    let mask = mask_of(alloc, selection.below(), words, ' ')?;
    let mut other = selection.copy(alloc)?;
    other.reset();
    other.keep_marked(mask.as_slice());
    selection.minus(alloc, &other)
}

fn keep(alloc: Global, selection: &mut Selection, words: &str) -> Result<(), AllocError> {
    let mask = mask_of(alloc, selection.below(), words, ' ')?;
    selection.keep_marked(mask.as_slice());
    Ok(())
}

fn take_step(alloc: Global, selection: &mut Selection, line: &str) -> Result<(), AllocError> {
    match line.split_once(' ') {
        Some(("keep", words)) => keep(alloc, selection, words),
        Some(("minus", words)) => {
            *selection = minus(alloc, selection, words)?;
            Ok(())
        }
        _ => {
            selection.reset();
            Ok(())
        }
    }
}

fn show_steps(
    alloc: Global,
    shown: &mut String,
    length: u32,
    body: &str,
) -> Result<(), AllocError> {
    let mut selection = Selection::all(alloc, length)?;
    for line in body.lines() {
        take_step(alloc, &mut selection, line)?;
        show_selected(shown, &selection)?;
    }
    Ok(())
}

/// What a selection of so many positions is behind each line: `keep` and `minus` with positions, and
/// `reset`.
pub fn show_selection(alloc: Global, words: &[&str], body: &str) -> Result<String, AllocError> {
    let length = match words {
        [length] => length.parse::<u32>().unwrap_or(0),
        _ => 0,
    };
    let mut shown = String::new(alloc);
    show_steps(alloc, &mut shown, length.min(4_096), body)?;
    Ok(shown)
}
