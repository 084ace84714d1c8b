//! Comparisons of texts, and LIKE.
use crate::lanes::lines::{Lines, first_word, is_null, lines_of, operator_of, second_word};
use crate::lanes::tests::{nulls_of, show_bits};
use lane_loops::{
    LikePattern, compare_texts, compare_texts_to, compare_texts_to_at, like_texts, like_texts_at,
};
use std::alloc::AllocError;

fn first_texts<'a>(lines: &[&'a str; 8]) -> [&'a [u8]; 8] {
    let mut texts = [b"".as_slice(); 8];
    for i in 0..8 {
        texts[i] = first_word(lines[i]).as_bytes();
    }
    texts
}

pub fn second_texts<'a>(lines: &[&'a str; 8]) -> [&'a [u8]; 8] {
    let mut texts = [b"".as_slice(); 8];
    for i in 0..8 {
        texts[i] = second_word(lines[i]).as_bytes();
    }
    texts
}

fn whole_texts<'a>(lines: &[&'a str; 8]) -> [&'a [u8]; 8] {
    let mut texts = [b"".as_slice(); 8];
    for i in 0..8 {
        texts[i] = lines[i].as_bytes();
    }
    texts
}

fn whole_nulls(lines: &[&str; 8]) -> [bool; 8] {
    let mut nulls = [false; 8];
    for i in 0..8 {
        nulls[i] = is_null(lines[i]);
    }
    nulls
}

/// Whether the lanes at these positions are shown alike by the loop over these alone.
fn are_alike(bits: &[u8; 8], at_positions: &[u8; 8]) -> bool {
    bits[0] == at_positions[0] && bits[2] == at_positions[2]
}

pub fn compare(shown: &mut String, operator: &str, body: &str) -> Result<(), AllocError> {
    let Lines { lines, count } = lines_of(body);
    let mut bits = [0u8; 8];
    compare_texts(
        operator_of(operator),
        &first_texts(&lines),
        &second_texts(&lines),
        &mut bits,
    );
    show_bits(shown, &nulls_of(&lines), &bits, count)
}

pub fn compare_to(
    shown: &mut String,
    operator: &str,
    text: &str,
    body: &str,
) -> Result<(), AllocError> {
    let Lines { lines, count } = lines_of(body);
    let operator = operator_of(operator);
    let texts = whole_texts(&lines);
    let (mut bits, mut at_positions) = ([0u8; 8], [0u8; 8]);
    compare_texts_to(operator, &texts, text.as_bytes(), &mut bits);
    compare_texts_to_at(
        operator,
        &texts,
        text.as_bytes(),
        &[2, 0],
        &mut at_positions,
    );
    if !are_alike(&bits, &at_positions) {
        return shown.push_str("(the loop at positions differs)\n");
    }
    show_bits(shown, &whole_nulls(&lines), &bits, count)
}

pub fn like(shown: &mut String, pattern: &str, body: &str) -> Result<(), AllocError> {
    let Lines { lines, count } = lines_of(body);
    let texts = whole_texts(&lines);
    let pattern = LikePattern::new(pattern);
    let (mut bits, mut at_positions) = ([0u8; 8], [0u8; 8]);
    like_texts(&pattern, &texts, &mut bits);
    like_texts_at(&pattern, &texts, &[2, 0], &mut at_positions);
    if !are_alike(&bits, &at_positions) {
        return shown.push_str("(the loop at positions differs)\n");
    }
    show_bits(shown, &whole_nulls(&lines), &bits, count)
}
