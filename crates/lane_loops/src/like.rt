//! LIKE, lane by lane: a pattern is looked at once, and texts are then searched by the cheapest way
//! that it allows.
ghost use Rattle.std.specs.Prelude.{◌≡◌, ◌<◌, ◌≤◌, ◌+◌, [], ◌∷◌, ◌++◌, nat_eq, true, length, slice_index, take, drop, All, IfSome};
ghost use Rattle.std.specs.List.{ends_with, list_any, starts_with};
ghost use Rattle.std.specs.Str.{is_utf8};
ghost use Rattle.meaning.specs.ExpressionLaws.{is_plain};
ghost use Rattle.meaning.specs.Like.{is_like};
ghost use Rattle.lane_loops.specs.Lanes.{AreLanesAtWhere, AreLanesWhere, like_bit, text_at};
ghost use Rattle.lane_loops.specs.Patterns.{IsPart, IsSound, pattern_of};

use crate::wildcards;
use memchr::memchr;
use memchr::memmem::Finder;
use std::marker::Model;

/// What texts are compared with.
#[derive(Drop)]
pub enum Search<'p> {
    Equal(&'p [u8]),
    Prefix(&'p [u8]),
    Suffix(&'p [u8]),
    Within(Finder<'p>),
    Wildcards(&'p str),
}

/// A pattern of LIKE. Contracts see its bytes.
#[derive(Drop)]
pub struct LikePattern<'p> {
    search: Search<'p>,
}

impl<'p> Model for LikePattern<'p> {
    ghost use Rattle.std.specs.Prelude.{ℕ, List};
    ghost use Rattle.lane_loops.specs.Patterns.{IsSound, pattern_of};

    ghost Value = { List ℕ };

    ghost view = { λ p. pattern_of p.search };

    ghost invariant = { λ p. IsSound p.search };
}

fn bytes_of(pattern: &str) -> &[u8]
    ensures value { result.now ≡ pattern.now }
    ensures utf8 { is_utf8 result.now ≡ true }
{
    pattern.as_bytes()
}

/// Whether neither `%` nor `_` stands in the bytes.
fn is_plain(bytes: &[u8]) -> bool
    ensures { result ≡ is_plain bytes.now }
{
    bytes.iter().all(|b| !(*b == b'%' || *b == b'_'))
}

/// What stands behind a `%` at the front.
fn behind_sign(bytes: &[u8]) -> Option<&[u8]>
    requires { is_utf8 bytes.now ≡ true }
    ensures { IfSome result (λ rest. (bytes.now ≡ 37 ∷ rest.now) × (is_utf8 rest.now ≡ true)) }
{
    let (first, rest) = bytes.split_first()?;
    if *first != b'%' {
        return None;
    }
    Some(rest)
}

/// What stands before a `%` at the end.
fn before_sign(bytes: &[u8]) -> Option<&[u8]>
    requires { is_utf8 bytes.now ≡ true }
    ensures { IfSome result (λ front. (bytes.now ≡ front.now ++ 37 ∷ [])
        × (is_utf8 front.now ≡ true)) }
{
    let (last, front) = bytes.split_last()?;
    if *last != b'%' {
        return None;
    }
    Some(front)
}

/// The search for a pattern that doesn't begin with `%`.
fn search_from_start(pattern: &str) -> Search<'_>
    ensures value { pattern_of result ≡ pattern.now }
    ensures sound { IsSound result }
{
    let bytes = bytes_of(pattern);
    match before_sign(bytes) {
        None if is_plain(bytes) => Search::Equal(bytes),
        Some(part) if is_plain(part) => Search::Prefix(part),
        _ => Search::Wildcards(pattern),
    }
}

/// The search for a pattern of `%` and the rest.
fn search_behind_sign<'p>(pattern: &'p str, rest: &'p [u8]) -> Search<'p>
    requires rest { pattern.now ≡ 37 ∷ rest.now }
    requires utf8 { is_utf8 rest.now ≡ true }
    ensures value { pattern_of result ≡ pattern.now }
    ensures sound { IsSound result }
{
    match before_sign(rest) {
        None if is_plain(rest) => Search::Suffix(rest),
        Some(part) if is_plain(part) => Search::Within(Finder::new(part)),
        _ => Search::Wildcards(pattern),
    }
}

// As the slices' methods of these names, whose loops are slower than `==`.
#[inline(always)]
fn begins_with(text: &[u8], part: &[u8]) -> bool
    ensures { result ≡ starts_with nat_eq text.now part.now }
{
    if text.len() < part.len() {
        return false;
    }
    part == &text[..part.len()]
}

#[inline(always)]
fn ends_with(text: &[u8], part: &[u8]) -> bool
    ensures { result ≡ ends_with nat_eq text.now part.now }
{
    if text.len() < part.len() {
        return false;
    }
    part == &text[text.len() - part.len()..]
}

#[inline(always)]
fn is_equal(part: &[u8], text: &[u8]) -> bool
    requires { IsPart part.now }
    ensures { is_utf8 text.now ≡ true → result ≡ is_like part.now text.now }
{
    text == part
}

#[inline(always)]
fn is_prefix(part: &[u8], text: &[u8]) -> bool
    requires { IsPart part.now }
    ensures { is_utf8 text.now ≡ true → result ≡ is_like (part.now ++ 37 ∷ []) text.now }
{
    begins_with(text, part)
}

#[inline(always)]
fn is_suffix(part: &[u8], text: &[u8]) -> bool
    requires { IsPart part.now }
    ensures { is_utf8 text.now ≡ true → result ≡ is_like (37 ∷ part.now) text.now }
{
    ends_with(text, part)
}

#[inline(always)]
fn has_byte(text: &[u8], byte: u8) -> bool
    ensures { result ≡ list_any (λ b. nat_eq b byte) text.now }
{
    memchr(byte, text).is_some()
}

#[inline(always)]
fn is_byte_within(part: &[u8], text: &[u8]) -> bool
    requires one { length part.now ≡ 1 }
    requires part { IsPart part.now }
    ensures { is_utf8 text.now ≡ true → result ≡ is_like (37 ∷ (part.now ++ 37 ∷ [])) text.now }
{
    has_byte(text, part[0])
}

fn is_found(part: &Finder<'_>, text: &[u8]) -> bool
    requires { IsPart part.now }
    ensures { is_utf8 text.now ≡ true → result ≡ is_like (37 ∷ (part.now ++ 37 ∷ [])) text.now }
{
    part.find(text).is_some()
}

#[inline(always)]
fn is_within(part: &Finder<'_>, text: &[u8]) -> bool
    requires { IsPart part.now }
    ensures { is_utf8 text.now ≡ true → result ≡ is_like (37 ∷ (part.now ++ 37 ∷ [])) text.now }
{
    let bytes = part.needle();
    if bytes.len() == 1 {
        return is_byte_within(bytes, text);
    }
    is_found(part, text)
}

fn fits_wildcards(pattern: &str, text: &[u8]) -> bool
    ensures { is_utf8 text.now ≡ true → result ≡ is_like pattern.now text.now }
{
    match std::str::from_utf8(text) {
        Ok(text) => wildcards::is_like(pattern, text),
        Err(_) => false,
    }
}

impl<'p> LikePattern<'p> {
    /// A pattern, looked at once. Takes no memory.
    pub fn new(pattern: &'p str) -> LikePattern<'p>
        ensures { result ≡ pattern.now }
    {
        let search = match behind_sign(bytes_of(pattern)) {
            None => search_from_start(pattern),
            Some(rest) => search_behind_sign(pattern, rest),
        };
        LikePattern { search }
    }

    /// Whether a text in UTF-8 is like the pattern.
    #[inline(always)]
    pub fn is_like(&self, text: &[u8]) -> bool
        ensures { is_utf8 text.now ≡ true → result ≡ is_like self.now text.now }
    {
        match &self.search {
            Search::Equal(part) => is_equal(part, text),
            Search::Prefix(part) => is_prefix(part, text),
            Search::Suffix(part) => is_suffix(part, text),
            Search::Within(part) => is_within(part, text),
            Search::Wildcards(pattern) => fits_wildcards(pattern, text),
        }
    }
}

#[inline(always)]
fn bit_at(pattern: &LikePattern<'_>, texts: &[&[u8]], lane: usize) -> u8
    requires { lane < length texts.now }
    ensures { is_utf8 (text_at texts.now lane) ≡ true
        → result ≡ like_bit pattern.now texts.now lane }
{
    u8::from(pattern.is_like(texts[lane]))
}

/// 1 in each lane whose text is like the pattern, else 0. What stands in the lane of bytes that
/// aren't UTF-8 is open.
pub fn like_texts(pattern: &LikePattern<'_>, texts: &[&[u8]], out: &mut [u8])
    requires { length texts.now ≡ length out.old }
    ensures { AreLanesWhere 0 (length out.old) (λ i. is_utf8 (text_at texts.now i) ≡ true)
        (like_bit pattern.now texts.now) out.new }
{
    for i in 0..out.len() {
        out[i] = bit_at(pattern, texts, i);
    }
}

/// The same in the lanes at these positions. What stands in the other lanes is open.
pub fn like_texts_at(pattern: &LikePattern<'_>, texts: &[&[u8]], positions: &[u32], out: &mut [u8])
    requires long { length texts.now ≡ length out.old }
    requires within { All (λ p. p < length out.old) positions.now }
    ensures { AreLanesAtWhere 0 positions.now (λ i. is_utf8 (text_at texts.now i) ≡ true)
        (like_bit pattern.now texts.now) out.new }
{
    for position in positions {
        let position = *position as usize;
        out[position] = bit_at(pattern, texts, position);
    }
}
