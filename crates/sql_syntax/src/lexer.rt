//! The tokens of a text.
ghost use Rattle.std.specs.Prelude.{◌≡◌, ◌≤◌, ◌<◌, ◌↔◌, IsTrue, IfOk, IfSome, Option, length, drop, take, nat_le, Some, None, if◌then◌else◌, slice_index, option_map, ◌+◌};
ghost use Rattle.std.specs.List.{prefix_len};
ghost use Rattle.std.specs.Str.{IsCharBoundary, IsUtf8};
ghost use Rattle.sql_syntax.specs.Tokens.{terminal_of, all_located, is_blank, behind_blanks, is_word_start, is_word_byte, is_digit, number_of, quoted_len, long_sign, short_sign, word_of, word_at, integer_at, text_at, sign_at, terminal_at, tokens_of};

use crate::keyword::{Keyword, is_left_out};
use crate::token::{Lexeme, Sign, Token};
use std::alloc::{AllocError, Global};

/// The greatest number that is an integer behind a unary minus.
const GREATEST: u64 = 9223372036854775808;

/// All tokens of a text. Where a text isn't closed or a character is unknown, that is the last.
pub fn tokens(alloc: Global, text: &str) -> Result<Vec<Lexeme<'_>>, AllocError>
    ensures { IfOk result (λ lexemes. all_located lexemes.items ≡ tokens_of text.now) }
{
    let mut lexemes = Vec::new(alloc);
    let mut rest = skip_blanks(text);
    while !rest.is_empty() {
        let offset = text.len() - rest.len();
        let (token, behind) = first_token(rest);
        lexemes.push(Lexeme { token, offset })?;
        rest = skip_blanks(behind);
    }
    Ok(lexemes)
}

fn skip_blanks(text: &str) -> &str
    ensures value { result.now ≡ behind_blanks text.now }
    ensures shorter { length result.now ≤ length text.now }
{
    let (_, rest) = text.split_at(blank_length(text.as_bytes()));
    rest
}

/// How many bytes of blanks and comments stand at the front.
fn blank_length(bytes: &[u8]) -> usize
    requires { IsUtf8 bytes.now }
    ensures value { drop result bytes.now ≡ behind_blanks bytes.now }
    ensures boundary { IsCharBoundary bytes.now result }
{
    let mut at = 0;
    let mut in_comment = false;
    while at < bytes.len() {
        let byte = bytes[at];
        if in_comment {
            in_comment = byte != b'\n';
        } else if begins_comment(bytes, at) {
            in_comment = true;
        } else if !is_blank(byte) {
            return at;
        }
        at += 1;
    }
    at
}

fn begins_comment(bytes: &[u8], at: usize) -> bool
    requires { at < length bytes.now }
    ensures { IsTrue result ↔ ((slice_index bytes.now at ≡ 45)
        × (slice_index bytes.now (at + 1) ≡ 45)) }
{
    bytes[at] == b'-' && at + 1 < bytes.len() && bytes[at + 1] == b'-'
}

fn is_blank(byte: u8) -> bool
    ensures { result ≡ is_blank byte }
{
    byte == b' ' || byte == b'\t' || byte == b'\r' || byte == b'\n'
}

fn is_word_start(byte: u8) -> bool
    ensures { result ≡ is_word_start byte }
{
    (b'A' <= byte && byte <= b'Z') || (b'a' <= byte && byte <= b'z') || byte == b'_'
}

fn is_digit(byte: u8) -> bool
    ensures { result ≡ is_digit byte }
{
    b'0' <= byte && byte <= b'9'
}

fn is_word_byte(byte: u8) -> bool
    ensures { result ≡ is_word_byte byte }
{
    is_word_start(byte) || is_digit(byte)
}

/// The token at the front, where no blank or comment stands, and what is left behind it.
#[tactic(auto, unfolding(crate::specs::Tokens::terminal_at))]
fn first_token(text: &str) -> (Token<'_>, &str)
    requires { 0 < length text.now }
    ensures value { (terminal_of result.0, result.1.now) ≡ terminal_at text.now }
    ensures shorter { length result.1.now < length text.now }
{
    let first = text.as_bytes()[0];
    if is_word_start(first) {
        word(text)
    } else if is_digit(first) {
        integer(text)
    } else if first == b'\'' {
        quoted(text)
    } else {
        sign(text)
    }
}

fn word(text: &str) -> (Token<'_>, &str)
    ensures { (terminal_of result.0, result.1.now) ≡ word_at text.now }
{
    let (word, rest) = text.split_at(word_length(text.as_bytes()));
    (word_token(word), rest)
}

fn word_token(word: &str) -> Token<'_>
    ensures { terminal_of result ≡ word_of word.now }
{
    match Keyword::of(word) {
        Some(keyword) => Token::Keyword(keyword),
        None => {
            if is_left_out(word) {
                Token::LeftOut(word)
            } else {
                Token::Name(word)
            }
        }
    }
}

fn word_length(bytes: &[u8]) -> usize
    ensures { result ≡ prefix_len is_word_byte bytes.now }
{
    bytes.iter().take_while(|byte| is_word_byte(**byte)).count()
}

fn integer(text: &str) -> (Token<'_>, &str)
    ensures { (terminal_of result.0, result.1.now) ≡ integer_at text.now }
{
    let (digits, rest) = text.split_at(digits_length(text.as_bytes()));
    let token = match number(digits.as_bytes()) {
        Some(number) => Token::Integer(number),
        None => Token::IntegerOutOfRange,
    };
    (token, rest)
}

fn digits_length(bytes: &[u8]) -> usize
    ensures { result ≡ prefix_len is_digit bytes.now }
{
    bytes.iter().take_while(|byte| is_digit(**byte)).count()
}

/// The number that digits make, unless it is over `GREATEST`.
fn number(digits: &[u8]) -> Option<u64>
    ensures { result ≡ (if nat_le (number_of digits.now) GREATEST then Some (number_of digits.now)
        else None) }
{
    let mut number: u64 = 0;
    let mut fits = true;
    for digit in digits {
        let next = number as u128 * 10 + digit.saturating_sub(b'0') as u128;
        if next <= GREATEST as u128 {
            number = next as u64;
        } else {
            fits = false;
        }
    }
    if fits { Some(number) } else { None }
}

fn quoted(text: &str) -> (Token<'_>, &str)
    requires { slice_index text.now 0 ≡ 39 }
    ensures shorter { length result.1.now < length text.now }
    ensures value { (terminal_of result.0, result.1.now) ≡ text_at text.now }
{
    let (_, inner) = text.split_at(1);
    match quoted_length(inner.as_bytes()) {
        Some(length) => {
            let (content, _) = inner.split_at(length);
            let (_, rest) = inner.split_at(length + 1);
            (Token::Text(content), rest)
        }
        None => (Token::TextNotClosed, ""),
    }
}

/// How many bytes stand before the quote that closes a text.
fn quoted_length(bytes: &[u8]) -> Option<usize>
    ensures { result ≡ quoted_len bytes.now }
{
    let mut at = 0;
    while at < bytes.len() {
        if bytes[at] != b'\'' {
            at += 1;
        } else if at + 1 < bytes.len() && bytes[at + 1] == b'\'' {
            at += 2;
        } else {
            return Some(at);
        }
    }
    None
}

fn sign(text: &str) -> (Token<'_>, &str)
    requires { 0 < length text.now }
    ensures shorter { length result.1.now < length text.now }
    ensures value { (terminal_of result.0, result.1.now) ≡ sign_at text.now }
{
    let bytes = text.as_bytes();
    let first = bytes[0];
    let second = if bytes.len() > 1 { bytes[1] } else { 0 };
    if let Some(token) = long_sign(first, second) {
        let (_, rest) = text.split_at(2);
        return (token, rest);
    }
    match short_sign(first) {
        Some(token) => {
            let (_, rest) = text.split_at(1);
            (token, rest)
        }
        None => (Token::UnknownCharacter, ""),
    }
}

fn long_sign(first: u8, second: u8) -> Option<Token<'static>>
    ensures ascii { IfSome result (λ _. (first < 128) × (0 < second) × (second < 128)) }
    ensures value { option_map terminal_of result ≡ long_sign first second }
{
    if first == b'<' && second == b'>' {
        Some(Token::Sign(Sign::NotEqual))
    } else if first == b'!' && second == b'=' {
        Some(Token::Sign(Sign::NotEqual))
    } else if first == b'<' && second == b'=' {
        Some(Token::Sign(Sign::AtMost))
    } else if first == b'>' && second == b'=' {
        Some(Token::Sign(Sign::AtLeast))
    } else if first == b'|' && second == b'|' {
        Some(Token::LeftOut("||"))
    } else {
        None
    }
}

fn short_sign(byte: u8) -> Option<Token<'static>>
    ensures ascii { IfSome result (λ _. byte < 128) }
    ensures value { option_map terminal_of result ≡ short_sign byte }
{
    match byte {
        b'(' => Some(Token::Sign(Sign::Open)),
        b')' => Some(Token::Sign(Sign::Close)),
        b',' => Some(Token::Sign(Sign::Comma)),
        b'.' => Some(Token::Sign(Sign::Dot)),
        b';' => Some(Token::Sign(Sign::Semicolon)),
        b'+' => Some(Token::Sign(Sign::Plus)),
        b'-' => Some(Token::Sign(Sign::Minus)),
        b'*' => Some(Token::Sign(Sign::Star)),
        b'/' => Some(Token::Sign(Sign::Slash)),
        b'=' => Some(Token::Sign(Sign::Equal)),
        b'<' => Some(Token::Sign(Sign::Less)),
        b'>' => Some(Token::Sign(Sign::Greater)),
        b'%' => Some(Token::LeftOut("%")),
        b'"' => Some(Token::LeftOut("\"")),
        _ => None,
    }
}
