//! LIKE by a matcher that goes over pattern and text once for each `%`, without memory or
//! recursion.
ghost use Rattle.std.specs.Prelude.{◌≡◌, ◌<◌, [], ◌∷◌, length, MatchOption};
ghost use Rattle.std.specs.Str.{chars};
ghost use Rattle.meaning.specs.Like.{after_any_run, characters_fit, fits_one, is_like};
ghost use Rattle.lane_loops.specs.Tried.{IsShorter, Reports, ReportsLater};

/// What comes of the pattern's characters up to its next `%`.
#[derive(Drop)]
pub enum Tried<'a> {
    /// The whole pattern fits.
    Fits,
    /// They differ.
    Differs,
    /// They fit: the pattern behind the `%`, and what is left of the text.
    UpToSign(&'a str, &'a str),
}

#[inline(always)]
fn next_char(text: &str) -> Option<(char, &str)>
    ensures { MatchOption result (chars text.now ≡ []) (λ r. (chars text.now ≡ r.0 ∷ chars r.1.now)
        × (length r.1.now < length text.now)) }
{
    let mut chars = text.chars();
    let c = chars.next()?;
    Some((c, chars.as_str()))
}

#[inline(always)]
fn fits_one(sign: char, c: char) -> bool
    ensures { result ≡ fits_one sign c }
{
    sign == '_' || c == sign
}

fn end_of_pattern(text: &str) -> Tried<'_>
    ensures here { Reports (characters_fit [] (chars text.now)) result }
    ensures shorter { IsShorter 0 result }
{
    match next_char(text) {
        None => Tried::Fits,
        Some(_) => Tried::Differs,
    }
}

/// Tries the pattern at the front of the text, up to the pattern's next `%`.
fn try_front<'a>(pattern: &'a str, text: &'a str) -> Tried<'a>
    ensures here { Reports (characters_fit (chars pattern.now) (chars text.now)) result }
    ensures later { ReportsLater (chars pattern.now) (chars text.now) result }
    ensures shorter { IsShorter (length pattern.now) result }
{
    let mut pattern_left = pattern;
    let mut text_left = text;
    loop {
        let Some((sign, behind)) = next_char(pattern_left) else {
            return end_of_pattern(text_left);
        };
        if sign == '%' {
            return Tried::UpToSign(behind, text_left);
        }
        let Some((c, more)) = next_char(text_left) else {
            return Tried::Differs;
        };
        if !fits_one(sign, c) {
            return Tried::Differs;
        }
        pattern_left = behind;
        text_left = more;
    }
}

/// Tries the pattern at each rest of the text, the longest first.
fn try_rests<'a>(pattern: &'a str, text: &'a str) -> Tried<'a>
    ensures value { Reports (after_any_run (characters_fit (chars pattern.now)) (chars text.now))
        result }
    ensures shorter { IsShorter (length pattern.now) result }
{
    if pattern.is_empty() {
        return Tried::Fits;
    }
    let mut rest = text;
    loop {
        match try_front(pattern, rest) {
            Tried::Differs => {}
            Tried::Fits => return Tried::Fits,
            Tried::UpToSign(behind, left) => return Tried::UpToSign(behind, left),
        }
        let Some((_, more)) = next_char(rest) else {
            return Tried::Differs;
        };
        rest = more;
    }
}

/// Whether the pattern fits some rest of the text.
///
/// Where the characters up to a `%` fit first, nothing is lost by going on from there: what fits
/// behind a later position also fits behind the first.
fn fits_some_rest(pattern: &str, text: &str) -> bool
    ensures { result ≡ after_any_run (characters_fit (chars pattern.now)) (chars text.now) }
{
    let mut pattern_left = pattern;
    let mut text_left = text;
    loop {
        match try_rests(pattern_left, text_left) {
            Tried::Fits => return true,
            Tried::Differs => return false,
            Tried::UpToSign(behind, rest) => {
                pattern_left = behind;
                text_left = rest;
            }
        }
    }
}

/// `text LIKE pattern`.
pub fn is_like(pattern: &str, text: &str) -> bool
    ensures { result ≡ is_like pattern.now text.now }
{
    match try_front(pattern, text) {
        Tried::Fits => true,
        Tried::Differs => false,
        Tried::UpToSign(behind, rest) => fits_some_rest(behind, rest),
    }
}
