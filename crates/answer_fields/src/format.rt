//! The formats of answers and states, and what their bytes begin with.
ghost use Rattle.std.specs.Prelude.{◌≡◌};
ghost use Rattle.answer_fields.specs.Format as spec;
ghost use Rattle.answer_fields.specs.StateSpelling.{is_state};
ghost use Rattle.wire.specs.Reading.{Reads};

use crate::fault::DecodeFault;
use meaning::AggregateKind;
use wire::take_bytes;

/// The formats of answers and states. All of them are read, and the newest is written.
#[derive(Clone, Copy, Drop)]
pub enum Format {
    First,
    /// Has COUNT(DISTINCT ..) and SUM(DISTINCT ..) too.
    Second,
}

/// What bytes spell.
#[derive(Clone, Copy, Drop)]
pub enum Content {
    Answer,
    State,
}

impl Format {
    /// The format that is written.
    pub fn newest() -> Format
        ensures { result ≡ spec.newest }
    {
        Format::Second
    }

    /// The format's number, from 1.
    pub fn number(self) -> u8
        ensures { result ≡ spec.number self }
    {
        match self {
            Format::First => 1,
            Format::Second => 2,
        }
    }

    /// Whether the format has aggregates of the kind.
    pub fn has_kind(self, kind: AggregateKind) -> bool
        ensures { result ≡ spec.has_kind self kind }
    {
        match self {
            Format::First => !keeps_set(kind),
            Format::Second => true,
        }
    }

    /// What an answer or a state in this format begins with.
    #[tactic(auto, unfolding(crate::specs::Format::magic))]
    pub fn magic(self, content: Content) -> [u8; 4]
        ensures { result ≡ spec.magic content self }
    {
        match content {
            Content::Answer => match self {
                Format::First => *b"XGA1",
                Format::Second => *b"XGA2",
            },
            Content::State => match self {
                Format::First => *b"XGS1",
                Format::Second => *b"XGS2",
            },
        }
    }
}

/// Whether aggregates of the kind keep a set.
fn keeps_set(kind: AggregateKind) -> bool
    ensures { result ≡ spec.keeps_set kind }
{
    matches!(
        kind,
        AggregateKind::CountDistinct | AggregateKind::SumDistinct
    )
}

/// The format of what begins with these four bytes.
fn format_of(content: Content, first: &[u8]) -> Result<Format, DecodeFault>
    ensures { Reads (λ f. f) result (spec.format_of content first.now) }
{
    if first == Format::First.magic(content).as_slice() {
        return Ok(Format::First);
    }
    if first == Format::Second.magic(content).as_slice() {
        return Ok(Format::Second);
    }
    Err(DecodeFault::Magic)
}

/// The format, and the bytes behind the four that say it.
#[tactic(auto, unfolding(crate::specs::Format::format_at))]
pub fn take_format(content: Content, bytes: &[u8]) -> Result<(Format, &[u8]), DecodeFault>
    ensures { Reads (λ x. (x.0, x.1.now)) result (spec.format_at content bytes.now) }
{
    let (first, rest) = take_bytes(bytes, 4)?;
    Ok((format_of(content, first)?, rest))
}

/// The format of bytes that begin as answers or states do.
pub fn format_in(content: Content, bytes: &[u8]) -> Option<Format>
    ensures { result ≡ spec.format_in content bytes.now }
{
    match take_format(content, bytes) {
        Ok((format, _)) => Some(format),
        Err(_) => None,
    }
}

/// Whether the bytes begin as a state's do, in either format.
pub fn is_state(bytes: &[u8]) -> bool
    ensures { result ≡ is_state bytes.now }
{
    format_in(Content::State, bytes).is_some()
}
