//! Where the bytes of a CSV file stand, as far as its records are counted.
ghost use Rattle.std.specs.Prelude.{◌≡◌};
ghost use Rattle.csv.specs.Machine.{ends_at_end, in_field};
ghost use Rattle.csv.specs.Reading.{default_config};
ghost use Rattle.loader.specs.Counting as counting;

/// Where in a record the next byte stands.
#[derive(Clone, Copy)]
pub enum RecordState {
    /// Before a record.
    Between,
    /// At the beginning of a field.
    FieldStart,
    /// In a field, outside of quotes.
    Field,
    /// Within quotes.
    Quoted,
    /// Behind a quote that ends a quoted part, unless another follows.
    QuoteEnd,
}

#[inline(always)]
pub fn is_line_end(byte: u8) -> bool
    ensures { result ≡ counting.is_line_end byte }
{
    byte == b'\r' || byte == b'\n'
}

/// The state behind a byte that isn't a quote with a meaning.
#[inline(always)]
pub fn behind_plain(byte: u8) -> RecordState
    ensures { counting.state_at result ≡ counting.settled (in_field default_config byte).0 }
{
    if byte == b',' {
        return RecordState::FieldStart;
    }
    if is_line_end(byte) {
        return RecordState::Between;
    }
    RecordState::Field
}

impl RecordState {
    /// The state behind a quote.
    fn behind_quote(self) -> RecordState
        ensures { counting.state_at result ≡ counting.next_state (counting.state_at self) 34 }
    {
        match self {
            RecordState::Between => RecordState::Quoted,
            RecordState::FieldStart => RecordState::Quoted,
            RecordState::Field => RecordState::Field,
            RecordState::Quoted => RecordState::QuoteEnd,
            RecordState::QuoteEnd => RecordState::Quoted,
        }
    }

    /// The state behind a byte.
    #[inline(always)]
    pub fn behind(self, byte: u8) -> RecordState
        ensures { counting.state_at result ≡ counting.next_state (counting.state_at self) byte }
    {
        if byte == b'"' {
            return self.behind_quote();
        }
        if !self.is_unquoted() {
            return RecordState::Quoted;
        }
        behind_plain(byte)
    }

    /// Whether a byte ends a record.
    #[inline(always)]
    pub fn ends_record(self, byte: u8) -> bool
        ensures { result ≡ counting.ends_record (counting.state_at self) byte }
    {
        is_line_end(byte) & self.is_open() & self.is_unquoted()
    }

    /// Whether it is outside of quotes.
    #[inline(always)]
    pub fn is_unquoted(self) -> bool
        ensures { result ≡ counting.is_unquoted (counting.state_at self) }
    {
        !matches!(self, RecordState::Quoted)
    }

    /// Whether it is within a record, which a line end or the end of the file ends.
    #[inline(always)]
    pub fn is_open(self) -> bool
        ensures { result ≡ ends_at_end (counting.state_at self) }
    {
        !matches!(self, RecordState::Between)
    }
}
