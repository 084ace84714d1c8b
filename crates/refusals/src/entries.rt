//! What is known of a refusal.
ghost use Rattle.std.specs.Prelude.{Some};
ghost use Rattle.std.specs.Fmt.{WritesOnOk};
ghost use Rattle.refusals.specs.Texts.{entry_text, part_text};

use std::fmt;
use std::fmt::Formatter;

/// What a line on standard error says of what was refused.
#[derive(Clone, Copy, Drop)]
pub struct Entry {
    /// The line without what differs from one refusal to the next, which stands there by its name
    /// in capitals; several lines of one meaning with commas between.
    pub lines: &'static str,
    pub meaning: &'static str,
    /// The smallest input that is refused so; empty where it would say nothing.
    pub smallest_input: &'static str,
    /// What to do about it; empty where nothing more is to be said.
    pub advice: &'static str,
}

// Nothing where there is nothing to say.
fn write_part<W: fmt::Write>(head: &str, text: &str, f: &mut Formatter<W>) -> fmt::Result
    ensures { WritesOnOk W.write_str_gives f.old result (part_text head.now text.now) f.new }
{
    if text.is_empty() {
        return Ok(());
    }
    write!(f, "\n  {head}: {text}")
}

impl fmt::Display for Entry {
    ghost output = { λ entry. Some (entry_text entry) };

    fn fmt<W: fmt::Write>(&self, f: &mut Formatter<W>) -> fmt::Result {
        f.write_str(self.lines)?;
        write_part("means", self.meaning, f)?;
        write_part("smallest input", self.smallest_input, f)?;
        write_part("what to do", self.advice, f)
    }
}
