//! A writer that is lent, for writers that own theirs.
ghost use Rattle.last_step.specs.Lent.{lent_contents};

use std::io;
use std::io::Write;

/// A borrowed writer, for a writer that keeps what it writes to. Contracts see its bytes behind
/// the name of the borrow, so that the lender knows his own when it is given back.
#[derive(Drop)]
pub struct Lent<'a, W> {
    pub out: &'a mut W,
}

impl<W: Write> Write for Lent<'_, W> {
    ghost contents = { lent_contents W.contents };

    fn write(&mut self, bytes: &[u8]) -> io::Result<usize> {
        self.out.write(bytes)
    }

    fn flush(&mut self) -> io::Result<()> {
        self.out.flush()
    }
}
