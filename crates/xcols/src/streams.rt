//! The streams that a command prints to.
use std::cell::Cell;
use std::io;
use std::io::{ErrorKind, Write};

/// Standard output, of which it is noted where nobody reads the pipe any more.
#[derive(Drop)]
pub struct Output<'a, W> {
    out: W,
    is_closed: &'a Cell<bool>,
}

impl<'a, W> Output<'a, W> {
    pub fn new(out: W, is_closed: &'a Cell<bool>) -> Output<'a, W> {
        Output { out, is_closed }
    }
}

impl<W> Output<'_, W> {
    fn note<T>(&self, done: &io::Result<T>) {
        if let Err(error) = done {
            if error.kind() == ErrorKind::BrokenPipe {
                self.is_closed.set(true);
            }
        }
    }
}

impl<W: Write> Write for Output<'_, W> {
    fn write(&mut self, bytes: &[u8]) -> io::Result<usize> {
        let written = self.out.write(bytes);
        self.note(&written);
        written
    }

    fn flush(&mut self) -> io::Result<()> {
        let flushed = self.out.flush();
        self.note(&flushed);
        flushed
    }
}

/// Standard error, which takes no more once nobody reads standard output.
#[derive(Drop)]
pub struct Lines<'a, W> {
    err: W,
    is_closed: &'a Cell<bool>,
}

impl<'a, W> Lines<'a, W> {
    pub fn new(err: W, is_closed: &'a Cell<bool>) -> Lines<'a, W> {
        Lines { err, is_closed }
    }
}

impl<W: Write> Write for Lines<'_, W> {
    fn write(&mut self, bytes: &[u8]) -> io::Result<usize> {
        if self.is_closed.get() {
            return Ok(bytes.len());
        }
        self.err.write(bytes)
    }

    fn flush(&mut self) -> io::Result<()> {
        self.err.flush()
    }
}
