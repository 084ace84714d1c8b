//! How far a command has come, on standard error.
use memchr::memchr2_iter;
use std::cell::Cell;
use std::fs::File;
use std::io;
use std::io::{IsTerminal, Read, Write};
use std::time::Instant;

/// The nanoseconds between two lines: on a terminal, where each takes the place of the one before,
/// and elsewhere.
const ON_TERMINAL: u64 = 100_000_000;

const ELSEWHERE: u64 = 2_000_000_000;

/// The time that a command has taken, and what it has read.
#[derive(Drop)]
pub struct Progress<'a> {
    rt: &'a HostRuntime,
    begun: Instant,
    is_terminal: bool,
    // Nanoseconds since it was begun.
    printed: Cell<u64>,
    // Whether a line of the terminal is there.
    is_shown: Cell<bool>,
    bytes: Cell<u64>,
    files: Cell<u64>,
}

impl<'a> Progress<'a> {
    pub fn new(rt: &'a HostRuntime) -> io::Result<Progress<'a>> {
        Ok(Progress {
            rt,
            begun: Instant::now(rt)?,
            is_terminal: rt.stderr().is_terminal(),
            printed: Cell::new(0),
            is_shown: Cell::new(false),
            bytes: Cell::new(0),
            files: Cell::new(0),
        })
    }

    fn nanoseconds(&self) -> io::Result<u64> {
        let time = self.begun.elapsed(self.rt)?;
        let seconds = time.as_secs().saturating_mul(1_000_000_000);
        Ok(seconds.saturating_add(u64::from(time.subsec_nanos())))
    }

    /// Prints a line where the one before is long enough ago.
    fn tell(&self, file: &Watched<'_>) -> io::Result<()> {
        let now = self.nanoseconds()?;
        let every = if self.is_terminal {
            ON_TERMINAL
        } else {
            ELSEWHERE
        };
        if now.saturating_sub(self.printed.get()) < every {
            return Ok(());
        }
        self.printed.set(now);
        self.is_shown.set(self.is_terminal);
        let megabytes = self.bytes.get() / 1_000_000;
        let speed = self.bytes.get().saturating_mul(1_000) / now.max(1);
        let (begin, end) = if self.is_terminal {
            ("\r\x1b[K", "")
        } else {
            ("", "\n")
        };
        eprint!(self.rt;
            "{begin}file {}: {} of {} bytes ({} of 100)",
            self.files.get(),
            file.bytes,
            file.size,
            file.share()
        )?;
        if let Some(records) = &file.records {
            eprint!(self.rt; ", {} rows", records.rows())?;
        }
        eprint!(self.rt; "; {megabytes} MB in all, {speed} MB/s{end}")
    }

    /// Takes the line of a terminal away, where there is one.
    pub fn clear(&self) {
        if self.is_shown.get() {
            self.is_shown.set(false);
            // A closed standard error leaves nobody to print.
            let _ = eprint!(self.rt; "\r\x1b[K");
        }
    }
}

/// What a command prints to, where the line of a terminal was taken away first.
#[derive(Drop)]
pub struct Behind<'a, W> {
    out: W,
    progress: Option<&'a Progress<'a>>,
}

impl<'a, W> Behind<'a, W> {
    pub fn new(out: W, progress: Option<&'a Progress<'a>>) -> Behind<'a, W> {
        Behind { out, progress }
    }
}

impl<W: Write> Write for Behind<'_, W> {
    fn write(&mut self, bytes: &[u8]) -> io::Result<usize> {
        if let Some(progress) = self.progress {
            progress.clear();
        }
        self.out.write(bytes)
    }

    fn flush(&mut self) -> io::Result<()> {
        self.out.flush()
    }
}

/// The records of a CSV file of which the end was read.
#[derive(Drop)]
struct Records {
    ends: u64,
    // Behind a quote that isn't closed, where a line end is part of a text.
    is_quoted: bool,
}

impl Records {
    /// Of a file of which nothing was read, where its name is that of a CSV file.
    fn of_path(path: &str) -> Option<Records> {
        path.ends_with(".csv").then_some(Records {
            ends: 0,
            is_quoted: false,
        })
    }

    fn read(&mut self, bytes: &[u8]) {
        for at in memchr2_iter(b'\n', b'"', bytes) {
            if bytes.get(at).copied().unwrap_or(b'\n') == b'"' {
                self.is_quoted = !self.is_quoted;
            } else if !self.is_quoted {
                self.ends = self.ends.saturating_add(1);
            }
        }
    }

    /// Those behind the header.
    fn rows(&self) -> u64 {
        self.ends.saturating_sub(1)
    }
}

/// A file, and how much of it was read.
#[derive(Drop)]
pub struct Watched<'a> {
    file: File,
    progress: Option<&'a Progress<'a>>,
    size: u64,
    bytes: u64,
    records: Option<Records>,
}

impl<'a> Watched<'a> {
    /// The file of a path, of which nothing was read. Without a progress nothing is counted.
    pub fn new(file: File, path: &str, progress: Option<&'a Progress<'a>>) -> Watched<'a> {
        let mut size = 0;
        if let Some(progress) = progress {
            progress.files.set(progress.files.get().saturating_add(1));
            size = file.metadata().map_or(0, |found| found.len());
        }
        Watched {
            file,
            progress,
            size,
            bytes: 0,
            records: Records::of_path(path),
        }
    }

    /// How much of the file was read, of 100.
    fn share(&self) -> u64 {
        self.bytes.saturating_mul(100) / self.size.max(1)
    }

    fn count(&mut self, progress: &Progress<'_>, bytes: &[u8]) {
        self.bytes = self.bytes.saturating_add(bytes.len() as u64);
        progress
            .bytes
            .set(progress.bytes.get().saturating_add(bytes.len() as u64));
        if let Some(records) = &mut self.records {
            records.read(bytes);
        }
        // A closed standard error leaves nobody to print.
        let _ = progress.tell(self);
    }
}

impl Read for Watched<'_> {
    fn read(&mut self, out: &mut [u8]) -> io::Result<usize> {
        let read = self.file.read(out)?;
        if let Some(progress) = self.progress {
            self.count(progress, &out[..read]);
        }
        Ok(read)
    }
}
