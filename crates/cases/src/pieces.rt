//! Readers that give little at a time, and readers that fail.
use std::io;
use std::io::Read;

/// How a folder's files are read, and how its journal's disk fails.
#[derive(Clone, Copy)]
pub struct Host<'a> {
    /// The most bytes that a call of a reader gives.
    pub most: usize,
    /// The path of a file whose reader fails, and at which of its calls, from 1.
    pub failing: Option<(&'a str, u32)>,
    /// How many calls the disk passes on before it fails every one.
    pub disk_calls: u64,
}

impl<'a> Host<'a> {
    /// As many bytes a call as are asked for, and nothing fails.
    pub fn sound() -> Host<'a> {
        Host {
            most: usize::MAX,
            failing: None,
            disk_calls: u64::MAX,
        }
    }

    /// At most so many bytes a call.
    pub fn by(most: usize) -> Host<'a> {
        Host {
            most,
            ..Host::sound()
        }
    }

    /// A file's reader fails at its call of this number.
    pub fn failing(path: &'a str, call: u32) -> Host<'a> {
        Host {
            failing: Some((path, call)),
            ..Host::sound()
        }
    }

    /// The disk fails behind so many calls.
    pub fn stopped(disk_calls: u64) -> Host<'a> {
        Host {
            disk_calls,
            ..Host::sound()
        }
    }

    /// A reader of the bytes of a path's file.
    pub fn reader<'b>(&self, path: &str, bytes: &'b [u8]) -> Pieces<'b> {
        let calls = match self.failing {
            Some((failing, call)) if failing == path => call,
            _ => 0,
        };
        Pieces {
            rest: bytes,
            most: self.most,
            until_failure: calls,
        }
    }
}

/// Gives at most so many bytes a call. One call may fail; those behind it don't.
#[derive(Drop)]
pub struct Pieces<'a> {
    rest: &'a [u8],
    most: usize,
    /// How many calls there are up to the one that fails; 0 where none does.
    until_failure: u32,
}

impl Read for Pieces<'_> {
    fn read(&mut self, buf: &mut [u8]) -> io::Result<usize> {
        if self.until_failure > 0 {
            self.until_failure -= 1;
            if self.until_failure == 0 {
                return Err(io::Error::from(io::ErrorKind::Other));
            }
        }
        let n = self.rest.len().min(self.most).min(buf.len());
        let (here, rest) = self.rest.split_at(n);
        buf[..n].copy_from_slice(here);
        self.rest = rest;
        Ok(n)
    }
}
