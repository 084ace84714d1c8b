//! Writers that take a byte a call, and that fail at one of their calls.
use crate::gathers::show_refusal;
use case_files::show_printed;
use gathering::{Gather, GatherFault};
use std::alloc::{AllocError, Global};
use std::fmt::Write as FormatWrite;
use std::io;
use std::io::Write;

/// No case prints as many bytes.
pub const MOST_CALLS: u32 = 10_000;

/// What is shown where the failure of a flush is returned.
pub const AT_FLUSH: &str = "refused at its flush\n";

/// What is shown where what was printed isn't flushed.
pub const NOT_FLUSHED: &str = "not flushed\n";

/// Takes one byte a call. One call may fail; those behind it don't.
#[derive(Drop)]
pub struct Bytewise {
    pub taken: Vec<u8>,
    /// How many calls there are up to the one that fails; 0 where none does.
    until_failure: u32,
    fails_at_flush: bool,
}

impl Bytewise {
    /// Its call of this number fails.
    pub fn failing(alloc: Global, call: u32) -> Bytewise {
        Bytewise {
            taken: Vec::new(alloc),
            until_failure: call,
            fails_at_flush: false,
        }
    }

    /// It fails where it is flushed alone.
    pub fn failing_at_flush(alloc: Global) -> Bytewise {
        Bytewise {
            taken: Vec::new(alloc),
            until_failure: 0,
            fails_at_flush: true,
        }
    }
}

impl Write for Bytewise {
    fn write(&mut self, bytes: &[u8]) -> io::Result<usize> {
        if self.until_failure > 0 {
            self.until_failure -= 1;
            if self.until_failure == 0 {
                return Err(io::Error::from(io::ErrorKind::Other));
            }
        }
        match bytes.first() {
            Some(byte) => {
                self.taken.push(*byte)?;
                Ok(1)
            }
            None => Ok(0),
        }
    }

    fn flush(&mut self) -> io::Result<()> {
        if self.fails_at_flush {
            return Err(io::Error::from(io::ErrorKind::Other));
        }
        Ok(())
    }
}

// ---- a coordinator's report and preview

fn print_to(
    alloc: Global,
    gather: &Gather,
    is_preview: bool,
    out: &mut Bytewise,
) -> Result<(), GatherFault> {
    if is_preview {
        gather.preview(alloc, out)?;
    } else {
        gather.print_report(alloc, out)?;
    }
    Ok(())
}

/// Appends how many calls failed in turn, and what was printed where none did.
pub fn show_taken(
    alloc: Global,
    call: u32,
    out: &Bytewise,
    shown: &mut String,
) -> Result<(), AllocError> {
    writeln!(shown, "refused at each of {} calls", call.saturating_sub(1))?;
    show_printed(alloc, shown, "out", out.taken.as_slice())
}

fn show_flush(
    alloc: Global,
    gather: &Gather,
    is_preview: bool,
    shown: &mut String,
) -> Result<(), AllocError> {
    let mut out = Bytewise::failing_at_flush(alloc);
    match print_to(alloc, gather, is_preview, &mut out) {
        Err(GatherFault::Writer) => shown.push_str(AT_FLUSH),
        Err(fault) => show_refusal(shown, &fault),
        Ok(()) => shown.push_str(NOT_FLUSHED),
    }
}

// Whether the writer that fails at this call is returned; what else comes is shown.
fn is_returned(
    alloc: Global,
    gather: &Gather,
    is_preview: bool,
    call: u32,
    shown: &mut String,
) -> Result<bool, AllocError> {
    let mut out = Bytewise::failing(alloc, call);
    match print_to(alloc, gather, is_preview, &mut out) {
        Err(GatherFault::Writer) => return Ok(true),
        Err(fault) => show_refusal(shown, &fault)?,
        Ok(()) => {
            show_taken(alloc, call, &out, shown)?;
            show_flush(alloc, gather, is_preview, shown)?;
        }
    }
    Ok(false)
}

/// Appends what comes of a report or a preview that is printed again and again, to a writer that
/// fails at its first call, at its second and so on, and at last at none.
pub fn show_failing(
    alloc: Global,
    gather: &Gather,
    is_preview: bool,
    shown: &mut String,
) -> Result<(), AllocError> {
    for call in 1..MOST_CALLS {
        if !is_returned(alloc, gather, is_preview, call, shown)? {
            break;
        }
    }
    Ok(())
}
