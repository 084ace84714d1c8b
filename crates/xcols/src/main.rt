//! The program `xcols`: queries over a star of tables that lies in a folder of the host.
#![tactic(auto)]

ghost use Rattle.xcols.specs.Request.{IsRequestInRange};

mod asking;
mod file_disk;
mod host_folder;
mod host_listing;
mod load_names;
mod load_run;
mod part_file;
mod progress;
mod progress_word;
mod streams;
mod written_path;

use crate::asking::{Request, asked};
use crate::host_folder::HostFolder;
use crate::progress::{Behind, Progress};
use crate::streams::{Lines, Output};
use std::cell::Cell;
use std::process::ExitCode;

/// The status where nobody reads the pipe of standard output any more: that of a program which the
/// signal for it ends.
const CLOSED_PIPE: u8 = 141;

fn main(rt: HostRuntime) -> ExitCode {
    match asked(&rt) {
        Ok((request, is_watched)) => ExitCode::from(run_watched(&rt, &request, is_watched)),
        Err(fault) => {
            // A closed standard error leaves nobody to print.
            let _ = eprint!(rt; "{fault}");
            ExitCode::from(fault.status())
        }
    }
}

fn run_watched(rt: &HostRuntime, request: &Request, is_watched: bool) -> u8
    requires { IsRequestInRange request.now }
{
    if !is_watched {
        return run_request(rt, request, None);
    }
    // Without a clock there is no progress.
    let Ok(progress) = Progress::new(rt) else {
        return run_request(rt, request, None);
    };
    let status = run_request(rt, request, Some(&progress));
    progress.clear();
    status
}

fn run_request(rt: &HostRuntime, request: &Request, progress: Option<&Progress<'_>>) -> u8
    requires { IsRequestInRange request.now }
{
    let alloc = rt.alloc();
    let mut folder = HostFolder::new(alloc, rt, progress);
    let is_closed = Cell::new(false);
    let mut out = Output::new(Behind::new(rt.stdout(), progress), &is_closed);
    let mut err = Lines::new(Behind::new(rt.stderr(), progress), &is_closed);
    let status = match request {
        Request::Tool(tool) => tools::run(alloc, tool, &mut folder, &mut out, &mut err),
        Request::Command(command) => cli::run(alloc, command, &mut folder, &mut out, &mut err),
    };
    if is_closed.get() { CLOSED_PIPE } else { status }
}
