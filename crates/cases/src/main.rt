//! Runs the case files that its words name: each case's input goes through public calls, and what
//! they show is held against what the case wants. `docs/TESTING.md` has the format.
#![tactic(auto)]

mod catalog;
mod cut;
mod kinds;
mod pieces;
mod plan;
mod program;
mod refusal_line;
mod sql;
mod stored_disk;
mod stored_folder;
mod stored_listing;
mod tally;

use crate::tally::{Tally, run_cases};
use std::process::ExitCode;
use std::{env, fs, io};

fn run_file(rt: &HostRuntime, name: &str) -> io::Result<Tally> {
    let text = fs::read_to_string(rt, name)?;
    run_cases(rt, rt.alloc(), name, text.as_str())
}

fn run_all(rt: &HostRuntime) -> io::Result<Tally> {
    let mut tally = Tally::new();
    for name in env::args(rt)?.skip(1) {
        tally.add(run_file(rt, name.as_str())?);
    }
    Ok(tally)
}

fn main(rt: HostRuntime) -> ExitCode {
    match run_all(&rt) {
        Ok(tally) => {
            let shown = println!(rt; "{} passed, {} failed", tally.passed, tally.failed);
            if tally.failed == 0 && shown.is_ok() {
                ExitCode::SUCCESS
            } else {
                ExitCode::FAILURE
            }
        }
        Err(error) => {
            let _ = eprintln!(rt; "cases: {error}");
            ExitCode::FAILURE
        }
    }
}
