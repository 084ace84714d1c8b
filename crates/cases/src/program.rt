//! Cases that run the program over a folder in memory.
ghost use Rattle.command_line.specs.Command.{IsInRange};

use crate::pieces::Host;
use crate::stored_folder::StoredFolder;
use case_files::{StoredFile, find, put_all, show_lines, show_printed};
use cli::{Command, UsageFault, command, run};
use std::alloc::{AllocError, Global};
use std::cell::RefCell;
use std::fmt::Write;
use std::mem::drop;
use tools::Tool;

/// No file of a case has as many pieces.
const MOST_CALLS: u32 = 10_000;

fn show_status(shown: &mut String, status: u8) -> Result<(), AllocError> {
    match status {
        0 => Ok(()),
        status => writeln!(shown, "status {status}"),
    }
}

fn show_written(shown: &mut String, written: &[StoredFile]) -> Result<(), AllocError> {
    for file in written {
        writeln!(
            shown,
            "wrote {}, {} bytes",
            file.path.as_str(),
            file.bytes.len()
        )?;
    }
    Ok(())
}

fn show_removed(shown: &mut String, removed: &[String]) -> Result<(), AllocError> {
    for path in removed {
        writeln!(shown, "removed {}", path.as_str())?;
    }
    Ok(())
}

// Of a usage fault its first line, since the rest is the words of a library.
fn put_usage(shown: &mut String, text: &str) -> Result<(), AllocError> {
    let lines = if text.starts_with("error") {
        text.lines().next().unwrap_or("")
    } else {
        text.trim_end()
    };
    show_lines(shown, "err", lines)
}

fn show_usage(alloc: Global, fault: &UsageFault) -> Result<String, AllocError> {
    let text = format!(in alloc; "{fault}")?;
    let mut shown = String::new(alloc);
    put_usage(&mut shown, text.as_str())?;
    show_status(&mut shown, fault.status())?;
    Ok(shown)
}

// What a command that ran has printed and written.
#[derive(Drop)]
struct Outcome {
    status: u8,
    out: Vec<u8>,
    err: Vec<u8>,
}

fn run_over(alloc: Global, command: &Command, folder: &mut StoredFolder<'_>) -> Outcome
    requires { IsInRange command.now }
{
    let (mut out, mut err) = (Vec::new(alloc), Vec::new(alloc));
    let status = run(alloc, command, folder, &mut out, &mut err);
    Outcome { status, out, err }
}

fn show_outcome(
    alloc: Global,
    outcome: &Outcome,
    folder: &StoredFolder<'_>,
) -> Result<String, AllocError> {
    let mut shown = String::new(alloc);
    show_printed(alloc, &mut shown, "out", outcome.out.as_slice())?;
    show_printed(alloc, &mut shown, "err", outcome.err.as_slice())?;
    show_status(&mut shown, outcome.status)?;
    show_written(&mut shown, folder.written.as_slice())?;
    show_removed(&mut shown, folder.removed.as_slice())?;
    Ok(shown)
}

/// Takes files away from those that stand, and puts those that were written behind them.
fn change(
    files: &mut Vec<StoredFile>,
    removed: Vec<String>,
    written: Vec<StoredFile>,
) -> Result<(), AllocError> {
    for path in removed {
        files.retain(|file| file.path.as_str() != path.as_str());
    }
    put_all(files, written)
}

// The path of the journal that a command asks for.
fn journal_path(command: &Command) -> Option<&str> {
    match command {
        Command::Gather(command) => match &command.journal {
            Some(path) => Some(path.as_str()),
            None => None,
        },
        _ => None,
    }
}

// What stands in it before the command.
fn journal_of(
    alloc: Global,
    command: &Command,
    files: &[StoredFile],
) -> Result<Vec<u8>, AllocError> {
    let bytes = match journal_path(command) {
        Some(path) => find(files, path).unwrap_or(&[]),
        None => &[],
    };
    Vec::from_slice(alloc, bytes)
}

// What a command shows, and the files that it wrote and took away.
#[derive(Drop)]
struct Ran {
    shown: String,
    written: Vec<StoredFile>,
    removed: Vec<String>,
}

fn run_command(
    alloc: Global,
    command: &Command,
    files: &[StoredFile],
    host: Host<'_>,
) -> Result<Ran, AllocError>
    requires { IsInRange command.now }
{
    let journal = RefCell::new(journal_of(alloc, command, files)?);
    let mut folder = StoredFolder::new(alloc, files, &journal, host);
    let outcome = run_over(alloc, command, &mut folder);
    if let Some(path) = journal_path(command) {
        folder.keep_journal(path)?;
    }
    let shown = show_outcome(alloc, &outcome, &folder);
    drop(outcome);
    ran_over(shown, folder)
}

// What was shown of a run over a folder, with the files that changed there.
fn ran_over(
    shown: Result<String, AllocError>,
    folder: StoredFolder<'_>,
) -> Result<Ran, AllocError> {
    let StoredFolder {
        removed,
        written,
        ..
    } = folder;
    match shown {
        Ok(shown) => Ok(Ran {
            shown,
            written,
            removed,
        }),
        Err(error) => {
            drop(removed);
            drop(written);
            Err(error)
        }
    }
}

// Keeps the files that a run changed.
fn keep(ran: Ran, files: &mut Vec<StoredFile>) -> Result<String, AllocError> {
    let Ran {
        shown,
        written,
        removed,
    } = ran;
    match change(files, removed, written) {
        Ok(()) => Ok(shown),
        Err(error) => {
            drop(shown);
            Err(error)
        }
    }
}

fn show_command(
    alloc: Global,
    command: &Command,
    files: &mut Vec<StoredFile>,
    host: Host<'_>,
) -> Result<String, AllocError>
    requires { IsInRange command.now }
{
    let ran = run_command(alloc, command, files.as_slice(), host)?;
    keep(ran, files)
}

// What a tool shows, and the files that it wrote.
fn run_tool(
    alloc: Global,
    tool: &Tool,
    files: &[StoredFile],
    host: Host<'_>,
) -> Result<Ran, AllocError> {
    let journal = RefCell::new(Vec::new(alloc));
    let mut folder = StoredFolder::new(alloc, files, &journal, host);
    let (mut out, mut err) = (Vec::new(alloc), Vec::new(alloc));
    let status = tools::run(alloc, tool, &mut folder, &mut out, &mut err);
    let outcome = Outcome { status, out, err };
    let shown = show_outcome(alloc, &outcome, &folder);
    drop(outcome);
    ran_over(shown, folder)
}

fn show_tool(
    alloc: Global,
    tool: &Tool,
    files: &mut Vec<StoredFile>,
    host: Host<'_>,
) -> Result<String, AllocError> {
    let ran = run_tool(alloc, tool, files.as_slice(), host)?;
    keep(ran, files)
}

// What the command shows whose reader of one file fails at its first call, at its second, and so on,
// until two runs show what none that fails does. What is shown again isn't repeated.
fn show_failing(
    alloc: Global,
    command: &Command,
    files: &[StoredFile],
    path: &str,
) -> Result<String, AllocError>
    requires { IsInRange command.now }
{
    let wanted = run_command(alloc, command, files, Host::sound())?.shown;
    let mut shown = String::new(alloc);
    let mut last = String::new(alloc);
    for call in 1..MOST_CALLS {
        let ran = run_command(alloc, command, files, Host::failing(path, call))?.shown;
        let is_again = ran == last;
        if is_again && ran == wanted {
            break;
        }
        if !is_again {
            put_next(&mut shown, ran.as_str())?;
        }
        last = ran;
    }
    Ok(shown)
}

fn put_next(shown: &mut String, next: &str) -> Result<(), AllocError> {
    if !shown.is_empty() {
        shown.push_str("then\n")?;
    }
    shown.push_str(next)
}

/// What the program prints and writes where it is asked by these words, over the files so far. What
/// it writes stands among them afterwards.
pub fn show(
    alloc: Global,
    words: &[&str],
    files: &mut Vec<StoredFile>,
    host: Host<'_>,
) -> Result<String, AllocError> {
    match tools::asked(alloc, words) {
        Ok(Some(tool)) => {
            let shown = show_tool(alloc, &tool, files, host);
            drop(tool);
            shown
        }
        Ok(None) => show_other(alloc, words, files, host),
        Err(fault) => show_usage(alloc, &fault),
    }
}

// The same of words that ask for no tool.
fn show_other(
    alloc: Global,
    words: &[&str],
    files: &mut Vec<StoredFile>,
    host: Host<'_>,
) -> Result<String, AllocError> {
    match command(alloc, words) {
        Ok(command) => {
            let shown = show_command(alloc, &command, files, host);
            drop(command);
            shown
        }
        Err(fault) => show_usage(alloc, &fault),
    }
}

/// What the program prints and writes, run again and again, where the reader of one file fails at one
/// call after the other, and then at none. Nothing of it stands among the files.
pub fn show_failures(
    alloc: Global,
    path: &str,
    words: &[&str],
    files: &[StoredFile],
) -> Result<String, AllocError> {
    match command(alloc, words) {
        Ok(command) => {
            let shown = show_failing(alloc, &command, files, path);
            drop(command);
            shown
        }
        Err(fault) => show_usage(alloc, &fault),
    }
}
