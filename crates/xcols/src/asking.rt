//! What the words of the command line ask for.
ghost use Rattle.std.specs.Prelude.{◌≡◌, IfOk, length, map, nat_lt};
ghost use Rattle.xcols.specs.Progress.{without_progress};
ghost use Rattle.xcols.specs.Request.{AreWordsOf, IsRequestInRange};

use crate::progress_word::without_progress;
use cli::{Command, UsageFault, command};
use std::alloc::Global;
use std::env;
use tools::Tool;

/// A tool, or one of the commands that answer queries.
#[derive(Drop)]
pub enum Request {
    Tool(Tool),
    Command(Command),
}

/// What the words behind the program's name ask for, and whether how far it has come is to be printed.
pub fn asked(rt: &HostRuntime) -> Result<(Request, bool), UsageFault>
    ensures { IfOk result (λ asked. IsRequestInRange asked.0) }
{
    let words: Vec<String> = env::args(rt)?.skip(1).collect(rt.alloc())?;
    let words: Vec<&str> = words.iter().map(|word| word.as_str()).collect(rt.alloc())?;
    asked_in(rt.alloc(), words.as_slice())
}

// The words that ask for progress are taken out, and the request is read off the others.
fn asked_in(alloc: Global, words: &[&str]) -> Result<(Request, bool), UsageFault>
    ensures range { IfOk result (λ asked. IsRequestInRange asked.0) }
    ensures said { IfOk result
        (λ asked. AreWordsOf (without_progress (map (λ w. w.now) words.now)) asked.0) }
    ensures watched { IfOk result
        (λ asked. asked.1
        ≡ nat_lt (length (without_progress (map (λ w. w.now) words.now))) (length words.now)) }
{
    let (words, is_watched) = without_progress(alloc, words)?;
    Ok((asked_by(alloc, words.as_slice())?, is_watched))
}

fn asked_by(alloc: Global, words: &[&str]) -> Result<Request, UsageFault>
    ensures range { IfOk result IsRequestInRange }
    ensures said { IfOk result (AreWordsOf (map (λ w. w.now) words.now)) }
{
    match tools::asked(alloc, words)? {
        Some(tool) => Ok(Request::Tool(tool)),
        None => Ok(Request::Command(command(alloc, words)?)),
    }
}
