//! The tool that words ask for.
ghost use Rattle.std.specs.Prelude.{◌≡◌, ◌≢◌, None, Ok, Some, IfErr, IfOk, IfSome, IsSome, codes, false, map, true};
ghost use Rattle.command_line.specs.Steps.{flags_of, given_of, plain_of};
ghost use Rattle.command_line.specs.Usage.{IsUsage};
ghost use Rattle.tools.specs.Said.{AreNamed, AreWordsOf, IsMadeOf, IsOf, IsReadOff, TakesWords};
ghost use Rattle.tools.specs.declared.words.Tool.TheVariants.{Version};
ghost use Rattle.tools.specs.Words.{asks_tool, asks_version, begins_with_tool, is_tool, names_tool};

use crate::words::{CheckWords, ExplainWords, InitWords, ShowWords, Tool};
use command_line::{Parts, UsageFault, list_of_tools, parts_of, text_if_any, texts};
use meaning::Text;
use std::alloc::{AllocError, Global};

fn is_tool(word: &str) -> bool
    ensures { result ≡ is_tool word.now }
{
    word == "init"
        || word == "explain"
        || word == "show"
        || word == "refusal"
        || word == "check"
        || word == "tools"
}

fn begins_with_tool(words: &[&str]) -> bool
    ensures { result ≡ begins_with_tool (map (λ w. w.now) words.now) }
{
    let Some((word, _)) = words.split_first() else {
        return false;
    };
    is_tool(word)
}

// Whether they ask for the version.
fn asks_version(words: &[&str]) -> bool
    ensures { result ≡ asks_version (map (λ w. w.now) words.now) }
{
    match words {
        [word] => *word == "--version" || *word == "-V",
        _ => false,
    }
}

// Whether they begin as those of a tool, or ask for help on one.
fn names_tool(words: &[&str]) -> bool
    ensures { result ≡ names_tool (map (λ w. w.now) words.now) }
{
    let Some((word, others)) = words.split_first() else {
        return false;
    };
    if *word == "help" {
        return begins_with_tool(others);
    }
    is_tool(word)
}

/// The tool that the words behind the program's name ask for, or the version; none where they don't
/// begin as those of a tool, and may be another command. It is read off the words; where they ask for
/// none, `clap` says why.
pub fn asked(alloc: Global, words: &[&str]) -> Result<Option<Tool>, UsageFault>
    ensures none { asks_tool (map (λ w. w.now) words.now) ≡ false → result ≡ Ok None }
    ensures some { asks_tool (map (λ w. w.now) words.now) ≡ true
        → IfOk result (λ found. IsSome found) }
    ensures said { IfOk result
        (λ found. IfSome found (AreWordsOf (map (λ w. w.now) words.now))) }
    ensures taken { TakesWords (map (λ w. w.now) words.now) result }
    ensures version { asks_version (map (λ w. w.now) words.now) ≡ true
        → result ≡ Ok (Some Version) }
    ensures only { asks_version (map (λ w. w.now) words.now) ≡ false
        → result ≢ Ok (Some Version) }
    ensures worded { IfErr result IsUsage }
{
    if asks_version(words) {
        return Ok(Some(Tool::Version));
    }
    if !names_tool(words) {
        return Ok(None);
    }
    match said(alloc, words)? {
        Some(tool) => Ok(Some(tool)),
        None => Err(refusal(alloc, words)?),
    }
}

// Why the words ask for no tool, or the list of the tools.
fn refusal(alloc: Global, words: &[&str]) -> Result<UsageFault, AllocError>
    ensures { IfOk result IsUsage }
{
    if asks_list(words) {
        return list_of_tools(alloc);
    }
    command_line::refusal(alloc, words)
}

fn asks_list(words: &[&str]) -> bool {
    match words.first() {
        Some(first) => *first == "tools",
        None => false,
    }
}

fn said(alloc: Global, words: &[&str]) -> Result<Option<Tool>, AllocError>
    ensures said { IfOk result (λ o. IfSome o (AreNamed (map (λ w. w.now) words.now))) }
    ensures only { IfOk result (IsReadOff (map (λ w. w.now) words.now)) }
{
    let Some((name, words)) = words.split_first() else {
        return Ok(None);
    };
    let Some(parts) = parts_of(alloc, words)? else {
        return Ok(None);
    };
    of_name(alloc, name, &parts)
}

fn of_name(alloc: Global, name: &str, parts: &Parts<'_>) -> Result<Option<Tool>, AllocError>
    ensures said { IfOk result
        (λ o. IfSome o (IsOf name.now (given_of parts.now)
        (flags_of parts.now) (plain_of parts.now))) }
    ensures only { IfOk result (IsMadeOf name.now (given_of parts.now)
        (flags_of parts.now) (plain_of parts.now)) }
{
    match name {
        "init" => init_of(alloc, parts),
        "explain" => explain_of(alloc, parts),
        "show" => show_of(alloc, parts),
        "refusal" => refusal_of(alloc, parts),
        "check" => check_of(alloc, parts),
        _ => Ok(None),
    }
}

fn init_of(alloc: Global, parts: &Parts<'_>) -> Result<Option<Tool>, AllocError>
    ensures said { IfOk result
        (λ o. IfSome o (IsOf (codes "init") (given_of parts.now)
        (flags_of parts.now) (plain_of parts.now))) }
    ensures only { IfOk result (IsMadeOf (codes "init") (given_of parts.now)
        (flags_of parts.now) (plain_of parts.now)) }
{
    if !parts.has_only(&["fact"]) {
        return Ok(None);
    }
    if !parts.has_no_flag() {
        return Ok(None);
    }
    let Some(folder) = parts.only_word() else {
        return Ok(None);
    };
    let Some(fact) = parts.text_if_any("fact") else {
        return Ok(None);
    };
    let fact = text_if_any(alloc, fact)?;
    let folder = Text::new(alloc, folder)?;
    Ok(Some(Tool::Init(InitWords { folder, fact })))
}

fn check_of(alloc: Global, parts: &Parts<'_>) -> Result<Option<Tool>, AllocError>
    ensures said { IfOk result
        (λ o. IfSome o (IsOf (codes "check") (given_of parts.now)
        (flags_of parts.now) (plain_of parts.now))) }
    ensures only { IfOk result (IsMadeOf (codes "check") (given_of parts.now)
        (flags_of parts.now) (plain_of parts.now)) }
{
    if !parts.has_only(&[]) {
        return Ok(None);
    }
    if !parts.has_no_flag() {
        return Ok(None);
    }
    let Some(folder) = parts.only_word() else {
        return Ok(None);
    };
    let folder = Text::new(alloc, folder)?;
    Ok(Some(Tool::Check(CheckWords { folder })))
}

fn explain_of(alloc: Global, parts: &Parts<'_>) -> Result<Option<Tool>, AllocError>
    ensures said { IfOk result
        (λ o. IfSome o (IsOf (codes "explain") (given_of parts.now)
        (flags_of parts.now) (plain_of parts.now))) }
    ensures only { IfOk result (IsMadeOf (codes "explain") (given_of parts.now)
        (flags_of parts.now) (plain_of parts.now)) }
{
    if !parts.has_only(&["query"]) {
        return Ok(None);
    }
    if !parts.has_no_flag() {
        return Ok(None);
    }
    let Some(folder) = parts.only_word() else {
        return Ok(None);
    };
    let Some(query) = parts.text("query") else {
        return Ok(None);
    };
    let folder = Text::new(alloc, folder)?;
    let query = Text::new(alloc, query)?;
    Ok(Some(Tool::Explain(ExplainWords { folder, query })))
}

fn show_of(alloc: Global, parts: &Parts<'_>) -> Result<Option<Tool>, AllocError>
    ensures said { IfOk result
        (λ o. IfSome o (IsOf (codes "show") (given_of parts.now)
        (flags_of parts.now) (plain_of parts.now))) }
    ensures only { IfOk result (IsMadeOf (codes "show") (given_of parts.now)
        (flags_of parts.now) (plain_of parts.now)) }
{
    if !parts.has_only(&["rows"]) {
        return Ok(None);
    }
    let Some(path) = parts.only_word() else {
        return Ok(None);
    };
    let Some(rows) = parts.number_if_any("rows") else {
        return Ok(None);
    };
    let Some(groups) = parts.only_flag("groups") else {
        return Ok(None);
    };
    let path = Text::new(alloc, path)?;
    Ok(Some(Tool::Show(ShowWords { path, rows, groups })))
}

fn refusal_of(alloc: Global, parts: &Parts<'_>) -> Result<Option<Tool>, AllocError>
    ensures said { IfOk result
        (λ o. IfSome o (IsOf (codes "refusal") (given_of parts.now)
        (flags_of parts.now) (plain_of parts.now))) }
    ensures only { IfOk result (IsMadeOf (codes "refusal") (given_of parts.now)
        (flags_of parts.now) (plain_of parts.now)) }
{
    if !parts.has_only(&[]) {
        return Ok(None);
    }
    if !parts.has_no_flag() {
        return Ok(None);
    }
    let words = parts.plain_words();
    if words.is_empty() {
        return Ok(None);
    }
    Ok(Some(Tool::Refusal(texts(alloc, words)?)))
}
