//! The command that words say.
ghost use Rattle.std.specs.Prelude.{◌≡◌, IfErr, IfOk, IfSome, codes, map, option_map};
ghost use Rattle.command_line.specs.Command.{IsInRange};
ghost use Rattle.command_line.specs.Said.{IsMadeOf, IsOf, IsReadOff, IsSaid, TakesWords};
ghost use Rattle.command_line.specs.Steps.{flags_of, given_of, plain_of};
ghost use Rattle.command_line.specs.Usage.{IsUsage};

use crate::commands::{Command, GatherCommand, WorkCommand};
use crate::parser::parser;
use crate::parts::Parts;
use crate::reading::parts_of;
use crate::tool_parser::tools_parser;
use crate::usage_fault::UsageFault;
use clap::error::ErrorKind;
use meaning::{MAX_FRAGMENTS, MAX_ROWS, Sequence, Text};
use std::alloc::{AllocError, Global};
use std::mem::drop;

const HELP: &[&str] = &["--help"];

/// The command that the words behind the program's name ask for. It is read off the words; where
/// they ask for none, `clap` says why.
pub fn command(alloc: Global, words: &[&str]) -> Result<Command, UsageFault>
    ensures said { IfOk result (IsSaid (map (λ w. w.now) words.now)) }
    ensures range { IfOk result IsInRange }
    ensures taken { TakesWords (map (λ w. w.now) words.now) result }
    ensures worded { IfErr result IsUsage }
{
    match said(alloc, words)? {
        Some(command) => Ok(command),
        None => Err(refusal(alloc, words)?),
    }
}

/// Why the words ask for no command, and for no tool, as `clap` says it; the help, where they ask for it.
pub fn refusal(alloc: Global, words: &[&str]) -> Result<UsageFault, AllocError>
    ensures { IfOk result IsUsage }
{
    let mut parser = parser(alloc)?;
    let refusal = refusal_by(&mut parser, words);
    drop(parser);
    Ok(refusal)
}

/// The list of the tools, as a refusal with the text of their help.
pub fn list_of_tools(alloc: Global) -> Result<UsageFault, AllocError>
    ensures { IfOk result IsUsage }
{
    let mut parser = tools_parser(alloc)?;
    let list = refusal_by(&mut parser, HELP);
    drop(parser);
    Ok(list)
}

// Why the parser refuses the words, or its help where they ask for it.
fn refusal_by<'a>(parser: &mut clap::Command<'a>, words: &'a [&'a str]) -> UsageFault
    ensures { IsUsage result }
{
    match parser.try_get_matches_from_mut(words) {
        Ok(matches) => {
            drop(matches);
            signed_number(parser)
        }
        Err(error) => UsageFault::from(error),
    }
}

// A number with a sign, which clap takes.
fn signed_number(parser: &mut clap::Command<'_>) -> UsageFault
    ensures { IsUsage result }
{
    match parser.error(ErrorKind::ValueValidation, "a number is digits alone") {
        Ok(error) => UsageFault::from(error),
        Err(AllocError) => UsageFault::Memory,
    }
}

fn said(alloc: Global, words: &[&str]) -> Result<Option<Command>, AllocError>
    ensures said { IfOk result (λ o. IfSome o (IsSaid (map (λ w. w.now) words.now))) }
    ensures range { IfOk result (λ o. IfSome o IsInRange) }
    ensures only { IfOk result (IsReadOff (map (λ w. w.now) words.now)) }
{
    let Some((name, words)) = words.split_first() else {
        return Ok(None);
    };
    let Some(parts) = parts_of(alloc, words)? else {
        return Ok(None);
    };
    of_name(alloc, name, &parts)
}

fn of_name(alloc: Global, name: &str, parts: &Parts<'_>) -> Result<Option<Command>, AllocError>
    ensures said { IfOk result
        (λ o. IfSome o (IsOf name.now (given_of parts.now)
        (flags_of parts.now) (plain_of parts.now))) }
    ensures range { IfOk result (λ o. IfSome o IsInRange) }
    ensures only { IfOk result (IsMadeOf name.now (given_of parts.now)
        (flags_of parts.now) (plain_of parts.now)) }
{
    match name {
        "whole" => whole(alloc, parts),
        "load" => load(alloc, parts),
        "work" => work(alloc, parts),
        "gather" => gather(alloc, parts),
        _ => Ok(None),
    }
}

fn whole(alloc: Global, parts: &Parts<'_>) -> Result<Option<Command>, AllocError>
    ensures said { IfOk result
        (λ o. IfSome o (IsOf (codes "whole") (given_of parts.now)
        (flags_of parts.now) (plain_of parts.now))) }
    ensures range { IfOk result (λ o. IfSome o IsInRange) }
    ensures only { IfOk result (IsMadeOf (codes "whole") (given_of parts.now)
        (flags_of parts.now) (plain_of parts.now)) }
{
    if !parts.has_only(&["query", "rows", "vector"]) {
        return Ok(None);
    }
    if !parts.has_no_flag() {
        return Ok(None);
    }
    let Some(folder) = parts.only_word() else {
        return Ok(None);
    };
    let Some(query) = parts.text("query") else {
        return Ok(None);
    };
    let Some(rows) = parts.number_within("rows", 1, MAX_ROWS) else {
        return Ok(None);
    };
    let Some(vector) = parts.vector() else {
        return Ok(None);
    };
    Ok(Some(Command::Whole {
        folder: Text::new(alloc, folder)?,
        query: Text::new(alloc, query)?,
        rows,
        vector,
    }))
}

fn load(alloc: Global, parts: &Parts<'_>) -> Result<Option<Command>, AllocError>
    ensures said { IfOk result
        (λ o. IfSome o (IsOf (codes "load") (given_of parts.now)
        (flags_of parts.now) (plain_of parts.now))) }
    ensures range { IfOk result (λ o. IfSome o IsInRange) }
    ensures only { IfOk result (IsMadeOf (codes "load") (given_of parts.now)
        (flags_of parts.now) (plain_of parts.now)) }
{
    if !parts.has_only(&["load", "rows"]) {
        return Ok(None);
    }
    if !parts.has_no_flag() {
        return Ok(None);
    }
    let Some(folder) = parts.only_word() else {
        return Ok(None);
    };
    let Some(load) = parts.number("load") else {
        return Ok(None);
    };
    let Some(rows) = parts.number_within("rows", 1, MAX_ROWS) else {
        return Ok(None);
    };
    Ok(Some(Command::Load {
        folder: Text::new(alloc, folder)?,
        load,
        rows,
    }))
}

fn work(alloc: Global, parts: &Parts<'_>) -> Result<Option<Command>, AllocError>
    ensures said { IfOk result
        (λ o. IfSome o (IsOf (codes "work") (given_of parts.now)
        (flags_of parts.now) (plain_of parts.now))) }
    ensures range { IfOk result (λ o. IfSome o IsInRange) }
    ensures only { IfOk result (IsMadeOf (codes "work") (given_of parts.now)
        (flags_of parts.now) (plain_of parts.now)) }
{
    if !parts.has_only(&["query", "fragment", "out", "vector"]) {
        return Ok(None);
    }
    if !parts.has_no_flag() {
        return Ok(None);
    }
    let Some(folder) = parts.only_word() else {
        return Ok(None);
    };
    let Some(query) = parts.text("query") else {
        return Ok(None);
    };
    let Some(out) = parts.text("out") else {
        return Ok(None);
    };
    let Some(fragment) = parts.number_within("fragment", 0, MAX_FRAGMENTS as u32 - 1) else {
        return Ok(None);
    };
    let Some(vector) = parts.vector() else {
        return Ok(None);
    };
    Ok(Some(Command::Work(WorkCommand {
        folder: Text::new(alloc, folder)?,
        query: Text::new(alloc, query)?,
        fragment,
        out: Text::new(alloc, out)?,
        vector,
    })))
}

fn gather(alloc: Global, parts: &Parts<'_>) -> Result<Option<Command>, AllocError>
    ensures said { IfOk result
        (λ o. IfSome o (IsOf (codes "gather") (given_of parts.now)
        (flags_of parts.now) (plain_of parts.now))) }
    ensures range { IfOk result (λ o. IfSome o IsInRange) }
    ensures only { IfOk result (IsMadeOf (codes "gather") (given_of parts.now)
        (flags_of parts.now) (plain_of parts.now)) }
{
    if !parts.has_only(&["query", "save", "journal"]) {
        return Ok(None);
    }
    let Some((folder, files)) = parts.plain_words().split_first() else {
        return Ok(None);
    };
    if files.is_empty() {
        return Ok(None);
    }
    let Some(query) = parts.text("query") else {
        return Ok(None);
    };
    let Some(save) = parts.text_if_any("save") else {
        return Ok(None);
    };
    let Some(journal) = parts.text_if_any("journal") else {
        return Ok(None);
    };
    let Some(preview) = parts.only_flag("preview") else {
        return Ok(None);
    };
    let command = gather_command(alloc, folder, query, save, journal, preview, files)?;
    Ok(Some(Command::Gather(command)))
}

fn gather_command(
    alloc: Global,
    folder: &str,
    query: &str,
    save: Option<&str>,
    journal: Option<&str>,
    preview: bool,
    files: &[&str],
) -> Result<GatherCommand, AllocError>
    ensures { IfOk result (λ command. command ≡ record {
      folder = folder.now;
      query = query.now;
      save = option_map (λ s. s.now) save.entry;
      journal = option_map (λ s. s.now) journal.entry;
      preview = preview;
      files = map (λ w. w.now) files.now;
    }) }
{
    let save = text_if_any(alloc, save)?;
    let journal = text_if_any(alloc, journal)?;
    let folder = Text::new(alloc, folder)?;
    let query = Text::new(alloc, query)?;
    let files = texts(alloc, files)?;
    Ok(GatherCommand {
        folder,
        query,
        save,
        journal,
        preview,
        files,
    })
}

/// The text, where there is one.
pub fn text_if_any(alloc: Global, text: Option<&str>) -> Result<Option<Text>, AllocError>
    ensures { IfOk result (λ t. t ≡ option_map (λ s. s.now) text.entry) }
{
    match text {
        Some(text) => Ok(Some(Text::new(alloc, text)?)),
        None => Ok(None),
    }
}

/// The words as texts.
pub fn texts(alloc: Global, words: &[&str]) -> Result<Sequence<Text>, AllocError>
    ensures { IfOk result (λ texts. texts ≡ map (λ w. w.now) words.now) }
{
    let mut texts = Sequence::new(alloc);
    for word in words {
        texts.push(Text::new(alloc, word)?)?;
    }
    Ok(texts)
}
