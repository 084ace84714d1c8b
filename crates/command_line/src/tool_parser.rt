//! The words that the tools take, as `clap` checks and explains them.
use crate::parser::{empty_parser, folder_arg, query_arg, with_subcommand};
use clap::{Arg, ArgAction};
use std::alloc::{AllocError, Global};

const INIT_EXAMPLE: &str = "Example:\n  xcols init examples/sales --fact sales";

const CHECK_EXAMPLE: &str = "Example:\n  xcols check examples/sales";

const EXPLAIN_EXAMPLE: &str =
    "Example:\n  xcols explain examples/sales --query \"SELECT COUNT(*) FROM sales\"";

const SHOW_EXAMPLE: &str = "Example:\n  xcols show examples/sales/sales.0.xcf";

const REFUSAL_EXAMPLE: &str = "Example:\n  xcols refusal sql 5";

/// The parser of the tools' words alone.
pub fn tools_parser<'a>(alloc: Global) -> Result<clap::Command<'a>, AllocError> {
    let parser = empty_parser(alloc)?
        .about("The commands beside load, work, gather and whole")
        .subcommand_required(true);
    with_tools(parser, alloc)
}

/// The parser with the tools as subcommands.
pub fn with_tools<'a>(
    parser: clap::Command<'a>,
    alloc: Global,
) -> Result<clap::Command<'a>, AllocError> {
    let parser = with_subcommand(parser, init_parser(alloc))?;
    let parser = with_subcommand(parser, check_parser(alloc))?;
    let parser = with_subcommand(parser, explain_parser(alloc))?;
    let parser = with_subcommand(parser, show_parser(alloc))?;
    let parser = with_subcommand(parser, refusal_parser(alloc))?;
    parser.subcommand(list_parser(alloc))
}

fn fact_arg<'a>(alloc: Global) -> Arg<'a> {
    Arg::new(alloc, "fact").long("fact").value_name("NAME").help(
        "The fact table, which the others are joined to; else that of the largest file",
    )
}

fn file_arg<'a>(alloc: Global) -> Arg<'a> {
    Arg::new(alloc, "FILE")
        .required(true)
        .help("A file that load, work or gather wrote")
}

fn rows_arg<'a>(alloc: Global) -> Arg<'a> {
    Arg::new(alloc, "rows")
        .long("rows")
        .value_name("N")
        .value_parser(clap::value_parser!(u32))
        .help("Prints the first N rows of a table as CSV, in place of its parts; 0 to 4294967295")
}

fn groups_arg<'a>(alloc: Global) -> Arg<'a> {
    Arg::new(alloc, "groups")
        .long("groups")
        .action(ArgAction::SetTrue)
        .help("Prints each group of an answer, with its statistics")
}

fn words_arg<'a>(alloc: Global) -> Arg<'a> {
    Arg::new(alloc, "WORDS")
        .required(true)
        .num_args(1..)
        .help("The line, in quotes or not, or its first words")
}

fn init_parser<'a>(alloc: Global) -> Result<clap::Command<'a>, AllocError> {
    let parser = clap::Command::new(alloc, "init")
        .about("Writes catalog.txt for a folder of CSV files")
        .after_help(INIT_EXAMPLE);
    let parser = parser.arg(folder_arg(alloc, "Folder with a file NAME.csv for each table"))?;
    parser.arg(fact_arg(alloc))
}

fn check_parser<'a>(alloc: Global) -> Result<clap::Command<'a>, AllocError> {
    let parser = clap::Command::new(alloc, "check")
        .about("Finds the first fault that a load of the CSV files would have")
        .after_help(CHECK_EXAMPLE);
    parser.arg(folder_arg(
        alloc,
        "Folder with catalog.txt and, for each table, a file NAME.csv",
    ))
}

fn explain_parser<'a>(alloc: Global) -> Result<clap::Command<'a>, AllocError> {
    let parser = clap::Command::new(alloc, "explain")
        .about("Prints how a query is answered, or why it is refused")
        .after_help(EXPLAIN_EXAMPLE);
    let parser = parser.arg(folder_arg(alloc, "Folder with catalog.txt"))?;
    parser.arg(query_arg(alloc))
}

fn show_parser<'a>(alloc: Global) -> Result<clap::Command<'a>, AllocError> {
    let parser = clap::Command::new(alloc, "show")
        .about("Prints what a file holds, and where it is damaged")
        .after_help(SHOW_EXAMPLE);
    let parser = parser.arg(file_arg(alloc))?;
    let parser = parser.arg(rows_arg(alloc))?;
    parser.arg(groups_arg(alloc))
}

fn refusal_parser<'a>(alloc: Global) -> Result<clap::Command<'a>, AllocError> {
    let parser = clap::Command::new(alloc, "refusal")
        .about("Says what the line of a refusal means, and what to do")
        .after_help(REFUSAL_EXAMPLE);
    parser.arg(words_arg(alloc))
}

fn list_parser<'a>(alloc: Global) -> clap::Command<'a> {
    clap::Command::new(alloc, "tools").about(
        "Lists the commands beside load, work, gather and whole",
    )
}
