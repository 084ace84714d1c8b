//! The words that the program takes, as `clap` checks and explains them.
use crate::tool_parser::with_tools;
use clap::{Arg, ArgAction};
use meaning::{MAX_FRAGMENTS, MAX_ROWS, MAX_VECTOR_ROWS};
use std::alloc::{AllocError, Global};
use std::mem::drop;

/// The version of the program, which `xcols --version` prints.
pub const VERSION: &str = "1.0.0";

// What the help ends with. `--progress` is the program's own word, which it takes out in front of this
// parser.
const EXAMPLE: &str =
    "Example:\n  xcols init shop\n  xcols whole shop --query \"SELECT COUNT(*) FROM orders\" --rows 262144";

const LOAD_HELP: &str =
    "With:\n      --progress  Shows on standard error how far each file has been read\n\nExample:\n  xcols load examples/sales --load \"$(date +%s)\" --rows 262144";

const WORK_HELP: &str =
    "Example:\n  xcols work examples/sales --query \"SELECT COUNT(*) FROM sales\" --fragment 0 --out a0";

const GATHER_HELP: &str =
    "With:\n      --progress  Shows on standard error how far each file has been read\n\nExample:\n  xcols gather examples/sales --query \"SELECT COUNT(*) FROM sales\" --save s a0 a2";

const WHOLE_HELP: &str =
    "With:\n      --progress  Shows on standard error how far each file has been read\n\nExample:\n  xcols whole examples/sales --query \"SELECT COUNT(*) FROM sales\" --rows 262144";

// What a folder has in it.
const CSV_FOLDER: &str = "Folder with catalog.txt and, for each table, a file NAME.csv";

const LOADED_FOLDER: &str = "Folder with catalog.txt and the files that load wrote";

/// A parser of the words behind the program's name.
pub fn empty_parser<'a>(alloc: Global) -> Result<clap::Command<'a>, AllocError> {
    clap::Command::new(alloc, "xcols")
        .no_binary_name(true)
        .bin_name("xcols")
}

/// The program's parser of its words.
pub fn parser<'a>(alloc: Global) -> Result<clap::Command<'a>, AllocError> {
    let parser = empty_parser(alloc)?
        .about("Answers SQL queries over one large table and the tables that it refers to")
        .after_help(EXAMPLE)
        .version(VERSION)
        .subcommand_required(true);
    let parser = with_commands(parser, alloc)?;
    with_tools(parser, alloc)
}

fn with_commands<'a>(
    parser: clap::Command<'a>,
    alloc: Global,
) -> Result<clap::Command<'a>, AllocError> {
    let parser = with_subcommand(parser, load_parser(alloc))?;
    let parser = with_subcommand(parser, work_parser(alloc))?;
    let parser = with_subcommand(parser, gather_parser(alloc))?;
    with_subcommand(parser, whole_parser(alloc))
}

/// The parser with a subcommand more.
pub fn with_subcommand<'a>(
    parser: clap::Command<'a>,
    subcommand: Result<clap::Command<'a>, AllocError>,
) -> Result<clap::Command<'a>, AllocError> {
    match subcommand {
        Ok(subcommand) => parser.subcommand(subcommand),
        Err(error) => {
            drop(parser);
            Err(error)
        }
    }
}

/// The folder, of which the help says what it has in it.
pub fn folder_arg<'a>(alloc: Global, help: &'a str) -> Arg<'a> {
    Arg::new(alloc, "DIR").required(true).help(help)
}

fn rows_arg<'a>(alloc: Global) -> Arg<'a> {
    Arg::new(alloc, "rows")
        .long("rows")
        .value_name("R")
        .required(true)
        .value_parser(clap::value_parser!(u32).range(1..=i64::from(MAX_ROWS)))
        .help("How many rows a fragment has, 1 to 1048576; the result is the same for each")
}

/// The option of a query.
pub fn query_arg<'a>(alloc: Global) -> Arg<'a> {
    Arg::new(alloc, "query")
        .long("query")
        .value_name("Q")
        .required(true)
        .allow_hyphen_values(true)
        .help("The query, in SQL")
}

fn vector_arg<'a>(alloc: Global) -> Arg<'a> {
    Arg::new(alloc, "vector")
        .long("vector")
        .value_name("V")
        .default_value("1024")
        .value_parser(clap::value_parser!(u32).range(1..=MAX_VECTOR_ROWS as i64))
        .help("How many rows are worked on at a time, 1 to 4096; changes no result")
}

fn load_arg<'a>(alloc: Global) -> Arg<'a> {
    Arg::new(alloc, "load")
        .long("load")
        .value_name("N")
        .required(true)
        .value_parser(clap::value_parser!(u64))
        .help(
            "A number for this load, 0 to 18446744073709551615: take a new one each time, as $(date +%s)",
        )
}

fn fragment_arg<'a>(alloc: Global) -> Arg<'a> {
    Arg::new(alloc, "fragment")
        .long("fragment")
        .value_name("K")
        .required(true)
        .value_parser(clap::value_parser!(u32).range(0..=MAX_FRAGMENTS as i64 - 1))
        .help("Which fragment, from 0; below the number of fragments that load printed")
}

fn out_arg<'a>(alloc: Global) -> Arg<'a> {
    Arg::new(alloc, "out")
        .long("out")
        .value_name("F")
        .required(true)
        .help("File that the answer is written to")
}

fn save_arg<'a>(alloc: Global) -> Arg<'a> {
    Arg::new(alloc, "save").long("save").value_name("F").help(
        "File that the state is written to; gather takes it in place of the answers that it has",
    )
}

fn journal_arg<'a>(alloc: Global) -> Arg<'a> {
    Arg::new(alloc, "journal")
        .long("journal")
        .value_name("J")
        .help(
            "File that records each answer as it is taken; created if missing; for one run at a time",
        )
}

fn preview_arg<'a>(alloc: Global) -> Arg<'a> {
    Arg::new(alloc, "preview")
        .long("preview")
        .action(ArgAction::SetTrue)
        .help("Prints the result over the fragments answered so far")
}

fn files_arg<'a>(alloc: Global) -> Arg<'a> {
    Arg::new(alloc, "FILES")
        .required(true)
        .num_args(1..)
        .help("Answers that work wrote, and states that gather saved")
}

fn whole_parser<'a>(alloc: Global) -> Result<clap::Command<'a>, AllocError> {
    let parser = clap::Command::new(alloc, "whole")
        .about("Answers a query over the CSV files, in memory, and prints the result")
        .after_help(WHOLE_HELP);
    let parser = parser.arg(folder_arg(alloc, CSV_FOLDER))?;
    let parser = parser.arg(query_arg(alloc))?;
    let parser = parser.arg(rows_arg(alloc))?;
    parser.arg(vector_arg(alloc))
}

fn load_parser<'a>(alloc: Global) -> Result<clap::Command<'a>, AllocError> {
    let parser = clap::Command::new(alloc, "load")
        .about("Reads the CSV files and writes the tables as files of columns, in fragments")
        .after_help(LOAD_HELP);
    let parser = parser.arg(folder_arg(alloc, CSV_FOLDER))?;
    let parser = parser.arg(load_arg(alloc))?;
    parser.arg(rows_arg(alloc))
}

fn work_parser<'a>(alloc: Global) -> Result<clap::Command<'a>, AllocError> {
    let parser = clap::Command::new(alloc, "work")
        .about("Answers a query for one fragment, and writes the answer to a file")
        .after_help(WORK_HELP);
    let parser = parser.arg(folder_arg(alloc, LOADED_FOLDER))?;
    let parser = parser.arg(query_arg(alloc))?;
    let parser = parser.arg(fragment_arg(alloc))?;
    let parser = parser.arg(out_arg(alloc))?;
    parser.arg(vector_arg(alloc))
}

fn gather_parser<'a>(alloc: Global) -> Result<clap::Command<'a>, AllocError> {
    let parser = clap::Command::new(alloc, "gather")
        .about("Combines the answers and prints the result")
        .after_help(GATHER_HELP);
    let parser = parser.arg(folder_arg(alloc, LOADED_FOLDER))?;
    let parser = parser.arg(query_arg(alloc))?;
    let parser = parser.arg(save_arg(alloc))?;
    let parser = parser.arg(journal_arg(alloc))?;
    let parser = parser.arg(preview_arg(alloc))?;
    parser.arg(files_arg(alloc))
}
