//! The line on standard error that says why a command was refused.
ghost use Rattle.std.specs.Prelude.{◌≡◌, [], ◌∷◌, codes, decimal, OnOk};
ghost use Rattle.std.specs.Io.KnownBytes.{Appends};
ghost use Rattle.folders.specs.Lines.{numbered_line};
ghost use Rattle.cli.specs.Lines.{catalog_line, sql_line, table_line, plan_line, cut_file_line, work_line, journal_line, file_line, plain_line, line_of};
ghost use Rattle.job_files.specs.declared.fault.WorkFault.TheVariants.{File};

use folders::{JournalRefusal, Refusal};
use fragment_file::FileFault;
use job_files::WorkFault;
use meaning::{CatalogFault, TableFault, Text};
use planner_expressions::PlanFault;
use sql_reader::SqlFault;
use std::io;
use std::io::Write;

fn print_number<E: Write>(word: &str, number: u8, err: &mut E) -> io::Result<()>
    ensures { OnOk result (Appends (E.contents err.old) (E.contents err.new)
        (numbered_line word.now number [])) }
{
    writeln!(err, "xcols: {word} {number}")
}

fn print_detail<E: Write>(word: &str, number: u8, detail: u64, err: &mut E) -> io::Result<()>
    ensures { OnOk result (Appends (E.contents err.old) (E.contents err.new)
        (numbered_line word.now number (decimal detail ∷ []))) }
{
    writeln!(err, "xcols: {word} {number} {detail}")
}

fn print_word<E: Write>(word: &str, number: u8, detail: &str, err: &mut E) -> io::Result<()>
    ensures { OnOk result (Appends (E.contents err.old) (E.contents err.new)
        (numbered_line word.now number (detail.now ∷ []))) }
{
    writeln!(err, "xcols: {word} {number} {detail}")
}

fn print_field<E: Write>(
    word: &str,
    number: u8,
    row: u64,
    column: u64,
    err: &mut E,
) -> io::Result<()>
    ensures { OnOk result (Appends (E.contents err.old) (E.contents err.new)
        (numbered_line word.now number (decimal row ∷ decimal column ∷ []))) }
{
    writeln!(err, "xcols: {word} {number} {row} {column}")
}

fn print_offset_and_word<E: Write>(
    word: &str,
    number: u8,
    offset: u64,
    left_out: &str,
    err: &mut E,
) -> io::Result<()>
    ensures { OnOk result (Appends (E.contents err.old) (E.contents err.new)
        (numbered_line word.now number (decimal offset ∷ left_out.now ∷ []))) }
{
    writeln!(err, "xcols: {word} {number} {offset} {left_out}")
}

fn print_catalog<E: Write>(fault: &CatalogFault, err: &mut E) -> io::Result<()>
    ensures { OnOk result (Appends (E.contents err.old) (E.contents err.new)
        (catalog_line fault.now)) }
{
    let number = fault.number();
    match fault {
        CatalogFault::UnknownLine { line } | CatalogFault::NameTwice { line } => {
            print_detail("catalog", number, *line as u64, err)
        }
        _ => print_number("catalog", number, err),
    }
}

fn print_sql<E: Write>(fault: &SqlFault, err: &mut E) -> io::Result<()>
    ensures { OnOk result (Appends (E.contents err.old) (E.contents err.new) (sql_line fault.now)) }
{
    let number = fault.number();
    match fault {
        SqlFault::UnknownCharacter { offset }
        | SqlFault::TextNotClosed { offset }
        | SqlFault::IntegerOutOfRange { offset }
        | SqlFault::UnexpectedToken { offset } => print_detail("sql", number, *offset as u64, err),
        SqlFault::LeftOut { offset, word } => {
            print_offset_and_word("sql", number, *offset as u64, word.as_str(), err)
        }
        _ => print_number("sql", number, err),
    }
}

fn print_table<E: Write>(fault: &TableFault, err: &mut E) -> io::Result<()>
    ensures { OnOk result (Appends (E.contents err.old) (E.contents err.new)
        (table_line fault.now)) }
{
    let number = fault.number();
    match fault {
        TableFault::FieldCount { row } | TableFault::KeyTwice { row } => {
            print_detail("load", number, *row, err)
        }
        TableFault::NotAnInteger { row, column }
        | TableFault::NullNotAllowed { row, column }
        | TableFault::TextTooLong { row, column }
        | TableFault::NotUtf8 { row, column } => print_field("load", number, *row, *column, err),
        TableFault::Header | TableFault::TooManyRows | TableFault::TooFewRows => {
            print_number("load", number, err)
        }
    }
}

fn print_plan<E: Write>(fault: &PlanFault, err: &mut E) -> io::Result<()>
    ensures { OnOk result (Appends (E.contents err.old) (E.contents err.new)
        (plan_line fault.now)) }
{
    print_number("plan", fault.number(), err)
}

fn print_cut_file<E: Write>(fault: &FileFault, err: &mut E) -> io::Result<()>
    ensures { OnOk result (Appends (E.contents err.old) (E.contents err.new)
        (cut_file_line fault.now)) }
{
    let number = fault.number();
    match fault {
        FileFault::Block { group, column } => print_field("file", number, *group, *column, err),
        _ => print_number("file", number, err),
    }
}

fn print_block<E: Write>(
    word: &str,
    number: u8,
    file: u8,
    group: u64,
    column: u64,
    err: &mut E,
) -> io::Result<()>
    ensures { OnOk result (Appends (E.contents err.old) (E.contents err.new)
        (numbered_line word.now number (decimal file ∷ decimal group ∷ decimal column ∷ []))) }
{
    writeln!(err, "xcols: {word} {number} {file} {group} {column}")
}

/// Of a table's file, which a worker refuses.
fn print_work_file<E: Write>(fault: &FileFault, err: &mut E) -> io::Result<()>
    ensures { OnOk result (Appends (E.contents err.old) (E.contents err.new)
        (work_line (File fault.now))) }
{
    let number = fault.number();
    match fault {
        FileFault::Block { group, column } => print_block("work", 3, number, *group, *column, err),
        _ => print_detail("work", 3, u64::from(number), err),
    }
}

fn print_work<E: Write>(fault: &WorkFault, err: &mut E) -> io::Result<()>
    ensures { OnOk result (Appends (E.contents err.old) (E.contents err.new)
        (work_line fault.now)) }
{
    match fault {
        WorkFault::File(fault) => print_work_file(fault, err),
        _ => print_number("work", fault.number(), err),
    }
}

fn print_journal<E: Write>(fault: &JournalRefusal, err: &mut E) -> io::Result<()>
    ensures { OnOk result (Appends (E.contents err.old) (E.contents err.new)
        (journal_line fault.now)) }
{
    print_number("journal", fault.number(), err)
}

fn print_file<E: Write>(lacks: &str, path: &Text, err: &mut E) -> io::Result<()>
    ensures { OnOk result (Appends (E.contents err.old) (E.contents err.new)
        (file_line lacks.now path.now)) }
{
    writeln!(err, "xcols: {lacks} {}", path.as_str())
}

fn print_plain<E: Write>(words: &str, err: &mut E) -> io::Result<()>
    ensures { OnOk result (Appends (E.contents err.old) (E.contents err.new)
        (plain_line words.now)) }
{
    writeln!(err, "xcols: {words}")
}

/// Writes the line that says why a command was not done.
pub fn print_refusal<E: Write>(refusal: &Refusal, err: &mut E) -> io::Result<()>
    ensures { OnOk result (Appends (E.contents err.old) (E.contents err.new)
        (line_of refusal.now)) }
{
    match refusal {
        Refusal::Memory => print_plain("memory", err),
        Refusal::CannotRead(path) => print_file("cannot read", path, err),
        Refusal::CannotWrite(path) => print_file("cannot write", path, err),
        Refusal::CannotPrint => print_plain("cannot write standard output", err),
        Refusal::CannotReport => print_plain("cannot write standard error", err),
        Refusal::Catalog(fault) => print_catalog(fault, err),
        Refusal::Cut(fault) => print_number("cut", fault.number(), err),
        Refusal::File(fault) => print_cut_file(fault, err),
        Refusal::Sql(fault) => print_sql(fault, err),
        Refusal::Plan(fault) => print_plan(fault, err),
        Refusal::Load(fault) => print_table(fault, err),
        Refusal::Work(fault) => print_work(fault, err),
        Refusal::Journal(fault) => print_journal(fault, err),
    }
}
