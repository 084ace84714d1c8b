//! Runs a tool and gives its exit status.
ghost use Rattle.std.specs.Prelude.{◌≡◌, OnOk, option_map};
ghost use Rattle.tools.specs.Explained.{PrintsEntry, PrintsExplained};
ghost use Rattle.tools.specs.Running.{ChecksFolder, ExplainsPlan, IsStatus, LeavesErrors, LeavesFiles, LeavesOutput, MakesCatalog, PrintsExplanation, PrintsFile, PrintsFit, PrintsVersion, SaysCatalog, ShowsFile};

use crate::explaining::{Explanation, explanation_of};
use crate::words::{CheckWords, ExplainWords, InitWords, ShowWords, Tool};
use command_line::VERSION;
use explain::explain;
use folders::Folder;
use init::{InitFault, Listing, make_catalog};
use load_check::check;
use meaning::Text;
use refusals::{print_codes, print_known};
use show::{ShowOptions, show};
use std::alloc::Global;
use std::io;
use std::io::Write;

// The name of the fact, where the words say it.
fn fact_in(words: &InitWords) -> Option<&str>
    ensures { option_map (λ fact. fact.now) result ≡ words.now.fact }
{
    match &words.fact {
        Some(fact) => Some(fact.as_str()),
        None => None,
    }
}

fn report<E: Write>(fault: &InitFault, err: &mut E) -> io::Result<()> {
    writeln!(err, "xcols: {fault}")
}

fn run_init<F: Folder + Listing, E: Write>(
    alloc: Global,
    words: &InitWords,
    folder: &mut F,
    err: &mut E,
) -> u8
    ensures status { IsStatus result }
    ensures files { MakesCatalog (F.holds folder.old) (F.lists folder.old) words.now.folder
        words.now.fact result (F.wrote folder.old) (F.wrote folder.new) }
    ensures said { result ≡ 0
        → SaysCatalog (F.holds folder.old) words.now.folder words.now.fact (F.wrote folder.old)
        (F.wrote folder.new) (E.contents err.old) (E.contents err.new) }
{
    match make_catalog(alloc, folder, words.folder.as_str(), fact_in(words), err) {
        Ok(()) => 0,
        Err(fault) => {
            // A closed standard error leaves nobody to print to.
            let _ = report(&fault, err);
            1
        }
    }
}

// Says which refusals there are.
fn print_unknown<E: Write>(err: &mut E) -> io::Result<()> {
    err.write_all(b"xcols: there is no such refusal; these are known by their first words:\n")?;
    print_known(err)
}

fn print_explanation<O: Write>(explanation: Explanation, out: &mut O) -> io::Result<()>
    ensures { OnOk result
        (PrintsExplained explanation (O.contents out.old) (O.contents out.new)) }
{
    match explanation {
        Explanation::Entry(entry) => writeln!(out, "{entry}"),
        Explanation::Codes(layer) => print_codes(layer, out),
    }
}

fn run_refusal<O: Write, E: Write>(alloc: Global, words: &[Text], out: &mut O, err: &mut E) -> u8
    ensures status { IsStatus result }
    ensures silent { result ≡ 0 → E.contents err.new ≡ E.contents err.old }
    ensures output { PrintsEntry words.now result (O.contents out.old) (O.contents out.new) }
{
    let Ok(found) = explanation_of(alloc, words) else {
        let _ = writeln!(err, "xcols: memory");
        return 1;
    };
    let Some(explanation) = found else {
        let _ = print_unknown(err);
        return 1;
    };
    match print_explanation(explanation, out) {
        Ok(()) => 0,
        Err(_) => {
            let _ = writeln!(err, "xcols: cannot write standard output");
            1
        }
    }
}

fn run_check<F: Folder, O: Write, E: Write>(
    alloc: Global,
    words: &CheckWords,
    folder: &mut F,
    out: &mut O,
    err: &mut E,
) -> u8
    ensures status { IsStatus result }
    ensures files { ChecksFolder (F.holds folder.old) words.now.folder result (F.wrote folder.old)
        (F.wrote folder.new) }
    ensures silent { result ≡ 0 → E.contents err.new ≡ E.contents err.old }
    ensures output { PrintsFit words.now.folder result (O.contents out.old) (O.contents out.new) }
{
    check(alloc, &*folder, words.folder.as_str(), out, err)
}

fn run_version<O: Write, E: Write>(out: &mut O, err: &mut E) -> u8
    ensures status { IsStatus result }
    ensures silent { result ≡ 0 → E.contents err.new ≡ E.contents err.old }
    ensures output { PrintsVersion result (O.contents out.old) (O.contents out.new) }
{
    match writeln!(out, "xcols {VERSION}") {
        Ok(()) => 0,
        Err(_) => {
            let _ = writeln!(err, "xcols: cannot write standard output");
            1
        }
    }
}

fn run_explain<F: Folder, O: Write, E: Write>(
    alloc: Global,
    words: &ExplainWords,
    folder: &mut F,
    out: &mut O,
    err: &mut E,
) -> u8
    ensures status { IsStatus result }
    ensures files { ExplainsPlan (F.holds folder.old) words.now.folder words.now.query result
        (F.wrote folder.old) (F.wrote folder.new) }
    ensures silent { result ≡ 0 → E.contents err.new ≡ E.contents err.old }
    ensures output { PrintsExplanation (F.holds folder.old) (F.asks folder.old) words.now.folder
        words.now.query result (O.contents out.old) (O.contents out.new) }
{
    let (directory, query) = (words.folder.as_str(), words.query.as_str());
    explain(alloc, &*folder, directory, query, out, err)
}

fn run_show<F: Folder, O: Write, E: Write>(
    alloc: Global,
    words: &ShowWords,
    folder: &mut F,
    out: &mut O,
    err: &mut E,
) -> u8
    ensures status { IsStatus result }
    ensures files { ShowsFile (F.holds folder.old) words.now.path result (F.wrote folder.old)
        (F.wrote folder.new) }
    ensures silent { result ≡ 0 → E.contents err.new ≡ E.contents err.old }
    ensures output { PrintsFile (F.holds folder.old) words.now result (O.contents out.old)
        (O.contents out.new) }
{
    let options = ShowOptions {
        rows: words.rows,
        groups: words.groups,
    };
    show(alloc, &*folder, words.path.as_str(), &options, out, err)
}

/// Runs a tool over a folder and gives its exit status: 0, or 1 where it was refused, and then a line
/// on `err` says why.
pub fn run<F: Folder + Listing, O: Write, E: Write>(
    alloc: Global,
    tool: &Tool,
    folder: &mut F,
    out: &mut O,
    err: &mut E,
) -> u8
    ensures status { IsStatus result }
    ensures files { LeavesFiles (F.holds folder.old) (F.lists folder.old) tool.now result
        (F.wrote folder.old) (F.wrote folder.new) }
    ensures errors { result ≡ 0
        → LeavesErrors (F.holds folder.old) tool.now (F.wrote folder.old) (F.wrote folder.new)
        (E.contents err.old) (E.contents err.new) }
    ensures output { LeavesOutput (F.holds folder.old) (F.asks folder.old) tool.now result
        (O.contents out.old) (O.contents out.new) }
{
    match tool {
        Tool::Init(words) => run_init(alloc, words, folder, err),
        Tool::Refusal(words) => run_refusal(alloc, words.as_slice(), out, err),
        Tool::Explain(words) => run_explain(alloc, words, folder, out, err),
        Tool::Show(words) => run_show(alloc, words, folder, out, err),
        Tool::Check(words) => run_check(alloc, words, folder, out, err),
        Tool::Version => run_version(out, err),
    }
}
