//! Commands over folders and writers that fail.
use crate::memory_folder::MemoryFolder;
use cli::{command, run};
use std::alloc::Global;
use std::mem::drop;
use std::process::Abort;
use std::test::Fail;

const FILES: &[(&str, &[u8])] = &[
    (
        "sales/catalog.txt",
        b"fact sales\ncol id int\ndim store key k\ncol k int\n",
    ),
    ("sales/sales.csv", b"id\n1\n2\n3\n4\n5\n"),
    ("sales/store.csv", b"k\n10\n20\n"),
];

/// What went to standard output and to standard error, behind the exit status.
fn shown(alloc: Global, status: u8, out: Vec<u8>, err: Vec<u8>) -> Result<String, Fail> {
    let out = String::from_utf8(out)?;
    let err = String::from_utf8(err)?;
    Ok(format!(in alloc; "{status} [{out}] [{err}]")?)
}

/// The exit status, what went to standard output, and what went to standard error.
fn outcome(alloc: Global, folder: &mut MemoryFolder<'_>, words: &[&str]) -> Result<String, Fail> {
    let command = command(alloc, words)?;
    let (mut out, mut err) = (Vec::new(alloc), Vec::new(alloc));
    let status = run(alloc, &command, folder, &mut out, &mut err);
    drop(command);
    shown(alloc, status, out, err)
}

const LOAD: &[&str] = &["load", "sales", "--load", "7", "--rows", "2"];

/// Loads a folder in which so many files may be created, closed, finished and taken away.
fn expect_steps(
    rt: &impl Abort,
    alloc: Global,
    steps: u32,
    want: &str,
    written: usize,
) -> Result<(), Fail> {
    let mut folder = MemoryFolder::new(alloc, FILES, steps);
    let outcome = outcome(alloc, &mut folder, LOAD)?;
    assert_eq!(rt; outcome.as_str(), want);
    assert_eq!(rt; folder.written(), written, "at {steps}");
    Ok(())
}

// Three fragments, the dimension and the cut are created and closed; then the fragments and the
// dimension are finished, the files of 4,093 fragments are taken away, and the cut is finished.
const STEPS: &[(u32, &str, usize)] = &[
    (0, "1 [] [xcols: cannot write sales/sales.0.xcf\n]", 0),
    (1, "1 [] [xcols: cannot write sales/sales.0.xcf\n]", 0),
    (2, "1 [] [xcols: cannot write sales/sales.1.xcf\n]", 0),
    (5, "1 [] [xcols: cannot write sales/sales.2.xcf\n]", 0),
    (6, "1 [] [xcols: cannot write sales/store.xcf\n]", 0),
    (7, "1 [] [xcols: cannot write sales/store.xcf\n]", 0),
    (8, "1 [] [xcols: cannot write sales/cut.xcl\n]", 0),
    (9, "1 [] [xcols: cannot write sales/cut.xcl\n]", 0),
    (10, "1 [] [xcols: cannot write sales/sales.0.xcf\n]", 0),
    (12, "1 [] [xcols: cannot write sales/sales.2.xcf\n]", 2),
    (13, "1 [] [xcols: cannot write sales/store.xcf\n]", 3),
    (14, "1 [] [xcols: cannot write sales/sales.3.xcf\n]", 4),
    (
        4_106,
        "1 [] [xcols: cannot write sales/sales.4095.xcf\n]",
        4,
    ),
    (4_107, "1 [] [xcols: cannot write sales/cut.xcl\n]", 4),
    (4_108, "0 [loaded 5 rows in 3 fragments\n] []", 5),
];

#[test]
fn a_file_may_not_be_written(rt: HostRuntime) -> Result<(), Fail> {
    for (steps, want, written) in STEPS {
        expect_steps(&rt, rt.alloc(), *steps, want, *written)?;
    }
    Ok(())
}

const KEY_TWICE: &[(&str, &[u8])] = &[
    (
        "sales/catalog.txt",
        b"fact sales\ncol id int\ndim store key k\ncol k int\n",
    ),
    ("sales/sales.csv", b"id\n1\n2\n3\n4\n5\n"),
    ("sales/store.csv", b"k\n10\n10\n"),
];

/// A table's fault is returned before that of a file that can't be written.
#[test]
fn tables_are_judged_first(rt: HostRuntime) -> Result<(), Fail> {
    let mut folder = MemoryFolder::new(rt.alloc(), KEY_TWICE, 3);
    let outcome = outcome(rt.alloc(), &mut folder, LOAD)?;
    assert_eq!(rt; outcome.as_str(), "1 [] [xcols: load 7 1\n]");
    assert_eq!(rt; folder.written(), 0);
    Ok(())
}

const COUNT: &[&str] = &[
    "whole",
    "sales",
    "--query",
    "SELECT COUNT(*) FROM sales",
    "--rows",
    "2",
];

#[test]
fn standard_output_may_fail(rt: HostRuntime) -> Result<(), Fail> {
    let command = command(rt.alloc(), COUNT)?;
    let mut room = [0; 3];
    let (mut out, mut err) = (room.as_mut_slice(), Vec::new(rt.alloc()));
    let mut folder = MemoryFolder::new(rt.alloc(), FILES, 0);
    let status = run(rt.alloc(), &command, &mut folder, &mut out, &mut err);
    assert_eq!(rt; status, 1);
    assert_eq!(rt;
        err.as_slice(),
        b"xcols: cannot write standard output\n".as_slice()
    );
    Ok(())
}
