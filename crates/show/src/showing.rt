//! The command `show`.
ghost use Rattle.std.specs.Prelude.{◌≡◌, ◌⊎◌, ◌++◌, ℕ, List, [], Some, false, true, IfOk, IsErr, IsOk, OnOk, length, string_bytes};
ghost use Rattle.std.specs.Io.KnownBytes.{Appends};
ghost use Rattle.fragment_file.specs.CutFile.{CutFileSpec, IsCutFileOf};
ghost use Rattle.fragment_file.specs.Fragment.{FragmentSpec, IsFileOf};
ghost use Rattle.folders.specs.Folder.{AreHeld};
ghost use Rattle.show.specs.declared.showing.ShowOptions.{ShowOptions as TheOptions};
ghost use Rattle.show.specs.Shown.{ArePartsOf, AreRowsOf, BeginsAsFile, HoldsFile, IsPrinted, IsTaken, IsText, IsWhole, PrintsParts, PrintsPartsOf, detail_of, front_of, kind_of};

use crate::csv_rows::rows_of_table;
use crate::file_kind::{FileKind, kind_of};
use answer_text::{Cursor, Damage, Detail, Stop, Wrong, show_answer, show_journal, show_state};
use folders::{Folder, try_read};
use fragment_file::{open, read_cut};
use std::alloc::{AllocError, Global};
use std::io;
use std::io::Write;
use std::mem::drop;
use table_text::{show_cut_file, show_table_file};

/// What is shown of a file.
#[derive(Clone, Copy)]
pub struct ShowOptions {
    /// Of a table's file: its first rows, as comma-separated values, in place of its parts.
    pub rows: Option<u32>,
    /// Of an answer, a state or a journal: each group with its statistics.
    pub groups: bool,
}

impl ShowOptions {
    fn detail(self) -> Detail
        ensures { result ≡ detail_of self }
    {
        if self.groups {
            Detail::Groups
        } else {
            Detail::Count
        }
    }
}

/// What is printed of a file, and why reading ended.
#[derive(Drop)]
struct Shown {
    /// The line in front of its parts, if there is one.
    front: String,
    bytes: Vec<u8>,
    ended: Result<(), Stop>,
}

/// Shows the parts of a file of this kind.
fn show_parts(
    alloc: Global,
    kind: FileKind,
    bytes: &[u8],
    detail: Detail,
    out: &mut String,
) -> Result<(), Stop>
    requires { string_bytes out.old ≡ [] }
    ensures { OnOk result (ArePartsOf kind bytes.now detail (string_bytes out.new)) }
{
    let mut cursor = Cursor::new(0, bytes);
    let size = bytes.len();
    cursor.take_bytes(4, "the magic")?;
    match kind {
        FileKind::Table => show_table_file(alloc, &mut cursor, size, out),
        FileKind::Cut => show_cut_file(&mut cursor, out),
        FileKind::Answer(format) => show_answer(alloc, &mut cursor, format, size, detail, out),
        FileKind::State(format) => show_state(alloc, &mut cursor, format, size, detail, out),
        FileKind::Journal => show_journal(alloc, &mut cursor, size, detail, out),
    }
}

/// Ends a line that is broken off where reading ended.
fn end_line(text: &mut String) -> Result<(), AllocError> {
    if text.is_empty() || text.as_bytes().ends_with(b"\n") {
        return Ok(());
    }
    text.push_str("\n")
}

/// The line in front of a file's parts, if there is one.
fn front_of(alloc: Global, kind: FileKind, size: usize) -> Result<String, AllocError>
    ensures { IfOk result (λ text. string_bytes text ≡ front_of kind size) }
{
    match kind {
        FileKind::Table => format!(in alloc; "file of columns, {size} bytes\n"),
        FileKind::Cut => format!(in alloc; "file of a cut, {size} bytes\n"),
        FileKind::Answer(_) => Ok(String::new(alloc)),
        FileKind::State(_) => Ok(String::new(alloc)),
        FileKind::Journal => Ok(String::new(alloc)),
    }
}

/// What could be read, and why not all could.
fn broken_off(text: String, stop: Stop) -> (Vec<u8>, Result<(), Stop>)
    ensures { IsErr result.1 }
{
    let mut text = text;
    let stop = match end_line(&mut text) {
        Ok(()) => stop,
        Err(_) => Stop::Memory,
    };
    (text.into_bytes(), Err(stop))
}

/// The parts of a file behind the line in front of them, and why reading ended.
fn behind_front(
    alloc: Global,
    kind: FileKind,
    bytes: &[u8],
    detail: Detail,
) -> (Vec<u8>, Result<(), Stop>)
    ensures { OnOk result.1 (ArePartsOf kind bytes.now detail result.0.items) }
{
    let mut text = String::new(alloc);
    match show_parts(alloc, kind, bytes, detail, &mut text) {
        Ok(()) => (text.into_bytes(), Ok(())),
        Err(stop) => broken_off(text, stop),
    }
}

fn parts_of(alloc: Global, kind: FileKind, bytes: &[u8], detail: Detail) -> Shown
    ensures front { OnOk result.ended
        (string_bytes result.front ≡ front_of kind (length bytes.now)) }
    ensures parts { OnOk result.ended (ArePartsOf kind bytes.now detail result.bytes.items) }
{
    let Ok(front) = front_of(alloc, kind, bytes.len()) else {
        return Shown {
            front: String::new(alloc),
            bytes: Vec::new(alloc),
            ended: Err(Stop::Memory),
        };
    };
    let (bytes, ended) = behind_front(alloc, kind, bytes, detail);
    Shown {
        front,
        bytes,
        ended,
    }
}

/// The first rows of a table's file, and why there aren't as many as it has.
fn csv_of(alloc: Global, bytes: &[u8], most: u32) -> (Vec<u8>, Result<(), Stop>)
    ensures { OnOk result.1 (AreRowsOf bytes.now most result.0.items) }
{
    let mut cursor = Cursor::new(0, bytes);
    match cursor.take_bytes(4, "the magic") {
        Ok(_) => rows_of_table(alloc, &mut cursor, most),
        Err(stop) => (Vec::new(alloc), Err(stop)),
    }
}

/// The first rows of a table's file, and what is wrong with the file.
fn rows_of(alloc: Global, bytes: &[u8], most: u32) -> Shown
    ensures { OnOk result.ended ((options : TheOptions)
        → IsText FileKind.Table bytes.now options (Some most) (string_bytes result.front)
        result.bytes.items) }
{
    let (csv, written) = csv_of(alloc, bytes, most);
    let (parts, ended) = behind_front(alloc, FileKind::Table, bytes, Detail::Nothing);
    drop(parts);
    Shown {
        front: String::new(alloc),
        bytes: csv,
        ended: written.and(ended),
    }
}

/// What is printed of a file.
fn shown_of(alloc: Global, kind: FileKind, bytes: &[u8], options: ShowOptions) -> Shown
    ensures { OnOk result.ended
        (IsText kind bytes.now options options.rows (string_bytes result.front)
        result.bytes.items) }
{
    let Some(most) = options.rows else {
        return parts_of(alloc, kind, bytes, options.detail());
    };
    match kind {
        FileKind::Table => rows_of(alloc, bytes, most),
        FileKind::Cut => parts_of(alloc, kind, bytes, options.detail()),
        FileKind::Answer(_) => parts_of(alloc, kind, bytes, options.detail()),
        FileKind::State(_) => parts_of(alloc, kind, bytes, options.detail()),
        FileKind::Journal => parts_of(alloc, kind, bytes, options.detail()),
    }
}

fn judge_table(alloc: Global, bytes: &[u8]) -> Result<(), Stop>
    ensures { OnOk result ((f : FragmentSpec) × IsFileOf bytes.now f) }
{
    let view = open(alloc, bytes)?;
    drop(view);
    Ok(())
}

fn judge_cut(alloc: Global, bytes: &[u8]) -> Result<(), Stop>
    ensures { OnOk result ((f : CutFileSpec) × IsCutFileOf bytes.now f) }
{
    let (_load, cut) = read_cut(alloc, bytes)?;
    drop(cut);
    Ok(())
}

/// Has the readers of tables and cuts take the bytes, as the commands do.
fn judge(alloc: Global, kind: FileKind, bytes: &[u8]) -> Result<(), Stop>
    ensures { OnOk result (IsTaken kind bytes.now) }
{
    match kind {
        FileKind::Table => judge_table(alloc, bytes),
        FileKind::Cut => judge_cut(alloc, bytes),
        FileKind::Answer(_) => Ok(()),
        FileKind::State(_) => Ok(()),
        FileKind::Journal => Ok(()),
    }
}

/// Writes the line by which the commands refuse a table's file.
fn put_table_line<E: Write>(wrong: Wrong, err: &mut E) -> io::Result<()> {
    let number = wrong.number();
    match wrong {
        Wrong::NoBlock { group, column } => writeln!(
            err,
            "xcols: work 3 {number} {group} {column}"
        ),
        _ => writeln!(err, "xcols: work 3 {number}"),
    }
}

/// Writes the line by which the commands refuse such a file.
fn put_line<E: Write>(kind: FileKind, wrong: Wrong, path: &str, err: &mut E) -> io::Result<()> {
    let number = wrong.number();
    match kind {
        FileKind::Table => put_table_line(wrong, err),
        FileKind::Cut => writeln!(err, "xcols: file {number}"),
        FileKind::Answer(_) | FileKind::State(_) => writeln!(err, "xcols: gather {number} {path}"),
        FileKind::Journal => writeln!(err, "xcols: journal 14"),
    }
}

/// Writes what is wrong with a file and where, behind the line by which the commands refuse it.
fn put_damage<E: Write>(kind: FileKind, damage: Damage, path: &str, err: &mut E) -> io::Result<()> {
    let Damage { wrong, at, field } = damage;
    put_line(kind, wrong, path, err)?;
    writeln!(err, "at byte {at}, {field}: {wrong}")
}

fn report<E: Write>(kind: FileKind, stop: Stop, path: &str, err: &mut E) -> io::Result<()> {
    match stop {
        Stop::Memory => writeln!(err, "xcols: memory"),
        Stop::Damaged(damage) => put_damage(kind, damage, path, err),
    }
}

/// Prints a file's parts behind the line in front of them.
fn write_shown<O: Write>(shown: &Shown, out: &mut O) -> io::Result<()>
    ensures { OnOk result (Appends (O.contents out.old) (O.contents out.new)
        (string_bytes shown.now.front ++ shown.now.bytes.items)) }
{
    out.write_all(shown.front.as_bytes())?;
    out.write_all(shown.bytes.as_slice())
}

/// Prints what stands in a file, behind which its fault is reported; and whether it has none.
fn print<O: Write, E: Write>(
    kind: FileKind,
    path: &str,
    shown: &Shown,
    out: &mut O,
    err: &mut E,
) -> io::Result<bool>
    ensures silent { IfOk result (λ whole. whole ≡ true → E.contents err.new ≡ E.contents err.old) }
    ensures printed { IfOk result (λ whole. whole ≡ true → IsOk shown.now.ended
        × Appends (O.contents out.old) (O.contents out.new)
        (string_bytes shown.now.front ++ shown.now.bytes.items)) }
{
    if write_shown(shown, out).is_err() {
        writeln!(err, "xcols: cannot write standard output")?;
        return Ok(false);
    }
    match shown.ended {
        Ok(()) => Ok(true),
        Err(stop) => {
            report(kind, stop, path, err)?;
            Ok(false)
        }
    }
}

/// Prints what stands in a file of this kind; and whether it is taken as such.
fn show_kind<O: Write, E: Write>(
    alloc: Global,
    kind: FileKind,
    path: &str,
    bytes: &[u8],
    options: ShowOptions,
    out: &mut O,
    err: &mut E,
) -> io::Result<bool>
    ensures taken { IfOk result (λ whole. whole ≡ true → IsTaken kind bytes.now) }
    ensures silent { IfOk result
        (λ whole. whole ≡ true → E.contents err.new ≡ E.contents err.old) }
    ensures printed { IfOk result (λ whole. whole ≡ true
        → kind_of bytes.now ≡ Some kind
        → IsPrinted kind bytes.now options options.rows (O.contents out.old)
        (O.contents out.new)) }
{
    let judged = judge(alloc, kind, bytes);
    let shown = shown_of(alloc, kind, bytes, options);
    let whole = print(kind, path, &shown, out, err)?;
    match judged {
        Ok(()) => Ok(whole),
        Err(stop) => {
            if whole {
                report(kind, stop, path, err)?;
            }
            Ok(false)
        }
    }
}

// Says why nothing is shown of a path.
fn refuse<E: Write>(front: &str, path: &str, back: &str, err: &mut E) -> io::Result<bool>
    ensures { IfOk result (λ whole. whole ≡ false) }
{
    writeln!(err, "xcols: {front}{path}{back}")?;
    Ok(false)
}

fn show_bytes<O: Write, E: Write>(
    alloc: Global,
    path: &str,
    bytes: &[u8],
    options: ShowOptions,
    out: &mut O,
    err: &mut E,
) -> io::Result<bool>
    ensures whole { IfOk result (λ whole. whole ≡ true → IsWhole bytes.now) }
    ensures silent { IfOk result
        (λ whole. whole ≡ true → E.contents err.new ≡ E.contents err.old) }
    ensures quiet { (O.contents out.new ≡ O.contents out.old) ⊎ BeginsAsFile bytes.now }
    ensures printed { IfOk result (λ whole. whole ≡ true
        → PrintsParts bytes.now options (O.contents out.old) (O.contents out.new)) }
{
    match kind_of(bytes) {
        Some(kind) => show_kind(alloc, kind, path, bytes, options, out, err),
        None => refuse("", path, " isn't a file that xcols wrote", err),
    }
}

fn show_file<F: Folder, O: Write, E: Write>(
    alloc: Global,
    folder: &F,
    path: &str,
    options: ShowOptions,
    out: &mut O,
    err: &mut E,
) -> io::Result<bool>
    ensures whole { IfOk result (λ whole. whole ≡ true → (bytes : List ℕ)
        × AreHeld (F.holds folder.now path.now) bytes × IsWhole bytes) }
    ensures silent { IfOk result
        (λ whole. whole ≡ true → E.contents err.new ≡ E.contents err.old) }
    ensures quiet { (O.contents out.new ≡ O.contents out.old)
        ⊎ HoldsFile (F.holds folder.now) path.now }
    ensures printed { IfOk result (λ whole. whole ≡ true
        → PrintsPartsOf (F.holds folder.now) path.now options (O.contents out.old)
        (O.contents out.new)) }
{
    match try_read(alloc, folder, path) {
        Ok(Some(bytes)) => show_bytes(alloc, path, bytes.as_slice(), options, out, err),
        Ok(None) => refuse("cannot read ", path, "", err),
        Err(_) => refuse("memory", "", "", err),
    }
}

/// Prints what stands in a file, and answers the program's exit status: 0, or 1 where the file can't
/// be read or is damaged, behind what could still be read. No file is written.
pub fn show<F: Folder, O: Write, E: Write>(
    alloc: Global,
    folder: &F,
    path: &str,
    options: &ShowOptions,
    out: &mut O,
    err: &mut E,
) -> u8
    ensures status { (result ≡ 0) ⊎ (result ≡ 1) }
    ensures whole { result ≡ 0 → (bytes : List ℕ)
        × AreHeld (F.holds folder.now path.now) bytes × IsWhole bytes }
    ensures silent { result ≡ 0 → E.contents err.new ≡ E.contents err.old }
    ensures quiet { (O.contents out.new ≡ O.contents out.old)
        ⊎ HoldsFile (F.holds folder.now) path.now }
    // Of a table's file a header and its first rows are printed, as many as are asked for or all; else the
    // text of the table, or of the cut, that the bytes are the file of. Of an answer its fields are printed,
    // by which its bytes are spelled.
    ensures printed { result ≡ 0
        → PrintsPartsOf (F.holds folder.now) path.now options.now (O.contents out.old)
        (O.contents out.new) }
{
    match show_file(alloc, folder, path, *options, out, err) {
        Ok(true) => 0,
        Ok(false) => 1,
        // A closed standard error leaves nobody to print.
        Err(_) => 1,
    }
}
