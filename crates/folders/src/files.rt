//! The files of a folder, read and written whole.
ghost use Rattle.std.specs.Prelude.{◌≡◌, ◌≢◌, IfErr, IfOk, IfSome, OnErr, OnOk};
ghost use Rattle.std.specs.IoError.{error_kind};
ghost use Rattle.std.specs.declared.io.ErrorKind.TheVariants as kind;
ghost use Rattle.fragment_file.specs.declared.fault.FileFault.TheVariants as no_file;
ghost use Rattle.disk.specs.Disk.{HasRoom};
ghost use Rattle.folders.specs.Folder.{AreHeld, AsksOf, Finishes, HasDisk, HasHeld, IsEmptyFile, Removes, WritesOne, catalog_path};
ghost use Rattle.folders.specs.Refused.{IsAskedFor, IsShut, IsTriedFor, IsUnread, IsUnwritten};
ghost use Rattle.folders.specs.declared.refusal.Refusal.TheVariants.{Memory};

use crate::folder::Folder;
use crate::paths::catalog_path;
use crate::refusal::{Refusal, cannot_read, cannot_write};
use fragment_file::FileFault;
use meaning::Text;
use std::alloc::Global;
use std::io;
use std::io::{ErrorKind, Read, Write};

// ---- reading

fn read_bytes<F: Folder>(alloc: Global, folder: &F, path: &str) -> io::Result<Vec<u8>>
    ensures held { IfOk result (λ bytes. AreHeld (F.holds folder.now path.now) bytes.items) }
    ensures asked { F.asks folder.now path.now }
    ensures opened { OnOk result (F.opens folder.now path.now) }
{
    let mut file = folder.open(path)?;
    let mut bytes = Vec::new(alloc);
    file.read_to_end(&mut bytes)?;
    Ok(bytes)
}

/// The bytes of a file, where it can be read.
pub fn try_read<F: Folder>(
    alloc: Global,
    folder: &F,
    path: &str,
) -> Result<Option<Vec<u8>>, Refusal>
    ensures held { IfOk result
        (λ found. IfSome found (λ bytes. AreHeld (F.holds folder.now path.now) bytes.items)) }
    ensures asked { F.asks folder.now path.now }
    ensures opened { IfOk result (λ found. IfSome found (λ _. F.opens folder.now path.now)) }
    ensures refused { IfErr result (λ e. e ≡ Memory) }
{
    match read_bytes(alloc, folder, path) {
        Ok(bytes) => Ok(Some(bytes)),
        Err(error) => match error.kind() {
            ErrorKind::OutOfMemory => Err(Refusal::Memory),
            _ => Ok(None),
        },
    }
}

/// The bytes of a file.
pub fn read_file<F: Folder>(alloc: Global, folder: &F, path: &Text) -> Result<Vec<u8>, Refusal>
    ensures held { IfOk result (λ bytes. AreHeld (F.holds folder.now path.now) bytes.items) }
    ensures asked { F.asks folder.now path.now }
    ensures opened { OnOk result (F.opens folder.now path.now) }
    ensures refused { IfErr result (IsUnread path.now) }
    ensures unread { IfErr result (IsAskedFor (F.asks folder.now)) }
{
    match try_read(alloc, folder, path.as_str())? {
        Some(bytes) => Ok(bytes),
        None => Err(cannot_read(path)),
    }
}

/// A reader of a file's bytes from their beginning.
pub fn open_file<F: Folder>(folder: &F, path: &Text) -> Result<F::Reader, Refusal>
    ensures opened { IfOk result
        (λ file. HasHeld (F.holds folder.now path.now) (F.Reader.remaining file)) }
    ensures asked { F.asks folder.now path.now }
    ensures there { OnOk result (F.opens folder.now path.now) }
    ensures refused { IfErr result (IsUnread path.now) }
    ensures unread { IfErr result (IsAskedFor (F.asks folder.now)) }
{
    match folder.open(path.as_str()) {
        Ok(file) => Ok(file),
        Err(error) => match error.kind() {
            ErrorKind::OutOfMemory => Err(Refusal::Memory),
            _ => Err(cannot_read(path)),
        },
    }
}

/// A file as a disk, which has no bytes where there was none.
pub fn open_disk<F: Folder>(folder: &F, path: &Text) -> Result<F::Disk, Refusal>
    ensures room { IfOk result (λ disk. HasRoom (F.Disk.shown disk)) }
    ensures held { IfOk result
        (λ disk. HasDisk (F.holds folder.now path.now) (F.Disk.shown disk)) }
    ensures refused { IfErr result (IsUnread path.now) }
    ensures unread { IfErr result (IsAskedFor (F.asks folder.now)) }
    ensures shut { IfErr result (IsShut (F.shuts folder.now)) }
{
    match folder.disk(path.as_str()) {
        Ok(disk) => Ok(disk),
        Err(error) => match error.kind() {
            ErrorKind::OutOfMemory => Err(Refusal::Memory),
            _ => Err(cannot_read(path)),
        },
    }
}

/// The bytes of a folder's catalogue.
pub fn read_catalog_file<F: Folder>(
    alloc: Global,
    folder: &F,
    directory: &str,
) -> Result<Vec<u8>, Refusal>
    ensures held { IfOk result
        (λ bytes. AreHeld (F.holds folder.now (catalog_path directory.now)) bytes.items) }
    ensures refused { IfErr result (IsUnread (catalog_path directory.now)) }
    ensures unread { IfErr result (IsAskedFor (F.asks folder.now)) }
{
    let path = catalog_path(alloc, directory)?;
    read_file(alloc, folder, &path)
}

// ---- writing

/// The refusal where the file of a path was not written.
fn refusal_of_device(path: &Text, error: io::Error) -> Refusal
    ensures memory { error_kind error ≡ kind.OutOfMemory → result ≡ Memory }
    ensures returned { IsUnwritten path.now result }
{
    match error.kind() {
        ErrorKind::OutOfMemory => Refusal::Memory,
        _ => cannot_write(path),
    }
}

/// The refusal where a file of columns or of a cut was not written under a path.
pub fn refusal_of_file(path: &Text, fault: FileFault) -> Refusal
    ensures memory { fault ≡ no_file.Memory → result ≡ Memory }
    ensures returned { IsUnwritten path.now result }
{
    match fault {
        FileFault::Memory => Refusal::Memory,
        _ => cannot_write(path),
    }
}

/// An empty file that is to stand under the path.
pub fn create_file<F: Folder>(folder: &mut F, path: &Text) -> Result<F::Writer, Refusal>
    ensures empty { IfOk result (λ file. IsEmptyFile (F.wrote folder.old)
        (F.Writer.contents file)) }
    ensures tried { F.tries folder.old path.now }
    ensures created { OnOk result (F.creates folder.old path.now) }
    ensures same { F.wrote folder.new ≡ F.wrote folder.old }
    ensures held { F.holds folder.new ≡ F.holds folder.old }
    ensures refused { IfErr result (IsUnwritten path.now) }
    ensures asking { AsksOf (F.asks folder.old) (F.asks folder.new) }
    ensures unwritten { IfErr result (IsTriedFor (F.tries folder.old)) }
    ensures trying { AsksOf (F.tries folder.old) (F.tries folder.new) }
{
    match folder.create(path.as_str()) {
        Ok(file) => Ok(file),
        Err(error) => Err(refusal_of_device(path, error)),
    }
}

/// Closes a file that has all its bytes, and is to stand under the path.
pub fn close_file<F: Folder>(
    folder: &mut F,
    path: &Text,
    file: F::Writer,
) -> Result<F::Closed, Refusal>
    ensures closed { IfOk result (λ closed. F.enclosed closed ≡ F.Writer.contents file) }
    ensures same { F.wrote folder.new ≡ F.wrote folder.old }
    ensures held { F.holds folder.new ≡ F.holds folder.old }
    ensures refused { IfErr result (IsUnwritten path.now) }
    ensures asking { AsksOf (F.asks folder.old) (F.asks folder.new) }
    ensures trying { AsksOf (F.tries folder.old) (F.tries folder.new) }
{
    match folder.close(file) {
        Ok(file) => Ok(file),
        Err(error) => Err(refusal_of_device(path, error)),
    }
}

/// Puts a closed file under its path.
pub fn put_file<F: Folder>(folder: &mut F, path: &Text, file: F::Closed) -> Result<(), Refusal>
    ensures finished { OnOk result
        (Finishes (F.wrote folder.old) (F.wrote folder.new) path.now (F.enclosed file)) }
    ensures refused { IfErr result (IsUnwritten path.now) }
    ensures stayed { OnErr result (F.stays path.now) }
    ensures unchanged { OnErr result (F.wrote folder.new ≡ F.wrote folder.old) }
    ensures unwritten { IfErr result (IsTriedFor (F.tries folder.old)) }
    ensures trying { AsksOf (F.tries folder.old) (F.tries folder.new) }
{
    match folder.finish(path.as_str(), file) {
        Ok(()) => Ok(()),
        Err(error) => Err(refusal_of_device(path, error)),
    }
}

/// Closes a file that has all its bytes, and puts it under its path.
pub fn finish_file<F: Folder>(folder: &mut F, path: &Text, file: F::Writer) -> Result<(), Refusal>
    ensures finished { OnOk result
        (Finishes (F.wrote folder.old) (F.wrote folder.new) path.now (F.Writer.contents file)) }
    ensures refused { IfErr result (IsUnwritten path.now) }
    ensures unchanged { OnErr result (F.wrote folder.new ≡ F.wrote folder.old) }
{
    let file = close_file(folder, path, file)?;
    put_file(folder, path, file)
}

/// Takes the file of a path away, where there is one.
pub fn remove_file<F: Folder>(folder: &mut F, path: &Text) -> Result<(), Refusal>
    ensures removed { OnOk result (Removes (F.wrote folder.old) (F.wrote folder.new) path.now) }
    ensures refused { IfErr result (IsUnwritten path.now) }
    ensures stayed { OnErr result (F.stays path.now) }
    ensures unchanged { OnErr result (F.wrote folder.new ≡ F.wrote folder.old) }
    ensures unwritten { IfErr result (IsTriedFor (F.tries folder.old)) }
    ensures trying { AsksOf (F.tries folder.old) (F.tries folder.new) }
{
    match folder.remove(path.as_str()) {
        Ok(()) => Ok(()),
        Err(error) => Err(refusal_of_device(path, error)),
    }
}

/// Writes a file of these bytes.
///
/// # Errors
///
/// Out of memory, or the file cannot be written. Its path is then as it was; the beginning of the
/// file may lie under the name that the folder gives a file until it is whole.
pub fn write_file<F: Folder>(folder: &mut F, path: &Text, bytes: &[u8]) -> Result<(), Refusal>
    ensures written { OnOk result
        (WritesOne path.now (λ given. given ≡ bytes.now) (F.wrote folder.old)
        (F.wrote folder.new)) }
    ensures tried { F.tries folder.old path.now }
    ensures created { OnOk result (F.creates folder.old path.now) }
    ensures refused { IfErr result (IsUnwritten path.now) }
    ensures unwritten { IfErr result (IsTriedFor (F.tries folder.old)) }
    ensures unchanged { OnErr result (F.wrote folder.new ≡ F.wrote folder.old) }
{
    let mut file = create_file(folder, path)?;
    match file.write_all(bytes) {
        Ok(()) => finish_file(folder, path, file),
        Err(error) => Err(refusal_of_device(path, error)),
    }
}
