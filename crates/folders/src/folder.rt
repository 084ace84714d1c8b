//! The trait of folders that commands read from and write to.
ghost use Rattle.std.specs.Prelude.{◌≡◌, ℕ, List, Option, None, IfErr, IfOk, OnErr, OnOk, ⊤};
ghost use Rattle.std.specs.IoError.{error_kind};
ghost use Rattle.std.specs.declared.io.ErrorKind.TheVariants as kind;
ghost use Rattle.disk.specs.Disk.{HasRoom};
ghost use Rattle.folders.specs.Folder.{AsksOf, Change, Finishes, HasDisk, IsEmptyFile, Opens, Removes};

use disk::Disk;
use std::io;
use std::io::{Read, Write};

/// Where a command finds its files, and where it puts those that it writes.
pub trait Folder {
    type Reader: Read + Drop;

    /// What takes the bytes of a file.
    type Writer: Write + Drop;

    /// A file that has all its bytes and stands under no path yet. It is given up where it is let
    /// go.
    type Closed: Drop;

    /// A file that is read and written in place.
    type Disk: Disk + Drop;

    // The bytes of a path's file, where they are known.
    ghost holds: { Self → List ℕ → Option (List ℕ) } = { λ _ _. None };

    // What a path meets once its file was asked for, whether it was opened or not.
    ghost asks: { Self → List ℕ → Type 0 } = { λ _ _. ⊤ };

    // What a path's file meets once it was opened.
    ghost opens: { Self → List ℕ → Type 0 } = { λ _ _. ⊤ };

    // What a path meets where no file was found under it.
    ghost lacks: { Self → List ℕ → Type 0 } = { λ _ _. ⊤ };

    // What a path meets whose file can't be had as a disk.
    ghost shuts: { Self → List ℕ → Type 0 } = { λ _ _. ⊤ };

    // What a path meets once a file was to be created for it or put under it, or one was to be taken away,
    // whether that was done or not.
    ghost tries: { Self → List ℕ → Type 0 } = { λ _ _. ⊤ };

    // What a path meets once a file was created for it.
    ghost creates: { Self → List ℕ → Type 0 } = { λ _ _. ⊤ };

    // What a path meets under which a closed file couldn't be put, or whose file couldn't be taken away.
    ghost stays: { List ℕ → Type 0 } = { λ _. ⊤ };

    // The files finished and taken away so far, where they are known.
    ghost wrote: { Self → Option (List Change) } = { λ _. None };

    // The bytes of a closed file, where they are known.
    ghost enclosed: { Self.Closed → Option (List ℕ) } = { λ _. None };

    /// A reader of a file's bytes from their beginning.
    fn open(&self, path: &str) -> io::Result<Self::Reader>
        ensures held { Opens Self.Reader.remaining (holds self.now path.now) result }
        ensures asked { asks self.now path.now }
        ensures opened { OnOk result (opens self.now path.now) }
        ensures lacking { IfErr result
            (λ e. error_kind e ≡ kind.NotFound → lacks self.now path.now) };

    /// A path's file as a disk, which has no bytes where there was none.
    fn disk(&self, path: &str) -> io::Result<Self::Disk>
        ensures room { IfOk result (λ disk. HasRoom (Self.Disk.shown disk)) }
        ensures asked { asks self.now path.now }
        ensures shut { OnErr result (shuts self.now path.now) }
        ensures held { IfOk result (λ disk. HasDisk (holds self.now path.now)
            (Self.Disk.shown disk)) };

    /// An empty file, which stands under its path once it is finished.
    fn create(&mut self, path: &str) -> io::Result<Self::Writer>
        ensures empty { IfOk result
            (λ file. IsEmptyFile (wrote self.old) (Self.Writer.contents file)) }
        ensures tried { tries self.old path.now }
        ensures created { OnOk result (creates self.old path.now) }
        ensures same { wrote self.new ≡ wrote self.old }
        ensures held { holds self.new ≡ holds self.old }
        ensures asking { AsksOf (asks self.old) (asks self.new) }
        ensures trying { AsksOf (tries self.old) (tries self.new) };

    /// Closes a file that has all its bytes. They are kept, whatever happens to the machine.
    fn close(&mut self, file: Self::Writer) -> io::Result<Self::Closed>
        ensures closed { IfOk result (λ closed. enclosed closed ≡ Self.Writer.contents file) }
        ensures same { wrote self.new ≡ wrote self.old }
        ensures held { holds self.new ≡ holds self.old }
        ensures asking { AsksOf (asks self.old) (asks self.new) }
        ensures trying { AsksOf (tries self.old) (tries self.new) };

    /// Puts a file that was created for this path under it. On error no path changes.
    fn finish(&mut self, path: &str, file: Self::Closed) -> io::Result<()>
        ensures finished { OnOk result (Finishes (wrote self.old) (wrote self.new) path.now
            (enclosed file)) }
        ensures tried { tries self.old path.now }
        ensures stayed { OnErr result (stays path.now) }
        ensures unchanged { OnErr result (wrote self.new ≡ wrote self.old) }
        ensures trying { AsksOf (tries self.old) (tries self.new) };

    /// Takes the file of a path away, where there is one. On error no path changes.
    fn remove(&mut self, path: &str) -> io::Result<()>
        ensures removed { OnOk result (Removes (wrote self.old) (wrote self.new) path.now) }
        ensures tried { tries self.old path.now }
        ensures stayed { OnErr result (stays path.now) }
        ensures unchanged { OnErr result (wrote self.new ≡ wrote self.old) }
        ensures trying { AsksOf (tries self.old) (tries self.new) };
}
