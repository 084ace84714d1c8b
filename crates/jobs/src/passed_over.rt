//! The line on standard error that names a file which was passed over.
ghost use Rattle.std.specs.Prelude.{[], ◌∷◌, codes, decimal, OnOk};
ghost use Rattle.std.specs.Io.KnownBytes.{Appends};
ghost use Rattle.folders.specs.Lines.{numbered_line};
ghost use Rattle.jobs.specs.PassedOver.{passed_over_line};

use std::io;
use std::io::Write;

fn print_line<E: Write>(word: &str, number: u8, path: &str, err: &mut E) -> io::Result<()>
    ensures { OnOk result (Appends (E.contents err.old) (E.contents err.new)
        (numbered_line word.now number (path.now ∷ []))) }
{
    writeln!(err, "xcols: {word} {number} {path}")
}

/// Writes the line that names a file which was passed over, with the error code of its bytes.
pub fn print_passed_over<E: Write>(number: u8, path: &str, err: &mut E) -> io::Result<()>
    ensures { OnOk result (Appends (E.contents err.old) (E.contents err.new)
        (passed_over_line number path.now)) }
{
    print_line("gather", number, path, err)
}
