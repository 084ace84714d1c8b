//! The lines that stand in place of rows: a fault of arithmetic, or fragments by their numbers.
ghost use Rattle.std.specs.Prelude.{◌≡◌, ◌++◌, ◌∷◌, [], codes, decimal, OnOk};
ghost use Rattle.std.specs.Io.KnownBytes.{Appends};
ghost use Rattle.meaning.specs.Print.{fault_text, fragments_text};

use last_step::PrintFault;
use meaning::RowFault;
use std::io::Write;

/// Prints the line of a fault over groups: 1 is an overflow, 2 a division by zero, and another code
/// a sum that is out of range.
pub fn print_fault<W: Write>(code: u8, out: &mut W) -> Result<(), PrintFault>
    ensures { OnOk result (Appends (W.contents out.old) (W.contents out.new)
        (fault_text code ++ 10 ∷ [])) }
{
    writeln!(out, "{}", fault_words(code))?;
    Ok(())
}

/// Prints the line of a row's fault.
pub fn print_row_fault<W: Write>(fault: &RowFault, out: &mut W) -> Result<(), PrintFault>
    ensures { OnOk result (Appends (W.contents out.old) (W.contents out.new)
        (fault_text fault.now.code ++ codes " at row " ++ decimal fault.now.row ++ 10 ∷ [])) }
{
    let RowFault { row, code } = *fault;
    let words = fault_words(code);
    writeln!(out, "{words} at row {row}")?;
    Ok(())
}

fn fault_words(code: u8) -> &'static str
    ensures { result.now ≡ fault_text code }
{
    match code {
        1 => "arithmetic: overflow",
        2 => "arithmetic: division by zero",
        _ => "arithmetic: sum out of range",
    }
}

/// Prints the line of a word and the numbers of fragments.
pub fn print_fragments<W: Write>(
    word: &str,
    fragments: &[u32],
    out: &mut W,
) -> Result<(), PrintFault>
    ensures { OnOk result (Appends (W.contents out.old) (W.contents out.new)
        (fragments_text word.now fragments.now)) }
{
    write!(out, "{word}:")?;
    for k in fragments {
        write!(out, " {k}")?;
    }
    writeln!(out)?;
    Ok(())
}
