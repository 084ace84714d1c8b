//! What was chosen, and why.
ghost use Rattle.std.specs.Prelude.{◌≡◌, IfErr, IfOk, OnOk, string_bytes};
ghost use Rattle.std.specs.Io.KnownBytes.{Appends};
ghost use Rattle.init.specs.Guessing.{IsUnreported};
ghost use Rattle.init.specs.Saying.{dimension_line, fact_line, key_line, others_text, reason_line, reason_text};

use crate::fault::InitFault;
use crate::keys::Keyed;
use crate::writing::{column_name, names_of};
use meaning::Table;
use std::alloc::{AllocError, Global};
use std::io;
use std::io::Write;

/// Why a table is the fact.
#[derive(Clone, Copy)]
pub enum Reason {
    Asked,
    Largest,
}

fn why(reason: Reason) -> &'static str
    ensures { result.now ≡ reason_text reason }
{
    match reason {
        Reason::Asked => "as was asked for",
        Reason::Largest => "whose file is the largest",
    }
}

fn print_reason<E: Write>(fact: &str, why: &str, err: &mut E) -> io::Result<()>
    ensures { OnOk result (Appends (E.contents err.old) (E.contents err.new)
        (reason_line fact.now why.now)) }
{
    writeln!(err, "{fact} is the fact, {why}")
}

/// Says which table is the fact.
pub fn report_fact<E: Write>(fact: &str, reason: Reason, err: &mut E) -> io::Result<()>
    ensures { OnOk result (Appends (E.contents err.old) (E.contents err.new)
        (fact_line reason fact.now)) }
{
    print_reason(fact, why(reason), err)
}

/// Which other columns may be the key, if there are some.
fn others_in(alloc: Global, table: &Table, others: &[usize]) -> Result<String, AllocError>
    ensures { IfOk result (λ text. string_bytes text ≡ others_text table.now others.now) }
{
    if others.is_empty() {
        return Ok(String::new(alloc));
    }
    let names = names_of(alloc, table, others)?;
    let names = names.as_str();
    format!(in alloc; "; so do those of {names}")
}

fn print_key<E: Write>(name: &str, key: &str, others: &str, err: &mut E) -> io::Result<()>
    ensures { OnOk result (Appends (E.contents err.old) (E.contents err.new)
        (key_line name.now key.now others.now)) }
{
    writeln!(
        err,
        "{name} is a dimension by {key}, its first column whose values differ and are never NULL{others}"
    )
}

/// Says by which key a table is a dimension, and which other columns may be it.
pub fn report_dimension<E: Write>(
    alloc: Global,
    keyed: &Keyed,
    err: &mut E,
) -> Result<(), InitFault>
    ensures said { OnOk result (Appends (E.contents err.old) (E.contents err.new)
        (dimension_line keyed.now.dimension keyed.now.others.items)) }
    ensures refused { IfErr result IsUnreported }
{
    let table = &keyed.dimension.table;
    let key = column_name(table, keyed.dimension.key);
    let others = others_in(alloc, table, keyed.others.as_slice())?;
    match print_key(table.name.as_str(), key, others.as_str(), err) {
        Ok(()) => Ok(()),
        Err(_) => Err(InitFault::CannotReport),
    }
}
