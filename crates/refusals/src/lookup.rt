//! The entry of a refusal.
ghost use Rattle.std.specs.Prelude.{◌≡◌, ℕ, List, IfSome, OnOk, flat_map, is_some};
ghost use Rattle.std.specs.Io.KnownBytes.{Appends};
ghost use Rattle.refusals.specs.Codes.{has_code, is_known, word_of};
ghost use Rattle.refusals.specs.Lines.{IsOfCode};
ghost use Rattle.refusals.specs.Texts.{IsSentence, PrintsCodes, known_text, layer_line};

use crate::entries::Entry;
use crate::layers::Layer;
use crate::table::{
    of_catalog, of_cut, of_file, of_gather, of_journal, of_load, of_plan, of_sql, of_work,
};
use std::io;
use std::io::Write;

/// One more than the greatest error code of any layer.
const CODES: u8 = 17;

/// The entry of an error code of a layer.
pub fn entry_of(layer: Layer, number: u8) -> Option<Entry>
    ensures known { is_some result ≡ has_code layer number }
    ensures line { IfSome result (IsOfCode (word_of layer) number) }
{
    match layer {
        Layer::Catalog => of_catalog(number),
        Layer::Cut => of_cut(number),
        Layer::Sql => of_sql(number),
        Layer::Plan => of_plan(number),
        Layer::Load => of_load(number),
        Layer::File => of_file(number),
        Layer::Work => of_work(number),
        Layer::Journal => of_journal(number),
        Layer::Gather => of_gather(number),
    }
}

/// The entry of the line of this word and this error code, as `sql` and 5.
pub fn entry(word: &str, number: u8) -> Option<Entry>
    ensures known { is_some result ≡ is_known word.now number }
    ensures line { IfSome result (IsOfCode word.now number) }
{
    match Layer::of_word(word) {
        Some(layer) => entry_of(layer, number),
        None => None,
    }
}

fn print_layer<W: Write>(layer: Layer, out: &mut W) -> io::Result<()>
    ensures { OnOk result (Appends (W.contents out.old) (W.contents out.new) (layer_line layer)) }
{
    let codes = layer.codes();
    writeln!(out, "  {codes}")
}

fn print_layers<W: Write>(layers: &[Layer], out: &mut W) -> io::Result<()>
    ensures { OnOk result (Appends (W.contents out.old) (W.contents out.new)
        (flat_map layer_line layers.now)) }
{
    for layer in layers {
        print_layer(*layer, out)?;
    }
    Ok(())
}

/// Prints which refusals have an entry, a layer a line.
pub fn print_known<W: Write>(out: &mut W) -> io::Result<()>
    ensures { OnOk result (Appends (W.contents out.old) (W.contents out.new) known_text) }
{
    print_layers(&Layer::ALL, out)?;
    out.write_all(
        b"  memory, cannot read, cannot write,\n  cannot write standard error, cannot write standard output,\n  usage, arithmetic, missing, conflict\n",
    )
}

fn print_code<W: Write>(layer: Layer, number: u8, out: &mut W) -> io::Result<()>
    ensures { OnOk result ((text : List ℕ) × IsSentence layer number text
        × Appends (W.contents out.old) (W.contents out.new) text) }
{
    let Some(entry) = entry_of(layer, number) else {
        return Ok(());
    };
    let (word, meaning) = (layer.word(), entry.meaning);
    writeln!(out, "  {word} {number}: {meaning}")
}

/// Prints what each error code of a layer means, one to a line.
pub fn print_codes<W: Write>(layer: Layer, out: &mut W) -> io::Result<()>
    ensures { OnOk result (PrintsCodes layer (W.contents out.old) (W.contents out.new)) }
{
    for number in 0..CODES {
        print_code(layer, number, out)?;
    }
    Ok(())
}
