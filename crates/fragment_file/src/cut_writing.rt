//! The file of a cut, written.
ghost use Rattle.std.specs.Prelude.{◌≡◌, List, ℕ, OnOk, IfErr, flat_map};
ghost use Rattle.std.specs.Io.KnownBytes.{Appends};
ghost use Rattle.wire.specs.Bytes.{number_bytes, sealed};
ghost use Rattle.fragment_file.specs.CutFile.{cut_bytes};
ghost use Rattle.wire.specs.Writing.{Puts};
ghost use Rattle.fragment_file.specs.declared.fault.FileFault.TheVariants.{Device};

use crate::cut_reading::CUT_MAGIC;
use crate::fault::FileFault;
use meaning::Cut;
use sha2::{Digest, Sha256};
use std::io::Write;
use wire::{DeviceFault, put, put_seal, put_u32, put_u64};

fn put_lengths<W: Write>(
    out: &mut W,
    hasher: &mut Sha256,
    lengths: &[u32],
) -> Result<(), DeviceFault>
    ensures { OnOk result (Puts (W.contents out.old) (W.contents out.new) hasher.old hasher.new
        (flat_map (number_bytes 4) lengths.now)) }
{
    for length in lengths {
        put_u32(out, hasher, *length)?;
    }
    Ok(())
}

fn put_cut<W: Write>(load: u64, cut: &Cut, out: &mut W) -> Result<(), DeviceFault>
    ensures { OnOk result (Appends (W.contents out.old) (W.contents out.new)
        (sealed (cut_bytes (record { load = load; cut = cut.now })))) }
{
    let lengths = cut.lengths();
    let mut hasher = Sha256::new();
    put(out, &mut hasher, &CUT_MAGIC)?;
    put_u64(out, &mut hasher, load)?;
    put_u32(out, &mut hasher, lengths.len() as u32)?;
    put_lengths(out, &mut hasher, lengths)?;
    put_seal(out, hasher)
}

/// Writes the file of a cut: the number of the load that made the files, and how many rows each
/// fragment has. Takes no memory.
///
/// # Errors
///
/// The device's. How much was written is open.
pub fn write_cut<W: Write>(load: u64, cut: &Cut, out: &mut W) -> Result<(), FileFault>
    ensures ok { OnOk result (Appends (W.contents out.old) (W.contents out.new)
        (sealed (cut_bytes (record { load = load; cut = cut.now })))) }
    ensures err { IfErr result (λ f. f ≡ Device) }
{
    put_cut(load, cut, out)?;
    Ok(())
}
