//! Numbers as the bytes that are written, the lowest byte first.
ghost use Rattle.std.specs.Prelude.{◌≡◌, ◌++◌, OnOk};
ghost use Rattle.std.specs.List.{flat_map};
ghost use Rattle.blocks.specs.Numbers.{short_bytes, word_bytes, integer_bytes};

use std::alloc::AllocError;

#[tactic(auto, unfolding(blocks::specs::Numbers::short_bytes))]
pub fn put_short(out: &mut Vec<u8>, n: u16) -> Result<(), AllocError>
    ensures { OnOk result (out.new.items ≡ out.old.items ++ short_bytes n) }
{
    out.extend_from_slice(&n.to_le_bytes())
}

#[tactic(auto, unfolding(blocks::specs::Numbers::word_bytes))]
pub fn put_word(out: &mut Vec<u8>, n: u32) -> Result<(), AllocError>
    ensures { OnOk result (out.new.items ≡ out.old.items ++ word_bytes n) }
{
    out.extend_from_slice(&n.to_le_bytes())
}

#[tactic(auto, unfolding(blocks::specs::Numbers::integer_bytes))]
pub fn put_integer(out: &mut Vec<u8>, n: i64) -> Result<(), AllocError>
    ensures { OnOk result (out.new.items ≡ out.old.items ++ integer_bytes n) }
{
    out.extend_from_slice(&n.to_le_bytes())
}

pub fn put_shorts(out: &mut Vec<u8>, numbers: &[u16]) -> Result<(), AllocError>
    ensures { OnOk result (out.new.items ≡ out.old.items ++ flat_map short_bytes numbers.now) }
{
    for n in numbers {
        put_short(out, *n)?;
    }
    Ok(())
}
