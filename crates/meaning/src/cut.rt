//! How the fact table is cut into fragments.

ghost use Rattle.std.specs.Prelude.{◌≡◌, ◌≢◌, ◌≤◌, nat_lt, IfOk, sum};
ghost use Rattle.std.specs.List.{list_any};
ghost use Rattle.meaning.specs.Limits.{max_rows};
ghost use Rattle.meaning.specs.Cut.{cut_of, even_lengths, number_of};

use crate::limits::{MAX_FRAGMENTS, MAX_ROWS};
use crate::sequence::Sequence;
use std::alloc::{AllocError, Global};
use std::marker::Model;
use thiserror::Error;

/// How many rows of the fact table each fragment has, in the order of the fragments.
#[derive(Drop)]
pub struct Cut {
    lengths: Sequence<u32>,
}

/// Why lengths are no cut.
#[derive(Debug, Drop, Error)]
pub enum CutFault {
    #[error("out of memory")]
    Memory,
    #[error("no fragment")]
    NoFragment,
    #[error("over 4,096 fragments")]
    TooManyFragments,
    #[error("a fragment of over 1,048,576 rows")]
    FragmentTooLong,
}

impl CutFault {
    /// The error code.
    pub fn number(&self) -> u8
        ensures { result ≡ number_of self.now }
    {
        match self {
            CutFault::Memory => 0,
            CutFault::NoFragment => 1,
            CutFault::TooManyFragments => 2,
            CutFault::FragmentTooLong => 3,
        }
    }
}

impl From<AllocError> for CutFault {
    ghost use Rattle.std.specs.Prelude.{◌≡◌};
    ghost use Rattle.meaning.specs.declared.cut.CutFault.TheVariants as fault;

    ghost from_gives = { λ _ given. given ≡ fault.Memory };

    fn from(_: AllocError) -> CutFault {
        CutFault::Memory
    }
}

impl Model for Cut {
    ghost use Rattle.std.specs.Prelude.{ℕ, List};
    ghost use Rattle.meaning.specs.Limits.{max_rows};
    ghost use Rattle.meaning.specs.Cut.{IsCut};

    ghost Value = { List ℕ };

    ghost view = { λ c. c.lengths };

    ghost invariant = { λ c. IsCut c.lengths };
}

fn has_long_fragment(lengths: &[u32]) -> bool
    ensures { result ≡ list_any (λ n. nat_lt max_rows n) lengths.now }
{
    lengths.iter().any(|length| *length > MAX_ROWS)
}

impl Cut {
    ghost use Rattle.meaning.specs.Limits.{max_rows};
    ghost use Rattle.meaning.specs.Cut.{IsCut};

    /// The cut into fragments of these numbers of rows. Takes no memory.
    pub fn new(lengths: Vec<u32>) -> Result<Cut, CutFault>
        ensures { result ≡ cut_of lengths.items }
    {
        if lengths.is_empty() {
            return Err(CutFault::NoFragment);
        }
        if lengths.len() > MAX_FRAGMENTS {
            return Err(CutFault::TooManyFragments);
        }
        if has_long_fragment(&lengths) {
            return Err(CutFault::FragmentTooLong);
        }
        Ok(Cut {
            lengths: Sequence::from_vec(lengths),
        })
    }

    /// The cut of `rows` rows into fragments of `r` rows and, where rows are left over, one of the
    /// rest. No rows make one fragment of none.
    pub fn even(alloc: Global, rows: u64, r: u32) -> Result<Cut, CutFault>
        requires { 1 ≤ r }
        ensures value { result ≢ Err CutFault.Memory → result ≡ cut_of (even_lengths rows r) }
        ensures whole { IfOk result (λ cut. sum cut ≡ rows) }
    {
        let full = rows / u64::from(r);
        let rest = (rows % u64::from(r)) as u32;
        if full > MAX_FRAGMENTS as u64 {
            return Err(CutFault::TooManyFragments);
        }
        let mut lengths = vec![in alloc; r; full as usize]?;
        if rest > 0 || full == 0 {
            lengths.push(rest).map_err(|_| CutFault::Memory)?;
        }
        Cut::new(lengths)
    }

    /// The fragments' numbers of rows.
    pub fn lengths(&self) -> &[u32]
        ensures value { result.now ≡ self.now }
        ensures within_limits { IsCut self.now }
    {
        self.lengths.as_slice()
    }
}
