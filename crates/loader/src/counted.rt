//! How many records a text has, as far as it was gone through.
ghost use Rattle.std.specs.Prelude.{◌≡◌, ◌<◌, ◌^◌, ◌++◌, [], ℕ, List, length, IfOk, IfErr};
ghost use Rattle.csv.specs.declared.parser.State.TheVariants as st;
ghost use Rattle.loader.specs.Counting.{counted_with, records_left};
ghost use Rattle.loader.specs.declared.fault.LoadFault.TheVariants.{Memory};

use crate::blocks::count_block;
use crate::fault::LoadFault;
use crate::record_state::RecordState;

/// How many records ended so far, and the state behind them.
#[derive(Clone, Copy)]
pub struct Counted {
    pub records: u64,
    pub state: RecordState,
}

impl Counted {
    /// The first bytes of a text.
    pub fn of_front(front: &[u8]) -> Counted
        requires { length front.now < 2 ^ 32 }
        ensures { (rest : List ℕ)
            → counted_with result rest ≡ records_left st.StartRecord (front.now ++ rest) }
    {
        let ended = count_block(RecordState::Between, front);
        Counted {
            records: u64::from(ended.records),
            state: ended.state,
        }
    }

    /// With the records that end in a block. More than 64 bits count are refused as out of memory:
    /// no file has as many.
    pub fn with_block(self, block: &[u8]) -> Result<Counted, LoadFault>
        requires { length block.now < 2 ^ 32 }
        ensures counted { IfOk result (λ after. (rest : List ℕ)
            → counted_with after rest ≡ counted_with self (block.now ++ rest)) }
        ensures refused { IfErr result (λ f. f ≡ Memory) }
    {
        let ended = count_block(self.state, block);
        match self.records.checked_add(u64::from(ended.records)) {
            Some(records) => Ok(Counted {
                records,
                state: ended.state,
            }),
            None => Err(LoadFault::Memory),
        }
    }

    /// All records, with the one that the end of the text ends.
    pub fn at_end(self) -> Result<u64, LoadFault>
        ensures counted { IfOk result (λ n. n ≡ counted_with self []) }
        ensures refused { IfErr result (λ f. f ≡ Memory) }
    {
        match self.records.checked_add(u64::from(self.state.is_open())) {
            Some(records) => Ok(records),
            None => Err(LoadFault::Memory),
        }
    }
}
