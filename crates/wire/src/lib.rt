//! What the binary formats share: numbers and texts as bytes, readers from the front of bytes, and
//! the seal.
//!
//! Numbers stand with their lowest byte first. `specs/` has the words of the contracts; `proofs/`
//! has the laws of them that the formats' own laws are made of.
#![tactic(auto)]

mod appending;
mod fault;
mod reading;
mod sealing;

pub use appending::{
    append_i64, append_i128, append_short_text, append_text, append_u8, append_u16, append_u32,
    append_u64,
};
pub use fault::{DeviceFault, WireFault};
pub use reading::{
    skip_magic, take_bytes, take_i64, take_i128, take_short_text, take_text, take_u8, take_u16,
    take_u32, take_u64,
};
pub use sealing::{SEAL_BYTES, append_seal, check_seal, put, put_seal, put_u32, put_u64};
