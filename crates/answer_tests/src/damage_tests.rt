//! Answers of which each byte is changed in turn, and what `whole` hands back.
use crate::counting::counted;
use partial_codec::{Job, decode};
use sha2::{Digest, Sha256};
use std::alloc::{AllocError, Global};
use std::mem::drop;
use std::process::Abort;
use std::test::Fail;

/// The count 2 for the first fragment of the cut [2,3], load 0, from the magic to the seal.
const FIELDS: &[u8] = b"\0\0\0\0\0\0\0\0\x1a\0\0\0SELECT COUNT(*) FROM sales\
    \x02\0\0\0\x02\0\0\0\x03\0\0\0\0\0\0\0\0\0\x01\0\x01\0\x01\x01\0\0\0\x02\0\0\0\x02\0\0\0";

// ---- bytes

fn joined(alloc: Global, front: &[u8], back: &[u8]) -> Result<Vec<u8>, AllocError> {
    let mut bytes = Vec::from_slice(alloc, front)?;
    bytes.extend_from_slice(back)?;
    Ok(bytes)
}

fn sealed(alloc: Global, front: &[u8]) -> Result<Vec<u8>, AllocError> {
    let seal = Sha256::digest(front);
    joined(alloc, front, &seal)
}

/// The bytes with the least bit of one of them turned.
fn turned(alloc: Global, bytes: &[u8], offset: usize) -> Result<Vec<u8>, AllocError> {
    let mut bytes = Vec::from_slice(alloc, bytes)?;
    if let Some(byte) = bytes.get_mut(offset) {
        *byte ^= 1;
    }
    Ok(bytes)
}

/// By which number the bytes are refused; `None` where they are taken.
fn refusal(alloc: Global, job: &Job, bytes: &[u8]) -> Option<u8> {
    match decode(alloc, job, bytes) {
        Ok(_) => None,
        Err(fault) => Some(fault.number()),
    }
}

fn expect(
    rt: &impl Abort,
    alloc: Global,
    job: &Job,
    bytes: &[u8],
    want: Option<u8>,
    offset: usize,
) {
    assert_eq!(rt; refusal(alloc, job, bytes), want, "at {offset}");
}

// ---- lengths

fn expect_lengths(
    rt: &impl Abort,
    alloc: Global,
    job: &Job,
    front: &[u8],
) -> Result<(), AllocError> {
    let longer = joined(alloc, &sealed(alloc, front)?, b"\0")?;
    for n in 0..longer.len() {
        let want = if n == 109 { None } else { Some(2) };
        expect(rt, alloc, job, &longer[..n], want, n);
    }
    expect(rt, alloc, job, &longer, Some(3), longer.len());
    Ok(())
}

// ---- turned bits

/// What a turned bit in the first 77 bytes gives, where the seal is that of the turned bytes.
fn want_under_seal(offset: usize) -> Option<u8> {
    match offset {
        0..=3 => Some(1),
        // The text, the cut or the groups are then longer than the bytes; or without an aggregate
        // its bytes count groups.
        12..=15 | 43..=45 | 60 | 66..=68 => Some(2),
        // A fault, or no group: the seal ends three or eight bytes earlier.
        64 | 65 => Some(3),
        4..=11 => Some(5),
        16..=41 => Some(6),
        // Fragment 1 may have 2 rows too.
        54 => None,
        46..=57 => Some(7),
        // With a third length, which is the fragment's number, the shape shows a key.
        42 | 58..=63 => Some(9),
        _ => Some(10),
    }
}

/// What it gives under the seal of the bytes before.
fn want_turned(offset: usize) -> Option<u8> {
    match offset {
        4..=11 | 16..=41 | 46..=57 | 69..=108 => Some(4),
        _ => want_under_seal(offset),
    }
}

fn expect_turned(
    rt: &impl Abort,
    alloc: Global,
    job: &Job,
    front: &[u8],
) -> Result<(), AllocError> {
    let whole = sealed(alloc, front)?;
    for offset in 0..whole.len() {
        let bytes = turned(alloc, &whole, offset)?;
        expect(rt, alloc, job, &bytes, want_turned(offset), offset);
    }
    Ok(())
}

fn expect_turned_and_sealed(
    rt: &impl Abort,
    alloc: Global,
    job: &Job,
    front: &[u8],
) -> Result<(), AllocError> {
    for offset in 0..front.len() {
        let bytes = sealed(alloc, &turned(alloc, front, offset)?)?;
        expect(rt, alloc, job, &bytes, want_under_seal(offset), offset);
    }
    Ok(())
}

// ---- two at once

/// Whether its turned bit changes one thing alone: the magic, load, query, cut or numbers.
fn stands_alone(offset: usize) -> bool {
    matches!(want_under_seal(offset), Some(1 | 5 | 6 | 7 | 10))
}

fn expect_first(
    rt: &impl Abort,
    alloc: Global,
    job: &Job,
    front: &[u8],
    first: usize,
    second: usize,
) -> Result<(), AllocError> {
    let once = turned(alloc, front, first)?;
    let bytes = sealed(alloc, &turned(alloc, &once, second)?)?;
    expect(rt, alloc, job, &bytes, want_under_seal(first), second);
    Ok(())
}

fn expect_pairs(rt: &impl Abort, alloc: Global, job: &Job, front: &[u8]) -> Result<(), AllocError> {
    for second in 0..front.len() {
        for first in 0..second {
            if stands_alone(first) && stands_alone(second) {
                expect_first(rt, alloc, job, front, first, second)?;
            }
        }
    }
    Ok(())
}

fn expect_damage(
    rt: &impl Abort,
    alloc: Global,
    job: &Job,
    magic: &[u8],
) -> Result<(), AllocError> {
    let front = joined(alloc, magic, FIELDS)?;
    expect_lengths(rt, alloc, job, &front)?;
    expect_turned(rt, alloc, job, &front)?;
    expect_turned_and_sealed(rt, alloc, job, &front)?;
    expect_pairs(rt, alloc, job, &front)
}

fn expect_damage_behind(rt: &impl Abort, alloc: Global, magic: &[u8]) -> Result<(), Fail> {
    let gather = counted(alloc)?;
    let ended = expect_damage(rt, alloc, gather.job(), magic);
    drop(gather);
    Ok(ended?)
}

#[test]
fn damage_at_every_byte_in_the_first_format(rt: HostRuntime) -> Result<(), Fail> {
    expect_damage_behind(&rt, rt.alloc(), b"XGA1")
}

#[test]
fn damage_at_every_byte_in_the_second_format(rt: HostRuntime) -> Result<(), Fail> {
    expect_damage_behind(&rt, rt.alloc(), b"XGA2")
}

/// What `whole` hands back has one cell a fragment, and is for the load 0.
#[test]
fn what_whole_hands_back(rt: HostRuntime) -> Result<(), Fail> {
    let gather = counted(rt.alloc())?;
    let (load, cells) = (gather.job().load(), gather.cells().len());
    drop(gather);
    assert_eq!(rt; (load, cells), (0, 2));
    Ok(())
}
