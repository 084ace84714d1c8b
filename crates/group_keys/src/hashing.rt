//! Hashes of keys. What a table holds doesn't depend on them.
ghost use Rattle.std.specs.Prelude.{◌≡◌, ◌<◌, ◌≤◌, ◌+◌, length, IfOk};
ghost use Rattle.vectors.specs.Vector.{values_of};
ghost use Rattle.group_keys.specs.Rows.{AreLanesOf};

use crate::plain_texts::plain_texts;
use aggregate_states::{plain_ints, position, value_at};
use key_columns::KeyColumns;
use meaning::{Row, ValueRef};
use std::alloc::{AllocError, Global};
use vectors::{Selection, Vector};

// The odd number nearest to 2^64 divided by the golden ratio: Knuth's multiplicative hashing.
const MULTIPLIER: u64 = 0x9E37_79B9_7F4A_7C15;

// The high half is folded into the low one before the product, so that bytes at the end of a word
// choose the slot too.
#[inline(always)]
fn mixed(hash: u64, word: u64) -> u64 {
    let both = hash ^ word;
    let product = (both ^ (both >> 32)).wrapping_mul(MULTIPLIER);
    product ^ (product >> 32)
}

/// Four bytes from one position on, and four from another.
#[inline(always)]
fn two_fours(bytes: &[u8], one: usize, other: usize) -> u64
    requires one { one + 4 ≤ length bytes.now }
    requires other { other + 4 ≤ length bytes.now }
{
    u64::from_le_bytes([
        bytes[one],
        bytes[one + 1],
        bytes[one + 2],
        bytes[one + 3],
        bytes[other],
        bytes[other + 1],
        bytes[other + 2],
        bytes[other + 3],
    ])
}

/// The last eight bytes, or all of fewer, some of them twice.
#[inline(always)]
fn last_word(bytes: &[u8]) -> u64 {
    let many = bytes.len();
    if many >= 8 {
        return two_fours(bytes, many - 8, many - 4);
    }
    if many >= 4 {
        return two_fours(bytes, 0, many - 4);
    }
    if many == 0 {
        return 0;
    }
    u64::from_le_bytes([bytes[0], bytes[many / 2], bytes[many - 1], 0, 0, 0, 0, 0])
}

fn hash_words(hash: u64, bytes: &[u8]) -> u64 {
    let (words, _) = bytes.as_chunks::<8>();
    let mut hash = hash;
    for word in words {
        hash = mixed(hash, u64::from_le_bytes(*word));
    }
    hash
}

/// A word at a time, and what is left over with bytes that were taken before, so that short texts
/// need no loop.
#[inline(always)]
fn hash_bytes(hash: u64, bytes: &[u8]) -> u64 {
    let mut hash = mixed(hash, bytes.len() as u64);
    if bytes.len() > 8 {
        hash = hash_words(hash, bytes);
    }
    mixed(hash, last_word(bytes))
}

#[inline(always)]
fn hash_value(hash: u64, value: ValueRef<'_>) -> u64 {
    match value {
        ValueRef::Null => mixed(hash, 1),
        ValueRef::Int(int) => mixed(hash, u64::from_le_bytes(int.to_le_bytes())),
        ValueRef::Text(bytes) => hash_bytes(hash, bytes),
    }
}

/// Of the key of this value alone.
pub fn hash_alone(value: ValueRef<'_>) -> u64 {
    hash_value(MULTIPLIER, value)
}

/// Of the key of this integer alone.
#[inline(always)]
pub fn hash_int(int: &i64) -> u64 {
    hash_value(MULTIPLIER, ValueRef::Int(*int))
}

/// Of a value in a group.
#[inline(always)]
pub fn hash_in_group(group_index: u32, value: ValueRef<'_>) -> u64 {
    hash_value(mixed(MULTIPLIER, u64::from(group_index)), value)
}

fn hash_texts(hashes: &mut [u64], texts: &[&[u8]])
    requires { length hashes.old ≡ length texts.now }
    ensures { length hashes.new ≡ length hashes.old }
{
    for k in 0..hashes.len() {
        hashes[k] = hash_bytes(hashes[k], texts[k]);
    }
}

fn hash_ints(hashes: &mut [u64], ints: &[i64])
    requires { length hashes.old ≡ length ints.now }
    ensures { length hashes.new ≡ length hashes.old }
{
    for k in 0..hashes.len() {
        hashes[k] = hash_value(hashes[k], ValueRef::Int(ints[k]));
    }
}

fn hash_selected(hashes: &mut [u64], lanes: &Vector<'_>, selection: &Selection)
    requires long { length hashes.old ≡ length selection.now.list }
    requires lanes { length (values_of lanes.now) ≡ selection.now.below }
    ensures { length hashes.new ≡ length hashes.old }
{
    for k in 0..hashes.len() {
        let value = value_at(lanes, position(selection, k));
        hashes[k] = hash_value(hashes[k], value);
    }
}

/// Each selected value of a column goes into the hash of its row.
fn hash_column(hashes: &mut [u64], lanes: &Vector<'_>, selection: &Selection)
    requires long { length hashes.old ≡ length selection.now.list }
    requires lanes { length (values_of lanes.now) ≡ selection.now.below }
    ensures { length hashes.new ≡ length hashes.old }
{
    if let Some(texts) = plain_texts(lanes, selection) {
        return hash_texts(hashes, texts);
    }
    if let Some(ints) = plain_ints(lanes, selection) {
        return hash_ints(hashes, ints);
    }
    hash_selected(hashes, lanes, selection);
}

/// Of the keys that these vectors have at the selected positions. Column by column, so that no
/// column's kind is looked at for each row.
pub fn hash_rows(
    alloc: Global,
    lanes: &[Vector<'_>],
    selection: &Selection,
) -> Result<Vec<u64>, AllocError>
    requires { AreLanesOf selection.now.below lanes.now }
    ensures { IfOk result (λ hashes. length hashes.items ≡ length selection.now.list) }
{
    let mut hashes = vec![in alloc; MULTIPLIER; selection.len()]?;
    for k in 0..lanes.len() {
        hash_column(hashes.as_mut_slice(), &lanes[k], selection);
    }
    Ok(hashes)
}

/// Of a key.
pub fn hash_row(row: &Row) -> u64 {
    let mut hash = MULTIPLIER;
    for value in row.as_slice() {
        hash = hash_value(hash, value.as_value_ref());
    }
    hash
}

/// Of a key by columns, as of the same key as a row.
pub fn hash_columns(keys: &KeyColumns, group_index: usize) -> u64
    requires { group_index < length keys.now }
{
    let mut hash = MULTIPLIER;
    for at in 0..keys.width() {
        hash = hash_value(hash, keys.value(group_index, at));
    }
    hash
}
