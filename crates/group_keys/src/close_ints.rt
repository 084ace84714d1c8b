//! Where the keys of integers that are close to each other have their group indexes: by how far
//! they are above a least one.
ghost use Rattle.std.specs.Prelude.{◌≡◌, ◌≢◌, ◌<◌, ◌∷◌, [], List, length, slice_index_or, true, All};
ghost use Rattle.meaning.specs.declared.value.Value.TheVariants.{Int};
ghost use Rattle.meaning.specs.Order.{Row};
ghost use Rattle.group_keys.specs.Keys.{LeadsTo};

/// What stands where no group index is known.
pub const NOWHERE: u32 = u32::MAX;

// A table has no more entries than so many for each row of the vector that it is made for.
const ENTRIES_A_ROW: u64 = 1024;

// Nor more than so many for the integers of that vector.
const MOST_ENTRIES: u64 = 1 << 20;

// Room on both sides for integers that come later.
const LEAST_SLACK: u64 = 512;

/// Integers from a least one on.
#[derive(Clone, Copy)]
pub struct Window {
    pub least: i64,
    pub entries: usize,
}

fn least_of(ints: &[i64]) -> Option<i64> {
    ints.iter().copied().min()
}

fn greatest_of(ints: &[i64]) -> Option<i64> {
    ints.iter().copied().max()
}

/// A window about these integers, unless they are far apart.
pub fn window_of(ints: &[i64]) -> Option<Window> {
    let least = least_of(ints)?;
    let span = greatest_of(ints)?.abs_diff(least);
    let most = (ints.len() as u64)
        .saturating_mul(ENTRIES_A_ROW)
        .min(MOST_ENTRIES);
    if span >= most {
        return None;
    }
    let slack = span / 8 + LEAST_SLACK;
    Some(Window {
        least: least.saturating_sub(slack as i64),
        entries: (span + 2 * slack) as usize,
    })
}

#[inline(always)]
fn entry_at(entries: &[u32], at: u64) -> u32
    ensures { result ≡ slice_index_or entries.now at NOWHERE }
{
    entries.get(at as usize).copied().unwrap_or(NOWHERE)
}

/// The group index to which a table leads for an integer, or `NOWHERE`.
#[inline(always)]
pub fn close_group_index(entries: &[u32], least: &i64, int: &i64) -> u32
    ensures { (keys : List Row) → LeadsTo least.now entries.now keys → result ≢ NOWHERE
        → (result < length keys) × (slice_index_or keys result [] ≡ Int int.now ∷ []) }
{
    if *int < *least {
        return NOWHERE;
    }
    entry_at(entries, int.abs_diff(*least))
}

/// Whether all of these group indexes are known. Compares all of them, so that the loop has no
/// branch.
pub fn are_known(group_indexes: &[u32]) -> bool
    ensures { result ≡ true → All (λ group_index. group_index ≢ NOWHERE) group_indexes.now }
{
    let mut known = true;
    for k in 0..group_indexes.len() {
        known &= group_indexes[k] != NOWHERE;
    }
    known
}

/// Enters the group index of a key, where the table has an entry for it.
pub fn enter(entries: &mut [u32], least: &i64, int: &i64, group_index: usize)
    ensures { (keys : List Row) → LeadsTo least.now entries.old keys → group_index < length keys
        → slice_index_or keys group_index [] ≡ Int int.now ∷ []
        → LeadsTo least.now entries.new keys }
{
    if *int < *least {
        return;
    }
    let Ok(group_index) = u32::try_from(group_index) else {
        return;
    };
    let at = int.abs_diff(*least) as usize;
    if at < entries.len() {
        entries[at] = group_index;
    }
}
