//! Marks of groups. Neighbouring groups are a block, whose marks are the bits of one number.
ghost use Rattle.std.specs.Prelude.{◌≡◌, ℕ, ◌+◌, ◌*◌, ◌<◌, ◌↔◌, ◌⊎◌, true};
ghost use Rattle.distinct_sets.specs.Marks.{IsMarked};

// How many groups a block has: a bit for each.
const BLOCK_SIZE: u32 = u32::BITS;

/// A group, by its block and its offset there.
#[derive(Clone, Copy)]
pub struct GroupInBlock {
    pub block: u32,
    pub offset: u32,
}

/// The block of a group, and its offset there.
#[inline(always)]
pub fn in_block(group_index: u32) -> GroupInBlock
    ensures within { result.offset < 32 }
    ensures is { result.block * 32 + result.offset ≡ group_index }
{
    GroupInBlock {
        block: group_index / BLOCK_SIZE,
        offset: group_index % BLOCK_SIZE,
    }
}

/// The groups of a block that are marked, each by the bit at its offset.
#[derive(Clone, Copy)]
pub struct Marks {
    pub bits: u32,
}

/// Of no group.
pub const NO_MARKS: Marks = Marks { bits: 0 };

impl Marks {
    /// Of one group.
    #[inline(always)]
    pub fn of(offset: u32) -> Marks
        requires { offset < 32 }
        ensures { (k : ℕ) → IsMarked result k ↔ (k ≡ offset) }
    {
        Marks { bits: 1 << offset }
    }

    /// Of the groups that are marked in one of both.
    pub fn with(self, others: Marks) -> Marks
        ensures { (k : ℕ) → IsMarked result k ↔ (IsMarked self k ⊎ IsMarked others k) }
    {
        Marks {
            bits: self.bits | others.bits,
        }
    }

    /// Whether a group is marked.
    #[inline(always)]
    pub fn have(self, offset: u32) -> bool
        requires { offset < 32 }
        ensures { result ≡ true ↔ IsMarked self offset }
    {
        (self.bits >> offset) & 1 == 1
    }

    /// Whether no group is marked.
    #[inline(always)]
    pub fn are_none(self) -> bool
        ensures { result ≡ true → (k : ℕ) → IsMarked self k → ⊥ }
    {
        self.bits == 0
    }
}
