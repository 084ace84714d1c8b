//! Which lanes of a vector are NULL.
ghost use Rattle.std.specs.Prelude.{◌≡◌, ◌<◌, ◌+◌, ℕ, false, slice_index_or, length};
ghost use Rattle.vectors.specs.Lanes.{lent_mask, mask_of, nulls_of};

/// Which lanes are NULL: none of them, or those that a mask marks.
#[derive(Drop)]
pub enum Nulls<'a> {
    None,
    Lent(&'a [bool]),
    Owned(Vec<bool>),
}

impl<'a> Nulls<'a> {
    /// The mask, unless no lane is NULL.
    pub fn mask(&self) -> Option<&[bool]>
        ensures { lent_mask result ≡ mask_of self.now }
    {
        match self {
            Nulls::None => None,
            Nulls::Lent(mask) => Some(*mask),
            Nulls::Owned(mask) => Some(mask.as_slice()),
        }
    }

    /// Whether a lane is NULL.
    pub fn is_null(&self, lane: usize) -> bool
        requires { lane < length (nulls_of (lane + 1) self.now) }
        ensures { (lanes : ℕ) → lane < lanes
            → result ≡ slice_index_or (nulls_of lanes self.now) lane false }
    {
        match self {
            Nulls::None => false,
            Nulls::Lent(mask) => mask[lane],
            Nulls::Owned(mask) => mask[lane],
        }
    }
}
