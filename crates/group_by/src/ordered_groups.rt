//! Groups in the order of their keys, made a batch at a time.
ghost use Rattle.std.specs.Prelude.{◌≡◌, ◌≤◌, ◌-◌, [], length, take, drop, IfOk};
ghost use Rattle.std.specs.Cow.{cow_slice_items, IsBorrowedSlice, IsOwnedSlice};

use crate::group_slice::GroupSlice;
use crate::unmade_groups::UnmadeGroups;
use accumulators::Group;
use std::alloc::{AllocError, Global};
use std::borrow::CowSlice;
use std::marker::Model;
use std::mem::drop;

/// The groups of a batch, whose buffers can be used again, if they were made for it.
pub fn spare_groups(alloc: Global, batch: CowSlice<'_, Group>) -> Vec<Group>
    ensures made { IsOwnedSlice batch.entry → result.items ≡ cow_slice_items batch.entry }
    ensures lent { IsBorrowedSlice batch.entry → result.items ≡ [] }
{
    match batch {
        CowSlice::Owned(groups) => groups,
        CowSlice::Borrowed(_) => Vec::new(alloc),
    }
}

#[derive(Drop)]
pub enum HeldGroups<'a> {
    Made(Vec<Group>),
    Unmade(UnmadeGroups<'a>),
}

/// Groups in the order of their keys. Contracts see their list. No group is made before a batch
/// asks for it, unless some key stands twice in a list of keys.
#[derive(Drop)]
pub struct OrderedGroups<'a> {
    held: HeldGroups<'a>,
}

impl<'a> Model for OrderedGroups<'a> {
    ghost use Rattle.std.specs.Prelude.{List};
    ghost use Rattle.meaning.specs.declared.answer.Group.{Group as AGroup};

    ghost Value = { List AGroup };

    ghost use Rattle.group_by.specs.OrderedGroups.{groups_in};

    ghost view = { λ g. groups_in g.held };
}

impl<'a> OrderedGroups<'a> {
    /// Groups that are made already.
    pub fn made(groups: Vec<Group>) -> OrderedGroups<'a>
        ensures { result ≡ groups.items }
    {
        OrderedGroups {
            held: HeldGroups::Made(groups),
        }
    }

    /// Groups of which none is made.
    pub fn unmade(groups: UnmadeGroups<'a>) -> OrderedGroups<'a>
        ensures { result ≡ groups.entry }
    {
        OrderedGroups {
            held: HeldGroups::Unmade(groups),
        }
    }

    /// How many groups there are.
    pub fn len(&self) -> usize
        ensures { result ≡ length self.now }
    {
        match &self.held {
            HeldGroups::Made(groups) => groups.len(),
            HeldGroups::Unmade(groups) => groups.len(),
        }
    }

    /// The groups from one place up to another: lent where they are made, else made for the caller,
    /// in the buffers of groups that are given up.
    pub fn batch(
        &self,
        alloc: Global,
        from: usize,
        to: usize,
        spare: Vec<Group>,
    ) -> Result<CowSlice<'_, Group>, AllocError>
        requires ordered { from ≤ to }
        requires within { to ≤ length self.now }
        ensures { IfOk result
            (λ groups. cow_slice_items groups ≡ take (to - from) (drop from self.now)) }
    {
        match &self.held {
            HeldGroups::Made(groups) => {
                drop(spare);
                let groups = groups.as_slice();
                Ok(CowSlice::Borrowed(&groups[from..to]))
            }
            HeldGroups::Unmade(groups) => {
                Ok(CowSlice::Owned(groups.batch(alloc, from, to, spare)?))
            }
        }
    }

    /// The groups from one place up to another, lent: none is made for it.
    pub fn slice(&self, from: usize, to: usize) -> GroupSlice<'_>
        requires ordered { from ≤ to }
        requires within { to ≤ length self.now }
        ensures { result ≡ take (to - from) (drop from self.now) }
    {
        match &self.held {
            HeldGroups::Made(groups) => {
                let groups = groups.as_slice();
                GroupSlice::of(&groups[from..to])
            }
            HeldGroups::Unmade(groups) => GroupSlice::of_unmade(groups.slice(from, to)),
        }
    }
}
