//! Groups in the bytes that they are packed into.
ghost use Rattle.std.specs.Prelude.{◌≡◌, [], ◌∷◌, ◌++◌, length, take, drop, IfOk, OnErr, OnOk};
ghost use Rattle.std.specs.Bool.{Decides};

use crate::group::{put_group, put_groups, take_groups};
use aggregate_states::Group;
use std::alloc::{AllocError, Global};
use std::marker::Model;

/// Groups, packed into bytes. Contracts see the groups. Equal groups have equal bytes.
#[derive(Drop)]
pub struct PackedGroups {
    many: usize,
    bytes: Vec<u8>,
}

impl Model for PackedGroups {
    ghost use Rattle.std.specs.Prelude.{List};
    ghost use Rattle.meaning.specs.declared.answer.Group.{Group as AGroup};
    ghost use Rattle.packed_groups.specs.Packable.{IsPacked};
    ghost use Rattle.packed_groups.specs.Reading.{packed_in};

    ghost Value = { List AGroup };

    ghost view = { λ p. packed_in p.many p.bytes.items };

    ghost invariant = { λ p. IsPacked p.many p.bytes.items };
}

impl PackedGroups {
    /// No groups, which take no memory.
    pub fn new(alloc: Global) -> PackedGroups
        ensures { result ≡ [] }
    {
        PackedGroups {
            many: 0,
            bytes: Vec::new(alloc),
        }
    }

    /// Packs groups, into no more memory than their bytes take.
    pub fn pack(alloc: Global, groups: &[Group]) -> Result<PackedGroups, AllocError>
        ensures { IfOk result (λ packed. packed ≡ groups.now) }
    {
        let mut bytes = Vec::new(alloc);
        put_groups(&mut bytes, groups)?;
        let bytes = Vec::from_slice(alloc, bytes.as_slice())?;
        let many = groups.len();
        Ok(PackedGroups { many, bytes })
    }

    /// These groups and one more behind them.
    pub fn with(self, group: &Group) -> Result<PackedGroups, AllocError>
        ensures { IfOk result (λ packed. packed ≡ self ++ group.now ∷ []) }
    {
        let PackedGroups { many, mut bytes } = self;
        put_group(&mut bytes, group)?;
        Ok(PackedGroups {
            many: many + 1,
            bytes,
        })
    }

    /// These groups and more behind them.
    pub fn with_all(self, groups: &[Group]) -> Result<PackedGroups, AllocError>
        ensures { IfOk result (λ packed. packed ≡ self ++ groups.now) }
    {
        let PackedGroups { many, mut bytes } = self;
        put_groups(&mut bytes, groups)?;
        Ok(PackedGroups {
            many: many + groups.len(),
            bytes,
        })
    }

    /// The same groups in no more memory than their bytes take.
    pub fn fitted(self, alloc: Global) -> Result<PackedGroups, AllocError>
        ensures { IfOk result (λ packed. packed ≡ self) }
    {
        self.copy(alloc)
    }

    /// How many groups there are.
    pub fn len(&self) -> usize
        ensures { result ≡ length self.now }
    {
        self.many
    }

    /// The groups.
    pub fn unpack(&self, alloc: Global) -> Result<Vec<Group>, AllocError>
        ensures { IfOk result (λ groups. groups.items ≡ self.now) }
    {
        match take_groups(alloc, Vec::new(alloc), self.many, self.bytes.as_slice()) {
            Ok((groups, _)) => Ok(groups),
            // What was packed is read again, unless memory is wanting.
            Err(_) => Err(AllocError),
        }
    }

    /// The groups, to be unpacked a few at a time.
    pub fn batches(&self) -> Unpacking<'_>
        ensures { result ≡ self.now }
    {
        Unpacking {
            left: self.many,
            rest: self.bytes.as_slice(),
        }
    }

    /// Equal groups, in memory of their own.
    pub fn copy(&self, alloc: Global) -> Result<PackedGroups, AllocError>
        ensures { IfOk result (λ copy. copy ≡ self.now) }
    {
        let bytes = Vec::from_slice(alloc, self.bytes.as_slice())?;
        Ok(PackedGroups {
            many: self.many,
            bytes,
        })
    }

    /// Whether both are the same groups.
    pub fn is_same(&self, other: &PackedGroups) -> bool
        ensures { Decides result (self.now ≡ other.now) }
    {
        self.many == other.many && self.bytes == other.bytes
    }
}

/// Packed groups that are still to be unpacked. Contracts see the groups.
#[derive(Drop)]
pub struct Unpacking<'a> {
    left: usize,
    rest: &'a [u8],
}

impl<'a> Model for Unpacking<'a> {
    ghost use Rattle.std.specs.Prelude.{List};
    ghost use Rattle.meaning.specs.declared.answer.Group.{Group as AGroup};
    ghost use Rattle.packed_groups.specs.Packable.{IsPacked};
    ghost use Rattle.packed_groups.specs.Reading.{packed_in};

    ghost Value = { List AGroup };

    ghost view = { λ u. packed_in u.left u.rest.now };

    ghost invariant = { λ u. IsPacked u.left u.rest.now };
}

impl<'a> Unpacking<'a> {
    /// How many groups there are still.
    pub fn len(&self) -> usize
        ensures { result ≡ length self.now }
    {
        self.left
    }

    /// Takes so many groups from the front, or all where they are fewer, in the buffers of groups
    /// that are given up.
    pub fn take(
        &mut self,
        alloc: Global,
        most: usize,
        spare: Vec<Group>,
    ) -> Result<Vec<Group>, AllocError>
        ensures taken { IfOk result (λ groups. groups.items ≡ take most self.old) }
        ensures left { OnOk result (self.new ≡ drop most self.old) }
        ensures unchanged { OnErr result (self.new ≡ self.old) }
    {
        let many = most.min(self.left);
        match take_groups(alloc, spare, many, self.rest) {
            Ok((groups, rest)) => {
                self.rest = rest;
                self.left -= many;
                Ok(groups)
            }
            // What was packed is read again, unless memory is wanting.
            Err(_) => Err(AllocError),
        }
    }
}
