//! A buffer for values that are read out of a block.
ghost use Rattle.std.specs.Prelude.{pos, ◌≡◌, ◌==◌, ◌<◌, ◌↔◌, [], map, length, slice_index_or, IfOk, IsSome, IfSome};
ghost use Rattle.meaning.specs.declared.value.Value.TheVariants.{Null};
ghost use Rattle.meaning.specs.Order.{value_in, is_null, number, bytes};
ghost use Rattle.blocks.specs.VectorBuf.{Vector, AreParts};
ghost use Rattle.meaning.specs.declared.value.ColType.TheVariants as of_type;

use meaning::{ColType, ValueRef};
use std::alloc::{AllocError, Global};
use std::marker::Model;
use std::mem::drop;

/// The values of a vector without its marks of NULL.
#[derive(Drop)]
pub enum Lanes<'a> {
    Ints(Vec<i64>),
    Texts(Vec<&'a [u8]>),
}

/// Room for values of a column, filled anew by each read. It has the type of the column that filled
/// it last.
#[derive(Drop)]
pub struct VectorBuf<'a> {
    // Of the two, the one of the other type has no values.
    pub(crate) ints: Vec<i64>,
    pub(crate) texts: Vec<&'a [u8]>,
    pub(crate) nulls: Vec<bool>,
    pub(crate) len: usize,
    pub(crate) col_type: ColType,
}

impl<'a> Model for VectorBuf<'a> {
    ghost use Rattle.std.specs.Prelude.{map};
    ghost use Rattle.blocks.specs.VectorBuf.{Vector, vector_of, AreCells};

    ghost Value = { Vector };

    ghost view = { λ v. vector_of v.col_type v.len v.nulls.items v.ints.items
        (map (λ t. t.now) v.texts.items) };

    ghost invariant = { λ v. AreCells v.col_type v.len v.nulls.items v.ints.items
        (map (λ t. t.now) v.texts.items) };
}

fn integer_at(ints: &[i64], i: usize) -> i64
    requires { i < length ints.now }
    ensures { result ≡ slice_index_or ints.now i (pos 0) }
{
    ints[i]
}

impl<'a> VectorBuf<'a> {
    /// Room for `n` values of either type, and none there. The type is that of integers until a
    /// column fills it.
    pub fn new(alloc: Global, n: usize) -> Result<VectorBuf<'a>, AllocError>
        ensures { IfOk result (λ v. v ≡ record { room = n; col_type = of_type.Int; values = [] }) }
    {
        let blank: &'a [u8] = &[];
        Ok(VectorBuf {
            ints: vec![in alloc; 0; n]?,
            texts: vec![in alloc; blank; n]?,
            nulls: vec![in alloc; false; n]?,
            len: 0,
            col_type: ColType::Int,
        })
    }

    /// The type of the values, that of the column which filled it last.
    pub fn col_type(&self) -> ColType
        ensures { result ≡ self.now.col_type }
    {
        self.col_type
    }

    /// How many values were read.
    pub fn len(&self) -> usize
        ensures { result ≡ length self.now.values }
    {
        self.len
    }

    /// Whether no values were read.
    pub fn is_empty(&self) -> bool
        ensures { result ≡ (length self.now.values == 0) }
    {
        self.len == 0
    }

    /// Value `i`.
    pub fn get(&self, i: usize) -> ValueRef<'a>
        requires { i < length self.now.values }
        ensures { value_in result ≡ slice_index_or self.now.values i Null }
    {
        if self.nulls.as_slice()[i] {
            return ValueRef::Null;
        }
        match self.col_type {
            ColType::Int => ValueRef::Int(integer_at(self.ints.as_slice(), i)),
            ColType::Text => ValueRef::Text(self.texts.as_slice()[i]),
        }
    }

    /// Which values are NULL.
    pub fn nulls(&self) -> &[bool]
        ensures { result.now ≡ map is_null self.now.values }
    {
        &self.nulls.as_slice()[..self.len]
    }

    /// The integers, with 0 for NULL. None for texts.
    pub fn ints(&self) -> Option<&[i64]>
        ensures variant { IsSome result ↔ (self.now.col_type ≡ of_type.Int) }
        ensures value { IfSome result (λ ints. ints.now ≡ map number self.now.values) }
    {
        match self.col_type {
            ColType::Int => Some(&self.ints.as_slice()[..self.len]),
            ColType::Text => None,
        }
    }

    /// The bytes of the texts, with none for NULL. None for integers.
    pub fn texts(&self) -> Option<&[&'a [u8]]>
        ensures variant { IsSome result ↔ (self.now.col_type ≡ of_type.Text) }
        ensures value { IfSome result (λ texts. map (λ t. t.now) texts.now
            ≡ map bytes self.now.values) }
    {
        match self.col_type {
            ColType::Text => Some(&self.texts.as_slice()[..self.len]),
            ColType::Int => None,
        }
    }

    /// The values that were read, and which of them are NULL: these are 0 or the empty text.
    /// Nothing is copied.
    pub fn into_parts(self) -> (Lanes<'a>, Vec<bool>)
        ensures { AreParts result.0 result.1.items self.entry }
    {
        let VectorBuf {
            mut ints,
            mut texts,
            mut nulls,
            len,
            col_type,
        } = self;
        nulls.truncate(len);
        match col_type {
            ColType::Int => {
                ints.truncate(len);
                drop(texts);
                (Lanes::Ints(ints), nulls)
            }
            ColType::Text => {
                texts.truncate(len);
                drop(ints);
                (Lanes::Texts(texts), nulls)
            }
        }
    }
}
