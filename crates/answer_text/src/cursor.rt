//! Fields from the front of bytes, each with the place at which it stands.
ghost use Rattle.std.specs.Prelude.{◌≡◌, IfErr, OnOk, length};
ghost use Rattle.wire.specs.Reading.{bytes_at, i64_at, i128_at, number_at};
ghost use Rattle.answer_fields.specs.Fault.{fault_of as of_wire, from_wire};
ghost use Rattle.answer_text.specs.Reading.{GoesOn, IsDamage, IsPlaced, IsSamePart, IsSealPlaced, Takes, fault_in, fault_of, offset, place, seal_at, text_of_bytes};

use crate::damage::{Damage, Stop, Wrong, wrong_of};
use wire::{
    SEAL_BYTES, WireFault, check_seal, take_bytes, take_i64, take_i128, take_u8, take_u16,
    take_u32, take_u64,
};

const SEAL: &str = "the seal";

/// The bytes of a file or of a part of it, and those that weren't read yet.
#[derive(Clone, Copy)]
pub struct Cursor<'a> {
    /// Where the part begins in the file.
    first: usize,
    bytes: &'a [u8],
    rest: &'a [u8],
    /// How many bytes stand before the field that was read last.
    last: usize,
}

impl<'a> Cursor<'a> {
    /// A file's bytes, or those of a part that begins at this byte of it.
    pub fn new(first: usize, bytes: &'a [u8]) -> Cursor<'a>
        ensures first { result.first ≡ first }
        ensures bytes { result.bytes.now ≡ bytes.now }
        ensures rest { result.rest.now ≡ bytes.now }
    {
        Cursor {
            first,
            bytes,
            rest: bytes,
            last: 0,
        }
    }

    fn before(&self) -> usize
        ensures { result ≡ offset self.now }
    {
        self.bytes.len().saturating_sub(self.rest.len())
    }

    /// Where the next field begins in the file.
    pub fn at(&self) -> usize
        ensures { result ≡ place self.now (offset self.now) }
    {
        self.first.saturating_add(self.before())
    }

    /// How many bytes are left.
    pub fn left(&self) -> usize
        ensures { result ≡ length self.now.rest.now }
    {
        self.rest.len()
    }

    /// That the field which was read last is wrong.
    pub fn refuse(&self, wrong: Wrong, field: &'static str) -> Stop
        ensures damage { IsDamage wrong (place self.now self.now.last) field.now result }
        ensures fault { fault_in result ≡ fault_of wrong }
    {
        Stop::Damaged(Damage {
            wrong,
            at: self.first.saturating_add(self.last),
            field,
        })
    }

    /// Goes on behind a field that was taken from the front of what is left.
    fn go_on<T: Drop>(
        &mut self,
        taken: Result<(T, &'a [u8]), WireFault>,
        field: &'static str,
    ) -> Result<T, Stop>
        ensures went { GoesOn taken.entry result self.new.rest.now }
        ensures part { IsSamePart self.old self.new }
        ensures last { self.new.last ≡ offset self.old }
        ensures placed { IfErr result (IsPlaced (place self.old (offset self.old)) field.now) }
    {
        self.last = self.before();
        match taken {
            Ok((part, rest)) => {
                self.rest = rest;
                Ok(part)
            }
            Err(fault) => Err(self.refuse(wrong_of(fault), field)),
        }
    }

    pub fn take_u8(&mut self, field: &'static str) -> Result<u8, Stop>
        ensures read { Takes (λ n. n) result self.new.rest.now
            (from_wire (number_at 1 self.old.rest.now)) }
        ensures part { IsSamePart self.old self.new }
        ensures last { self.new.last ≡ offset self.old }
        ensures placed { IfErr result (IsPlaced (place self.old (offset self.old)) field.now) }
    {
        self.go_on(take_u8(self.rest), field)
    }

    pub fn take_u16(&mut self, field: &'static str) -> Result<u16, Stop>
        ensures read { Takes (λ n. n) result self.new.rest.now
            (from_wire (number_at 2 self.old.rest.now)) }
        ensures part { IsSamePart self.old self.new }
        ensures last { self.new.last ≡ offset self.old }
        ensures placed { IfErr result (IsPlaced (place self.old (offset self.old)) field.now) }
    {
        self.go_on(take_u16(self.rest), field)
    }

    pub fn take_u32(&mut self, field: &'static str) -> Result<u32, Stop>
        ensures read { Takes (λ n. n) result self.new.rest.now
            (from_wire (number_at 4 self.old.rest.now)) }
        ensures part { IsSamePart self.old self.new }
        ensures last { self.new.last ≡ offset self.old }
        ensures placed { IfErr result (IsPlaced (place self.old (offset self.old)) field.now) }
    {
        self.go_on(take_u32(self.rest), field)
    }

    pub fn take_u64(&mut self, field: &'static str) -> Result<u64, Stop>
        ensures read { Takes (λ n. n) result self.new.rest.now
            (from_wire (number_at 8 self.old.rest.now)) }
        ensures part { IsSamePart self.old self.new }
        ensures last { self.new.last ≡ offset self.old }
        ensures placed { IfErr result (IsPlaced (place self.old (offset self.old)) field.now) }
    {
        self.go_on(take_u64(self.rest), field)
    }

    pub fn take_i64(&mut self, field: &'static str) -> Result<i64, Stop>
        ensures read { Takes (λ z. z) result self.new.rest.now
            (from_wire (i64_at self.old.rest.now)) }
        ensures part { IsSamePart self.old self.new }
        ensures last { self.new.last ≡ offset self.old }
        ensures placed { IfErr result (IsPlaced (place self.old (offset self.old)) field.now) }
    {
        self.go_on(take_i64(self.rest), field)
    }

    pub fn take_i128(&mut self, field: &'static str) -> Result<i128, Stop>
        ensures read { Takes (λ z. z) result self.new.rest.now
            (from_wire (i128_at self.old.rest.now)) }
        ensures part { IsSamePart self.old self.new }
        ensures last { self.new.last ≡ offset self.old }
        ensures placed { IfErr result (IsPlaced (place self.old (offset self.old)) field.now) }
    {
        self.go_on(take_i128(self.rest), field)
    }

    pub fn take_bytes(&mut self, count: usize, field: &'static str) -> Result<&'a [u8], Stop>
        ensures read { Takes (λ b. b.now) result self.new.rest.now
            (from_wire (bytes_at count self.old.rest.now)) }
        ensures part { IsSamePart self.old self.new }
        ensures last { self.new.last ≡ offset self.old }
        ensures placed { IfErr result (IsPlaced (place self.old (offset self.old)) field.now) }
    {
        self.go_on(take_bytes(self.rest, count), field)
    }

    /// A text of so many bytes.
    pub fn take_text(&mut self, count: usize, field: &'static str) -> Result<&'a str, Stop>
        ensures read { Takes (λ t. t.now) result self.new.rest.now
            (from_wire (text_of_bytes count self.old.rest.now)) }
        ensures part { IsSamePart self.old self.new }
        ensures last { self.new.last ≡ offset self.old }
        ensures placed { IfErr result (IsPlaced (place self.old (offset self.old)) field.now) }
    {
        let bytes = self.take_bytes(count, field)?;
        match std::str::from_utf8(bytes) {
            Ok(text) => Ok(text),
            Err(_) => Err(self.refuse(Wrong::Unknown, field)),
        }
    }

    /// That what the seal says is wrong: bytes behind it, or the seal itself.
    fn refuse_seal(&mut self, fault: WireFault) -> Stop
        ensures fault { fault_in result ≡ of_wire fault }
        ensures part { IsSamePart self.old self.new }
        ensures rest { self.new.rest.now ≡ self.old.rest.now }
        ensures placed { IsSealPlaced (place self.old self.old.last)
            (place self.old (offset self.old)) result }
    {
        match fault {
            WireFault::TrailingBytes => {
                self.last = self.before();
                self.refuse(Wrong::BytesBehind, "the end")
            }
            fault => self.refuse(wrong_of(fault), SEAL),
        }
    }

    /// The seal of all bytes before it, behind which none may stand.
    pub fn take_seal(&mut self) -> Result<(), Stop>
        ensures read { Takes (λ u. u) result self.new.rest.now
            (seal_at self.old.bytes.now self.old.rest.now) }
        ensures part { IsSamePart self.old self.new }
        ensures last { OnOk result (self.new.last ≡ offset self.old) }
        ensures placed { IfErr result
            (IsSealPlaced (place self.old (offset self.old)) (place self.old (offset self.new))) }
    {
        let seal = self.take_bytes(SEAL_BYTES, SEAL)?;
        match check_seal(self.bytes, seal, self.rest) {
            Ok(_) => Ok(()),
            Err(fault) => Err(self.refuse_seal(fault)),
        }
    }
}
