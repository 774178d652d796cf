//! Decoding unsigned integers from a slice.

ghost use Rattle.std.specs.Prelude.{◌≡◌, ◌<◌, ◌≤◌, length, IfErr, IfOk};
ghost use Rattle.sx_bytes.specs.Cursor.{left, raw_at, uint_at, Decodes};

use crate::fault::Short;
use byteorder::{BigEndian, ByteOrder};
use std::marker::Model;

/// A slice of bytes and a place in it, from which unsigned integers are decoded, the highest byte
/// first. Each call answers the exact bytes or integer at the place and moves after it, or answers
/// `Short`, exactly where too few bytes are left, and does not change. Contracts see the whole
/// slice and the place.
#[derive(Debug, Drop)]
pub struct Reader<'a> {
    bytes: &'a [u8],
    place: usize,
}

impl<'a> Model for Reader<'a> {
    ghost use Rattle.std.specs.Prelude.{◌≤◌, length};
    ghost use Rattle.sx_bytes.specs.Cursor.{Cursor};

    ghost Value = { Cursor };

    ghost view = { λ r. record { bytes = r.bytes.now; place = r.place } };

    ghost invariant = { λ r. r.place ≤ length r.bytes.now };
}

impl<'a> Reader<'a> {
    /// A reader at the first byte.
    pub fn new(bytes: &'a [u8]) -> Reader<'a>
        ensures { result ≡ record { bytes = bytes.now; place = 0 } }
    {
        Reader { bytes, place: 0 }
    }

    /// A reader at a place. `Short`, at the end of the bytes, where there are fewer than `place`.
    pub fn at(bytes: &'a [u8], place: usize) -> Result<Reader<'a>, Short>
        ensures reader { IfOk result (λ from. from ≡ record { bytes = bytes.now; place = place }) }
        ensures short { IfErr result (λ short. (short.at ≡ length bytes.now) × (length bytes.now < place)) }
    {
        if place > bytes.len() {
            return Err(Short { at: bytes.len() });
        }
        Ok(Reader { bytes, place })
    }

    /// All bytes, those before the place too.
    pub fn bytes(&self) -> &'a [u8]
        ensures { result.now ≡ self.now.bytes }
    {
        self.bytes
    }

    /// How many bytes are before the place.
    pub fn place(&self) -> usize
        ensures place { result ≡ self.now.place }
        ensures within { self.now.place ≤ length self.now.bytes }
    {
        self.place
    }

    /// How many bytes are left.
    pub fn left(&self) -> usize
        ensures { result ≡ left self.now }
    {
        self.bytes.len() - self.place
    }

    /// The next `n` bytes as they are.
    pub fn raw(&mut self, n: usize) -> Result<&'a [u8], Short>
        ensures exact { Decodes (λ bytes. bytes.now) (raw_at n self.old) self.old self.new result }
        ensures whole { IfOk result (λ bytes. length bytes.now ≡ n) }
    {
        if self.bytes.len() - self.place < n {
            return Err(Short {
                at: self.bytes.len(),
            });
        }
        let field = &self.bytes[self.place..self.place + n];
        self.place += n;
        Ok(field)
    }

    /// The unsigned integer of the next 8 bits.
    pub fn get_u8(&mut self) -> Result<u8, Short>
        ensures { Decodes (λ x. x) (uint_at 1 self.old) self.old self.new result }
    {
        let field = self.raw(1)?;
        Ok(field[0])
    }

    /// The unsigned integer of the next 16 bits.
    pub fn get_u16(&mut self) -> Result<u16, Short>
        ensures { Decodes (λ x. x) (uint_at 2 self.old) self.old self.new result }
    {
        let field = self.raw(2)?;
        Ok(BigEndian::read_u16(field))
    }

    /// The unsigned integer of the next 32 bits.
    pub fn get_u32(&mut self) -> Result<u32, Short>
        ensures { Decodes (λ x. x) (uint_at 4 self.old) self.old self.new result }
    {
        let field = self.raw(4)?;
        Ok(BigEndian::read_u32(field))
    }

    /// The unsigned integer of the next 64 bits.
    pub fn get_u64(&mut self) -> Result<u64, Short>
        ensures { Decodes (λ x. x) (uint_at 8 self.old) self.old self.new result }
    {
        let field = self.raw(8)?;
        Ok(BigEndian::read_u64(field))
    }

    /// The unsigned integer of the next 128 bits.
    pub fn get_u128(&mut self) -> Result<u128, Short>
        ensures { Decodes (λ x. x) (uint_at 16 self.old) self.old self.new result }
    {
        let field = self.raw(16)?;
        Ok(BigEndian::read_u128(field))
    }

    /// Goes back to an earlier place.
    pub fn back(&mut self, place: usize)
        requires { place ≤ self.old.place }
        ensures { self.new ≡ record self.old { place = place } }
    {
        self.place = place;
    }
}
