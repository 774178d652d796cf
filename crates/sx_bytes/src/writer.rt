//! Encoding unsigned integers.

ghost use Rattle.std.specs.Prelude.{◌≡◌, ℕ, ◌≤◌, List, [], ◌++◌, length, take, OnOk, OnErr};
ghost use Rattle.byteorder.specs.Endian.{big_bytes};

use crate::memory::NoMemory;
use byteorder::{BigEndian, ByteOrder};
use std::alloc::Global;
use std::marker::Model;

/// Bytes that are written one field after the other. Each call appends exactly the encoding of its
/// field, or answers `NoMemory` and changes nothing. Contracts see the bytes written so far.
#[derive(Debug, Drop)]
pub struct Writer {
    written: Vec<u8>,
}

impl Model for Writer {
    ghost Value = { List ℕ };

    ghost view = { λ w. w.written.items };
}

impl Writer {
    /// A writer of nothing so far. It takes memory only as it is written to.
    pub fn new(alloc: Global) -> Writer
        ensures { result ≡ [] }
    {
        Writer {
            written: Vec::new(alloc),
        }
    }

    /// A writer of nothing so far, in the memory of bytes that are no longer needed.
    pub fn over(bytes: Vec<u8>) -> Writer
        ensures { result ≡ [] }
    {
        let mut written = bytes;
        written.clear();
        Writer { written }
    }

    /// Takes the memory for so many bytes more at once, if it is not there yet. What was written stays as it is.
    pub fn reserve(&mut self, more: usize) -> Result<(), NoMemory>
        ensures { self.new ≡ self.old }
    {
        self.written.reserve_exact(more)?;
        Ok(())
    }

    /// How many bytes there is memory for, those written so far included.
    pub fn capacity(&self) -> usize
        ensures { length self.now ≤ result }
    {
        self.written.capacity()
    }

    /// Appends bytes as they are.
    pub fn raw(&mut self, bytes: &[u8]) -> Result<(), NoMemory>
        ensures ok { OnOk result (self.new ≡ self.old ++ bytes.now) }
        ensures err { OnErr result (self.new ≡ self.old) }
    {
        self.written.extend_from_slice(bytes)?;
        Ok(())
    }

    /// Appends an unsigned integer in one byte.
    pub fn put_u8(&mut self, value: u8) -> Result<(), NoMemory>
        ensures ok { OnOk result (self.new ≡ self.old ++ big_bytes 1 value) }
        ensures err { OnErr result (self.new ≡ self.old) }
    {
        self.raw(&[value])
    }

    /// Appends an unsigned integer in 2 bytes, the highest first.
    pub fn put_u16(&mut self, value: u16) -> Result<(), NoMemory>
        ensures ok { OnOk result (self.new ≡ self.old ++ big_bytes 2 value) }
        ensures err { OnErr result (self.new ≡ self.old) }
    {
        let mut field = [0; 2];
        BigEndian::write_u16(&mut field, value);
        self.raw(&field)
    }

    /// Appends an unsigned integer in 4 bytes, the highest first.
    pub fn put_u32(&mut self, value: u32) -> Result<(), NoMemory>
        ensures ok { OnOk result (self.new ≡ self.old ++ big_bytes 4 value) }
        ensures err { OnErr result (self.new ≡ self.old) }
    {
        let mut field = [0; 4];
        BigEndian::write_u32(&mut field, value);
        self.raw(&field)
    }

    /// Appends an unsigned integer in 8 bytes, the highest first.
    pub fn put_u64(&mut self, value: u64) -> Result<(), NoMemory>
        ensures ok { OnOk result (self.new ≡ self.old ++ big_bytes 8 value) }
        ensures err { OnErr result (self.new ≡ self.old) }
    {
        let mut field = [0; 8];
        BigEndian::write_u64(&mut field, value);
        self.raw(&field)
    }

    /// Appends an unsigned integer in 16 bytes, the highest first.
    pub fn put_u128(&mut self, value: u128) -> Result<(), NoMemory>
        ensures ok { OnOk result (self.new ≡ self.old ++ big_bytes 16 value) }
        ensures err { OnErr result (self.new ≡ self.old) }
    {
        let mut field = [0; 16];
        BigEndian::write_u128(&mut field, value);
        self.raw(&field)
    }

    /// The bytes written so far.
    pub fn bytes(&self) -> &[u8]
        ensures { result.now ≡ self.now }
    {
        &self.written
    }

    /// Keeps the first `len` bytes.
    pub fn cut(&mut self, len: usize)
        requires { len ≤ length self.old }
        ensures { self.new ≡ take len self.old }
    {
        self.written.truncate(len);
    }
}
