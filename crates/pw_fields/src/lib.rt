//! Big-endian numbers at the start of a slice, and the bytes of numbers.
#![tactic(auto)]

ghost use Rattle.std.specs.Prelude.{◌≡◌, ◌<◌, ◌++◌, length, IfOk, OnErr};
ghost use Rattle.pw_fields.specs.Numbers.{number_bytes};

mod laws;

use byteorder::{BigEndian, ByteOrder};
pub use laws::numbers_are_read_again;
use std::marker::Model;

/// Fewer bytes remain than were asked for.
#[derive(Clone, Copy, Debug, PartialEq, Eq)]
pub struct Short;

/// The remaining bytes of a slice, read from its start. A call that finds fewer bytes than it needs takes none.
#[derive(Drop)]
pub struct Fields<'a> {
    rest: &'a [u8],
}

impl<'a> Model for Fields<'a> {
    ghost use Rattle.std.specs.Prelude.{List, ℕ};

    ghost Value = { List ℕ };

    ghost view = { λ f. f.rest.now };
}

impl<'a> Fields<'a> {
    /// Reads from the start of `bytes`.
    pub fn new(bytes: &'a [u8]) -> Fields<'a>
        ensures { result ≡ bytes.now }
    {
        Fields { rest: bytes }
    }

    /// The number of bytes that remain.
    pub fn left(&self) -> usize
        ensures { result ≡ length self.now }
    {
        self.rest.len()
    }

    /// The next `n` bytes; `Short` where fewer remain.
    pub fn take(&mut self, n: usize) -> Result<&'a [u8], Short>
        ensures ok { IfOk result (λ bytes. (length bytes.now ≡ n) × (self.old ≡ bytes.now ++ self.new)) }
        ensures short { OnErr result (length self.old < n) }
        ensures same { OnErr result (self.new ≡ self.old) }
    {
        if self.rest.len() < n {
            return Err(Short);
        }
        let (front, rest) = self.rest.split_at(n);
        self.rest = rest;
        Ok(front)
    }

    /// The next byte; `Short` where none remains.
    pub fn u8(&mut self) -> Result<u8, Short>
        ensures ok { IfOk result (λ n. self.old ≡ number_bytes 1 n ++ self.new) }
        ensures short { OnErr result (length self.old < 1) }
        ensures same { OnErr result (self.new ≡ self.old) }
    {
        let bytes = self.take(1)?;
        Ok(bytes[0])
    }

    /// The number whose two bytes come next, the most significant first; `Short` where fewer remain.
    pub fn u16(&mut self) -> Result<u16, Short>
        ensures ok { IfOk result (λ n. self.old ≡ number_bytes 2 n ++ self.new) }
        ensures short { OnErr result (length self.old < 2) }
        ensures same { OnErr result (self.new ≡ self.old) }
    {
        let bytes = self.take(2)?;
        Ok(u16::from_be_bytes([bytes[0], bytes[1]]))
    }

    /// The number whose four bytes come next, the most significant first; `Short` where fewer remain.
    pub fn u32(&mut self) -> Result<u32, Short>
        ensures ok { IfOk result (λ n. self.old ≡ number_bytes 4 n ++ self.new) }
        ensures short { OnErr result (length self.old < 4) }
        ensures same { OnErr result (self.new ≡ self.old) }
    {
        let bytes = self.take(4)?;
        Ok(u32::from_be_bytes([bytes[0], bytes[1], bytes[2], bytes[3]]))
    }

    /// The number whose eight bytes come next, the most significant first; `Short` where fewer remain.
    pub fn u64(&mut self) -> Result<u64, Short>
        ensures ok { IfOk result (λ n. self.old ≡ number_bytes 8 n ++ self.new) }
        ensures short { OnErr result (length self.old < 8) }
        ensures same { OnErr result (self.new ≡ self.old) }
    {
        let bytes = self.take(8)?;
        Ok(u64_of(bytes))
    }
}

/// The number of these eight bytes, the most significant first.
fn u64_of(bytes: &[u8]) -> u64
    requires { length bytes.now ≡ 8 }
    ensures { number_bytes 8 result ≡ bytes.now }
{
    u64::from_be_bytes([
        bytes[0], bytes[1], bytes[2], bytes[3], bytes[4], bytes[5], bytes[6], bytes[7],
    ])
}

/// The two bytes of a number, the most significant first.
pub fn be16(value: u16) -> [u8; 2]
    ensures { result ≡ number_bytes 2 value }
{
    let mut bytes = [0; 2];
    BigEndian::write_u16(&mut bytes, value);
    bytes
}

/// The four bytes of a number, the most significant first.
pub fn be32(value: u32) -> [u8; 4]
    ensures { result ≡ number_bytes 4 value }
{
    let mut bytes = [0; 4];
    BigEndian::write_u32(&mut bytes, value);
    bytes
}

/// The eight bytes of a number, the most significant first.
pub fn be64(value: u64) -> [u8; 8]
    ensures { result ≡ number_bytes 8 value }
{
    let mut bytes = [0; 8];
    BigEndian::write_u64(&mut bytes, value);
    bytes
}
