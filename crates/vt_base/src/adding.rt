//! Additions to a `Bytes` that make their own room: bytes, decimal numbers, hexadecimal bytes.
ghost use Rattle.std.specs.Prelude.{decimal};
ghost use Rattle.std.specs.List.{flat_map};
ghost use Rattle.vt_base.specs.Bytes.{Adds};
ghost use Rattle.vt_base.specs.Digits.{hex_byte};

use crate::{Bytes, NoMemory, hex_digit};
use itoa::Buffer;
use std::alloc::Global;

impl Bytes {
    /// Adds bytes at the end, and makes room for them.
    pub fn add(&mut self, alloc: Global, b: &[u8]) -> Result<(), NoMemory>
        ensures { Adds b.now self.old self.new result }
    {
        self.grow(alloc, b.len())?;
        self.append(b);
        Ok(())
    }

    /// Adds a number in decimal.
    pub fn add_decimal(&mut self, alloc: Global, n: u64) -> Result<(), NoMemory>
        ensures { Adds (decimal n) self.old self.new result }
    {
        let mut buffer = Buffer::new();
        self.add(alloc, buffer.format(n).as_bytes())
    }

    /// Adds bytes in hexadecimal: two digits for each, in lower case.
    pub fn add_hex(&mut self, alloc: Global, b: &[u8]) -> Result<(), NoMemory>
        ensures { Adds (flat_map hex_byte b.now) self.old self.new result }
    {
        self.grow(alloc, 2 * b.len())?;
        for byte in b {
            self.push(hex_digit(byte >> 4));
            self.push(hex_digit(byte & 0xF));
        }
        Ok(())
    }
}
