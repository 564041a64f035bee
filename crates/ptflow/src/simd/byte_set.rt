//! Sets of bytes that test 16 bytes at once: the trait `ByteTest`, the set of one byte, and sets of any bytes as two
//! bit tables. `filter` and `tr` use them. Also look-ups in a table of 16 by the nibbles of bytes, of which `table`
//! uses one.

ghost use Rattle.std.specs.Prelude.{◌≡◌, ◌/◌, ◌%◌, ℕ, Bool, map, slice_index};
ghost use Rattle.memchr.specs.Find.{is_byte};
ghost use Rattle.ptflow.specs.Private.Vectors.ByteSets.{IsSetOf, mask_of, set_has};

use std::simd::Mask;
use std::simd::prelude::*;

// The bit of each high nibble.
const BITS: [u8; 16] = [1, 2, 4, 8, 16, 32, 64, 128, 1, 2, 4, 8, 16, 32, 64, 128];

// The entries of a table of 16, indexed by the low nibbles of the bytes.
#[inline(always)]
pub(crate) fn by_low_nibble(table: u8x16, v: u8x16) -> u8x16
    ensures { result ≡ map (λ b. slice_index table (b % 16)) v }
{
    table.swizzle_dyn(v & u8x16::splat(15))
}

// The entries of a table of 16, indexed by the high nibbles of the bytes.
#[inline(always)]
pub(crate) fn by_high_nibble(table: u8x16, v: u8x16) -> u8x16
    ensures { result ≡ map (λ b. slice_index table (b / 16)) v }
{
    table.swizzle_dyn(v >> u8x16::splat(4))
}

/// A set of bytes that tests 16 bytes at once.
pub(crate) trait ByteTest: Copy {
    ghost has: { Self → ℕ → Bool };

    /// Checks whether a byte is in the set.
    fn contains(self, byte: u8) -> bool
        ensures { result ≡ has self byte };

    /// The lane mask of the bytes that are in the set.
    fn test(self, v: u8x16) -> Mask<i8, 16>
        ensures { result ≡ mask_of (has self) v };
}

/// The set of one byte.
#[derive(Clone, Copy)]
pub(crate) struct OneByte {
    pub byte: u8,
}

impl ByteTest for OneByte {
    ghost has = { λ one. is_byte one.byte };

    #[inline(always)]
    fn contains(self, byte: u8) -> bool {
        byte == self.byte
    }

    #[inline(always)]
    fn test(self, v: u8x16) -> Mask<i8, 16> {
        v.simd_eq(u8x16::splat(self.byte))
    }
}

// A set of bytes as two bit tables: `low` for the bytes below 128, and `high` for the others. The low nibble of a byte
// selects the entry, and the high nibble the bit, which is set if the byte is in the set.
#[derive(Clone, Copy)]
pub(crate) struct ByteSet {
    pub low: u8x16,
    pub high: u8x16,
}

impl ByteSet {
    // The set of the bytes whose flag is set.
    pub(crate) fn of(flags: &[bool; 256]) -> ByteSet
        ensures { IsSetOf result flags.now }
    {
        let mut low = [0; 16];
        let mut high = [0; 16];
        for byte in 0..128 {
            low[byte % 16] |= u8::from(flags[byte]) << (byte / 16);
            high[byte % 16] |= u8::from(flags[128 + byte]) << (byte / 16);
        }
        let (low, high) = (u8x16::from_array(low), u8x16::from_array(high));
        ByteSet { low, high }
    }
}

impl ByteTest for ByteSet {
    ghost has = { set_has };

    #[inline(always)]
    fn contains(self, byte: u8) -> bool {
        let table = if byte < 128 { self.low } else { self.high };
        table[usize::from(byte % 16)] >> (byte / 16 % 8) & 1 == 1
    }

    #[inline(always)]
    fn test(self, v: u8x16) -> Mask<i8, 16> {
        let is_low = v.simd_lt(u8x16::splat(128));
        let row = is_low.select(by_low_nibble(self.low, v), by_low_nibble(self.high, v));
        let bit = by_high_nibble(u8x16::from_array(BITS), v);
        (row & bit).simd_eq(bit)
    }
}
