// A prefix of a value. One type serves the widths 8, 16 and 32 alike: a value of `width` bits stands in the low bits of
// a u32, and its prefix of `len` bits is the top ones of those. The width is a value and no const parameter, since it is looked up by
// a field's number; so two prefixes are asked to have the same.
ghost use Rattle.std.specs.Prelude.{◌≡◌, ◌+◌, ◌^◌, ◌≤◌, ◌<◌};
ghost use Rattle.std.specs.Int.Bits.{bit_xor};
ghost use Rattle.bits.specs.Path.{bits, prefix, leads, stray, cut, bit_of, common};

use crate::mask;

#[derive(Clone, Copy)]
pub struct Prefix {
    pub value: u32,
    pub len: usize,
    pub width: usize,
    ghost short: { len ≤ width },
    ghost narrow: { width ≤ 32 },
    ghost fits: { value < 2 ^ width },
}

impl Prefix {
    // A value of the same width, with the bits after the prefix's length cleared.
    pub fn cut(self, value: u32) -> u32
        requires { value < 2 ^ self.width }
        ensures { result ≡ cut self.width value self.len }
    {
        value & mask(32 - self.width + self.len)
    }

    // Whether it is a leading part of the other's value.
    pub fn leads(self, other: Prefix) -> bool
        requires { other.width ≡ self.width }
        ensures { result ≡ leads (prefix self.width self.value self.len) (bits other.width other.value) }
    {
        self.cut(self.value) == self.cut(other.value)
    }

    // Whether a bit after it is set.
    pub fn is_stray(self) -> bool
        ensures { result ≡ stray self.width self.value self.len }
    {
        self.cut(self.value) != self.value
    }

    // Bit j of the value, from the top of its width.
    pub fn bit(self, j: usize) -> usize
        requires { j < self.width }
        ensures { result ≡ bit_of self.width self.value j }
    {
        bit_of(self.value, self.width, j)
    }

    // The number of leading bits that the two values have in common: the leading zeros of the bits in which they differ, less
    // those that stand above the width.
    fn same_leading(self, other: Prefix) -> usize
        requires { other.width ≡ self.width }
        ensures { result ≡ common (bits self.width self.value) (bits self.width other.value) }
    {
        differing(self.value, other.value).leading_zeros() as usize - (32 - self.width)
    }

    // The length of the longest leading part that two prefixes have in common: never more than either length.
    #[tactic(auto, using(crate::proofs::CommonLaws::common_prefix))]
    pub fn common(self, other: Prefix) -> usize
        requires { other.width ≡ self.width }
        ensures { result ≡ common (prefix self.width self.value self.len) (prefix other.width other.value other.len) }
    {
        let shorter = self.len.min(other.len);
        self.same_leading(other).min(shorter)
    }
}

// Bit j of a value, from the top of a width; the value may have bits above it.
pub fn bit_of(value: u32, width: usize, j: usize) -> usize
    requires { (j < width) × (width ≤ 32) }
    ensures { result ≡ bit_of width value j }
{
    ((value >> (width - 1 - j)) % 2) as usize
}

// The word of bits in which two values differ. Their difference would not do: 8 less 7 is 1, and
// of four bits 8 and 7 have none in common.
fn differing(a: u32, b: u32) -> u32
    ensures { result ≡ bit_xor a b }
{
    a ^ b
}
