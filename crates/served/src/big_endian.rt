// What requests and replies carry many of, each in so many bytes, the highest first. No trait of the library has both methods, so the
// three numbers have an `impl` each, alike.
ghost use Rattle.std.specs.Prelude.{◌<◌, ◌^◌};
ghost use Rattle.std.proofs.Common.{lit<};

use rules::HEADER_BYTES;

pub trait BigEndian<const BYTES: usize>: Copy {
    fn from_bytes(bytes: [u8; BYTES]) -> Self;

    fn to_bytes(self) -> [u8; BYTES];

    // At least one, and not more than memory has.
    ghost some: { 0 < BYTES };

    ghost few: { BYTES < 2 ^ 63 };
}

impl BigEndian<1> for u8 {
    ghost some = { lit< tt };

    ghost few = { lit< tt };

    fn from_bytes(bytes: [u8; 1]) -> u8 {
        u8::from_be_bytes(bytes)
    }

    fn to_bytes(self) -> [u8; 1] {
        self.to_be_bytes()
    }
}

// An entry of a list.
impl BigEndian<2> for u16 {
    ghost some = { lit< tt };

    ghost few = { lit< tt };

    fn from_bytes(bytes: [u8; 2]) -> u16 {
        u16::from_be_bytes(bytes)
    }

    fn to_bytes(self) -> [u8; 2] {
        self.to_be_bytes()
    }
}

// A word of an area.
impl BigEndian<4> for u32 {
    ghost some = { lit< tt };

    ghost few = { lit< tt };

    fn from_bytes(bytes: [u8; 4]) -> u32 {
        u32::from_be_bytes(bytes)
    }

    fn to_bytes(self) -> [u8; 4] {
        self.to_be_bytes()
    }
}

// A header, whose bytes stay as they are.
impl BigEndian<HEADER_BYTES> for [u8; HEADER_BYTES] {
    ghost some = { lit< tt };

    ghost few = { lit< tt };

    fn from_bytes(bytes: [u8; HEADER_BYTES]) -> [u8; HEADER_BYTES] {
        bytes
    }

    fn to_bytes(self) -> [u8; HEADER_BYTES] {
        self
    }
}
