// The five fields by number: how wide each is, and what a record or a header holds there.
ghost use Rattle.std.specs.Prelude.{◌≡◌, ◌^◌, ◌≤◌, ◌<◌, length};
ghost use Rattle.rules.specs.Field.{field_at, value_in, length_in};
ghost use Rattle.rules.specs.Header.{header_size};
ghost use Rattle.rules.specs.Table.{record_size};

use crate::FIELDS;

// Where a field stands: the first byte of its value in a record and a header alike, the value's bits, and the byte of a record that
// holds the length of its prefix.
#[derive(Clone, Copy)]
pub struct Field {
    pub start: usize,
    pub width: usize,
    pub length_at: usize,
}

const LAYOUT: [Field; FIELDS] = [
    Field {
        start: 0,
        width: 32,
        length_at: 13,
    },
    Field {
        start: 4,
        width: 32,
        length_at: 14,
    },
    Field {
        start: 8,
        width: 16,
        length_at: 15,
    },
    Field {
        start: 10,
        width: 16,
        length_at: 16,
    },
    Field {
        start: 12,
        width: 8,
        length_at: 17,
    },
];

// The bits of field f.
pub fn width_of(f: usize) -> usize
    requires { f < 5 }
    ensures { (result ≡ (field_at f).width) × (result ≤ 32) }
{
    LAYOUT[f].width
}

// Field f's value in a record or a header: both begin with the five values.
pub fn value_of(bytes: &[u8], f: usize) -> u32
    requires { (f < 5) × (header_size ≤ length bytes.now) }
    ensures { (result ≡ value_in bytes.now (field_at f)) × (result < 2 ^ (field_at f).width) }
{
    bits::number_at(bytes, LAYOUT[f].start, LAYOUT[f].width / 8)
}

// The length of field f's prefix in a record.
pub fn length_of(bytes: &[u8], f: usize) -> usize
    requires { (f < 5) × (record_size ≤ length bytes.now) }
    ensures { result ≡ length_in bytes.now (field_at f) }
{
    usize::from(bytes[LAYOUT[f].length_at])
}
