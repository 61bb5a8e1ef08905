// What the build does to the words of a lent area, one pass at a time. A record is 11 words: child
// for bit 0, child for bit 1, aggregate, eight vector words; child 0 is none. Records are named by number and not boxed: the words are
// lent, 01 fixes each of them, and there is no heap. Nothing here knows a rule table.
#![tactic(auto)]

ghost use Rattle.std.specs.Prelude.{◌≡◌, ◌+◌, ◌*◌, ◌≤◌, length, slice_range};
ghost use Rattle.area.specs.Shape.{blocks, record_words, vector_start};

mod grow;
mod hand;
mod sums;

pub use grow::{Growth, clear};
pub use hand::hand_on;
pub use sums::aggregate_all;

pub const AGGREGATE_START: usize = 2;

pub const VECTOR_START: usize = AGGREGATE_START + 1;

pub const BLOCKS: usize = 8;

pub const RECORD_WORDS: usize = VECTOR_START + BLOCKS;

// A record's vector.
pub fn vector(area: &[u32], k: usize) -> &[u32; BLOCKS]
    requires { record_words * k + record_words ≤ length area.now }
    ensures { result.now ≡ slice_range area.now (record_words * k + vector_start) (record_words * k + vector_start + blocks) }
{
    let start = RECORD_WORDS * k + VECTOR_START;
    area[start..start + BLOCKS].as_array().unwrap()
}
