// Numbers and words: big-endian reads, the table of masks, and what two prefixes have in common.
#![tactic(auto)]

mod masks;
mod numbers;
mod prefixes;

pub use masks::mask;
pub use numbers::number_at;
pub use prefixes::{Prefix, bit_of};
