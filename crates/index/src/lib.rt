// The index over an accepted rule table: how many words it needs, and writing them.
#![tactic(auto)]

mod sizing;
mod writing;

pub use sizing::words_needed;
pub use writing::write;
