// Looking up a header over any area at all: walk in each field, gather the vectors, try the blocks,
// and say what was found. The area is trusted in nothing, and the table is read at the winner alone.
#![tactic(auto)]

mod gather;
mod scan;
mod steps;
mod walk;

pub use steps::look;

// 01: "A match carries its place and, inside it, the action", "an outcome enum whose match case holds a place and an action enum"; so it
// is no `Option`.
#[derive(Clone, Copy)]
pub enum Outcome {
    NoMatch,
    Match(usize, rules::Action),
}

// 01: "Beside the answer stands the number of false blocks."
#[derive(Clone, Copy)]
pub struct Answer {
    pub falses: usize,
    pub outcome: Outcome,
}
