// Two rules against each other, no index: pairs that share a header, proposed orders, and the judgement of a move.
#![tactic(auto)]

mod compare;
mod judge;
mod moves;
mod orders;
mod pairs;

pub use compare::{covers, lowest_shared, same_action, shares};
pub use judge::first_crossing;
pub use moves::write_moved;
pub use orders::check_order;
pub use pairs::{count_pairs, write_pairs};
