// The rule tables, orders and areas that several programs run the desk on.
#![tactic(auto)]

mod areas;
mod orders;
mod patterns;
mod records;
mod six;

pub use areas::{AREA_WORDS, large_area};
pub use orders::reverse;
pub use patterns::{Pattern, TABLE_BYTES, fill};
pub use six::{SIX_BYTES, six_rules};
