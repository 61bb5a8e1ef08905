// What several programs print, and how they read the clock.
#![tactic(auto)]

mod printing;
mod time;

pub use printing::Refused;
pub use time::{clock, since, timed};
