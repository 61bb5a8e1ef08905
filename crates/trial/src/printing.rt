// Refusals, as several programs print them.
use rules::Refusal;
use std::fmt;

// The refusal's number, and its place if it has one.
#[derive(Clone, Copy)]
pub struct Refused(pub Refusal);

impl fmt::Display for Refused {
    fn fmt<W: fmt::Write>(&self, f: &mut fmt::Formatter<W>) -> fmt::Result {
        let number = self.0.number();
        match self.0.place() {
            Some(place) => write!(f, "refused {number} at {place}"),
            None => write!(f, "refused {number}"),
        }
    }
}
