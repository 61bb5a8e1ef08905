// Why no further request is served.
use std::io;

#[derive(Drop)]
pub enum Stop {
    // Op 0, or one that the protocol does not have; a request that is cut off, or that a buffer does not hold.
    End,
    Failure(io::Error),
}

impl From<io::Error> for Stop {
    fn from(error: io::Error) -> Stop {
        Stop::Failure(error)
    }
}
